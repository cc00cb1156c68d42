//! The program `markers`: a reply line on standard output for each line of standard input.
#![tactic(auto)]

use line_server::{Input, Output, ServeFault};
use marker_lines::serve;
use std::process::ExitCode;
use std::random::RandomSource;
use std::{env, io};

fn main(rt: HostRuntime) -> ExitCode {
    match run(&rt) {
        Ok(()) => ExitCode::SUCCESS,
        Err(fault) => {
            // If standard error fails too, only the status remains.
            let _told = eprintln!(rt; "{fault}");
            ExitCode::from(fault.status())
        }
    }
}

// Answers each line of standard input. The program takes no arguments.
fn run(rt: &HostRuntime) -> Result<(), ServeFault> {
    match env::args(rt) {
        Ok(arguments) if arguments.len() <= 1 => {}
        Err(error) if error.kind() == io::ErrorKind::OutOfMemory => {
            return Err(ServeFault::Memory);
        }
        // An argument that is not UTF-8 is an argument too.
        Ok(_) | Err(_) => return Err(ServeFault::Usage),
    }
    let key = [random_word(rt)?, random_word(rt)?];
    let mut reader = Input::new(rt.stdin());
    let mut writer = Output::new(rt.stdout());
    serve(rt.alloc(), key, usize::MAX, &mut reader, &mut writer)
}

// A secret random word. If the system has none, the input counts as failed.
fn random_word(rt: &HostRuntime) -> Result<u64, ServeFault> {
    let mut bytes = [0; 8];
    match rt.fill_bytes(&mut bytes) {
        Ok(()) => Ok(u64::from_le_bytes(bytes)),
        Err(_) => Err(ServeFault::Input),
    }
}
