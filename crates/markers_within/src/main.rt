//! The program `markers_within`: `markers` with limited room for nodes, or, as
//! `markers_within apart`, the order of markers that have an interner each.
//!
//! Its argument is how many pieces the nodes may have together, or the word `apart`. It hashes by
//! the fixed key, so every run does the same.
#![tactic(auto)]

mod apart;

use line_server::{Input, Output, ServeFault};
use std::process::ExitCode;
use std::{env, io};

fn main(rt: HostRuntime) -> ExitCode {
    match run(&rt) {
        Ok(()) => ExitCode::SUCCESS,
        Err(ServeFault::Usage) => {
            let _told = eprintln!(rt; "usage: markers_within PIECES|apart");
            ExitCode::from(ServeFault::Usage.status())
        }
        Err(fault) => {
            // If standard error fails too, only the status remains.
            let _told = eprintln!(rt; "{fault}");
            ExitCode::from(fault.status())
        }
    }
}

// Answers the lines of standard input.
fn run(rt: &HostRuntime) -> Result<(), ServeFault> {
    let argument = argument(rt)?;
    match argument.as_str() {
        "apart" => apart::serve(rt),
        pieces => serve_within(rt, pieces),
    }
}

// Answers each line of `markers`, with room for so many pieces.
fn serve_within(rt: &HostRuntime, pieces: &str) -> Result<(), ServeFault> {
    let pieces = pieces.parse::<usize>().map_err(|_| ServeFault::Usage)?;
    let mut reader = Input::new(rt.stdin());
    let mut writer = Output::new(rt.stdout());
    marker_lines::serve(rt.alloc(), [0, 0], pieces, &mut reader, &mut writer)
}

// The only argument.
fn argument(rt: &HostRuntime) -> Result<String, ServeFault> {
    let mut arguments = match env::args(rt) {
        Ok(arguments) => arguments,
        Err(error) if error.kind() == io::ErrorKind::OutOfMemory => {
            return Err(ServeFault::Memory);
        }
        Err(_) => return Err(ServeFault::Usage),
    };
    if arguments.len() != 2 {
        return Err(ServeFault::Usage);
    }
    arguments.nth(1).ok_or(ServeFault::Usage)
}
