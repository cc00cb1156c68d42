//! The program `pep508`: reports what is wrong with requirements files, lists what they require, in
//! general and in an environment, writes them in normal form, and answers questions about markers.
#![tactic(auto)]

mod machine;
mod storage;

use crate::machine::Machine;
use crate::storage::Storage;
use pep508_commands::run_words;
use pep508_program::{out_of_memory, wrong_use};
use std::process::ExitCode;
use std::random::RandomSource;
use std::{env, io};

fn main(rt: HostRuntime) -> ExitCode {
    let mut machine = Machine::new(&rt);
    ExitCode::from(run(&rt, &mut machine))
}

// The words of the command line after the name of the program, whatever its file is called.
fn words(rt: &HostRuntime) -> io::Result<Vec<String>> {
    let mut words = Vec::new(rt.alloc());
    words.push(String::from_str(rt.alloc(), "pep508")?)?;
    for word in env::args(rt)?.skip(1) {
        words.push(word)?;
    }
    Ok(words)
}

// A random word of the key of the tables of nodes, so that nobody can choose texts that collide in
// them. Zero if the system has none.
fn random_word(rt: &HostRuntime) -> u64 {
    let mut bytes = [0u8; 8];
    match rt.fill_bytes(&mut bytes) {
        Ok(()) => u64::from_le_bytes(bytes),
        Err(_) => 0,
    }
}

// Runs the program, and returns its status.
fn run(rt: &HostRuntime, machine: &mut Machine<'_>) -> u8 {
    match words(rt) {
        Ok(words) => {
            let key = [random_word(rt), random_word(rt)];
            let mut storage = Storage::new(rt);
            run_words(rt.alloc(), machine, &mut storage, key, words.as_slice())
        }
        Err(error) if error.kind() == io::ErrorKind::OutOfMemory => out_of_memory(machine),
        Err(_) => wrong_use(machine, "pep508: an argument is not UTF-8\n"),
    }
}
