//! The program `pep508`, for any machine and any disk: it runs the command of a command line, and
//! returns the status.
#![tactic(auto)]

mod running;

pub use crate::running::run_words;
