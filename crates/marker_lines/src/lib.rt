//! The lines of the program `markers`: their commands, and the lines that a session replies.
#![tactic(auto)]

mod key;
mod line;
mod line_session;
mod reply;
mod word;

pub use line_session::{LineSession, serve};
