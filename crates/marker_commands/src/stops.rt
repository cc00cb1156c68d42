//! Why a command is not run.

ghost use Rattle.std.specs.Prelude.{◌≡◌, [], string_bytes};

use crate::outcome::{Outcome, Reply};
use pep508_program::visible;
use refusal::Refusal;
use std::alloc::{AllocError, AllocFailed, Global};
use std::fmt::Display;

/// Why a command is not run.
#[derive(Debug, Drop)]
pub enum Stop {
    OutOfMemory,
    /// An option has an invalid value. The message is for standard error.
    WrongUse(String),
}

impl From<AllocError> for Stop {
    fn from(_error: AllocError) -> Stop {
        Stop::OutOfMemory
    }
}

impl<T: Drop> From<AllocFailed<T>> for Stop {
    fn from(_error: AllocFailed<T>) -> Stop {
        Stop::OutOfMemory
    }
}

impl Stop {
    /// Returns what is written in place of an answer.
    pub fn reply(self, alloc: Global) -> Reply
        ensures { string_bytes result.output ≡ [] }
    {
        match self {
            Stop::WrongUse(message) => Reply::without_answer(alloc, Outcome::WrongUse, message),
            Stop::OutOfMemory => {
                Reply::without_answer(alloc, Outcome::OutOfMemory, String::new(alloc))
            }
        }
    }
}

/// Returns that the value of an option is invalid.
pub fn invalid_value(
    alloc: Global,
    option: &str,
    value: &str,
    reason: &str,
) -> Result<Stop, AllocError> {
    let value = visible(alloc, value)?;
    let reason = visible(alloc, reason)?;
    let message = format!(in alloc; "error: invalid value '{value}' for '{option}': {reason}\n")?;
    Ok(Stop::WrongUse(message))
}

/// Returns why the value of an option was refused.
pub fn refused_value<E: Display + Drop>(
    alloc: Global,
    option: &str,
    value: &str,
    refusal: Refusal<E>,
) -> Result<Stop, AllocError> {
    match refusal {
        Refusal::Fault(fault) => {
            let reason = format!(in alloc; "{fault}")?;
            invalid_value(alloc, option, value, reason.as_str())
        }
        Refusal::SegmentAtEnd => {
            let reason = "18446744073709551615 is the largest number of a version";
            invalid_value(alloc, option, value, reason)
        }
        Refusal::OutOfMemory => Ok(Stop::OutOfMemory),
    }
}
