//! Why a command ends early.

use std::alloc::{AllocError, AllocFailed};
use std::io;

/// Why a command ends before it is done.
#[derive(Drop)]
pub enum Failure {
    /// Memory ran out.
    OutOfMemory,
    /// Standard output or standard error failed.
    Write(io::Error),
}

impl From<AllocError> for Failure {
    fn from(_error: AllocError) -> Failure {
        Failure::OutOfMemory
    }
}

impl<T: Drop> From<AllocFailed<T>> for Failure {
    fn from(_error: AllocFailed<T>) -> Failure {
        Failure::OutOfMemory
    }
}

impl From<io::Error> for Failure {
    fn from(error: io::Error) -> Failure {
        match error.kind() {
            io::ErrorKind::OutOfMemory => Failure::OutOfMemory,
            _ => Failure::Write(error),
        }
    }
}
