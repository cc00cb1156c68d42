//! `Refusal`, the error type of all crates of this repository.
#![tactic(auto)]

ghost use Rattle.std.specs.Prelude.{◌≡◌, ◌≢◌, IfErr, IfNone, IfOk, IfSome, OnErr};
ghost use Rattle.refusal.specs.declared.Refusal.TheVariants.{OutOfMemory, SegmentAtEnd, Fault};

use std::alloc::{AllocError, AllocFailed};
use std::fmt::{Debug, Display};
use thiserror::Error;

/// Why a call was refused. Each call documents when it returns which refusal, and in what state it
/// leaves its arguments.
#[derive(Clone, Copy, Debug, Drop, PartialEq, Eq, Error)]
#[error_bound(E: Display)]
pub enum Refusal<E> {
    /// Memory ran out.
    #[error("Out of memory")]
    OutOfMemory,

    /// A bound of a set of versions would be above 18446744073709551615, the largest number of a
    /// version.
    #[error("18446744073709551615 is the largest number of a version, and cannot be raised")]
    SegmentAtEnd,

    /// The input is invalid.
    #[error("{0}")]
    Fault(E),
}

impl<E> From<AllocError> for Refusal<E> {
    ghost from_gives = { λ _ refusal. refusal ≡ OutOfMemory };

    fn from(_error: AllocError) -> Refusal<E> {
        Refusal::OutOfMemory
    }
}

impl<T: Drop, E> From<AllocFailed<T>> for Refusal<E> {
    ghost from_gives = { λ _ refusal. refusal ≡ OutOfMemory };

    fn from(_failed: AllocFailed<T>) -> Refusal<E> {
        Refusal::OutOfMemory
    }
}

/// Returns the value of a parser, or `None` if its input is invalid. For parsers that never return
/// `SegmentAtEnd`, so that every other refusal is an allocation failure.
pub fn unless_fault<T, E: Drop>(answer: Result<T, Refusal<E>>) -> Result<Option<T>, AllocError>
    requires { IfErr answer (λ refusal. refusal ≢ SegmentAtEnd) }
    ensures read { IfOk result (λ read. IfSome read (λ value. answer ≡ Ok value)) }
    ensures fault { IfOk result (λ read. IfNone read ((fault : E) × (answer ≡ Err (Fault fault)))) }
    ensures memory { OnErr result (answer ≡ Err OutOfMemory) }
{
    match answer {
        Ok(value) => Ok(Some(value)),
        Err(Refusal::Fault(_)) => Ok(None),
        Err(Refusal::OutOfMemory | Refusal::SegmentAtEnd) => Err(AllocError),
    }
}
