//! Answers about markers: what one is where parts of an environment are known, and what is left of
//! one in a range of Python versions.
//!
//! Calls that allocate return `OutOfMemory`, `AllocError` or a `Shortage` when memory runs out or
//! the interner has no room. What the markers of the interner mean stays, even then.
#![tactic(auto)]

mod evaluating;
mod facts;
mod known;
mod simplifying;

pub use crate::evaluating::{Evaluation, evaluate, settle};
pub use crate::facts::facts_of;
pub use crate::known::KnownValues;
pub use crate::simplifying::{Granted, MarkerAnswer, Shortage, simplify};
