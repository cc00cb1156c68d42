//! Ids of comparisons and of sets of values, and ids simplified, given a range of Python versions
//! or active extras.
//!
//! Calls that allocate return `AllocError` or `OutOfMemory` when memory runs out. Even then every
//! id of the table keeps its meaning.
#![tactic(auto)]

mod expressions;
mod extras;
mod python;
mod questions;
mod value_set;

pub use expressions::{InvalidExpression, expression};
pub use extras::grant_extras;
pub use python::{assume_python_range, is_unbounded, python_range};
pub use questions::{asks, asks_text, asks_version};
pub use value_set::{TrimmedRanges, ValueSet};
