//! Version specifiers (PEP 440) such as `>=3.8`: operators, parsing, printing and order.
//!
//! Calls that allocate return `AllocError` or `OutOfMemory` when memory runs out. No call returns
//! `SegmentAtEnd`. Comparing and hashing allocate nothing.
#![tactic(auto)]

mod bounds;
mod display;
mod error;
pub mod laws;
mod operator;
mod order;
mod parse;
mod place;
mod specifier;
mod specifiers;

pub use crate::bounds::BoundSpecifiers;
pub use crate::error::{SpecifierFault, VersionSpecifierError};
pub use crate::operator::Operator;
pub use crate::specifier::VersionSpecifier;
pub use crate::specifiers::VersionSpecifiers;
pub use pep440_version::{Expected, Refusal, Version, VersionPattern};
