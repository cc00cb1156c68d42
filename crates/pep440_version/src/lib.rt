//! Versions and the patterns of version specifiers (PEP 440): parsing, order and normal form.
//!
//! Calls that allocate return `AllocError` or `OutOfMemory` when memory runs out. No call returns
//! `SegmentAtEnd`. Comparing and hashing allocate nothing.
#![tactic(auto)]

mod display;
mod error;
mod fault;
pub mod laws;
mod local;
mod order;
mod parse;
mod pattern;
mod read;
mod serialization;
mod slot;
mod version;

pub use crate::error::{Expected, VersionParseError};
pub use crate::pattern::VersionPattern;
pub use crate::version::{LocalSegment, Prerelease, PrereleaseKind, Version};
pub use refusal::Refusal;
