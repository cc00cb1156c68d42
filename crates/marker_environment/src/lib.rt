//! Environments: the values of the keys of markers (PEP 508, "Environment Markers").
//!
//! A [`MarkerEnvironment`] has a text or a version for each modern key. A valuation is what a
//! marker reads of it.
//!
//! Calls that allocate return `AllocError` or `OutOfMemory` when memory runs out. No call returns
//! `SegmentAtEnd`.
#![tactic(auto)]

mod builder;
mod environment;
pub mod laws;
mod string_version;
mod substring;

pub use crate::builder::MarkerEnvironmentBuilder;
pub use crate::environment::MarkerEnvironment;
pub use crate::string_version::StringVersion;
pub use crate::substring::is_part_of;
pub use pep440_version::{Version, VersionParseError};
pub use refusal::Refusal;
