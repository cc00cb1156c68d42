//! Names of packages and of extras (PEP 508) in the normal form of PEP 503.
//!
//! Calls that allocate return `AllocError` or `OutOfMemory` when memory runs out. No call returns
//! `SegmentAtEnd`.
#![tactic(auto)]

mod extra_name;
mod invalid_name;
pub mod laws;
mod normal;
mod package_name;

pub use extra_name::ExtraName;
pub use invalid_name::InvalidNameError;
pub use package_name::PackageName;
