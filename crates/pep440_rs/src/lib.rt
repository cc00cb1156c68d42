//! The part of PEP 440 that dependency specifiers need: versions, version specifiers, and the sets
//! of versions that match comparisons.
//!
//! ```
//! let specifier = VersionSpecifier::parse(alloc, "~= 2.8")?;
//! let versions = release_specifier_to_range(alloc, &specifier)?;
//! let version = Version::parse(alloc, "2.31.0")?;
//! let found = versions.contains(&version);
//! ```
//!
//! Calls that allocate return `AllocError` or `OutOfMemory` when memory runs out. Only the
//! functions that return a set of a specifier or of a list of `python_version` return
//! `SegmentAtEnd`.
#![tactic(auto)]

mod intervals;
pub mod laws;
mod lists;
mod python_version;

pub use intervals::release_specifier_to_range;
pub use lists::{python_version_list_to_range, version_list_to_range};
pub use pep440_specifier::{
    BoundSpecifiers, Operator, SpecifierFault, VersionSpecifier, VersionSpecifierError,
    VersionSpecifiers,
};
pub use pep440_version::{
    Expected, LocalSegment, Prerelease, PrereleaseKind, Refusal, Version, VersionParseError,
    VersionPattern,
};
pub use python_version::python_version_specifier_to_range;
pub use version_ranges::Ranges;
