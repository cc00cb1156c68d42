//! The requirements of a `pyproject.toml`: those of the project and its extras, of groups (PEP 735)
//! and of its build, and the versions of Python that it takes.
//!
//! Calls that allocate return `AllocError` or `OutOfMemory` when memory runs out. No call returns
//! `SegmentAtEnd`.
#![tactic(auto)]

mod endings;
mod entry;
mod expansion;
mod file;
mod groups;
mod includes;
mod judging;
mod key;
mod names;
mod tables;

pub use crate::entry::{Content, ProjectEntry, ProjectFaultKind};
pub use crate::expansion::{ExpansionFault, MOST_STEPS, MOST_STRINGS};
pub use crate::file::ProjectFile;
pub use crate::judging::ProjectFault;
pub use crate::key::{ProjectKey, Section};
