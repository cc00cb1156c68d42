//! Findings in a `pyproject.toml`: in the string of each entry, the faults of the entries, and
//! where in the text each of them is.
//!
//! Calls that allocate return `AllocError` or `OutOfMemory` when memory runs out.
#![tactic(auto)]

mod check;
mod faults;
mod parts;
mod places;
mod placing;
mod scanner;

pub use crate::check::{CheckedProject, check_project};
pub use crate::faults::fault_name;
pub use crate::parts::Part;
pub use crate::places::EntryPlace;
pub use crate::placing::{fault_finding, place_findings};
