//! Findings in the lines of requirements files, fields of metadata and values of projects, by name.
#![tactic(auto)]

mod file;
mod finding;
mod metadata;
mod name;

pub use crate::file::check_file;
pub use crate::finding::{CheckLines, CheckedLine, CheckedText, Finding, Listed, Origin};
pub use crate::metadata::{CheckedField, CheckedMetadata, check_metadata};
pub use crate::name::{FindingName, Severity, finding_name};
