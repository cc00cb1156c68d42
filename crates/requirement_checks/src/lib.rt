//! Checks of requirements: the errors of each by the library's parsers, the faults of its options
//! in a requirements file, and hints.
#![tactic(auto)]

mod checker;
mod comparisons;
mod hints;
mod judging;
mod listing;
mod messages;
mod option_faults;
mod part;
mod reading;
mod repeated;
mod secrets;
mod specifiers;
mod texts;
mod url_and_marker;

pub use crate::checker::{CheckSettings, Checker};
pub use crate::messages::hint_message;
pub use crate::reading::{Form, Reading, Warnings, read_requirement, read_unnamed};
pub use crate::texts::{ExtraRequest, TextHint, extra_requests, text_hints};
pub use crate::url_and_marker::{marker_start, may_have_url, url_of};
pub use requirement_findings::{
    CheckLines, CheckedField, CheckedLine, CheckedMetadata, CheckedText, Finding, FindingName,
    Listed, Origin, Severity, check_file, check_metadata, finding_name,
};
