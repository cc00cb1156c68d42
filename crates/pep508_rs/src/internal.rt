//! Items that the crates of this repository share. They are not part of the public interface, and
//! any of them may change.

pub use marker_parts::internal::{
    ComparisonError, Fault, FaultKind, read_comparison, report_kinds,
};
pub use pep508_markers::internal::{
    no_string, parse_behind, read_behind, read_string, tree_of, write_string,
};
pub use pep508_urls::internal::Target;
