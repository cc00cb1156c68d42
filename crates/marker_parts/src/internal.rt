//! What the crates of whole markers and requirements need of one comparison. It is not part of the
//! public interface.

pub use crate::comparison::{ComparisonError, read_comparison};
pub use crate::parse::report_kinds;
pub use marker_words::{Fault, FaultKind};
