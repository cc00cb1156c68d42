//! Requirements in their normal text, with everything else of a file byte for byte as it was: the
//! command `fmt` of the program `pep508`.
//!
//! When memory runs out, calls about texts return `AllocError`, those about files an `io::Error`,
//! and the command has status 2.
#![tactic(auto)]

mod applying;
mod arguments;
mod commands;
mod faults;
mod files;
mod finding;
mod formatter;
mod formatting;
mod lines;
mod normal;
mod outputs;
mod parsing;
mod replacing;
mod same;
mod texts;
mod variables;

pub use crate::applying::{Edit, apply_edits};
pub use crate::arguments::{FormatCommand, FormatMode, format_command};
pub use crate::commands::run_format_command;
pub use crate::finding::{Rewriter, find_edits};
pub use crate::formatter::{Formatter, SUBSTITUTE};
pub use crate::formatting::{FormatSettings, Formatted, format_file};
pub use crate::normal::normal_text;
pub use crate::outputs::Outputs;
pub use crate::replacing::replace_file;
