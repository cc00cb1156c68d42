//! The options of the lines of requirements files, as pip 23.2.1 reads them.
//!
//! Calls that allocate return `AllocError` when memory runs out.
#![tactic(auto)]

mod argument;
mod fault;
mod form;
mod kind;
mod line;
mod line_kind;
mod naming;
mod reading;

pub use crate::fault::{OptionFault, OptionFaultKind};
pub use crate::kind::OptionKind;
pub use crate::line::{Content, FileLine, read_line};
pub use crate::reading::LineOption;
