//! The grammar of marker texts (PEP 508, "Environment Markers"): its parser, the formula of a text,
//! and clauses, printed as a text that parses back to the same truth.
#![tactic(auto)]

mod clauses;
mod formula;
pub mod laws;
mod reader;

pub use clauses::Clauses;
pub use formula::{FlatFormula, Token};
pub use reader::{Reading, read};
