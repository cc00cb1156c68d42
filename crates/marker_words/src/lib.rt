//! The words of a marker (PEP 508, "Environment Markers"): keys, operators and quoted texts, how
//! they are parsed and printed, and the comparisons of a range of texts.
#![tactic(auto)]

mod bounds;
mod fault;
mod key;
pub mod laws;
mod lexical;
mod marker_value;
mod operator;
mod parts;

pub use crate::bounds::MarkerOperatorBounds;
pub use crate::fault::{Fault, FaultKind};
pub use crate::key::{MarkerValueString, MarkerValueVersion, TextVariable, VersionVariable};
pub use crate::lexical::{keyword, sides};
pub use crate::marker_value::{MarkerValue, Quoted};
pub use crate::operator::{ExtraOperator, MarkerOperator};
pub use crate::parts::{ComparisonRef, Keyword, MarkerValueRef};
