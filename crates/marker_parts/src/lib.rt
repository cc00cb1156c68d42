//! The parts of a marker, and the parser of one comparison (PEP 508, "Environment Markers").
//!
//! A [`MarkerExpression`] is one comparison. A comparison that PEP 508 allows but that has no
//! meaning, such as `'a' == 'b'`, is dropped with a warning.
//!
//! Calls that allocate return `AllocError` or `OutOfMemory` when memory runs out; every existing
//! value keeps its meaning.
#![tactic(auto)]

mod comparison;
mod display;
mod expression;
mod extra;
pub mod internal;
pub mod laws;
mod meaning;
mod parse;
mod version_comparison;
mod version_operator;
mod version_range;

pub use expression::MarkerExpression;
pub use extra::MarkerValueExtra;
pub use marker_environment::{MarkerEnvironment, MarkerEnvironmentBuilder, StringVersion};
pub use marker_words::{
    ExtraOperator, MarkerOperator, MarkerOperatorBounds, MarkerValue, MarkerValueString,
    MarkerValueVersion, TextVariable, VersionVariable,
};
pub use pep440_rs::{Version, VersionSpecifier};
pub use pep508_errors::{
    MarkerWarningKind, Pep508Error, Pep508ErrorSource, Pep508Url, ReportTo, Reporter, Surroundings,
    TracingReporter,
};
pub use pep508_names::{ExtraName, InvalidNameError, PackageName};
pub use refusal::Refusal;
