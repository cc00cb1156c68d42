//! The results of the parsers of words.

use crate::key::{MarkerValueString, MarkerValueVersion};
use crate::operator::MarkerOperator;

/// One side of a comparison as it is written: a key in any of its spellings, `extra`, or a borrowed
/// text between two quotes.
#[derive(Clone, Copy, Debug, PartialEq, Eq)]
pub enum MarkerValueRef<'a> {
    /// A key whose value is a version, such as `python_version`
    MarkerEnvVersion(MarkerValueVersion),
    /// A key whose value is a text, such as `os_name`
    MarkerEnvString(MarkerValueString),
    /// `extra`
    Extra,
    /// The text between two quotes
    QuotedString(&'a str),
}

/// A comparison as it is written: any two sides (PEP 508, "Grammar"). Its meaning, if it has one,
/// is given where it becomes an expression.
#[derive(Clone, Copy, Debug, PartialEq, Eq)]
pub struct ComparisonRef<'a> {
    /// The value before the operator.
    pub left: MarkerValueRef<'a>,
    /// The operator as it is written: `in` and `not in` are `In` and `NotIn` on whichever side the
    /// key is.
    pub operator: MarkerOperator,
    /// The value after the operator.
    pub right: MarkerValueRef<'a>,
}

/// A run of characters other than white space, where a keyword may be.
#[derive(Clone, Copy, Debug, PartialEq, Eq)]
pub enum Keyword {
    /// `and`
    And,
    /// `or`
    Or,
    /// Any other run, including the empty one
    Other,
}
