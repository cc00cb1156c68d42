//! The operators of comparisons.

ghost use Rattle.std.specs.Prelude.{◌≡◌, Some, IfSome, IfNone};
ghost use Rattle.std.specs.Str.{chars};
ghost use Rattle.marker_words.specs.Operator.{extra_operator_text, operator_text, turned, IsSpelling};

use crate::lexical::comparison_operator;
use std::fmt;
use std::fmt::Display;

/// An operator between a key and a text. `Contains` and `NotContains` are `in` and `not in` with
/// the text on the left side.
#[derive(Clone, Copy, Debug, PartialEq, Eq, PartialOrd, Ord, Hash)]
pub enum MarkerOperator {
    /// `==`
    Equal,
    /// `!=`
    NotEqual,
    /// `>`
    GreaterThan,
    /// `>=`
    GreaterEqual,
    /// `<`
    LessThan,
    /// `<=`
    LessEqual,
    /// `~=`
    TildeEqual,
    /// `key in 'text'`
    In,
    /// `key not in 'text'`
    NotIn,
    /// `'text' in key`
    Contains,
    /// `'text' not in key`
    NotContains,
}

impl MarkerOperator {
    /// Returns the operator that the whole text spells: `==`, `!=`, `>`, `>=`, `<`, `<=`, `~=`,
    /// `in`, or `not`, white space and `in`, which is `NotIn`. `None` for any other text, including
    /// one with white space around the operator.
    pub fn parse(text: &str) -> Option<MarkerOperator>
        ensures found { IfSome result (λ operator. IsSpelling (chars text.now) operator) }
        ensures none { IfNone result (
            (operator : MarkerOperator) → IsSpelling (chars text.now) operator → ⊥) }
    {
        let Ok((operator, rest)) = comparison_operator(text) else {
            return None;
        };
        if rest.is_empty() {
            Some(operator)
        } else {
            None
        }
    }

    /// Returns the operator with its sides exchanged: `'x' < key` is `key > 'x'`.
    pub fn invert(self) -> MarkerOperator
        ensures { result ≡ turned self }
    {
        match self {
            MarkerOperator::Equal => MarkerOperator::Equal,
            MarkerOperator::NotEqual => MarkerOperator::NotEqual,
            MarkerOperator::GreaterThan => MarkerOperator::LessThan,
            MarkerOperator::GreaterEqual => MarkerOperator::LessEqual,
            MarkerOperator::LessThan => MarkerOperator::GreaterThan,
            MarkerOperator::LessEqual => MarkerOperator::GreaterEqual,
            MarkerOperator::TildeEqual => MarkerOperator::TildeEqual,
            MarkerOperator::In => MarkerOperator::Contains,
            MarkerOperator::NotIn => MarkerOperator::NotContains,
            MarkerOperator::Contains => MarkerOperator::In,
            MarkerOperator::NotContains => MarkerOperator::NotIn,
        }
    }
}

impl Display for MarkerOperator {
    ghost output = { λ operator. Some (operator_text operator) };

    fn fmt<W: fmt::Write>(&self, f: &mut fmt::Formatter<W>) -> fmt::Result {
        f.write_str(match self {
            MarkerOperator::Equal => "==",
            MarkerOperator::NotEqual => "!=",
            MarkerOperator::GreaterThan => ">",
            MarkerOperator::GreaterEqual => ">=",
            MarkerOperator::LessThan => "<",
            MarkerOperator::LessEqual => "<=",
            MarkerOperator::TildeEqual => "~=",
            MarkerOperator::In | MarkerOperator::Contains => "in",
            MarkerOperator::NotIn | MarkerOperator::NotContains => "not in",
        })
    }
}

/// An operator between `extra` and a text.
#[derive(Clone, Copy, Debug, PartialEq, Eq, PartialOrd, Ord, Hash)]
pub enum ExtraOperator {
    /// `==`
    Equal,
    /// `!=`
    NotEqual,
}

impl Display for ExtraOperator {
    ghost output = { λ operator. Some (extra_operator_text operator) };

    fn fmt<W: fmt::Write>(&self, f: &mut fmt::Formatter<W>) -> fmt::Result {
        f.write_str(match self {
            ExtraOperator::Equal => "==",
            ExtraOperator::NotEqual => "!=",
        })
    }
}
