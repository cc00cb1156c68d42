//! The operators of version specifiers.

ghost use Rattle.std.specs.Prelude.{◌≡◌, Some};
ghost use Rattle.pep440_specifier.specs.Operator.{is_star, negated, operator_text};

use std::fmt;

/// How a specifier compares versions (PEP 440, "Version specifiers").
#[derive(Clone, Copy, Debug, PartialEq, Eq, PartialOrd, Ord, Hash)]
pub enum Operator {
    /// `==`
    Equal,
    /// `== *`
    EqualStar,
    /// `===`
    ExactEqual,
    /// `!=`
    NotEqual,
    /// `!= *`
    NotEqualStar,
    /// `~=`
    TildeEqual,
    /// `<`
    LessThan,
    /// `<=`
    LessThanEqual,
    /// `>`
    GreaterThan,
    /// `>=`
    GreaterThanEqual,
}

impl Operator {
    /// Returns whether `.*` follows the version, as in `== 3.9.*`.
    pub fn is_star(self) -> bool
        ensures { result ≡ is_star self }
    {
        matches!(self, Operator::EqualStar | Operator::NotEqualStar)
    }

    /// Returns the operator that matches the versions that this one does not match; for `===` it is
    /// `!=`. `None` for `~=`.
    pub fn negate(self) -> Option<Operator>
        ensures { result ≡ negated self }
    {
        match self {
            Operator::Equal => Some(Operator::NotEqual),
            Operator::EqualStar => Some(Operator::NotEqualStar),
            Operator::ExactEqual => Some(Operator::NotEqual),
            Operator::NotEqual => Some(Operator::Equal),
            Operator::NotEqualStar => Some(Operator::EqualStar),
            Operator::TildeEqual => None,
            Operator::LessThan => Some(Operator::GreaterThanEqual),
            Operator::LessThanEqual => Some(Operator::GreaterThan),
            Operator::GreaterThan => Some(Operator::LessThanEqual),
            Operator::GreaterThanEqual => Some(Operator::LessThan),
        }
    }
}

/// Writes the operator as before a version, without the `.*` of a star, which comes after the
/// version.
impl fmt::Display for Operator {
    ghost output = { λ operator. Some (operator_text operator) };

    fn fmt<W: fmt::Write>(&self, f: &mut fmt::Formatter<W>) -> fmt::Result {
        match self {
            Operator::Equal | Operator::EqualStar => f.write_str("=="),
            Operator::ExactEqual => f.write_str("==="),
            Operator::NotEqual | Operator::NotEqualStar => f.write_str("!="),
            Operator::TildeEqual => f.write_str("~="),
            Operator::LessThan => f.write_str("<"),
            Operator::LessThanEqual => f.write_str("<="),
            Operator::GreaterThan => f.write_str(">"),
            Operator::GreaterThanEqual => f.write_str(">="),
        }
    }
}
