//! What an operator of markers does with versions.

ghost use Rattle.std.specs.Prelude.{◌≡◌};
ghost use Rattle.marker_parts.specs.VersionComparison.{version_operator};

use marker_words::MarkerOperator;
use pep440_specifier::Operator;

// What an operator does with versions.
#[derive(Clone, Copy, Debug, PartialEq, Eq)]
pub(crate) enum VersionOperator {
    // Compares with a version.
    Compare(Operator),
    // Looks the version up in a list.
    Among { negated: bool },
    // Nothing: a version is not a substring of another.
    Neither,
}

impl VersionOperator {
    pub(crate) fn of(operator: MarkerOperator) -> VersionOperator
        ensures { result ≡ version_operator operator }
    {
        match operator {
            MarkerOperator::Equal => VersionOperator::Compare(Operator::Equal),
            MarkerOperator::NotEqual => VersionOperator::Compare(Operator::NotEqual),
            MarkerOperator::GreaterThan => VersionOperator::Compare(Operator::GreaterThan),
            MarkerOperator::GreaterEqual => VersionOperator::Compare(Operator::GreaterThanEqual),
            MarkerOperator::LessThan => VersionOperator::Compare(Operator::LessThan),
            MarkerOperator::LessEqual => VersionOperator::Compare(Operator::LessThanEqual),
            MarkerOperator::TildeEqual => VersionOperator::Compare(Operator::TildeEqual),
            MarkerOperator::In => VersionOperator::Among { negated: false },
            MarkerOperator::NotIn => VersionOperator::Among { negated: true },
            MarkerOperator::Contains | MarkerOperator::NotContains => VersionOperator::Neither,
        }
    }
}
