//! Comparisons of keys with values.

use crate::extra::MarkerValueExtra;
use marker_words::{ExtraOperator, MarkerOperator, MarkerValueString, MarkerValueVersion};
use pep440_specifier::VersionSpecifier;
use pep440_version::Version;
use std::alloc::AllocError;

/// One comparison of a marker.
#[derive(Debug, PartialEq, Eq, PartialOrd, Ord, Hash, Drop)]
pub enum MarkerExpression {
    /// A version key compared with a version, such as `python_version >= '3.8'`.
    Version {
        key: MarkerValueVersion,
        specifier: VersionSpecifier,
    },
    /// A version key looked up in a list of versions, such as `python_version in '3.8 3.9'`. If
    /// negated, it is true if the version is not in the list.
    VersionIn {
        key: MarkerValueVersion,
        versions: Vec<Version>,
        negated: bool,
    },
    /// A text key compared with a text, such as `os_name == 'posix'`.
    String {
        key: MarkerValueString,
        operator: MarkerOperator,
        value: String,
    },
    /// `extra` compared with a name, such as `extra == 'dev'`.
    Extra {
        operator: ExtraOperator,
        name: MarkerValueExtra,
    },
}

impl Clone for MarkerExpression {
    ghost use Rattle.std.specs.Prelude.{◌≡◌};
    ghost use Rattle.marker_parts.specs.Expression.{test_of};

    ghost is_clone = { λ expression clone. test_of clone ≡ test_of expression };

    #[tactic(auto, using(crate::proofs::CloneLaws::same_items))]
    fn clone(&self) -> Result<MarkerExpression, AllocError> {
        match self {
            MarkerExpression::Version { key, specifier } => Ok(MarkerExpression::Version {
                key: *key,
                specifier: specifier.clone()?,
            }),
            MarkerExpression::VersionIn {
                key,
                versions,
                negated,
            } => Ok(MarkerExpression::VersionIn {
                key: *key,
                versions: versions.clone()?,
                negated: *negated,
            }),
            MarkerExpression::String {
                key,
                operator,
                value,
            } => Ok(MarkerExpression::String {
                key: *key,
                operator: *operator,
                value: value.clone()?,
            }),
            MarkerExpression::Extra { operator, name } => Ok(MarkerExpression::Extra {
                operator: *operator,
                name: name.clone()?,
            }),
        }
    }
}
