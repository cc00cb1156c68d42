//! The versions that satisfy a comparison.

ghost use Rattle.std.specs.Prelude.{◌≡◌, IfOk, IfErr, IfSome, IfNone, OnOk, Some, None};
ghost use Rattle.pep440_rs.specs.Intervals.{HasTrimmedBounds, IsRefusal};
ghost use Rattle.marker_parts.specs.Expression as asked;
ghost use Rattle.marker_parts.specs.Expression.{test_of, version_variable_of, Overflows};
ghost use Rattle.marker_parts.specs.Range.{AsksNoVersion, HasListed, HasSatisfying, HasSetOf, HasVariableOf, RangeOverflows};

use crate::expression::MarkerExpression;
use marker_words::{MarkerValueVersion, VersionVariable};
use pep440_rs::{
    python_version_list_to_range, python_version_specifier_to_range, release_specifier_to_range,
    version_list_to_range,
};
use pep440_specifier::VersionSpecifier;
use pep440_version::Version;
use refusal::Refusal;
use std::alloc::Global;
use std::convert::Infallible;
use version_ranges::Ranges;

impl MarkerExpression {
    /// Returns the variable of a comparison with versions, and the set of its values that satisfy
    /// the comparison. `None` for a comparison with a text or an extra. The bounds of the set are
    /// without zeros at the ends of their releases.
    ///
    /// # Errors
    /// - [`Refusal::SegmentAtEnd`] if the set has a bound above 2^64 - 1.
    /// - [`Refusal::OutOfMemory`] when memory runs out.
    pub fn version_range(
        &self,
        alloc: Global,
    ) -> Result<Option<(VersionVariable, Ranges<Version>)>, Refusal<Infallible>>
        ensures variable { IfOk result (λ found. IfSome found (HasVariableOf self.now)) }
        ensures set { IfOk result (λ found. IfSome found (HasSetOf self.now)) }
        ensures bounds { IfOk result (λ found. IfSome found (λ range. HasTrimmedBounds range.1)) }
        ensures none { IfOk result (λ found. IfNone found (AsksNoVersion self.now)) }

        // There is no set only if a bound would be above 2^64 - 1.
        ensures no_overflow { OnOk result (¬ Overflows (test_of self.now)) }
        ensures refused { IfErr result (IsRefusal (Overflows (test_of self.now))) }
    {
        match self {
            MarkerExpression::Version { key, specifier } => {
                let range = specifier_range(alloc, *key, specifier)?;
                Ok(Some((version_variable(*key), range)))
            }
            MarkerExpression::VersionIn {
                key,
                versions,
                negated,
            } => {
                let range = list_range(alloc, *key, versions, *negated)?;
                Ok(Some((version_variable(*key), range)))
            }
            MarkerExpression::String { .. } | MarkerExpression::Extra { .. } => Ok(None),
        }
    }
}

// The values of a key's variable that satisfy a specifier.
fn specifier_range(
    alloc: Global,
    key: MarkerValueVersion,
    specifier: &VersionSpecifier,
) -> Result<Ranges<Version>, Refusal<Infallible>>
    ensures set { IfOk result (HasSatisfying key specifier.now) }
    ensures bounds { IfOk result HasTrimmedBounds }
    ensures no_overflow { OnOk result (¬ Overflows (asked.version key specifier.now)) }
    ensures refused { IfErr result (IsRefusal (Overflows (asked.version key specifier.now))) }
{
    match key {
        MarkerValueVersion::ImplementationVersion | MarkerValueVersion::PythonFullVersion => {
            release_specifier_to_range(alloc, specifier)
        }
        MarkerValueVersion::PythonVersion => python_version_specifier_to_range(alloc, specifier),
    }
}

// The values of a key's variable that are in a list, or if negated, those that are not.
fn list_range(
    alloc: Global,
    key: MarkerValueVersion,
    versions: &[Version],
    negated: bool,
) -> Result<Ranges<Version>, Refusal<Infallible>>
    ensures set { IfOk result (HasListed key versions.now negated) }
    ensures bounds { IfOk result HasTrimmedBounds }
    ensures no_overflow { OnOk result (¬ RangeOverflows key versions.now negated) }
    ensures refused { IfErr result (IsRefusal (RangeOverflows key versions.now negated)) }
{
    match key {
        MarkerValueVersion::ImplementationVersion | MarkerValueVersion::PythonFullVersion => {
            let range = version_list_to_range(alloc, versions, negated)?;
            Ok(range)
        }
        MarkerValueVersion::PythonVersion => python_version_list_to_range(alloc, versions, negated),
    }
}

fn version_variable(key: MarkerValueVersion) -> VersionVariable
    ensures { result ≡ version_variable_of key }
{
    match key {
        MarkerValueVersion::ImplementationVersion => VersionVariable::ImplementationVersion,
        MarkerValueVersion::PythonFullVersion | MarkerValueVersion::PythonVersion => {
            VersionVariable::PythonFullVersion
        }
    }
}
