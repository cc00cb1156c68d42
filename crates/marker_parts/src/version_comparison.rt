//! A version key and a quoted text.

ghost use Rattle.std.specs.Prelude.{◌<◌, [], false, IfOk, IfSome, IfNone, length};
ghost use Rattle.std.specs.Str.{chars};
ghost use Rattle.pep508_text.specs.Run.{Spaces};
ghost use Rattle.pep508_text.specs.Suffix.{IsSuffix};
ghost use Rattle.pep440_specifier.specs.Specifier.{Makes};
ghost use Rattle.marker_parts.specs.VersionList.{IsEntry, ListsNone, ListsVersions};
ghost use Rattle.marker_parts.specs.VersionComparison.{AsksNothing, AsksNothingBefore, IsAsked, IsAskedBefore, MakesNone};

use crate::expression::MarkerExpression;
use crate::version_operator::VersionOperator;
use marker_words::MarkerValueVersion;
use pep440_specifier::{Operator, VersionSpecifier};
use pep440_version::{Version, VersionPattern};
use pep508_text::{Class, skip_space, split_run};
use std::alloc::{AllocError, Global};

// The expression of a version key compared with a text, if they can be compared.
pub(crate) fn asked_behind(
    alloc: Global,
    key: MarkerValueVersion,
    operator: VersionOperator,
    text: &str,
) -> Result<Option<MarkerExpression>, AllocError>
    ensures found { IfOk result (λ asked. IfSome asked (IsAsked key text.now operator)) }
    ensures none { IfOk result (λ asked. IfNone asked (AsksNothing key text.now operator)) }
{
    match operator {
        VersionOperator::Compare(operator) => {
            let Some(pattern) = VersionPattern::read(alloc, text)? else {
                return Ok(None);
            };
            let Some(specifier) = specifier(operator, pattern) else {
                return Ok(None);
            };
            Ok(Some(MarkerExpression::Version { key, specifier }))
        }
        VersionOperator::Among { negated } => {
            let Some(versions) = version_list(alloc, text)? else {
                return Ok(None);
            };
            Ok(Some(MarkerExpression::VersionIn {
                key,
                versions,
                negated,
            }))
        }
        VersionOperator::Neither => Ok(None),
    }
}

// The expression of a text compared with a version key, if they can be compared. The operator is
// turned around.
pub(crate) fn asked_before(
    alloc: Global,
    key: MarkerValueVersion,
    operator: VersionOperator,
    text: &str,
) -> Result<Option<MarkerExpression>, AllocError>
    ensures found { IfOk result (λ asked. IfSome asked (IsAskedBefore key text.now operator)) }
    ensures none { IfOk result (λ asked. IfNone asked (AsksNothingBefore key text.now operator)) }
{
    match operator {
        VersionOperator::Compare(operator) => {
            let Some(version) = Version::read(alloc, text)? else {
                return Ok(None);
            };
            let Some(specifier) = plain_specifier(operator, version) else {
                return Ok(None);
            };
            Ok(Some(MarkerExpression::Version { key, specifier }))
        }
        VersionOperator::Among { negated: _ } | VersionOperator::Neither => Ok(None),
    }
}

// The specifier of an operator and a pattern, or `None` if they do not fit.
fn specifier(operator: Operator, pattern: VersionPattern) -> Option<VersionSpecifier>
    ensures found { IfSome result (λ s. Makes operator pattern.version pattern.wildcard s) }
    ensures none { IfNone result (MakesNone operator pattern.version pattern.wildcard) }
{
    match VersionSpecifier::from_pattern(operator, pattern) {
        Ok(specifier) => Some(specifier),
        Err(_) => None,
    }
}

// The specifier of an operator and a version without a star, or `None` if they do not fit.
fn plain_specifier(operator: Operator, version: Version) -> Option<VersionSpecifier>
    ensures found { IfSome result (λ s. Makes operator version false s) }
    ensures none { IfNone result (MakesNone operator version false) }
{
    match VersionSpecifier::from_version(operator, version) {
        Ok(specifier) => Some(specifier),
        Err(_) => None,
    }
}

// The next run of characters other than white space, and the rest.
#[tactic(auto, using(crate::proofs::VersionListLaws::next_entry))]
fn next_entry(text: &str) -> Option<(&str, &str)>
    ensures found { IfSome result (λ x. IsEntry (chars text.now) x.0.now (chars x.1.now)) }
    ensures none { IfNone result (Spaces (chars text.now) []) }
    ensures shorter { IfSome result (λ x. length x.1.now < length text.now) }
    ensures suffix { IfSome result (λ x. IsSuffix text.now x.1.now) }
{
    let (entry, rest) = split_run(skip_space(text), Class::NotSpace);
    if entry.is_empty() {
        None
    } else {
        Some((entry, rest))
    }
}

// The versions of a list, or `None` if an entry is an invalid version.
fn version_list(alloc: Global, text: &str) -> Result<Option<Vec<Version>>, AllocError>
    ensures found { IfOk result (λ found. IfSome found (ListsVersions text.now)) }
    ensures none { IfOk result (λ found. IfNone found (ListsNone text.now)) }
{
    let mut versions = Vec::new(alloc);
    let mut rest = text;
    'entries: while let Some((entry, after)) = next_entry(rest) {
        let Some(version) = Version::read(alloc, entry)? else {
            return Ok(None);
        };
        versions.push(version)?;
        rest = after;
    }
    Ok(Some(versions))
}
