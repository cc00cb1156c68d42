//! Specifiers of a range of releases.

ghost use Rattle.std.specs.Prelude.{◌≡◌, IfOk};
ghost use Rattle.std.specs.Iterator.{YieldsFirstBy, item_count};
ghost use Rattle.pep440_specifier.specs.Bounds.{bound_specifiers, bounding, lower_terms, minor_of, single_term, specifiers_left, star_between, terms, upper_terms};

use crate::operator::Operator;
use crate::specifier::{VersionSpecifier, is_alone};
use pep440_version::Version;
use std::alloc::{AllocError, Global};
use std::ops::Bound;

/// The specifiers of a range, at most two, returned by
/// [`VersionSpecifier::from_release_only_bounds`].
#[derive(Debug, Drop)]
pub struct BoundSpecifiers {
    first: Option<VersionSpecifier>,
    second: Option<VersionSpecifier>,
}

impl VersionSpecifier {
    /// Returns the specifiers whose conjunction is the range between two bounds that are releases.
    ///
    /// Two equal included bounds give `==`. A range from M.m up to M.(m+1) gives `==M.m.*` if each
    /// bound has at most two release numbers; `3` counts as `3.0`. Otherwise each bound gives one
    /// specifier; a bound with a local part, which these do not accept, counts as its release.
    pub fn from_release_only_bounds(
        alloc: Global,
        bounds: (Bound<&Version>, Bound<&Version>),
    ) -> Result<BoundSpecifiers, AllocError>
        ensures { IfOk result (λ specifiers. specifiers_left specifiers
            ≡ bound_specifiers bounds.entry.0 bounds.entry.1) }
    {
        let (lower, upper) = bounds;
        if let Some(single) = single(alloc, lower, upper)? {
            return Ok(BoundSpecifiers {
                first: Some(single),
                second: None,
            });
        }
        let first = lower_specifier(alloc, lower)?;
        let second = upper_specifier(alloc, upper)?;
        Ok(BoundSpecifiers { first, second })
    }
}

impl Iterator for BoundSpecifiers {
    type Item = VersionSpecifier;

    ghost next_gives = { YieldsFirstBy (λ s. s) specifiers_left };

    ghost remaining = { item_count specifiers_left };

    fn next(&mut self) -> Option<VersionSpecifier> {
        match self.first.take() {
            Some(specifier) => Some(specifier),
            None => self.second.take(),
        }
    }
}

// The first two release numbers of a version of at most two and nothing else.
fn minor_of(version: &Version) -> Option<(u64, u64)>
    ensures { result ≡ minor_of version.now }
{
    if version.epoch() != 0 || !is_alone(version) {
        return None;
    }
    match version.release() {
        [major] => Some((*major, 0)),
        [major, minor] => Some((*major, *minor)),
        _ => None,
    }
}

// M.m, if the range is from M.m up to M.(m+1).
fn star_between(lower: &Version, upper: &Version) -> Option<(u64, u64)>
    ensures { result ≡ star_between lower.now upper.now }
{
    let (major, minor) = minor_of(lower)?;
    let (upper_major, upper_minor) = minor_of(upper)?;
    if major == upper_major && minor < upper_minor && upper_minor - minor == 1 {
        Some((major, minor))
    } else {
        None
    }
}

// The one specifier of the range.
fn single(
    alloc: Global,
    lower: Bound<&Version>,
    upper: Bound<&Version>,
) -> Result<Option<VersionSpecifier>, AllocError>
    ensures { IfOk result (λ single. single ≡ single_term lower.entry upper.entry) }
{
    match (lower, upper) {
        (Bound::Included(lower), Bound::Included(upper)) => {
            if lower != upper {
                return Ok(None);
            }
            Ok(Some(VersionSpecifier {
                operator: Operator::Equal,
                version: lower.clone()?,
            }))
        }
        (Bound::Included(lower), Bound::Excluded(upper)) => match star_between(lower, upper) {
            Some((major, minor)) => Ok(Some(VersionSpecifier {
                operator: Operator::EqualStar,
                version: Version::new(alloc, &[major, minor])?,
            })),
            None => Ok(None),
        },
        _ => Ok(None),
    }
}

// The version in the specifier of one bound.
fn bound_version(alloc: Global, version: &Version) -> Result<Version, AllocError>
    ensures { IfOk result (λ bound. bound ≡ bounding version.now) }
{
    if version.local().is_empty() {
        version.clone()
    } else {
        Version::new(alloc, version.release())
    }
}

fn lower_specifier(
    alloc: Global,
    lower: Bound<&Version>,
) -> Result<Option<VersionSpecifier>, AllocError>
    ensures { IfOk result (λ term. terms term ≡ lower_terms lower.entry) }
{
    let (operator, version) = match lower {
        Bound::Included(version) => (Operator::GreaterThanEqual, version),
        Bound::Excluded(version) => (Operator::GreaterThan, version),
        Bound::Unbounded => return Ok(None),
    };
    Ok(Some(VersionSpecifier {
        operator,
        version: bound_version(alloc, version)?,
    }))
}

fn upper_specifier(
    alloc: Global,
    upper: Bound<&Version>,
) -> Result<Option<VersionSpecifier>, AllocError>
    ensures { IfOk result (λ term. terms term ≡ upper_terms upper.entry) }
{
    let (operator, version) = match upper {
        Bound::Included(version) => (Operator::LessThanEqual, version),
        Bound::Excluded(version) => (Operator::LessThan, version),
        Bound::Unbounded => return Ok(None),
    };
    Ok(Some(VersionSpecifier {
        operator,
        version: bound_version(alloc, version)?,
    }))
}
