//! The sets of versions of `in` and `not in` with a list of versions.

ghost use Rattle.std.specs.Prelude.{◌≡◌, ◌||◌, false, map, true, IfErr, IfOk, OnOk};
ghost use Rattle.std.specs.List.{list_all};
ghost use Rattle.pep440_version.specs.Order.{trimmed_parts};
ghost use Rattle.pep440_rs.specs.Intervals.{HasPoints, HasTrimmedBounds, IsRefusal, RefusedWhere, is_trimmed, has_point};
ghost use Rattle.pep440_rs.specs.Lists.{ListOverflows, has_long, is_listed, is_minor_listed, raises_greatest, ListTheSame, is_in_some_minor, listed_or_not};

use crate::intervals::outside;
use crate::python_version::{has_more, minor_to_range};
use pep440_version::{Refusal, Version};
use std::alloc::{AllocError, Global};
use std::convert::Infallible;
use version_ranges::Ranges;

// The versions without the zeros at the end of their releases, as at bounds.
fn trimmed_versions(alloc: Global, versions: &[Version]) -> Result<Vec<Version>, AllocError>
    ensures value { IfOk result (λ r. r.items ≡ map trimmed_parts versions.now) }
    ensures same { IfOk result (λ r. ListTheSame r.items versions.now) }
    ensures trimmed { IfOk result (λ r. list_all is_trimmed r.items ≡ true) }
{
    let mut trimmed = Vec::with_capacity(alloc, versions.len())?;
    for version in versions {
        trimmed.push(version.without_trailing_zeros()?)?;
    }
    Ok(trimmed)
}

/// Returns the set of the listed versions, with all their parts, or if negated of all other
/// versions. The bounds have no zeros at the end of their releases.
pub fn version_list_to_range(
    alloc: Global,
    versions: &[Version],
    negated: bool,
) -> Result<Ranges<Version>, AllocError>
    ensures set { IfOk result (HasPoints (listed_or_not negated (is_listed versions.now))) }
    ensures bounds { IfOk result HasTrimmedBounds }
{
    let listed = listed_versions(alloc, versions)?;
    if negated {
        outside(alloc, &listed)
    } else {
        Ok(listed)
    }
}

// The listed versions.
fn listed_versions(alloc: Global, versions: &[Version]) -> Result<Ranges<Version>, AllocError>
    ensures set { IfOk result (HasPoints (is_listed versions.now)) }
    ensures bounds { IfOk result HasTrimmedBounds }
{
    let trimmed = trimmed_versions(alloc, versions)?;
    let listed = Ranges::from_points(trimmed)?;
    Ok(listed)
}

// Whether an entry has more release numbers than `python_version` has.
fn has_long(versions: &[Version]) -> bool
    ensures { result ≡ has_long versions.now }
{
    versions.iter().any(|version| has_more(version.release()))
}

// The union of two sets.
fn either(
    alloc: Global,
    left: &Ranges<Version>,
    right: &Ranges<Version>,
) -> Result<Ranges<Version>, AllocError>
    requires left { HasTrimmedBounds left.now }
    requires right { HasTrimmedBounds right.now }
    ensures set { IfOk result (HasPoints (λ p. has_point left.now p || has_point right.now p)) }
    ensures bounds { IfOk result HasTrimmedBounds }
{
    left.union(alloc, right)
}

// The full versions whose `python_version` is the first two numbers of a release in the list. The
// list is halved, so that each point is visited a number of times that is the logarithm of its
// length.
fn minors_to_range(
    alloc: Global,
    versions: &[Version],
) -> Result<Ranges<Version>, Refusal<Infallible>>
    ensures set { IfOk result (HasPoints (is_in_some_minor versions.now)) }
    ensures bounds { IfOk result HasTrimmedBounds }
    ensures no_overflow { OnOk result (raises_greatest versions.now ≡ false) }
    ensures refused { IfErr result (IsRefusal (raises_greatest versions.now ≡ true)) }
{
    match versions {
        [] => Ok(Ranges::empty(alloc)),
        [version] => minor_to_range(alloc, version.release()),
        _ => {
            let (left, right) = versions.split_at(versions.len() / 2);
            let lower = minors_to_range(alloc, left)?;
            let upper = minors_to_range(alloc, right)?;
            Ok(either(alloc, &lower, &upper)?)
        }
    }
}

// The full versions whose `python_version` is listed.
fn listed_minors(
    alloc: Global,
    versions: &[Version],
) -> Result<Ranges<Version>, Refusal<Infallible>>
    ensures set { IfOk result (HasPoints (is_minor_listed versions.now)) }
    ensures bounds { IfOk result HasTrimmedBounds }
    ensures refused { RefusedWhere result (ListOverflows versions.now) }
{
    if has_long(versions) {
        return Ok(Ranges::empty(alloc));
    }
    minors_to_range(alloc, versions)
}

/// Returns the full versions of Python (`python_full_version`) whose `python_version` is in the
/// list, or if negated is not in it.
///
/// Only the releases of the entries count, as they are written: `3.9a1` is the same as `3.9`. If an
/// entry has more than two numbers, such as `3.9.0`, no version is in the list. The bounds have no
/// zeros at the end of their releases.
///
/// # Errors
/// - [`Refusal::SegmentAtEnd`] if the second number of an entry is 2^64 - 1 and no entry has more
///   than two numbers, negated or not.
/// - [`Refusal::OutOfMemory`] when memory runs out.
pub fn python_version_list_to_range(
    alloc: Global,
    versions: &[Version],
    negated: bool,
) -> Result<Ranges<Version>, Refusal<Infallible>>
    ensures set { IfOk result (HasPoints (listed_or_not negated (is_minor_listed versions.now))) }
    ensures bounds { IfOk result HasTrimmedBounds }
    ensures refused { RefusedWhere result (ListOverflows versions.now) }
{
    let listed = listed_minors(alloc, versions)?;
    if negated {
        Ok(outside(alloc, &listed)?)
    } else {
        Ok(listed)
    }
}
