//! The sets of versions of version specifiers, by releases only.

ghost use Rattle.std.specs.Prelude.{◌≡◌, ◌<◌, ◌≤◌, true, length, IfOk};
ghost use Rattle.std.specs.declared.cmp.Ordering.TheVariants.{Equal};
ghost use Rattle.std.specs.declared.ops.Bound.TheVariants.{Included, Excluded};
ghost use Rattle.version_ranges.specs.Bounds.{passes_at};
ghost use Rattle.version_ranges.specs.Ranges.{IsComplement};
ghost use Rattle.pep440_version.specs.Order.{trimmed, version_cmp};
ghost use Rattle.pep440_version.specs.Parts.{release_only};
ghost use Rattle.pep440_rs.specs.Intervals.{HasNumbers, HasPoints, HasTrimmedBounds, IsGreatest, IsSameBound, Overflows, RefusedWhere, at_numbers, is_in, is_trimmed, last_number, raised, at_trimmed, at_version, is_between_borrowed, is_below_end};
ghost use Rattle.pep440_rs.specs.Bounds.{HoldsOf, points_of};

use pep440_specifier::{Operator, VersionSpecifier};
use pep440_version::{Refusal, Version};
use std::alloc::{AllocError, Global};
use std::convert::Infallible;
use std::ops::Bound;
use version_ranges::Ranges;

// The version of these release numbers without the zeros at their end, as at a bound.
fn trimmed_version(alloc: Global, release: &[u64]) -> Result<Version, AllocError>
    requires { 0 < length release.now }
    ensures value { IfOk result (λ v. v ≡ release_only (trimmed release.now)) }
    ensures same { IfOk result (λ v. version_cmp v (release_only release.now) ≡ Equal) }
    ensures trimmed { IfOk result (λ v. is_trimmed v ≡ true) }
{
    Version::new_trimmed(alloc, release)
}

// A bound at these release numbers.
fn release_bound(alloc: Global, bound: Bound<&[u64]>) -> Result<Bound<Version>, AllocError>
    requires { HasNumbers (at_numbers bound) }
    ensures value { IfOk result (λ b. b ≡ at_trimmed bound.entry) }
    ensures same { IfOk result (λ b. IsSameBound b (at_version (at_numbers bound.entry))) }
    ensures trimmed { IfOk result (λ b. passes_at is_trimmed b ≡ true) }
{
    match bound {
        Bound::Included(release) => Ok(Bound::Included(trimmed_version(alloc, release)?)),
        Bound::Excluded(release) => Ok(Bound::Excluded(trimmed_version(alloc, release)?)),
        Bound::Unbounded => Ok(Bound::Unbounded),
    }
}

// The versions between two bounds.
pub(crate) fn between(
    alloc: Global,
    lower: Bound<&[u64]>,
    upper: Bound<&[u64]>,
) -> Result<Ranges<Version>, AllocError>
    requires lower { HasNumbers (at_numbers lower) }
    requires upper { HasNumbers (at_numbers upper) }
    ensures set { IfOk result (HasPoints (is_between_borrowed lower.entry upper.entry)) }
    ensures bounds { IfOk result HasTrimmedBounds }
{
    let lower = release_bound(alloc, lower)?;
    let upper = release_bound(alloc, upper)?;
    Ranges::from_range_bounds(alloc, (lower, upper))
}

// The versions that are not in a set.
pub(crate) fn outside(
    alloc: Global,
    inside: &Ranges<Version>,
) -> Result<Ranges<Version>, AllocError>
    requires { HasTrimmedBounds inside.now }
    ensures set { IfOk result (λ r. IsComplement version_cmp inside.now r) }
    ensures bounds { IfOk result HasTrimmedBounds }
{
    inside.complement(alloc)
}

// The release with its last number raised by one.
fn raise(alloc: Global, release: &[u64]) -> Result<Vec<u64>, Refusal<Infallible>>
    requires { 0 < length release.now }
    ensures value { IfOk result (λ r. r.items ≡ raised release.now) }
    ensures some { IfOk result (λ r. 0 < length r.items) }
    ensures refused { RefusedWhere result (IsGreatest (last_number release.now)) }
{
    let last = release.len() - 1;
    let Some(next) = release[last].checked_add(1) else {
        return Err(Refusal::SegmentAtEnd);
    };
    let mut numbers = Vec::from_slice(alloc, release)?;
    numbers[last] = next;
    Ok(numbers)
}

// The versions from a release up to another one whose last number is raised by one.
fn up_to_raised(
    alloc: Global,
    release: &[u64],
    prefix: &[u64],
) -> Result<Ranges<Version>, Refusal<Infallible>>
    requires release { 0 < length release.now }
    requires prefix { 0 < length prefix.now }
    ensures set { IfOk result (HasPoints (is_below_end release.now prefix.now)) }
    ensures bounds { IfOk result HasTrimmedBounds }
    ensures refused { RefusedWhere result (IsGreatest (last_number prefix.now)) }
{
    let end = raise(alloc, prefix)?;
    let range = between(alloc, Bound::Included(release), Bound::Excluded(&end))?;
    Ok(range)
}

// The set of versions of a comparison with a release.
pub(crate) fn release_to_range(
    alloc: Global,
    operator: Operator,
    release: &[u64],
) -> Result<Ranges<Version>, Refusal<Infallible>>
    requires some { 0 < length release.now }
    requires compatible { operator ≡ Operator.TildeEqual → 2 ≤ length release.now }
    ensures set { IfOk result (HasPoints (is_in operator release.now)) }
    ensures bounds { IfOk result HasTrimmedBounds }
    ensures refused { RefusedWhere result (Overflows operator release.now) }
{
    let included = Bound::Included(release);
    let excluded = Bound::Excluded(release);
    match operator {
        Operator::Equal | Operator::ExactEqual => Ok(between(alloc, included, included)?),
        Operator::NotEqual => Ok(outside(alloc, &between(alloc, included, included)?)?),
        Operator::LessThan => Ok(between(alloc, Bound::Unbounded, excluded)?),
        Operator::LessThanEqual => Ok(between(alloc, Bound::Unbounded, included)?),
        Operator::GreaterThan => Ok(between(alloc, excluded, Bound::Unbounded)?),
        Operator::GreaterThanEqual => Ok(between(alloc, included, Bound::Unbounded)?),
        Operator::TildeEqual => up_to_raised(alloc, release, &release[..release.len() - 1]),
        Operator::EqualStar => up_to_raised(alloc, release, release),
        Operator::NotEqualStar => Ok(outside(alloc, &up_to_raised(alloc, release, release)?)?),
    }
}

/// Returns the versions that match a specifier in comparisons of a whole version, such as
/// `implementation_version` or `python_full_version`.
///
/// Only the release counts: epoch, pre-release, post release, development release and local part
/// are dropped. `== 3.9.*` is from 3.9 up to 3.10, and `~= 3.9.1` from 3.9.1 up to 3.10, both
/// without the upper end. The bounds have no zeros at the end of their releases: `>= 3.0` is from 3
/// on.
///
/// # Errors
/// - [`Refusal::SegmentAtEnd`] if an end would be above 2^64 - 1, also of the set that `!=` with a
///   star leaves out.
/// - [`Refusal::OutOfMemory`] when memory runs out.
pub fn release_specifier_to_range(
    alloc: Global,
    specifier: &VersionSpecifier,
) -> Result<Ranges<Version>, Refusal<Infallible>>
    ensures set { IfOk result (HasPoints (points_of is_in specifier.now)) }
    ensures bounds { IfOk result HasTrimmedBounds }
    ensures refused { RefusedWhere result (HoldsOf Overflows specifier.now) }
{
    release_to_range(alloc, specifier.operator(), specifier.version().release())
}
