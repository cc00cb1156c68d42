//! The sets of full versions of Python that match comparisons of `python_version`.

ghost use Rattle.std.specs.Prelude.{◌≡◌, ◌<◌, ◌≤◌, get_or, length, not, IfErr, IfOk};
ghost use Rattle.std.specs.declared.ops.Bound.TheVariants.{Excluded, Included, Unbounded};
ghost use Rattle.refusal.specs.declared.Refusal.TheVariants.{OutOfMemory};
ghost use Rattle.pep440_version.specs.Order.{trimmed as trimmed_of};
ghost use Rattle.pep440_rs.specs.Intervals.{HasPoints, HasTrimmedBounds, IsGreatest, RefusedWhere, is_between};
ghost use Rattle.pep440_rs.specs.PythonVersion.{PythonOverflows, first_minor, has_more, is_in_minor, is_same_minor, minor_raised, minor_release, next_minor, python_is_in, first_minor_raised, same_minor_raised, is_in_written, written_raised};
ghost use Rattle.pep440_rs.specs.Bounds.{HoldsOf, points_of};

use crate::intervals::{between, outside, release_to_range};
use pep440_specifier::{Operator, VersionSpecifier};
use pep440_version::{Refusal, Version};
use std::alloc::Global;
use std::convert::Infallible;
use std::ops::Bound;
use version_ranges::Ranges;

// The number at an index, 0 if there is none.
fn number_at(release: &[u64], index: usize) -> u64
    ensures { result ≡ get_or release.now index 0 }
{
    release.get(index).copied().unwrap_or(0)
}

// Whether a release has more numbers than `python_version` has.
pub(crate) fn has_more(release: &[u64]) -> bool
    ensures { result ≡ has_more release.now }
{
    release.len() > 2
}

// `M.m` of a release.
fn minor_release(release: &[u64]) -> [u64; 2]
    ensures { result ≡ minor_release release.now }
{
    [number_at(release, 0), number_at(release, 1)]
}

// `M.(m+1)` of a release.
fn next_minor(release: &[u64]) -> Result<[u64; 2], Refusal<Infallible>>
    ensures value { IfOk result (λ next. next ≡ next_minor release.now) }
    ensures refused { RefusedWhere result (IsGreatest (minor_raised release.now)) }
{
    let Some(next) = number_at(release, 1).checked_add(1) else {
        return Err(Refusal::SegmentAtEnd);
    };
    Ok([number_at(release, 0), next])
}

// The first `M.m` that is not below a release.
fn first_minor(release: &[u64]) -> Result<[u64; 2], Refusal<Infallible>>
    ensures value { IfOk result (λ first. first ≡ first_minor release.now) }
    ensures refused { RefusedWhere result (IsGreatest (first_minor_raised release.now)) }
{
    if has_more(release) {
        next_minor(release)
    } else {
        Ok(minor_release(release))
    }
}

// The full versions from `M.m` up to `M.(m+1)`.
pub(crate) fn minor_to_range(
    alloc: Global,
    release: &[u64],
) -> Result<Ranges<Version>, Refusal<Infallible>>
    ensures set { IfOk result (HasPoints (is_in_minor release.now)) }
    ensures bounds { IfOk result HasTrimmedBounds }
    ensures refused { RefusedWhere result (IsGreatest (minor_raised release.now)) }
{
    let minor = minor_release(release);
    let next = next_minor(release)?;
    let range = between(alloc, Bound::Included(&minor), Bound::Excluded(&next))?;
    Ok(range)
}

// The full versions whose `python_version` is a release.
fn same_minor_to_range(
    alloc: Global,
    release: &[u64],
) -> Result<Ranges<Version>, Refusal<Infallible>>
    ensures set { IfOk result (HasPoints (is_same_minor release.now)) }
    ensures bounds { IfOk result HasTrimmedBounds }
    ensures refused { RefusedWhere result (IsGreatest (same_minor_raised release.now)) }
{
    if has_more(release) {
        return Ok(Ranges::empty(alloc));
    }
    minor_to_range(alloc, release)
}

// The set of a comparison with a release as written. It is empty if the release has more numbers
// than `python_version`.
fn written_to_range(
    alloc: Global,
    operator: Operator,
    release: &[u64],
) -> Result<Ranges<Version>, Refusal<Infallible>>
    requires some { 0 < length release.now }
    requires compatible { operator ≡ Operator.TildeEqual → 2 ≤ length release.now }
    ensures set { IfOk result (HasPoints (is_in_written operator release.now)) }
    ensures bounds { IfOk result HasTrimmedBounds }
    ensures refused { RefusedWhere result (IsGreatest (written_raised operator release.now)) }
{
    if has_more(release) {
        return Ok(Ranges::empty(alloc));
    }
    release_to_range(alloc, operator, release)
}

// The full versions from `M.m` on.
fn from_minor(alloc: Global, minor: [u64; 2]) -> Result<Ranges<Version>, Refusal<Infallible>>
    ensures set { IfOk result (HasPoints (is_between (Included minor) Unbounded)) }
    ensures bounds { IfOk result HasTrimmedBounds }
    ensures refused { IfErr result (λ e. e ≡ OutOfMemory) }
{
    let range = between(alloc, Bound::Included(&minor), Bound::Unbounded)?;
    Ok(range)
}

// The full versions below `M.m`.
fn below_minor(alloc: Global, minor: [u64; 2]) -> Result<Ranges<Version>, Refusal<Infallible>>
    ensures set { IfOk result (HasPoints (is_between Unbounded (Excluded minor))) }
    ensures bounds { IfOk result HasTrimmedBounds }
    ensures refused { IfErr result (λ e. e ≡ OutOfMemory) }
{
    let range = between(alloc, Bound::Unbounded, Bound::Excluded(&minor))?;
    Ok(range)
}

// The set of a comparison, from the release as written and without the zeros at its end.
fn python_to_range(
    alloc: Global,
    operator: Operator,
    release: &[u64],
    trimmed: &[u64],
) -> Result<Ranges<Version>, Refusal<Infallible>>
    requires some { 0 < length release.now }
    requires compatible { operator ≡ Operator.TildeEqual → 2 ≤ length release.now }
    requires trimmed { trimmed.now ≡ trimmed_of release.now }
    ensures set { IfOk result (HasPoints (python_is_in operator release.now)) }
    ensures bounds { IfOk result HasTrimmedBounds }
    ensures refused { RefusedWhere result (PythonOverflows operator release.now) }
{
    match operator {
        Operator::Equal | Operator::ExactEqual => same_minor_to_range(alloc, trimmed),
        Operator::NotEqual => Ok(outside(alloc, &same_minor_to_range(alloc, trimmed)?)?),
        Operator::LessThan => below_minor(alloc, first_minor(trimmed)?),
        Operator::LessThanEqual => below_minor(alloc, next_minor(trimmed)?),
        Operator::GreaterThan => from_minor(alloc, next_minor(trimmed)?),
        Operator::GreaterThanEqual => from_minor(alloc, first_minor(trimmed)?),
        Operator::TildeEqual => written_to_range(alloc, operator, release),
        Operator::EqualStar => written_to_range(alloc, operator, release),
        Operator::NotEqualStar => {
            let star = written_to_range(alloc, Operator::EqualStar, release)?;
            Ok(outside(alloc, &star)?)
        }
    }
}

/// Returns the full versions of Python (`python_full_version`) whose `python_version` matches a
/// specifier.
///
/// Only the release of the specifier counts, as for
/// [`release_specifier_to_range`](crate::release_specifier_to_range). Except for stars and `~=` it
/// is taken without the zeros at its end, and `3` counts as `3.0`. `== 3.9` is from 3.9 up to 3.10,
/// without the upper end. No `python_version` has three numbers, so `== 3.9.1` matches nothing and
/// `< 3.9.1` is below 3.10. The bounds have no zeros at the end of their releases.
///
/// # Errors
/// - [`Refusal::SegmentAtEnd`] if an end would be above 2^64 - 1, also of the set that `!=` leaves
///   out.
/// - [`Refusal::OutOfMemory`] when memory runs out.
pub fn python_version_specifier_to_range(
    alloc: Global,
    specifier: &VersionSpecifier,
) -> Result<Ranges<Version>, Refusal<Infallible>>
    ensures set { IfOk result (HasPoints (points_of python_is_in specifier.now)) }
    ensures bounds { IfOk result HasTrimmedBounds }
    ensures refused { RefusedWhere result (HoldsOf PythonOverflows specifier.now) }
{
    let version = specifier.version();
    python_to_range(
        alloc,
        specifier.operator(),
        version.release(),
        version.trimmed_release(),
    )
}
