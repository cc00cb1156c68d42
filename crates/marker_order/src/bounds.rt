//! The order of bounds.

ghost use Rattle.std.specs.Prelude.{◌≡◌};
ghost use Rattle.version_ranges.specs.Clamp.{bound_of};
ghost use Rattle.marker_order.specs.Turns.{lower_cmp, upper_cmp};

use std::cmp::Ordering;
use std::ops::Bound;

// The order of two lower bounds: by where the ranges begin.
pub(crate) fn lower_order<T: Ord>(bound: Bound<&T>, other: Bound<&T>) -> Ordering
    ensures { result ≡ lower_cmp T.cmp (bound_of bound.entry) (bound_of other.entry) }
{
    match (bound, other) {
        (Bound::Unbounded, Bound::Unbounded) => Ordering::Equal,
        (Bound::Unbounded, Bound::Included(_)) => Ordering::Less,
        (Bound::Unbounded, Bound::Excluded(_)) => Ordering::Less,
        (Bound::Included(_), Bound::Unbounded) => Ordering::Greater,
        (Bound::Included(v), Bound::Included(w)) => v.cmp(w),
        (Bound::Included(v), Bound::Excluded(w)) => v.cmp(w).then(Ordering::Less),
        (Bound::Excluded(_), Bound::Unbounded) => Ordering::Greater,
        (Bound::Excluded(v), Bound::Included(w)) => v.cmp(w).then(Ordering::Greater),
        (Bound::Excluded(v), Bound::Excluded(w)) => v.cmp(w),
    }
}

// The order of two upper bounds: by where the ranges end.
pub(crate) fn upper_order<T: Ord>(bound: Bound<&T>, other: Bound<&T>) -> Ordering
    ensures { result ≡ upper_cmp T.cmp (bound_of bound.entry) (bound_of other.entry) }
{
    match (bound, other) {
        (Bound::Unbounded, Bound::Unbounded) => Ordering::Equal,
        (Bound::Unbounded, Bound::Included(_)) => Ordering::Greater,
        (Bound::Unbounded, Bound::Excluded(_)) => Ordering::Greater,
        (Bound::Included(_), Bound::Unbounded) => Ordering::Less,
        (Bound::Included(v), Bound::Included(w)) => v.cmp(w),
        (Bound::Included(v), Bound::Excluded(w)) => v.cmp(w).then(Ordering::Greater),
        (Bound::Excluded(_), Bound::Unbounded) => Ordering::Less,
        (Bound::Excluded(v), Bound::Included(w)) => v.cmp(w).then(Ordering::Less),
        (Bound::Excluded(v), Bound::Excluded(w)) => v.cmp(w),
    }
}
