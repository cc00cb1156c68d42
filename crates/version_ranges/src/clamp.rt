//! Functions moved into a range.
ghost use Rattle.std.specs.Prelude.{◌≡◌, IfOk, true, false};
ghost use Rattle.std.specs.Set.{ClonesAreEqual};
ghost use Rattle.version_ranges.specs.Bounds.{KeepsCuts};
ghost use Rattle.version_ranges.specs.Point.{at, begin_point, is_until};
ghost use Rattle.version_ranges.specs.Cut.{cut_point, stands_before};
ghost use Rattle.version_ranges.specs.Parts.{is_in, part_of};
ghost use Rattle.version_ranges.specs.Clamp.{HasPoint, IsBare, IsMovedInto, bound_of};

use crate::cut::Cut;
use crate::cuts::Cuts;
use crate::pieces::Piece;
use std::alloc::{AllocError, Global};
use std::cmp::Ordering;
use std::ops::Bound;

/// Returns whether there is a point between two bounds. Between `Excluded` 1 and `Excluded` 2 there
/// is the point right above 1, whatever values the order has.
pub fn has_point<T: Ord>(lower: Bound<&T>, upper: Bound<&T>) -> bool
    ensures some { result ≡ true → HasPoint T.cmp (bound_of lower.entry) (bound_of upper.entry) }
    ensures none { result ≡ false → IsBare T.cmp (bound_of lower.entry) (bound_of upper.entry) }
{
    begins_within(lower, upper)
}

// Whether the first point from a lower bound on is not above an upper bound.
fn begins_within<T: Ord>(lower: Bound<&T>, upper: Bound<&T>) -> bool
    ensures { result ≡ is_until T.cmp (bound_of upper.entry) (begin_point (bound_of lower.entry)) }
{
    match (lower, upper) {
        (_, Bound::Unbounded) => true,
        (Bound::Unbounded, Bound::Included(_)) => true,
        (Bound::Unbounded, Bound::Excluded(_)) => true,
        (Bound::Included(first), Bound::Included(last)) => first <= last,
        (Bound::Included(first), Bound::Excluded(end)) => first < end,
        (Bound::Excluded(before), Bound::Included(last)) => before < last,
        (Bound::Excluded(before), Bound::Excluded(end)) => before < end,
    }
}

impl<T: Ord> Cut<T> {
    // Whether this cut is after the first point of a range with this lower bound.
    fn is_after_begin(&self, lower: Bound<&T>) -> bool
        ensures { result
            ≡ stands_before (λ v. v) T.cmp (begin_point (bound_of lower.entry)) self.now }
    {
        match lower {
            Bound::Included(first) => self.is_after(first),
            Bound::Excluded(before) => *before < self.value,
            Bound::Unbounded => true,
        }
    }

    // Whether the point of this cut is not above an upper bound.
    fn is_before_end(&self, upper: Bound<&T>) -> bool
        ensures { result ≡ is_until T.cmp (bound_of upper.entry) (cut_point (λ v. v) self.now) }
    {
        match upper {
            Bound::Included(last) => match self.value.cmp(last) {
                Ordering::Less => true,
                Ordering::Equal => !self.above,
                Ordering::Greater => false,
            },
            Bound::Excluded(end) => self.value < *end,
            Bound::Unbounded => true,
        }
    }
}

impl<T: Ord + Clone, V: Eq + Clone> Cuts<T, V> {
    /// Returns the function moved into a range that is not empty: below the range it has the value
    /// of the first point, and above it the value that it has from some point of the range on.
    pub fn clamp(
        &self,
        alloc: Global,
        lower: Bound<&T>,
        upper: Bound<&T>,
    ) -> Result<Self, AllocError>
        requires clones { ClonesAreEqual T.eq T.is_clone }
        requires value_clones { ClonesAreEqual V.eq V.is_clone }
        requires point { HasPoint T.cmp (bound_of lower) (bound_of upper) }
        ensures clamped { IfOk result (IsMovedInto T.cmp V.eq lower.entry upper.entry self.now) }
        ensures bounds { IfOk result (λ r. KeepsCuts T.is_clone self.now r) }
    {
        let steps: &[(Cut<T>, V)] = &self.rest;
        let mut first = &self.first;
        let mut rest = Vec::with_capacity(alloc, steps.len())?;
        for step in steps {
            if !step.0.is_after_begin(lower) {
                first = &step.1;
            } else if step.0.is_before_end(upper) {
                let cut = step.0.clone()?;
                let value = step.1.clone()?;
                rest.push((cut, value))?;
            }
        }
        let first = first.clone()?;
        Ok(Cuts { first, rest })
    }
}

impl<T: Ord, V> Piece<'_, T, V> {
    /// Returns whether a value is in the piece.
    pub fn contains(&self, value: &T) -> bool
        ensures { result ≡ is_in T.cmp (part_of self.now) (at value.now) }
    {
        let is_from = match self.lower {
            Bound::Included(first) => first <= value,
            Bound::Excluded(before) => before < value,
            Bound::Unbounded => true,
        };
        let is_until = match self.upper {
            Bound::Included(last) => value <= last,
            Bound::Excluded(end) => value < end,
            Bound::Unbounded => true,
        };
        is_from && is_until
    }
}
