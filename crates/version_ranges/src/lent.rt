//! Borrowed functions.
ghost use Rattle.std.specs.Prelude.{◌≡◌, None, true};
ghost use Rattle.version_ranges.specs.Cut.{cut_cmp};
ghost use Rattle.version_ranges.specs.Steps.{ascends};

use crate::cut::Cut;
use crate::cuts::Cuts;

/// A borrowed function of the points of an order: that of a [`Cuts`](crate::Cuts), or one with the
/// same value at every point, which needs no `Cuts`. It compares two functions of which one may be
/// constant, without an allocation.
#[derive(Drop)]
pub struct CutsRef<'a, T: Ord, V> {
    // The value before all cuts.
    pub(crate) first: &'a V,
    // Each cut with the value from it on.
    pub(crate) rest: &'a [(Cut<T>, V)],
    pub ghost ascending: { ascends (cut_cmp T.cmp) None rest.now ≡ true },
}

impl<T: Ord, V> Cuts<T, V> {
    ghost use Rattle.std.specs.Prelude.{◌≡◌, Bool};
    ghost use Rattle.version_ranges.specs.Bounds.{all_cuts};
    ghost use Rattle.version_ranges.specs.Lent.{IsLent, all_lent_cuts};

    /// Borrows the function.
    pub fn lend(&self) -> CutsRef<'_, T, V>
        ensures values { IsLent self.now result }
        ensures bounds { (test : T → Bool) → all_lent_cuts test result ≡ all_cuts test self.now }
    {
        CutsRef {
            first: &self.first,
            rest: &self.rest,
        }
    }
}

impl<'a, T: Ord, V> CutsRef<'a, T, V> {
    ghost use Rattle.std.specs.Prelude.{◌≡◌, Bool, true};
    ghost use Rattle.version_ranges.specs.Lent.{HasValueEverywhere, all_lent_cuts};

    /// Returns the function with the same value at every point.
    pub fn constant(value: &'a V) -> Self
        ensures value { HasValueEverywhere value.now result }
        ensures bounds { (test : T → Bool) → all_lent_cuts test result ≡ true }
    {
        CutsRef {
            first: value,
            rest: &[],
        }
    }
}
