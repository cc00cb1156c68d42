//! A walk over the cuts of two functions.
ghost use Rattle.std.specs.Prelude.{◌≡◌, ◌+◌, ◌<◌, ◌≤◌, [], IfNone, IfSome};
ghost use Rattle.version_ranges.specs.Sweep.{Passes, cuts_left, steps_left};

use crate::cut::Cut;
use std::cmp::Ordering;

// A walk over the cuts of two functions in ascending order: the values before the cuts that are
// left, and these cuts.
#[derive(Drop)]
pub(crate) struct Sweep<'a, T, V, W> {
    pub(crate) left: &'a V,
    pub(crate) right: &'a W,
    pub(crate) lefts: &'a [(Cut<T>, V)],
    pub(crate) rights: &'a [(Cut<T>, W)],
}

impl<'a, T: Ord, V, W> Sweep<'a, T, V, W> {
    // Moves past the next cut of either function. Returns the cut, and how many pairs of cuts were
    // compared to find it.
    pub(crate) fn next(&mut self) -> Option<(&'a Cut<T>, usize)>
        ensures end { IfNone result (steps_left T.cmp self.old ≡ []) }
        ensures next { IfSome result (λ r. Passes T.cmp r.0.now self.old self.new) }
        ensures fewer { IfSome result (λ _. cuts_left self.new < cuts_left self.old) }
        ensures comparisons { IfSome result (λ r. r.1 ≤ 1) }
    {
        match (self.lefts.split_first(), self.rights.split_first()) {
            (None, None) => None,
            (Some((x, lefts)), None) => {
                self.left = &x.1;
                self.lefts = lefts;
                Some((&x.0, 0))
            }
            (None, Some((y, rights))) => {
                self.right = &y.1;
                self.rights = rights;
                Some((&y.0, 0))
            }
            (Some((x, lefts)), Some((y, rights))) => {
                let order = x.0.cmp(&y.0);
                if order.is_le() {
                    self.left = &x.1;
                    self.lefts = lefts;
                }
                if order.is_ge() {
                    self.right = &y.1;
                    self.rights = rights;
                }
                let cut = if order.is_le() { &x.0 } else { &y.0 };
                Some((cut, 1))
            }
        }
    }
}
