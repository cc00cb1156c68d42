//! An iterator over the intervals of a set.
ghost use Rattle.std.specs.Prelude.{◌≡◌};

use crate::pieces::Pieces;
use crate::ranges::Ranges;
use std::ops::Bound;

/// The intervals of a set, in ascending order: each is a lower and an upper bound.
#[derive(Drop)]
pub struct Intervals<'a, T> {
    pieces: Pieces<'a, T, bool>,
}

impl<'a, T> Iterator for Intervals<'a, T> {
    ghost use Rattle.std.specs.Iterator.{YieldsFirstBy, item_count};
    ghost use Rattle.version_ranges.specs.Intervals.{interval_of, intervals_left};

    type Item = (Bound<&'a T>, Bound<&'a T>);

    ghost next_gives = { YieldsFirstBy interval_of intervals_left };

    ghost remaining = { item_count intervals_left };

    fn next(&mut self) -> Option<(Bound<&'a T>, Bound<&'a T>)> {
        while let Some(piece) = self.pieces.next() {
            if *piece.value {
                return Some((piece.lower, piece.upper));
            }
        }
        None
    }
}

impl<T: Ord> Ranges<T> {
    ghost use Rattle.std.specs.Option.{option_map};
    ghost use Rattle.std.specs.Prelude.{◌≡◌};
    ghost use Rattle.version_ranges.specs.Bounds.{HasValuesOf, all_bounds, all_intervals};
    ghost use Rattle.version_ranges.specs.Clamp.{bound_of};
    ghost use Rattle.version_ranges.specs.Intervals.{interval_of, intervals_of, intervals_left, lower_from, span_of, upper_after, AreApart, AreIntervals};

    /// Returns the intervals of the set, in ascending order: none is empty, and no two touch.
    pub fn iter(&self) -> Intervals<'_, T>
        ensures items { intervals_left result ≡ intervals_of self.now }
        ensures intervals { AreIntervals T.cmp self.now (intervals_of self.now) }
        ensures apart { AreApart T.cmp (intervals_of self.now) }
        ensures bounds { HasValuesOf all_bounds self.now all_intervals (intervals_of self.now) }
    {
        Intervals {
            pieces: self.cuts.pieces(),
        }
    }

    /// Returns the smallest range that contains the set: from the lower bound of its first interval
    /// to the upper bound of its last one. `None` if the set is empty.
    pub fn bounding_range(&self) -> Option<(Bound<&T>, Bound<&T>)>
        ensures span { option_map interval_of result ≡ span_of (intervals_of self.now) }
        ensures intervals { AreIntervals T.cmp self.now (intervals_of self.now) }
    {
        let lower = self.first_lower()?;
        Some((lower, self.last_upper()))
    }

    // The lower bound of the first interval, if there is one.
    fn first_lower(&self) -> Option<Bound<&T>>
        ensures { option_map bound_of result
            ≡ lower_from self.now.cuts.first self.now.cuts.rest.items }
    {
        if self.cuts.first {
            return Some(Bound::Unbounded);
        }
        match self.cuts.rest.split_first() {
            Some((step, _)) => Some(step.0.lower()),
            None => None,
        }
    }

    // The upper bound of the last interval, if there is one.
    fn last_upper(&self) -> Bound<&T>
        ensures { bound_of result ≡ upper_after self.now.cuts.rest.items }
    {
        match self.cuts.rest.split_last() {
            Some((step, _)) => {
                if step.1 {
                    Bound::Unbounded
                } else {
                    step.0.upper()
                }
            }
            None => Bound::Unbounded,
        }
    }
}
