//! An iterator over the pieces of a function.
ghost use Rattle.std.specs.Prelude.{◌≡◌};
ghost use Rattle.version_ranges.specs.Cut.{lower_of, upper_of};
ghost use Rattle.std.specs.Range.Bound.{bound_map};

use crate::cut::Cut;
use crate::cuts::Cuts;
use std::ops::Bound;

impl<T> Cut<T> {
    // The lower bound of a piece that begins at this cut.
    pub(crate) fn lower(&self) -> Bound<&T>
        ensures { bound_map (λ v. v.now) result ≡ lower_of self.now }
    {
        if self.above {
            Bound::Excluded(&self.value)
        } else {
            Bound::Included(&self.value)
        }
    }

    // The upper bound of a piece that ends at this cut.
    pub(crate) fn upper(&self) -> Bound<&T>
        ensures { bound_map (λ v. v.now) result ≡ upper_of self.now }
    {
        if self.above {
            Bound::Included(&self.value)
        } else {
            Bound::Excluded(&self.value)
        }
    }
}

/// A borrowed piece of a function: the points between two bounds, of which there is at least one,
/// at which the function has one value.
#[derive(Clone, Copy)]
pub struct Piece<'a, T, V> {
    /// Where the piece begins: at a value, right above one, or `Unbounded` for the first piece.
    pub lower: Bound<&'a T>,
    /// Where it ends: with a value, right before one, or `Unbounded` for the last piece.
    pub upper: Bound<&'a T>,
    /// The value of the function at each of its points.
    pub value: &'a V,
}

/// The pieces of a function, in ascending order.
#[derive(Drop)]
pub struct Pieces<'a, T, V> {
    lower: Bound<&'a T>,
    value: Option<&'a V>,
    rest: &'a [(Cut<T>, V)],
}

impl<'a, T, V> Iterator for Pieces<'a, T, V> {
    ghost use Rattle.std.specs.Iterator.{YieldsFirstBy, item_count};
    ghost use Rattle.version_ranges.specs.Parts.{part_of, parts_left};

    type Item = Piece<'a, T, V>;

    ghost next_gives = { YieldsFirstBy part_of parts_left };

    ghost remaining = { item_count parts_left };

    fn next(&mut self) -> Option<Piece<'a, T, V>> {
        let value = self.value?;
        let lower = self.lower;
        match self.rest.split_first() {
            Some((step, rest)) => {
                self.lower = step.0.lower();
                self.value = Some(&step.1);
                self.rest = rest;
                Some(Piece {
                    lower,
                    upper: step.0.upper(),
                    value,
                })
            }
            None => {
                self.value = None;
                Some(Piece {
                    lower,
                    upper: Bound::Unbounded,
                    value,
                })
            }
        }
    }
}

impl<T: Ord, V> Cuts<T, V> {
    ghost use Rattle.version_ranges.specs.Parts.{parts_of, parts_left, ArePieces};

    /// Returns the pieces, in ascending order: the first begins below all values, each other one
    /// where the one before it ends, and the last has no end.
    pub fn pieces(&self) -> Pieces<'_, T, V>
        ensures items { parts_left result ≡ parts_of self.now }
        ensures pieces { ArePieces T.cmp self.now (parts_of self.now) }
    {
        Pieces {
            lower: Bound::Unbounded,
            value: Some(&self.first),
            rest: &self.rest,
        }
    }
}
