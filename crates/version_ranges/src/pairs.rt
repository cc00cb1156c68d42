//! An iterator over the values of two functions side by side.
use crate::cuts::Cuts;
use crate::lent::CutsRef;
use crate::sweep::Sweep;
use std::alloc::{AllocError, Global};

/// The values of two functions side by side, in ascending order of points: one pair from each cut
/// of either function on.
#[derive(Drop)]
pub struct Pairs<'a, T, V, W> {
    sweep: Sweep<'a, T, V, W>,
    // Whether the last pair was returned.
    is_done: bool,
}

impl<'a, T: Ord, V, W> Iterator for Pairs<'a, T, V, W> {
    ghost use Rattle.std.specs.Iterator.{YieldsFirstBy, item_count};
    ghost use Rattle.version_ranges.specs.Pairs.{pair_of, pairs_left};

    type Item = (&'a V, &'a W);

    ghost next_gives = { YieldsFirstBy pair_of (pairs_left T.cmp) };

    ghost remaining = { item_count (pairs_left T.cmp) };

    fn next(&mut self) -> Option<(&'a V, &'a W)> {
        if self.is_done {
            return None;
        }
        let pair = (self.sweep.left, self.sweep.right);
        self.is_done = self.sweep.next().is_none();
        Some(pair)
    }
}

impl<'a, T: Ord, V> CutsRef<'a, T, V> {
    ghost use Rattle.version_ranges.specs.Pairs.{pairs_left, AreInPieces, ArePairs};

    /// Returns the values of both functions side by side, in ascending order of points: the pair of
    /// each point, each taken at some point. This takes one comparison for each pair.
    pub fn pairs<W>(&self, other: &CutsRef<'a, T, W>) -> Pairs<'a, T, V, W>
        ensures pairs { ArePairs T.cmp self.now other.now (pairs_left T.cmp result) }
        ensures pieces { AreInPieces T.cmp self.now other.now (pairs_left T.cmp result) }
    {
        Pairs {
            sweep: Sweep {
                left: self.first,
                right: other.first,
                lefts: self.rest,
                rights: other.rest,
            },
            is_done: false,
        }
    }
}

impl<'a, T: Ord + Clone, V> CutsRef<'a, T, V> {
    ghost use Rattle.std.specs.Prelude.{◌≡◌, IfOk, length};
    ghost use Rattle.std.specs.Set.{ClonesAreEqual};
    ghost use Rattle.version_ranges.specs.Lent.{KeepsLentCuts};
    ghost use Rattle.version_ranges.specs.Cuts.{IsMerged};
    ghost use Rattle.version_ranges.specs.Pairs.{count_of_both, HasValuesOfPairs};

    /// Returns both functions side by side, with these values in order in place of the pairs of
    /// `pairs`, one for each pair. Neighbors with equal values are joined. A cut is cloned only if
    /// the values change there.
    pub fn pairs_with_values<W, X: Eq + Copy + Drop>(
        &self,
        alloc: Global,
        other: &CutsRef<'a, T, W>,
        values: &[X],
    ) -> Result<Cuts<T, X>, AllocError>
        requires clones { ClonesAreEqual T.eq T.is_clone }
        requires count { length values.now ≡ count_of_both T.cmp self.now other.now }
        ensures value { IfOk result
            (HasValuesOfPairs T.cmp X.eq self.now other.now values.now) }
        ensures merged { IfOk result (IsMerged X.eq) }
        ensures bounds { IfOk result (λ r. KeepsLentCuts T.is_clone self.now other.now r) }
    {
        let Some((first, mut later)) = values.split_first() else {
            unreachable!()
        };
        let mut last = *first;
        let mut rest = Vec::with_capacity(alloc, later.len())?;
        let mut sweep = Sweep {
            left: self.first,
            right: other.first,
            lefts: self.rest,
            rights: other.rest,
        };
        while let Some((cut, _)) = sweep.next() {
            let Some((value, others)) = later.split_first() else {
                unreachable!()
            };
            later = others;
            if *value != last {
                rest.push((cut.clone()?, *value))?;
                last = *value;
            }
        }
        Ok(Cuts {
            first: *first,
            rest,
        })
    }
}
