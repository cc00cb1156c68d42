//! Two functions side by side.
use crate::cuts::Cuts;
use crate::sweep::Sweep;
use std::alloc::{AllocError, Global};

impl<T: Ord + Clone, V: Eq + Clone> Cuts<T, V> {
    ghost use Rattle.version_ranges.specs.Cuts.{piece_sum, HasPairs, IsMadeWithin};
    ghost use Rattle.std.specs.Set.{ClonesAreEqual};
    ghost use Rattle.std.specs.Prelude.{IfOk};
    ghost use Rattle.version_ranges.specs.Bounds.{KeepsCutsOfBoth};

    /// Returns the function whose value at each point is the pair of the values of both functions,
    /// and how many pairs of cuts were compared to make it. Of functions of a and b pieces it has
    /// at most a + b - 1 pieces, after at most a + b - 2 comparisons.
    pub fn overlay<W: Eq + Clone>(
        &self,
        alloc: Global,
        other: &Cuts<T, W>,
    ) -> Result<(Cuts<T, (V, W)>, usize), AllocError>
        requires clones { ClonesAreEqual T.eq T.is_clone }
        requires left_clones { ClonesAreEqual V.eq V.is_clone }
        requires right_clones { ClonesAreEqual W.eq W.is_clone }
        ensures pairs { IfOk result (λ r. HasPairs T.cmp V.eq W.eq r.0 self.now other.now) }
        ensures sizes { IfOk result (λ r. IsMadeWithin (piece_sum self.now other.now) r.0 r.1) }
        ensures bounds { IfOk result (λ r. KeepsCutsOfBoth T.is_clone self.now other.now r.0) }
    {
        let most = self
            .rest
            .len()
            .checked_add(other.rest.len())
            .ok_or(AllocError)?;
        let mut rest = Vec::with_capacity(alloc, most)?;
        let first = (self.first.clone()?, other.first.clone()?);
        let mut comparisons = 0;
        let mut sweep = Sweep {
            left: &self.first,
            right: &other.first,
            lefts: &self.rest,
            rights: &other.rest,
        };
        while let Some((cut, compared)) = sweep.next() {
            rest.push((cut.clone()?, (sweep.left.clone()?, sweep.right.clone()?)))?;
            comparisons += compared;
        }
        Ok((Cuts { first, rest }, comparisons))
    }
}
