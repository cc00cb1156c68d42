//! Equality and clones of functions.
ghost use Rattle.std.specs.Prelude.{◌≡◌, true, false};
ghost use Rattle.version_ranges.specs.Bounds.{KeepsBounds, KeepsCuts};
ghost use Rattle.version_ranges.specs.Cuts.{AgreeEverywhere, DifferSomewhere, IsMerged};
ghost use Rattle.version_ranges.specs.Ranges.{DifferInPoint, HaveSamePoints};

use crate::cuts::Cuts;
use crate::ranges::Ranges;
use std::alloc::AllocError;

impl<T: Ord + Clone, V: Eq + Clone> Clone for Cuts<T, V> {
    // A clone is equal to its source, means the same function, and its cuts are at clones of the
    // values.
    ghost is_clone = { λ f g. (⟦<Cuts<T, V> as PartialEq>⟧.eq f g ≡ true)
        × AgreeEverywhere T.cmp V.eq f g
        × KeepsCuts T.is_clone f g };

    // `Clone` has no law that a clone is equal to its source, so this fails if it is not.
    fn clone(&self) -> Result<Self, AllocError> {
        let first = self.first.clone()?;
        let rest = self.rest.clone()?;
        if self.first != first {
            return Err(AllocError);
        }
        if self.rest != rest {
            return Err(AllocError);
        }
        Ok(Cuts { first, rest })
    }
}

impl<T: Ord + Clone> Clone for Ranges<T> {
    // A clone is equal to its source, has the same points, and its bounds are at clones of the
    // values.
    ghost is_clone = { λ f g. (⟦<Ranges<T> as PartialEq>⟧.eq f g ≡ true)
        × HaveSamePoints T.cmp f g
        × KeepsBounds T.is_clone f g };

    fn clone(&self) -> Result<Self, AllocError> {
        let cuts = self.cuts.clone()?;
        Ok(Ranges { cuts })
    }
}

/// A law; the call does nothing. Functions whose neighboring pieces differ, such as those of
/// `with_values`, are equal exactly if they have equal values at every point.
pub fn equal_where_same<T: Ord, V: Eq>(left: &Cuts<T, V>, right: &Cuts<T, V>)
    requires left_merged { IsMerged V.eq left.now }
    requires right_merged { IsMerged V.eq right.now }
    ensures equal { ⟦<Cuts<T, V> as PartialEq>⟧.eq left.now right.now ≡ true
        → AgreeEverywhere T.cmp V.eq left.now right.now }
    ensures unequal { ⟦<Cuts<T, V> as PartialEq>⟧.eq left.now right.now ≡ false
        → DifferSomewhere T.cmp V.eq left.now right.now }
{}

/// A law; the call does nothing. Sets are equal exactly if they have the same points.
pub fn equal_where_same_points<T: Ord>(left: &Ranges<T>, right: &Ranges<T>)
    ensures equal { ⟦<Ranges<T> as PartialEq>⟧.eq left.now right.now ≡ true
        → HaveSamePoints T.cmp left.now right.now }
    ensures unequal { ⟦<Ranges<T> as PartialEq>⟧.eq left.now right.now ≡ false
        → DifferInPoint T.cmp left.now right.now }
{}
