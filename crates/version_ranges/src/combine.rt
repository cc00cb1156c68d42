//! Set operations on two sets.
ghost use Rattle.std.specs.Prelude.{◌≡◌};
ghost use Rattle.version_ranges.specs.Taken.{takes};

use crate::cuts::Cuts;
use crate::ranges::Ranges;
use crate::sweep::Sweep;
use std::alloc::{AllocError, Global};

/// Which points of two sets are taken: those in at least one set, in both sets, or in only one set.
#[derive(Clone, Copy)]
pub(crate) enum Taken {
    InEither,
    InBoth,
    InOne,
}

impl Taken {
    // Whether a point is taken that is in the left set, or in the right set.
    fn takes(self, left: bool, right: bool) -> bool
        ensures { result ≡ takes self (left, right) }
    {
        match self {
            Taken::InEither => left || right,
            Taken::InBoth => left && right,
            Taken::InOne => left != right,
        }
    }
}

impl<T: Ord + Clone> Ranges<T> {
    ghost use Rattle.std.specs.Prelude.{IfOk};
    ghost use Rattle.std.specs.Set.{ClonesAreEqual};
    ghost use Rattle.version_ranges.specs.Bounds.{KeepsBoundsOfBoth};
    ghost use Rattle.version_ranges.specs.Ranges.{IsSet};
    ghost use Rattle.version_ranges.specs.Taken.{is_taken};

    // The points of two sets that are taken. A cut is cloned only if the taken points begin or end
    // there.
    pub(crate) fn taken_points(
        &self,
        alloc: Global,
        other: &Self,
        taken: Taken,
    ) -> Result<Self, AllocError>
        requires clones { ClonesAreEqual T.eq T.is_clone }
        ensures set { IfOk result (λ r. IsSet T.cmp r (is_taken T.cmp taken self.now other.now)) }
        ensures bounds { IfOk result (λ r. KeepsBoundsOfBoth T.is_clone self.now other.now r) }
    {
        let mut sweep = Sweep {
            left: &self.cuts.first,
            right: &other.cuts.first,
            lefts: &self.cuts.rest,
            rights: &other.cuts.rest,
        };
        let most = sweep.lefts.len().checked_add(sweep.rights.len());
        let mut rest = Vec::with_capacity(alloc, most.ok_or(AllocError)?)?;
        let first = taken.takes(*sweep.left, *sweep.right);
        let mut inside = first;
        while let Some((cut, _)) = sweep.next() {
            let next = taken.takes(*sweep.left, *sweep.right);
            if next != inside {
                rest.push((cut.clone()?, next))?;
                inside = next;
            }
        }
        Ok(Ranges {
            cuts: Cuts { first, rest },
        })
    }
}
