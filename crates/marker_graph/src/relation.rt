//! The relation of two markers.

ghost use Rattle.std.specs.Prelude.{IfSome};
ghost use Rattle.marker_graph.specs.Contents.{IsHeld, truth};
ghost use Rattle.marker_graph.specs.Relation.{Relates};

use crate::{Interner, MarkerTree};

/// How the environments in which two markers are true relate. The first variant that applies is the
/// relation.
#[derive(Clone, Copy, Debug, PartialEq, Eq, Hash)]
pub enum MarkerRelation {
    /// Both markers are true in the same environments.
    Equal,
    /// No environment satisfies both markers.
    Disjoint,
    /// Each environment that satisfies the first marker satisfies the second one.
    FirstImpliesSecond,
    /// Each environment that satisfies the second marker satisfies the first one.
    SecondImpliesFirst,
    /// Some environment satisfies both markers, and each is true somewhere without the other.
    Overlapping,
}

impl MarkerRelation {
    /// Returns the relation of two markers of an interner, or `None` if one of the three checks for
    /// disjointness takes more than `looks` visits of pairs of nodes. Allocates nothing.
    pub fn of(
        interner: &Interner,
        first: MarkerTree,
        second: MarkerTree,
        looks: usize,
    ) -> Option<MarkerRelation>
        requires first { IsHeld interner.now first }
        requires second { IsHeld interner.now second }
        ensures { IfSome result
            (Relates (truth interner.now first) (truth interner.now second)) }
    {
        if interner.equivalent(first, second) {
            return Some(MarkerRelation::Equal);
        }
        if first.is_disjoint_within(interner, second, looks)? {
            return Some(MarkerRelation::Disjoint);
        }
        if first.is_disjoint_within(interner, second.negate(), looks)? {
            return Some(MarkerRelation::FirstImpliesSecond);
        }
        if second.is_disjoint_within(interner, first.negate(), looks)? {
            return Some(MarkerRelation::SecondImpliesFirst);
        }
        Some(MarkerRelation::Overlapping)
    }
}
