//! The edges of two nodes side by side, as far as the order depends on them.

ghost use Rattle.std.specs.Prelude.{◌≡◌};
ghost use Rattle.marker_order.specs.Turns.{turn_of, turns_left, turns_of};
ghost use Rattle.version_ranges.specs.Parts.{part_of};

use crate::bounds::{lower_order, upper_order};
use marker_nodes::{Branches, Node, NodeId};
use pep440_version::Version;
use std::cmp::Ordering;
use version_ranges::{Piece, Pieces};

// What comes next in the comparison of two nodes.
#[derive(Clone, Copy)]
pub(crate) enum Turn {
    // The edges have different bounds, or one of the nodes has no more: this is their order.
    Told(Ordering),
    // The edges have the same bounds: the order is that of these children, up to the signs of the
    // ids.
    Below(NodeId, NodeId),
}

// The edges of two nodes on one variable whose values are ordered.
#[derive(Drop)]
pub(crate) struct Edges<'a, T> {
    left: Pieces<'a, T, NodeId>,
    right: Pieces<'a, T, NodeId>,
}

impl<'a, T: Ord> Iterator for Edges<'a, T> {
    ghost use Rattle.std.specs.Iterator.{YieldsFirst, item_count};
    ghost use Rattle.marker_order.specs.Turns.{edges_left};

    type Item = Turn;

    ghost next_gives = { YieldsFirst (edges_left T.cmp) };

    ghost remaining = { item_count (edges_left T.cmp) };

    fn next(&mut self) -> Option<Turn> {
        match (self.left.next(), self.right.next()) {
            (None, None) => None,
            (None, Some(_)) => Some(Turn::Told(Ordering::Less)),
            (Some(_), None) => Some(Turn::Told(Ordering::Greater)),
            (Some(left), Some(right)) => Some(next_turn(left, right)),
        }
    }
}

// The turn at two edges.
fn next_turn<T: Ord>(left: Piece<'_, T, NodeId>, right: Piece<'_, T, NodeId>) -> Turn
    ensures { result ≡ turn_of T.cmp (part_of left.entry) (part_of right.entry) }
{
    let order = lower_order(left.lower, right.lower).then(upper_order(left.upper, right.upper));
    match order {
        Ordering::Equal => Turn::Below(*left.value, *right.value),
        Ordering::Less => Turn::Told(Ordering::Less),
        Ordering::Greater => Turn::Told(Ordering::Greater),
    }
}

// The turns of two nodes on one variable.
#[derive(Drop)]
pub(crate) enum Turns<'a> {
    Versions(Edges<'a, Version>),
    Texts(Edges<'a, String>),
    Both((NodeId, NodeId), (NodeId, NodeId)),
    Last((NodeId, NodeId)),
    Done,
}

impl<'a> Iterator for Turns<'a> {
    ghost use Rattle.std.specs.Iterator.{YieldsFirst, item_count};

    type Item = Turn;

    ghost next_gives = { YieldsFirst turns_left };

    ghost remaining = { item_count turns_left };

    fn next(&mut self) -> Option<Turn> {
        match self {
            Turns::Versions(edges) => edges.next(),
            Turns::Texts(edges) => edges.next(),
            Turns::Both(high, low) => {
                let (high, low) = (*high, *low);
                *self = Turns::Last(low);
                Some(Turn::Below(high.0, high.1))
            }
            Turns::Last(low) => {
                let low = *low;
                *self = Turns::Done;
                Some(Turn::Below(low.0, low.1))
            }
            Turns::Done => None,
        }
    }
}

// The turns of two nodes that branch on one variable.
pub(crate) fn side_by_side<'a>(left: &'a Node, right: &'a Node) -> Turns<'a>
    ensures { turns_left result ≡ turns_of left.now right.now }
{
    match (left, right) {
        (Branches::Version(_, left), Branches::Version(_, right)) => Turns::Versions(Edges {
            left: left.pieces(),
            right: right.pieces(),
        }),
        (Branches::Text(_, left), Branches::Text(_, right)) => Turns::Texts(Edges {
            left: left.pieces(),
            right: right.pieces(),
        }),
        (Branches::Truth(_, high, low), Branches::Truth(_, other_high, other_low)) => {
            Turns::Both((*high, *other_high), (*low, *other_low))
        }
        (Branches::Version(_, _), Branches::Text(_, _)) => Turns::Done,
        (Branches::Version(_, _), Branches::Truth(_, _, _)) => Turns::Done,
        (Branches::Text(_, _), Branches::Version(_, _)) => Turns::Done,
        (Branches::Text(_, _), Branches::Truth(_, _, _)) => Turns::Done,
        (Branches::Truth(_, _, _), Branches::Version(_, _)) => Turns::Done,
        (Branches::Truth(_, _, _), Branches::Text(_, _)) => Turns::Done,
    }
}
