//! Iterators over the edges of a marker.

use crate::tree::MarkerTree;
use marker_nodes::NodeId;
use pep440_version::Version;
use std::ops::Bound;
use version_ranges::Pieces;

/// The edges of a marker that branches on a version: lower bound, upper bound and subtree, in
/// ascending order.
#[derive(Drop)]
pub struct VersionEdges<'a> {
    pub(crate) tree: MarkerTree,
    pub(crate) pieces: Pieces<'a, Version, NodeId>,
}

impl<'a> Iterator for VersionEdges<'a> {
    ghost use Rattle.std.specs.Iterator.{YieldsFirstBy, item_count};
    ghost use Rattle.marker_graph.specs.Edges.{version_edge, version_edges_left};

    type Item = (Bound<&'a Version>, Bound<&'a Version>, MarkerTree);

    ghost next_gives = { YieldsFirstBy version_edge version_edges_left };

    ghost remaining = { item_count version_edges_left };

    fn next(&mut self) -> Option<(Bound<&'a Version>, Bound<&'a Version>, MarkerTree)> {
        let piece = self.pieces.next()?;
        Some((piece.lower, piece.upper, self.tree.child(*piece.value)))
    }
}

/// The edges of a marker that branches on a text: lower bound, upper bound and subtree, in
/// ascending order.
#[derive(Drop)]
pub struct StringEdges<'a> {
    pub(crate) tree: MarkerTree,
    pub(crate) pieces: Pieces<'a, String, NodeId>,
}

impl<'a> Iterator for StringEdges<'a> {
    ghost use Rattle.std.specs.Iterator.{YieldsFirstBy, item_count};
    ghost use Rattle.marker_graph.specs.Edges.{string_edge, string_edges_left};

    type Item = (Bound<&'a String>, Bound<&'a String>, MarkerTree);

    ghost next_gives = { YieldsFirstBy string_edge string_edges_left };

    ghost remaining = { item_count string_edges_left };

    fn next(&mut self) -> Option<(Bound<&'a String>, Bound<&'a String>, MarkerTree)> {
        let part = self.pieces.next()?;
        Some((part.lower, part.upper, self.tree.child(*part.value)))
    }
}

/// The edges of a marker that branches on a substring test or an extra: the subtree if it is true,
/// then the one if it is false.
#[derive(Drop)]
pub struct BooleanEdges {
    pub(crate) high: Option<MarkerTree>,
    pub(crate) low: Option<MarkerTree>,
}

impl Iterator for BooleanEdges {
    ghost use Rattle.std.specs.Iterator.{YieldsFirst, item_count};
    ghost use Rattle.marker_graph.specs.Edges.{boolean_edges_left};

    type Item = (bool, MarkerTree);

    ghost next_gives = { YieldsFirst boolean_edges_left };

    ghost remaining = { item_count boolean_edges_left };

    fn next(&mut self) -> Option<(bool, MarkerTree)> {
        match self.high.take() {
            Some(high) => Some((true, high)),
            None => {
                let low = self.low.take()?;
                Some((false, low))
            }
        }
    }
}
