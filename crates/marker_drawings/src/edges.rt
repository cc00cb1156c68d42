//! The edges of a node.

ghost use Rattle.std.specs.Prelude.{◌∷◌, [], IfOk};
ghost use Rattle.marker_drawings.specs.Drawing.{subtrees_of, text_subtrees, version_subtrees};
ghost use Rattle.marker_drawings.specs.Numbering.{AddsEdges};

use crate::drawing::DrawnEdge;
use crate::numbering::target_of;
use indexmap::IndexSet;
use marker_graph::{MarkerTree, MarkerTreeKind, StringMarkerTree, VersionMarkerTree};
use marker_witnesses::{answer_word, text_label, version_label};
use std::alloc::{AllocError, Global};

/// Returns the edges of a marker's node. Adds the markers of the nodes that they lead to.
pub(crate) fn edges_of(
    alloc: Global,
    kind: &MarkerTreeKind<'_>,
    found: &mut IndexSet<MarkerTree>,
) -> Result<Vec<DrawnEdge>, AllocError>
    ensures { IfOk result (AddsEdges found.old.keys found.new.keys (subtrees_of kind.now)) }
{
    match kind {
        MarkerTreeKind::True => Ok(Vec::new(alloc)),
        MarkerTreeKind::False => Ok(Vec::new(alloc)),
        MarkerTreeKind::Version(view) => edges_of_versions(alloc, *view, found),
        MarkerTreeKind::String(view) => edges_of_texts(alloc, *view, found),
        MarkerTreeKind::In(view) => {
            edges_of_answers(alloc, view.edge(true), view.edge(false), found)
        }
        MarkerTreeKind::Contains(view) => {
            edges_of_answers(alloc, view.edge(true), view.edge(false), found)
        }
        MarkerTreeKind::Extra(view) => {
            edges_of_answers(alloc, view.edge(true), view.edge(false), found)
        }
    }
}

// The edges of a node that branches on a version.
fn edges_of_versions(
    alloc: Global,
    view: VersionMarkerTree<'_>,
    found: &mut IndexSet<MarkerTree>,
) -> Result<Vec<DrawnEdge>, AllocError>
    ensures { IfOk result (AddsEdges found.old.keys found.new.keys (version_subtrees view.entry)) }
{
    let mut edges = Vec::new(alloc);
    for edge in view.edges() {
        let (lower, upper, subtree) = edge;
        let label = version_label(alloc, lower, upper)?;
        let target = target_of(subtree, found)?;
        edges.push(DrawnEdge { label, target })?;
    }
    Ok(edges)
}

// The edges of a node that branches on a text.
fn edges_of_texts(
    alloc: Global,
    view: StringMarkerTree<'_>,
    found: &mut IndexSet<MarkerTree>,
) -> Result<Vec<DrawnEdge>, AllocError>
    ensures { IfOk result (AddsEdges found.old.keys found.new.keys (text_subtrees view.entry)) }
{
    let mut edges = Vec::new(alloc);
    for edge in view.children() {
        let (lower, upper, subtree) = edge;
        let label = text_label(alloc, lower, upper)?;
        let target = target_of(subtree, found)?;
        edges.push(DrawnEdge { label, target })?;
    }
    Ok(edges)
}

// The edges of a node that branches on a substring test or an extra.
fn edges_of_answers(
    alloc: Global,
    high: MarkerTree,
    low: MarkerTree,
    found: &mut IndexSet<MarkerTree>,
) -> Result<Vec<DrawnEdge>, AllocError>
    ensures { IfOk result (AddsEdges found.old.keys found.new.keys (high ∷ low ∷ [])) }
{
    let yes = target_of(high, found)?;
    let no = target_of(low, found)?;
    let mut edges = Vec::new(alloc);
    edges.push(DrawnEdge {
        label: String::from_str(alloc, answer_word(true))?,
        target: yes,
    })?;
    edges.push(DrawnEdge {
        label: String::from_str(alloc, answer_word(false))?,
        target: no,
    })?;
    Ok(edges)
}
