//! The drawing of a marker: its nodes, each once, and where their edges lead.

ghost use Rattle.std.specs.Prelude.{◌≡◌, ◌≤◌, IfOk, IfSome, vec_len};
ghost use Rattle.marker_graph.specs.Contents.{IsHeld};
ghost use Rattle.marker_drawings.specs.Drawing.{IsDrawing};
ghost use Rattle.marker_drawings.specs.Numbering.{Draws};

use crate::edges::edges_of;
use crate::numbering::target_of;
use indexmap::IndexSet;
use marker_graph::{Interner, MarkerTree};
use marker_witnesses::variable_label;
use std::alloc::AllocError;

/// Where an edge leads.
#[derive(Clone, Copy, Debug, PartialEq, Eq)]
pub enum Target {
    /// The marker is true there.
    True,
    /// The marker is false there.
    False,
    /// To the node of this index.
    Node(usize),
}

/// An edge of a node.
#[derive(Debug, Drop)]
pub struct DrawnEdge {
    /// The values of the variable, as comparisons, or `yes` or `no`.
    pub label: String,
    pub target: Target,
}

/// A node of a drawing.
#[derive(Debug, Drop)]
pub struct DrawnNode {
    /// The marker whose first node it is.
    pub tree: MarkerTree,
    /// The variable on which it branches, as markers write it.
    pub label: String,
    /// The edges, in ascending order of their values; the one for true before the one for false.
    pub edges: Vec<DrawnEdge>,
}

/// The decision diagram of a marker.
#[derive(Debug, Drop)]
pub struct Drawing {
    /// Where the drawing begins.
    pub root: Target,
    /// Each node once, the marker's own first.
    pub nodes: Vec<DrawnNode>,
}

impl Drawing {
    /// Returns whether the drawing begins at a target, or an edge leads to it.
    pub fn leads_to(&self, target: Target) -> bool {
        if self.root == target {
            return true;
        }
        self.nodes
            .iter()
            .any(|node| node.edges.iter().any(|edge| edge.target == target))
    }
}

/// Returns the drawing of a marker, or `None` if it has more than `most` nodes.
pub fn draw(
    interner: &Interner,
    tree: MarkerTree,
    most: usize,
) -> Result<Option<Drawing>, AllocError>
    requires { IsHeld interner.now tree }
    ensures drawing { IfOk result (λ found. IfSome found (IsDrawing interner.now tree)) }
    ensures within { IfOk result (λ found. IfSome found (λ d. vec_len d.nodes ≤ most)) }
{
    let alloc = interner.allocator();
    let mut found = IndexSet::new(alloc);
    let root = target_of(tree, &mut found)?;
    let mut nodes = Vec::new(alloc);
    for index in 0..most {
        let Some(next) = found.get_index(index).copied() else {
            return Ok(Some(Drawing { root, nodes }));
        };
        let node = draw_node(interner, next, &mut found)?;
        nodes.push(node)?;
    }
    if found.len() <= most {
        Ok(Some(Drawing { root, nodes }))
    } else {
        Ok(None)
    }
}

// The node of a marker. Adds the markers of the nodes that its edges lead to.
fn draw_node(
    interner: &Interner,
    tree: MarkerTree,
    found: &mut IndexSet<MarkerTree>,
) -> Result<DrawnNode, AllocError>
    requires { IsHeld interner.now tree }
    ensures { IfOk result (Draws interner.now tree found.old.keys found.new.keys) }
{
    let kind = tree.kind(interner);
    let label = variable_label(interner.allocator(), &kind)?;
    let edges = edges_of(interner.allocator(), &kind, found)?;
    Ok(DrawnNode { tree, label, edges })
}
