//! The levels of nodes: one for each variable.

use crate::drawing::Drawing;
use marker_graph::Interner;
use marker_nodes::Node;
use std::alloc::AllocError;
use std::cmp::Ordering;

/// The level of each node. Nodes of one variable have one level, and those of later variables lower
/// ones.
#[derive(Debug, Drop)]
pub(crate) struct Levels {
    pub(crate) levels: Vec<usize>,
    /// How many there are.
    pub(crate) count: usize,
}

// A node of the table, and the index of its node in the drawing.
#[derive(Clone, Copy)]
struct Ranked<'i> {
    node: &'i Node,
    index: usize,
}

// The nodes in the order of their variables.
fn ordered<'i>(interner: &'i Interner, drawing: &Drawing) -> Result<Vec<Ranked<'i>>, AllocError> {
    let mut ranked = Vec::new(interner.allocator());
    for (index, drawn) in drawing.nodes.iter().enumerate() {
        if let Some(node) = interner.table().node(drawn.tree.id()) {
            ranked.push(Ranked { node, index })?;
        }
    }
    ranked.sort_by(|one, other| one.node.cmp_variable(other.node))?;
    Ok(ranked)
}

/// Returns the levels of the nodes of a drawing.
pub(crate) fn levels_of(interner: &Interner, drawing: &Drawing) -> Result<Levels, AllocError> {
    let alloc = interner.allocator();
    let mut levels = vec![in alloc; 0usize; drawing.nodes.len()]?;
    let mut count = 0usize;
    let mut before: Option<&Node> = None;
    for entry in &ordered(interner, drawing)? {
        let is_same = match before {
            Some(node) => node.cmp_variable(entry.node) == Ordering::Equal,
            None => false,
        };
        if !is_same {
            count = count.saturating_add(1);
        }
        before = Some(entry.node);
        if let Some(level) = levels.get_mut(entry.index) {
            *level = count.saturating_sub(1);
        }
    }
    Ok(Levels { levels, count })
}
