//! The subtrees of an id.

ghost use Rattle.std.specs.Prelude.{IfNone, IfOk, IfSome, OnOk, length};
ghost use Rattle.marker_diagrams.specs.Residue.{AreExactly, IsSubtree};
ghost use Rattle.marker_nodes.specs.Node.{markers};
ghost use Rattle.marker_walks.specs.Subtrees.{AddsChildren, AddsFirst, AreMoreThan};

use indexmap::IndexSet;
use marker_nodes::{Node, NodeId, NodeTable};
use std::alloc::{AllocError, Global};

/// The subtrees of an id, each once and the id itself first: the id, and the children of each
/// subtree. Returns `None` if there are more than `most`.
pub fn subtrees(
    table: &NodeTable,
    id: NodeId,
    most: usize,
) -> Result<Option<IndexSet<NodeId>>, AllocError>
    ensures subtrees { IfOk result (λ found. IfSome found
        (λ ids. AreExactly (IsSubtree markers table.now id) ids.keys)) }
    ensures more { IfOk result (λ found. IfNone found
        (AreMoreThan most (IsSubtree markers table.now id))) }
{
    let alloc = table.allocator();
    let mut found = IndexSet::new(alloc);
    found.insert(id)?;
    for index in 0..most {
        let Some(parent) = found.get_index(index).copied() else {
            return Ok(Some(found));
        };
        if let Some(node) = table.node(parent) {
            add_children(alloc, node, parent, &mut found)?;
        }
    }
    if found.len() <= most {
        Ok(Some(found))
    } else {
        Ok(None)
    }
}

// Adds the children of a node, as those of its id: negated if the id is.
fn add_children(
    alloc: Global,
    node: &Node,
    parent: NodeId,
    found: &mut IndexSet<NodeId>,
) -> Result<(), AllocError>
    ensures { OnOk result (AddsChildren node.now parent found.old.keys found.new.keys) }
{
    let children = node.values(alloc)?;
    add_ids(&children, parent, found)
}

// Adds the ids of a list: negated if the parent is.
fn add_ids(
    children: &[NodeId],
    parent: NodeId,
    found: &mut IndexSet<NodeId>,
) -> Result<(), AllocError>
    ensures { OnOk result (AddsFirst parent children.now (length children.now)
        found.old.keys found.new.keys) }
{
    for index in 0..children.len() {
        found.insert(children[index].negate(parent))?;
    }
    Ok(())
}
