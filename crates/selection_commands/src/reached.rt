//! The subtrees of an id that a target leads to.

ghost use Rattle.std.specs.Prelude.{IfOk, IfSome, OnOk, length};
ghost use Rattle.marker_diagrams.specs.Diagram.{IsHeld, IsStore};
ghost use Rattle.marker_nodes.specs.Node.{markers};
ghost use Rattle.marker_walks.specs.Subtrees.{AddsFirst};
ghost use Rattle.selection_commands.specs.Reached.{AddsReached, AreReached, IsSettled};

use crate::target::{Target, child_in};
use indexmap::IndexSet;
use marker_nodes::{Node, NodeId, NodeTable};
use std::alloc::{AllocError, Global};

/// The subtree of an id with the same truth in the target that is a constant or branches on a value
/// that is not known.
pub(crate) fn settled(table: &NodeTable, id: NodeId, target: &Target) -> NodeId
    requires rules { IsStore markers table.now }
    requires held { IsHeld table.now id }
    ensures { IsSettled target.now table.now id result }
{
    let mut at = id;
    while let Some(node) = table.node(at) {
        let Some(child) = child_in(target, node) else {
            return at;
        };
        at = child.negate(at);
    }
    at
}

/// The subtrees of an id that environments of the target lead to, the id itself first. Returns
/// `None` if there are more than `most`.
pub(crate) fn reached(
    table: &NodeTable,
    id: NodeId,
    target: &Target,
    most: usize,
) -> Result<Option<IndexSet<NodeId>>, AllocError>
    requires rules { IsStore markers table.now }
    requires held { IsHeld table.now id }
    ensures { IfOk result (λ found. IfSome found
        (λ ids. AreReached target.now table.now id ids.keys)) }
{
    let alloc = table.allocator();
    let mut found = IndexSet::new(alloc);
    found.insert(id)?;
    for index in 0..most {
        let Some(parent) = found.get_index(index).copied() else {
            return Ok(Some(found));
        };
        if let Some(node) = table.node(parent) {
            add_children(alloc, target, node, parent, &mut found)?;
        }
    }
    if found.len() <= most {
        Ok(Some(found))
    } else {
        Ok(None)
    }
}

// Adds the children of a node that the target leads to, as those of its id: negated if the id is.
fn add_children(
    alloc: Global,
    target: &Target,
    node: &Node,
    parent: NodeId,
    found: &mut IndexSet<NodeId>,
) -> Result<(), AllocError>
    ensures { OnOk result
        (AddsReached target.now node.now parent found.old.keys found.new.keys) }
{
    match child_in(target, node) {
        Some(child) => {
            found.insert(child.negate(parent))?;
            Ok(())
        }
        None => {
            let children = node.values(alloc)?;
            add_ids(&children, parent, found)
        }
    }
}

// Adds the ids of a list: negated if the parent is.
fn add_ids(
    children: &[NodeId],
    parent: NodeId,
    found: &mut IndexSet<NodeId>,
) -> Result<(), AllocError>
    ensures { OnOk result (AddsFirst parent children.now (length children.now)
        found.old.keys found.new.keys) }
{
    for index in 0..children.len() {
        found.insert(children[index].negate(parent))?;
    }
    Ok(())
}
