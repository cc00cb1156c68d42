//! The numbers of nodes.

ghost use Rattle.std.specs.Prelude.{◌∷◌, [], IfOk};
ghost use Rattle.marker_drawings.specs.Numbering.{Numbers};

use crate::drawing::Target;
use indexmap::IndexSet;
use marker_graph::MarkerTree;
use std::alloc::AllocError;

/// Returns where an edge to a marker leads. A marker that has a node and is not in the list is
/// added to it.
pub(crate) fn target_of(
    tree: MarkerTree,
    found: &mut IndexSet<MarkerTree>,
) -> Result<Target, AllocError>
    ensures { IfOk result (λ t. Numbers found.old.keys found.new.keys (tree ∷ []) (t ∷ [])) }
{
    if tree.is_true() {
        return Ok(Target::True);
    }
    if tree.is_false() {
        return Ok(Target::False);
    }
    let (index, _) = found.insert_full(tree)?;
    Ok(Target::Node(index))
}
