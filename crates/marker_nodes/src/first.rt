//! The conjunctions that need no node.

ghost use Rattle.std.specs.Prelude.{◌<◌, IfNone, IfSome};
ghost use Rattle.marker_diagrams.specs.Id.{place_of};
ghost use Rattle.marker_nodes.specs.And.{IsAndEverywhere, IsShort};

use marker_diagrams::NodeId;

/// Returns the conjunction of two ids if it needs no node: if one is a constant, both are equal, or
/// one is the negation of the other.
pub fn short_cut(a: NodeId, b: NodeId) -> Option<NodeId>
    ensures short { IfSome result (IsAndEverywhere a b) }
    ensures needless { IfSome result (λ t. IsShort a b) }
    ensures nodes { IfNone result ((0 < place_of a) × (0 < place_of b)) }
    ensures other { IfNone result (IsShort a b → ⊥) }
{
    if a == NodeId::FALSE {
        return Some(a);
    }
    if a == NodeId::TRUE {
        return Some(b);
    }
    if b == NodeId::FALSE {
        return Some(b);
    }
    if b == NodeId::TRUE {
        return Some(a);
    }
    if a == b.not() {
        return Some(NodeId::FALSE);
    }
    if a == b {
        return Some(b);
    }
    None
}
