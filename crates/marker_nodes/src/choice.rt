//! A variable with its children, ready to be placed in a table.

ghost use Rattle.std.specs.Prelude.{◌≡◌, true};
ghost use Rattle.marker_diagrams.specs.Id.{is_negated, signed_id};
ghost use Rattle.marker_nodes.specs.Branches.{has_trimmed_cuts, value_at};
ghost use Rattle.marker_nodes.specs.Node.{is_joined, lowest};

use crate::node::Node;
use marker_diagrams::NodeId;

/// A variable with a child for each piece of its values, which a table can place. Neighboring
/// pieces with the same child are joined.
#[derive(Drop)]
pub struct Choice {
    // The child of the first piece.
    pub(crate) first: NodeId,
    // The children, each negated if the first one is a negation.
    pub(crate) node: Node,
    pub ghost joined: { is_joined node ≡ true },
    pub ghost trimmed: { has_trimmed_cuts node ≡ true },
    pub ghost leading: { value_at node lowest ≡ signed_id (is_negated first) first },
}
