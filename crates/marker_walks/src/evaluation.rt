//! Evaluation.

ghost use Rattle.std.specs.Prelude.{◌≡◌};
ghost use Rattle.marker_diagrams.specs.Diagram as diagram;
ghost use Rattle.marker_nodes.specs.Node.{markers};
ghost use Rattle.marker_walks.specs.Evaluation.{truth_in};

use crate::child::child_in;
use marker_environment::MarkerEnvironment;
use marker_nodes::{NodeId, NodeTable};
use pep508_names::ExtraName;

/// Returns whether the id is true in the environment with these extras.
pub fn evaluate(
    nodes: &NodeTable,
    id: NodeId,
    environment: &MarkerEnvironment,
    extras: &[ExtraName],
) -> bool
    requires rules { diagram.IsStore markers nodes.now }
    requires id { diagram.IsHeld nodes.now id }
    ensures { result ≡ truth_in nodes.now id environment.now extras.now }
{
    let mut at = id;
    while let Some(node) = nodes.node(at) {
        at = child_in(node, environment, extras).negate(at);
    }
    !at.is_complement()
}
