//! The child of a node that an environment selects.

ghost use Rattle.std.specs.Prelude.{◌≡◌, bytes_eq};
ghost use Rattle.std.specs.List.{list_any};
ghost use Rattle.marker_environment.specs.Environment.{valuation_of, values_of};
ghost use Rattle.marker_nodes.specs.Variable.{answer};
ghost use Rattle.marker_nodes.specs.Branches.{value_at};

use marker_environment::{MarkerEnvironment, is_part_of};
use marker_nodes::{Branches, Node, NodeId, TruthVariable};
use pep508_names::ExtraName;

// The child of a node that the environment with these extras selects.
pub(crate) fn child_in(node: &Node, environment: &MarkerEnvironment, extras: &[ExtraName]) -> NodeId
    ensures { result ≡ value_at node.now (valuation_of (values_of environment.now) extras.now) }
{
    match node {
        Branches::Version(variable, edges) => *edges.at(environment.get_version(&variable.key())),
        Branches::Text(variable, edges) => *edges.at_str(environment.text(*variable)),
        Branches::Truth(variable, high, low) => {
            if is_so(variable, environment, extras) {
                *high
            } else {
                *low
            }
        }
    }
}

// Whether the substring test or extra is true in the environment with these extras.
fn is_so(variable: &TruthVariable, environment: &MarkerEnvironment, extras: &[ExtraName]) -> bool
    ensures { result ≡ answer variable.now (valuation_of (values_of environment.now) extras.now) }
{
    match variable {
        TruthVariable::In(variable, text) => is_part_of(environment.text(*variable), text),
        TruthVariable::Contains(variable, text) => is_part_of(text, environment.text(*variable)),
        TruthVariable::Extra(name) => is_listed(name, extras),
        TruthVariable::Arbitrary(_) => false,
    }
}

/// Returns whether the extra is in the list.
pub fn is_listed(name: &ExtraName, extras: &[ExtraName]) -> bool
    ensures { result ≡ list_any (λ listed. bytes_eq listed name.now) extras.now }
{
    extras.iter().any(|listed| *listed == *name)
}
