//! Environments of which some values are known.

ghost use Rattle.std.specs.Prelude.{◌≡◌};
ghost use Rattle.selection_commands.specs.Target.{known_answer, known_child};

use marker_answers::KnownValues;
use marker_environment::is_part_of;
use marker_nodes::{Branches, Node, NodeId, TruthVariable};
use marker_walks::is_listed;
use pep508_names::ExtraName;

/// Environments in which some keys have known values, and exactly some extras are requested.
#[derive(Debug, Drop)]
pub struct Target {
    /// The values of keys.
    pub known: KnownValues,
    /// The extras that are requested: these and no others.
    pub extras: Vec<ExtraName>,
}

// The answer to a substring test or an extra, if the target gives it.
fn answer_in(target: &Target, variable: &TruthVariable) -> Option<bool>
    ensures { result ≡ known_answer target.now variable.now }
{
    match variable {
        TruthVariable::In(key, text) => {
            let value = target.known.text(*key)?;
            Some(is_part_of(value, text))
        }
        TruthVariable::Contains(key, text) => {
            let value = target.known.text(*key)?;
            Some(is_part_of(text, value))
        }
        TruthVariable::Extra(name) => Some(is_listed(name, &target.extras)),
        TruthVariable::Arbitrary(_) => Some(false),
    }
}

// The child of a node that the target selects, if it has the node's value.
pub(crate) fn child_in(target: &Target, node: &Node) -> Option<NodeId>
    ensures { result ≡ known_child target.now node.now }
{
    match node {
        Branches::Version(key, edges) => {
            let value = target.known.version(*key)?;
            Some(*edges.at(value))
        }
        Branches::Text(key, edges) => {
            let value = target.known.text(*key)?;
            Some(*edges.at_str(value))
        }
        Branches::Truth(variable, high, low) => {
            if answer_in(target, variable)? {
                Some(*high)
            } else {
                Some(*low)
            }
        }
    }
}
