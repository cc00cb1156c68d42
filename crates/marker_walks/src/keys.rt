//! The keys that a truth depends on.

ghost use Rattle.std.specs.Prelude.{◌≡◌, ◌↔◌, IsTrue};
ghost use Rattle.marker_diagrams.specs.Diagram.{IsHeld, IsStore, truth};
ghost use Rattle.marker_diagrams.specs.Residue.{AreExactly, IsSubtree};
ghost use Rattle.marker_nodes.specs.Branches.{variable};
ghost use Rattle.marker_nodes.specs.Node.{markers};
ghost use Rattle.marker_walks.specs.Keys.{is_about, key_name, AsksAbout, DependsOnKey};

use marker_nodes::{Branches, Node, NodeId, NodeTable, TruthVariable};
use marker_words::{TextVariable, VersionVariable};

/// A key of an environment.
#[derive(Clone, Copy, Debug, PartialEq, Eq)]
pub enum EnvironmentKey {
    /// A key whose value is a version.
    Version(VersionVariable),
    /// A key whose value is a text.
    Text(TextVariable),
}

impl EnvironmentKey {
    /// All keys, in the order of their names. `python_version` is none of them: its comparisons are
    /// those of `python_full_version`.
    pub const ALL: [EnvironmentKey; 10] = [
        EnvironmentKey::Text(TextVariable::ImplementationName),
        EnvironmentKey::Version(VersionVariable::ImplementationVersion),
        EnvironmentKey::Text(TextVariable::OsName),
        EnvironmentKey::Text(TextVariable::PlatformMachine),
        EnvironmentKey::Text(TextVariable::PlatformPythonImplementation),
        EnvironmentKey::Text(TextVariable::PlatformRelease),
        EnvironmentKey::Text(TextVariable::PlatformSystem),
        EnvironmentKey::Text(TextVariable::PlatformVersion),
        EnvironmentKey::Version(VersionVariable::PythonFullVersion),
        EnvironmentKey::Text(TextVariable::SysPlatform),
    ];

    /// The name of the key.
    pub fn name(self) -> &'static str
        ensures { result.now ≡ key_name self }
    {
        match self {
            EnvironmentKey::Version(variable) => variable.name(),
            EnvironmentKey::Text(variable) => variable.name(),
        }
    }
}

// Whether a node asks about the value of the key: which one it is, or whether it is part of a text
// or has one as a part.
fn is_about(node: &Node, key: EnvironmentKey) -> bool
    ensures { result ≡ is_about key (variable node.now) }
{
    match node {
        Branches::Version(variable, _) => key == EnvironmentKey::Version(*variable),
        Branches::Text(variable, _) => key == EnvironmentKey::Text(*variable),
        Branches::Truth(TruthVariable::In(variable, _), _, _) => {
            key == EnvironmentKey::Text(*variable)
        }
        Branches::Truth(TruthVariable::Contains(variable, _), _, _) => {
            key == EnvironmentKey::Text(*variable)
        }
        Branches::Truth(TruthVariable::Extra(_), _, _) => false,
        Branches::Truth(TruthVariable::Arbitrary(_), _, _) => false,
    }
}

// Whether the node of the id asks about the value of the key.
fn asks_about(table: &NodeTable, id: NodeId, key: EnvironmentKey) -> bool
    ensures { IsTrue result ↔ AsksAbout table.now id key }
{
    match table.node(id) {
        Some(node) => is_about(node, key),
        None => false,
    }
}

/// Whether the truth of an id depends on the value of the key, given all of the id's subtrees.
pub fn depends_on(table: &NodeTable, id: NodeId, subtrees: &[NodeId], key: EnvironmentKey) -> bool
    requires rules { IsStore markers table.now }
    requires held { IsHeld table.now id }
    requires subtrees { AreExactly (IsSubtree markers table.now id) subtrees.now }
    ensures { IsTrue result ↔ DependsOnKey (truth markers table.now id) key }
{
    for index in 0..subtrees.len() {
        if asks_about(table, subtrees[index], key) {
            return true;
        }
    }
    false
}
