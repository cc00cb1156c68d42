//! The variable on which a marker branches, and its subtrees.

ghost use Rattle.std.specs.Prelude.{◌≡◌, [], ◌∷◌, true, false, if◌then◌else◌, string_bytes};
ghost use Rattle.marker_words.specs.Key.{version_variable_key};
ghost use Rattle.marker_graph.specs.Contents.{IsHeld};
ghost use Rattle.marker_graph.specs.Edges.{child_of, boolean_edges_left, string_edges_left, version_edges_left};
ghost use Rattle.marker_graph.specs.Kind.{boolean_edges, modern_key, string_edges, version_edges, AreItsEdges, HasTrimmedEdges, IsKind, IsKindOfTruth};

use crate::edges::{BooleanEdges, StringEdges, VersionEdges};
use crate::interner::Interner;
use crate::tree::MarkerTree;
use marker_nodes::{Branches, NodeId, TruthVariable};
use marker_words::{MarkerValueString, MarkerValueVersion, TextVariable, VersionVariable};
use pep440_version::Version;
use pep508_names::ExtraName;
use version_ranges::Cuts;

/// The variable on which a marker branches, and its subtrees by the variable's values.
#[derive(Drop)]
pub enum MarkerTreeKind<'a> {
    /// None: the marker is true everywhere.
    True,
    /// None: the marker is false everywhere.
    False,
    /// A version key.
    Version(VersionMarkerTree<'a>),
    /// A text key.
    String(StringMarkerTree<'a>),
    /// A substring test `key in 'text'`.
    In(InMarkerTree<'a>),
    /// A substring test `'text' in key`.
    Contains(ContainsMarkerTree<'a>),
    /// An extra.
    Extra(ExtraMarkerTree<'a>),
}

/// A marker that branches on a version.
#[derive(Clone, Copy)]
pub struct VersionMarkerTree<'a> {
    tree: MarkerTree,
    variable: VersionVariable,
    cuts: &'a Cuts<Version, NodeId>,
}

/// A marker that branches on a text.
#[derive(Clone, Copy)]
pub struct StringMarkerTree<'a> {
    tree: MarkerTree,
    variable: TextVariable,
    cuts: &'a Cuts<String, NodeId>,
}

/// A marker that branches on `key in 'text'`.
#[derive(Clone, Copy)]
pub struct InMarkerTree<'a> {
    variable: TextVariable,
    text: &'a String,
    high: MarkerTree,
    low: MarkerTree,
}

/// A marker that branches on `'text' in key`.
#[derive(Clone, Copy)]
pub struct ContainsMarkerTree<'a> {
    variable: TextVariable,
    text: &'a String,
    high: MarkerTree,
    low: MarkerTree,
}

/// A marker that branches on an extra.
#[derive(Clone, Copy)]
pub struct ExtraMarkerTree<'a> {
    name: MarkerValueExtraRef<'a>,
    high: MarkerTree,
    low: MarkerTree,
}

/// The text that `extra` is compared with, borrowed.
#[derive(Clone, Copy)]
pub enum MarkerValueExtraRef<'a> {
    /// A name of an extra.
    Extra(&'a ExtraName),
    /// A text that is an invalid name, which no list of extras contains.
    Arbitrary(&'a String),
}

impl<'a> VersionMarkerTree<'a> {
    /// Returns the key of the variable. It is never `python_version`, whose comparisons are
    /// comparisons of `python_full_version`.
    pub fn key(&self) -> MarkerValueVersion
        ensures { result ≡ version_variable_key self.now.variable }
    {
        self.variable.key()
    }

    /// Returns the variable.
    pub fn variable(&self) -> VersionVariable
        ensures { result ≡ self.now.variable }
    {
        self.variable
    }

    /// Returns the lower bound, upper bound and subtree of each edge, in ascending order.
    pub fn edges(&self) -> VersionEdges<'a>
        ensures { version_edges_left result ≡ version_edges self.now }
    {
        VersionEdges {
            tree: self.tree,
            pieces: self.cuts.pieces(),
        }
    }

    /// Returns the children of the node by version. `subtree` applies the sign of the marker to
    /// them.
    pub fn cuts(&self) -> &'a Cuts<Version, NodeId>
        ensures { result.now ≡ self.now.cuts.now }
    {
        self.cuts
    }

    /// Returns a child of the marker's node as a subtree of the marker: negated if the marker is a
    /// negation.
    pub fn subtree(&self, child: NodeId) -> MarkerTree
        ensures { result ≡ child_of self.now.tree child }
    {
        self.tree.child(child)
    }
}

impl<'a> StringMarkerTree<'a> {
    /// Returns the modern key of the variable.
    pub fn key(&self) -> MarkerValueString
        ensures { result ≡ modern_key self.now.variable }
    {
        key_of(self.variable)
    }

    /// Returns the variable.
    pub fn variable(&self) -> TextVariable
        ensures { result ≡ self.now.variable }
    {
        self.variable
    }

    /// Returns the lower bound, upper bound and subtree of each edge, in ascending order.
    pub fn children(&self) -> StringEdges<'a>
        ensures { string_edges_left result ≡ string_edges self.now }
    {
        StringEdges {
            tree: self.tree,
            pieces: self.cuts.pieces(),
        }
    }

    /// Returns the children of the node by text. `subtree` applies the sign of the marker to them.
    pub fn cuts(&self) -> &'a Cuts<String, NodeId>
        ensures { result.now ≡ self.now.cuts.now }
    {
        self.cuts
    }

    /// Returns a child of the marker's node as a subtree of the marker: negated if the marker is a
    /// negation.
    pub fn subtree(&self, child: NodeId) -> MarkerTree
        ensures { result ≡ child_of self.now.tree child }
    {
        self.tree.child(child)
    }
}

impl<'a> InMarkerTree<'a> {
    /// Returns the modern key of the variable.
    pub fn key(&self) -> MarkerValueString
        ensures { result ≡ modern_key self.now.variable }
    {
        key_of(self.variable)
    }

    /// Returns the variable.
    pub fn variable(&self) -> TextVariable
        ensures { result ≡ self.now.variable }
    {
        self.variable
    }

    /// Returns the text that may contain the value.
    pub fn value(&self) -> &'a str
        ensures { result.now ≡ string_bytes self.now.text.now }
    {
        self.text.as_str()
    }

    /// Returns the subtree for true, then the one for false.
    pub fn children(&self) -> BooleanEdges
        ensures { boolean_edges_left result ≡ boolean_edges self.now.high self.now.low }
    {
        boolean_children(self.high, self.low)
    }

    /// Returns the subtree for this answer.
    pub fn edge(&self, value: bool) -> MarkerTree
        ensures { result ≡ (if value then self.now.high else self.now.low) }
    {
        if value { self.high } else { self.low }
    }
}

impl<'a> ContainsMarkerTree<'a> {
    /// Returns the modern key of the variable.
    pub fn key(&self) -> MarkerValueString
        ensures { result ≡ modern_key self.now.variable }
    {
        key_of(self.variable)
    }

    /// Returns the variable.
    pub fn variable(&self) -> TextVariable
        ensures { result ≡ self.now.variable }
    {
        self.variable
    }

    /// Returns the text that the value may contain.
    pub fn value(&self) -> &'a str
        ensures { result.now ≡ string_bytes self.now.text.now }
    {
        self.text.as_str()
    }

    /// Returns the subtree for true, then the one for false.
    pub fn children(&self) -> BooleanEdges
        ensures { boolean_edges_left result ≡ boolean_edges self.now.high self.now.low }
    {
        boolean_children(self.high, self.low)
    }

    /// Returns the subtree for this answer.
    pub fn edge(&self, value: bool) -> MarkerTree
        ensures { result ≡ (if value then self.now.high else self.now.low) }
    {
        if value { self.high } else { self.low }
    }
}

impl<'a> ExtraMarkerTree<'a> {
    /// Returns the extra, or a text that is an invalid name.
    pub fn name(&self) -> MarkerValueExtraRef<'a>
        ensures { result ≡ self.now.name }
    {
        self.name
    }

    /// Returns the subtree with the extra, then the one without it.
    pub fn children(&self) -> BooleanEdges
        ensures { boolean_edges_left result ≡ boolean_edges self.now.high self.now.low }
    {
        boolean_children(self.high, self.low)
    }

    /// Returns the subtree for this answer.
    pub fn edge(&self, value: bool) -> MarkerTree
        ensures { result ≡ (if value then self.now.high else self.now.low) }
    {
        if value { self.high } else { self.low }
    }
}

impl MarkerTree {
    /// Returns the variable on which the marker branches, and its subtrees.
    ///
    /// It is the first variable on which the marker's truth depends. The ranges of the edges are
    /// not empty, ascend, are disjoint and cover all values. Each subtree is the marker's truth
    /// with the variable fixed in the range, and depends only on later variables. Neighboring edges
    /// have different subtrees. The bounds of versions are without zeros at the ends of their
    /// releases.
    pub fn kind(self, interner: &Interner) -> MarkerTreeKind<'_>
        requires { IsHeld interner.now self }
        ensures shows { IsKind interner.now self result }
        ensures edges { AreItsEdges interner.now self result }
        ensures trimmed { HasTrimmedEdges result }
    {
        match interner.nodes.node(self.id) {
            None => {
                if self.is_true() {
                    MarkerTreeKind::True
                } else {
                    MarkerTreeKind::False
                }
            }
            Some(Branches::Version(variable, cuts)) => MarkerTreeKind::Version(VersionMarkerTree {
                tree: self,
                variable: *variable,
                cuts,
            }),
            Some(Branches::Text(variable, cuts)) => MarkerTreeKind::String(StringMarkerTree {
                tree: self,
                variable: *variable,
                cuts,
            }),
            Some(Branches::Truth(variable, high, low)) => {
                truth_kind(variable, self.child(*high), self.child(*low))
            }
        }
    }

    // A child of the marker's node as a subtree of the marker.
    pub(crate) fn child(self, child: NodeId) -> MarkerTree
        ensures { result ≡ child_of self child }
    {
        MarkerTree {
            id: child.negate(self.id),
        }
    }
}

// The kind of a marker that branches on a substring test or an extra.
fn truth_kind(variable: &TruthVariable, high: MarkerTree, low: MarkerTree) -> MarkerTreeKind<'_>
    ensures { IsKindOfTruth variable.now high low result }
{
    match variable {
        TruthVariable::In(variable, text) => MarkerTreeKind::In(InMarkerTree {
            variable: *variable,
            text,
            high,
            low,
        }),
        TruthVariable::Contains(variable, text) => MarkerTreeKind::Contains(ContainsMarkerTree {
            variable: *variable,
            text,
            high,
            low,
        }),
        TruthVariable::Extra(name) => MarkerTreeKind::Extra(ExtraMarkerTree {
            name: MarkerValueExtraRef::Extra(name),
            high,
            low,
        }),
        TruthVariable::Arbitrary(text) => MarkerTreeKind::Extra(ExtraMarkerTree {
            name: MarkerValueExtraRef::Arbitrary(text),
            high,
            low,
        }),
    }
}

// The subtree for true, then the one for false.
fn boolean_children(high: MarkerTree, low: MarkerTree) -> BooleanEdges
    ensures { boolean_edges_left result ≡ boolean_edges high low }
{
    BooleanEdges {
        high: Some(high),
        low: Some(low),
    }
}

// The modern key of a variable.
fn key_of(variable: TextVariable) -> MarkerValueString
    ensures { result ≡ modern_key variable }
{
    match variable {
        TextVariable::ImplementationName => MarkerValueString::ImplementationName,
        TextVariable::OsName => MarkerValueString::OsName,
        TextVariable::PlatformMachine => MarkerValueString::PlatformMachine,
        TextVariable::PlatformPythonImplementation => {
            MarkerValueString::PlatformPythonImplementation
        }
        TextVariable::PlatformRelease => MarkerValueString::PlatformRelease,
        TextVariable::PlatformSystem => MarkerValueString::PlatformSystem,
        TextVariable::PlatformVersion => MarkerValueString::PlatformVersion,
        TextVariable::SysPlatform => MarkerValueString::SysPlatform,
    }
}
