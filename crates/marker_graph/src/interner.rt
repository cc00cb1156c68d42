//! Interners, which store the nodes of markers.

ghost use Rattle.std.specs.Prelude.{◌≡◌, ◌↔◌, ◌<◌, ◌≤◌, ◌+◌, false, IfErr, IfOk, IsTrue, OnOk};
ghost use Rattle.std.specs.Fn.{FnReturnsAt};
ghost use Rattle.marker_parts.specs.Expression.{Overflows, holds, test_of};
ghost use Rattle.marker_diagrams.specs.Diagram as diagram;
ghost use Rattle.marker_diagrams.specs.Diagram.{IsStore};
ghost use Rattle.marker_diagrams.specs.Id.{place_of};
ghost use Rattle.marker_nodes.specs.And.{IsAnd};
ghost use Rattle.marker_nodes.specs.Variable.{answer};
ghost use Rattle.marker_nodes.specs.Node.{markers};
ghost use Rattle.marker_nodes.specs.Table.{pieces_of};
ghost use Rattle.marker_conjunctions.specs.Contents.{nothing, IsKept, IsWellKept};
ghost use Rattle.marker_conjunctions.specs.Count.{IsCounted, Spends};
ghost use Rattle.marker_simplifications.specs.Expression.{IsInvalid, IsTruthOf, IsUnmade};
ghost use Rattle.marker_simplifications.specs.Simplified.{IsGranted};
ghost use Rattle.marker_graph.specs.Contents.{HasOnlyNodes, IsHeld, Separated};
ghost use Rattle.marker_graph.specs.Mark.{HoldsUpTo, IsMarkOf, Restores, released};
ghost use Rattle.marker_graph.specs.Ranged.{HasPoint, IsAssumedIn, IsIdOfRange};
ghost use Rattle.marker_graph.specs.Tree.{ComputesOnce};

use crate::mark::Mark;
use crate::tree::MarkerTree;
use marker_conjunctions::Conjunctions;
use marker_nodes::{NodeId, NodeTable, TruthVariable};
use marker_parts::MarkerExpression;
use marker_simplifications::{
    InvalidExpression, asks, assume_python_range, expression, grant_extras, python_range,
};
use marker_texts::KnownTexts;
use pep440_version::Version;
use pep508_names::ExtraName;
use refusal::Refusal;
use std::alloc::{AllocError, Global};
use std::marker::Model;
use std::ops::Bound;

/// Stores the nodes of markers, each node once, the conjunctions computed so far, and the markers
/// of texts that were parsed. So markers of one interner that mean the same have the same id.
///
/// One interner serves any number of markers and requirements. A marker keeps its meaning as long
/// as the interner holds its nodes. Only [`Interner::release`] removes nodes; dropping the interner
/// frees all of them.
///
/// ```
/// let mut interner = Interner::new(alloc);
/// let marker = MarkerTree::parse_str::<VerbatimUrl>(text, &mut interner)?;
/// Ok(marker.is_true())
/// ```
#[derive(Drop)]
pub struct Interner {
    pub(crate) nodes: NodeTable,
    conjunctions: Conjunctions,
    pub(crate) texts: KnownTexts,
}

impl Model for Interner {
    ghost use Rattle.marker_conjunctions.specs.Contents.{contents, Contents};
    ghost use Rattle.marker_graph.specs.Texts.{IsInOrder};

    ghost Value = { Contents };

    ghost view = { λ s. contents s.nodes s.conjunctions };

    ghost invariant = { λ s. IsInOrder (contents s.nodes s.conjunctions) s.texts };
}

impl Interner {
    /// Returns an interner without nodes. It hashes by a fixed key and has room for 4,294,967,295
    /// pieces of nodes, the most that an interner can have.
    pub fn new(alloc: Global) -> Self
        ensures { result ≡ nothing }
    {
        Interner::with_key_and_room(alloc, [0, 0], usize::MAX)
    }

    /// Returns an interner without nodes, which hashes by a key of two random words. This protects
    /// against markers that are chosen to make hashes collide.
    pub fn with_key(alloc: Global, key: [u64; 2]) -> Self
        ensures { result ≡ nothing }
    {
        Interner::with_key_and_room(alloc, key, usize::MAX)
    }

    /// Returns an interner without nodes, which has room for `pieces` pieces of nodes, at most
    /// 4,294,967,295. A node has one piece for each of its children.
    ///
    /// A call that would make a node beyond the room fails as when memory runs out.
    /// [`Interner::has_met_room`] returns whether that has happened.
    pub fn with_room(alloc: Global, pieces: usize) -> Self
        ensures { result ≡ nothing }
    {
        Interner::with_key_and_room(alloc, [0, 0], pieces)
    }

    /// Returns an interner without nodes, with the key of `with_key` and the room of `with_room`.
    pub fn with_key_and_room(alloc: Global, key: [u64; 2], pieces: usize) -> Self
        ensures { result ≡ nothing }
    {
        Interner {
            nodes: NodeTable::with_key_and_room(alloc, key, pieces),
            conjunctions: Conjunctions::with_key(alloc, key),
            texts: KnownTexts::new(alloc),
        }
    }

    /// Returns how many pieces the nodes have together. A node has one for each of its children.
    pub fn pieces(&self) -> usize
        ensures { result ≡ pieces_of self.now.nodes }
    {
        self.nodes.pieces()
    }

    /// Returns how many pieces the nodes may have together.
    pub fn room(&self) -> usize
        ensures { pieces_of self.now.nodes ≤ result }
    {
        self.nodes.room()
    }

    /// Returns whether a node was ever refused for lack of room. Releasing nodes does not reset
    /// this.
    pub fn has_met_room(&self) -> bool {
        self.nodes.has_met_room()
    }

    /// Returns how far the interner has grown, for [`Interner::release`].
    pub fn mark(&self) -> Mark
        ensures { IsMarkOf self.now result }
    {
        Mark {
            nodes: self.nodes.len(),
            known: self.conjunctions.known(),
        }
    }

    /// Removes the nodes made since the mark and forgets the conjunctions computed since. The
    /// pieces of those nodes are free again.
    ///
    /// Markers from before the mark keep their meaning; later ones are no longer held. If nothing
    /// was released in between, the interner holds what it held at the mark.
    ///
    /// A mark is a number of nodes and of conjunctions. Any mark is accepted, even of another
    /// interner or from before an earlier release: what is beyond those numbers is removed. All
    /// conjunctions are forgotten if one that the mark keeps is about a removed node, and all known
    /// texts if one may be.
    pub fn release(&mut self, mark: Mark)
        ensures released { self.new ≡ released mark self.old }
        ensures kept { IsKept self.new self.old }
        ensures held { HoldsUpTo mark self.old self.new }
        ensures undone { Restores mark self.old self.new }
    {
        self.nodes.truncate(mark.nodes);
        self.conjunctions.truncate(mark.known, mark.nodes);
        self.texts.forget_beyond(mark.nodes);
    }

    /// Returns the allocator of the nodes.
    pub fn allocator(&self) -> Global {
        self.nodes.allocator()
    }

    /// Returns whether the interner holds the marker's node. Every interner holds `TRUE` and
    /// `FALSE`.
    pub fn holds(&self, tree: &MarkerTree) -> bool
        ensures { IsTrue result ↔ IsHeld self.now tree.now }
    {
        self.nodes.holds(tree.id)
    }

    /// Returns whether two markers mean the same.
    pub fn equivalent(&self, a: MarkerTree, b: MarkerTree) -> bool
        requires a { IsHeld self.now a }
        requires b { IsHeld self.now b }
        ensures same { IsTrue result ↔ (a ≡ b) }
        ensures separated { result ≡ false → Separated self.now a b }
    {
        self.nodes.equivalent(a.id, b.id)
    }

    /// Returns how many conjunctions of nodes were computed. The count stays at its maximum once it
    /// is there.
    pub fn expansions(&self) -> u64
        ensures { result ≡ self.now.expansions }
    {
        self.conjunctions.expansions()
    }

    /// Returns the nodes, which satisfy the rules of diagrams. For the crates that compare markers
    /// of two interners.
    pub fn table(&self) -> &NodeTable
        ensures table { result.now ≡ self.now.nodes }
        ensures rules { IsStore markers self.now.nodes }
    {
        &self.nodes
    }

    /// A law; the call does nothing. The nodes satisfy the rules of diagrams, and each known
    /// conjunction is about nodes that the interner holds.
    pub fn keeps_the_rules(&self)
        ensures nodes { IsStore markers self.now.nodes }
        ensures known { IsWellKept self.now }
    {
        let _nodes = &self.nodes;
    }
}

impl Interner {
    // The conjunction of two ids.
    pub(crate) fn and(&mut self, a: NodeId, b: NodeId) -> Result<NodeId, AllocError>
        requires { diagram.IsHeld self.old.nodes a × diagram.IsHeld self.old.nodes b }
        ensures kept { IsKept self.old self.new }
        ensures and { IfOk result (IsAnd self.new.nodes a b) }
        ensures spends { Spends self.old self.new (place_of a + place_of b + 1) a b }
        ensures counted { IfOk result (IsCounted self.old self.new) }
        ensures known { ComputesOnce result self.old self.new a b a b }
    {
        self.conjunctions.and(&mut self.nodes, a, b)
    }

    // The id of a substring test or an extra.
    pub(crate) fn asks(&mut self, variable: TruthVariable) -> Result<NodeId, AllocError>
        ensures kept { IsKept self.old self.new }
        ensures conjunctions { HasOnlyNodes self.old self.new }
        ensures asks { IfOk result (IsTruthOf self.new.nodes (answer variable)) }
    {
        asks(&mut self.nodes, variable)
    }

    // The id of a comparison.
    pub(crate) fn expression(
        &mut self,
        comparison: MarkerExpression,
    ) -> Result<NodeId, Refusal<InvalidExpression>>
        ensures kept { IsKept self.old self.new }
        ensures conjunctions { HasOnlyNodes self.old self.new }
        ensures asks { IfOk result (IsTruthOf self.new.nodes (holds (test_of comparison))) }
        ensures no_overflow { OnOk result (¬ Overflows (test_of comparison)) }
        ensures not_invalid { OnOk result (¬ IsInvalid (test_of comparison)) }
        ensures err { IfErr result (IsUnmade (test_of comparison)) }
    {
        expression(&mut self.nodes, comparison)
    }

    // The id that is true where the Python version is between two bounds.
    pub(crate) fn python_range(
        &mut self,
        lower: Bound<&Version>,
        upper: Bound<&Version>,
    ) -> Result<NodeId, AllocError>
        ensures kept { IsKept self.old self.new }
        ensures conjunctions { HasOnlyNodes self.old self.new }
        ensures asks { IfOk result (IsIdOfRange self.new.nodes lower.entry upper.entry) }
    {
        python_range(&mut self.nodes, lower, upper)
    }

    // The id, simplified given that the Python version is in a range that is not empty.
    pub(crate) fn assume_python_range(
        &mut self,
        id: NodeId,
        lower: Bound<&Version>,
        upper: Bound<&Version>,
    ) -> Result<NodeId, AllocError>
        requires held { diagram.IsHeld self.old.nodes id }
        requires point { HasPoint lower upper }
        ensures kept { IsKept self.old self.new }
        ensures conjunctions { HasOnlyNodes self.old self.new }
        ensures assumed { IfOk result (IsAssumedIn self.new.nodes lower.entry upper.entry id) }
    {
        assume_python_range(&mut self.nodes, id, lower, upper)
    }

    // The id with each extra set to true for which the closure returns `true`.
    pub(crate) fn grant_extras<F: Fn(&ExtraName) -> bool>(
        &mut self,
        is_extra: &F,
        id: NodeId,
    ) -> Result<NodeId, AllocError>
        requires held { diagram.IsHeld self.old.nodes id }
        requires callable { F.IsAlwaysCallable is_extra.now }
        ensures kept { IsKept self.old self.new }
        ensures conjunctions { HasOnlyNodes self.old self.new }
        ensures granted { IfOk result (IsGranted self.new.nodes
            (FnReturnsAt F.Fn is_extra.now) id) }
    {
        grant_extras(&mut self.nodes, is_extra, id)
    }
}
