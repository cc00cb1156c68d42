//! A table of nodes.

ghost use Rattle.std.specs.Prelude.{◌≡◌, ◌↔◌, ◌<◌, ◌≤◌, [], false, true, length, IfOk, IfSome, IsTrue};
ghost use Rattle.std.specs.Option.{option_copied};
ghost use Rattle.marker_diagrams.specs.Diagram.{node_of, IsHeld, truth, Separated, AreChildren, IsReady, IsStore, Keeps, IsChoice};
ghost use Rattle.marker_nodes.specs.Branches.{count, has_trimmed_cuts, value_at, variable};
ghost use Rattle.marker_nodes.specs.Choice.{asked, chosen};
ghost use Rattle.marker_nodes.specs.Listed.{HasChildrenFor, IsPlacedAs};
ghost use Rattle.marker_nodes.specs.Node.{is_joined, lowest, markers};
ghost use Rattle.marker_nodes.specs.Table.{oldest, pieces_of, AddsOnly, GrowsByRules};

use crate::choice::Choice;
use crate::node::{Branches, Children, Node};
use indexmap::IndexSet;
use marker_diagrams::NodeId;
use node_hasher::NodeState;
use std::alloc::{AllocError, Global};
use std::marker::Model;

/// The nodes of many diagrams, each once. Ids that the table holds are equal exactly if they mean
/// the same.
///
/// An id keeps its meaning as long as the table holds it, even after an error. Only `truncate`
/// removes nodes.
#[derive(Drop)]
pub struct NodeTable {
    // List and unique table at once: an index is the place of a node.
    nodes: IndexSet<Node, NodeState>,
    // How many pieces the nodes have together, and how many they may have.
    pieces: usize,
    room: usize,
    // Whether a node was refused for lack of room.
    has_met_room: bool,
    alloc: Global,
}

// An id has room for fewer nodes than this, and each node has at least one piece.
const MOST_PIECES: usize = u32::MAX as usize;

impl Model for NodeTable {
    ghost use Rattle.std.specs.Prelude.{List, reverse};
    ghost use Rattle.marker_nodes.specs.Node.{Node};
    ghost use Rattle.marker_nodes.specs.Table.{HasRoom};

    ghost Value = { List Node };

    ghost view = { λ table. reverse table.nodes.keys };

    ghost invariant = { λ table. HasRoom (reverse table.nodes.keys) table.pieces table.room };
}

impl NodeTable {
    /// Returns a table without nodes. It hashes by the fixed key and has room for 4,294,967,295
    /// pieces, the most that a table can have.
    pub fn new(alloc: Global) -> Self
        ensures empty { result ≡ [] }
        ensures rules { IsStore markers result }
    {
        NodeTable::with_key_and_room(alloc, [0, 0], usize::MAX)
    }

    /// Returns a table without nodes, which hashes by a key of two random words. This protects
    /// against markers that are chosen to make hashes collide.
    pub fn with_key(alloc: Global, key: [u64; 2]) -> Self
        ensures empty { result ≡ [] }
        ensures rules { IsStore markers result }
    {
        NodeTable::with_key_and_room(alloc, key, usize::MAX)
    }

    /// Returns a table without nodes, which has room for `pieces` pieces, at most 4,294,967,295. A
    /// node beyond the room is refused as when memory runs out.
    pub fn with_room(alloc: Global, pieces: usize) -> Self
        ensures empty { result ≡ [] }
        ensures rules { IsStore markers result }
    {
        NodeTable::with_key_and_room(alloc, [0, 0], pieces)
    }

    /// Returns a table without nodes, with the key of `with_key` and the room of `with_room`.
    pub fn with_key_and_room(alloc: Global, key: [u64; 2], pieces: usize) -> Self
        ensures empty { result ≡ [] }
        ensures rules { IsStore markers result }
    {
        NodeTable {
            nodes: IndexSet::with_hasher(alloc, NodeState::with_key(key)),
            pieces: 0,
            room: pieces.min(MOST_PIECES),
            has_met_room: false,
            alloc,
        }
    }

    /// Returns the state by which the table hashes.
    pub fn hasher(&self) -> &NodeState {
        self.nodes.hasher()
    }

    /// Returns how many pieces the nodes have together. A node has one for each of its children.
    pub fn pieces(&self) -> usize
        ensures { result ≡ pieces_of self.now }
    {
        self.pieces
    }

    /// Returns how many pieces the nodes may have together.
    pub fn room(&self) -> usize
        ensures { pieces_of self.now ≤ result }
    {
        self.room
    }

    /// Returns whether a node was ever refused for lack of room. Removing nodes does not reset
    /// this.
    pub fn has_met_room(&self) -> bool {
        self.has_met_room
    }

    /// Returns the allocator of the nodes.
    pub fn allocator(&self) -> Global {
        self.alloc
    }

    /// Returns how many nodes there are.
    pub fn len(&self) -> usize
        ensures { result ≡ length self.now }
    {
        self.nodes.len()
    }

    /// Returns whether there are no nodes.
    pub fn is_empty(&self) -> bool
        ensures { IsTrue result ↔ (self.now ≡ []) }
    {
        self.nodes.is_empty()
    }

    /// Returns whether the table holds the id's node. Every table holds `TRUE` and `FALSE`.
    pub fn holds(&self, id: NodeId) -> bool
        ensures { IsTrue result ↔ IsHeld self.now id }
    {
        match id.index() {
            Some(index) => index < self.nodes.len(),
            None => true,
        }
    }

    /// Returns the node of the id, or `None` for `TRUE`, `FALSE` and an id that the table does not
    /// hold.
    pub fn node(&self, id: NodeId) -> Option<&Node>
        ensures node { option_copied result ≡ node_of self.now id }
        ensures trimmed { IfSome result (λ node. has_trimmed_cuts node.now ≡ true) }
    {
        match id.index() {
            Some(index) => self.nodes.get_index(index),
            None => None,
        }
    }

    /// Returns whether two ids mean the same.
    pub fn equivalent(&self, a: NodeId, b: NodeId) -> bool
        requires a { IsHeld self.now a }
        requires b { IsHeld self.now b }
        ensures same { IsTrue result ↔ (a ≡ b) }
        ensures separated { result ≡ false → Separated markers self.now a b }
    {
        let _nodes = &self.nodes;
        a == b
    }

    /// Returns the id of the node that has these children on the pieces, one for each. An equal
    /// node is used if there is one.
    ///
    /// If all children are the same, it is that child. If the first child is a negation, it is the
    /// negation of the node with the other signs.
    #[inline(always)]
    pub fn place<V: Drop>(
        &mut self,
        branches: Branches<V>,
        children: Children,
    ) -> Result<NodeId, AllocError>
        requires count { length children.items ≡ count branches }
        requires children { HasChildrenFor self.old branches children.items }
        requires trimmed { has_trimmed_cuts branches ≡ true }
        ensures id { IfOk result (IsPlacedAs self.new branches children.items) }
        ensures kept { GrowsByRules self.old self.new }
        ensures added { AddsOnly result self.old self.new }
    {
        let choice = branches.choice(children)?;
        self.place_choice(choice)
    }

    /// Returns the id of a choice, as `place` does for its variable and its children.
    #[inline(always)]
    pub fn place_choice(&mut self, choice: Choice) -> Result<NodeId, AllocError>
        requires { AreChildren markers self.old (asked choice) (chosen choice) }
        ensures id { IfOk result (IsChoice markers self.new (asked choice) (chosen choice)) }
        ensures kept { GrowsByRules self.old self.new }
        ensures added { AddsOnly result self.old self.new }
    {
        let Choice { first, node } = choice;
        if node.is_constant() {
            return Ok(first);
        }
        let id = self.insert(node)?;
        Ok(id.negate(first))
    }

    /// Returns the id of a node, as `place` does for the node's own children.
    pub fn place_node(&mut self, node: Node) -> Result<NodeId, AllocError>
        requires children { AreChildren markers self.old (variable node) (value_at node) }
        requires trimmed { has_trimmed_cuts node ≡ true }
        ensures id { IfOk result (IsChoice markers self.new (variable node) (value_at node)) }
        ensures kept { GrowsByRules self.old self.new }
        ensures added { AddsOnly result self.old self.new }
    {
        let children = node.values(self.alloc)?;
        self.place(node, children)
    }

    /// Returns the id of a node whose neighboring children differ, as `place_node` does. It is
    /// inserted as it is if its first child is not a negation.
    pub fn place_joined(&mut self, node: Node) -> Result<NodeId, AllocError>
        requires children { AreChildren markers self.old (variable node) (value_at node) }
        requires joined { is_joined node ≡ true }
        requires trimmed { has_trimmed_cuts node ≡ true }
        ensures id { IfOk result (IsChoice markers self.new (variable node) (value_at node)) }
        ensures kept { GrowsByRules self.old self.new }
        ensures added { AddsOnly result self.old self.new }
    {
        if first_child(&node).is_complement() || node.is_constant() {
            return self.place_node(node);
        }
        self.insert(node)
    }

    /// Removes the newest nodes, so that at most `len` are left. Their pieces are free again, and
    /// the table no longer holds their ids. The other ids keep their meaning.
    pub fn truncate(&mut self, len: usize)
        ensures { self.new ≡ oldest len self.old }
    {
        for _ in len..self.nodes.len() {
            let node = self.nodes.pop().unwrap();
            self.pieces -= node.piece_count();
        }
    }

    // The id of a reduced node whose first child is not a negation.
    fn insert(&mut self, node: Node) -> Result<NodeId, AllocError>
        requires ready { IsReady markers self.old node }
        requires trimmed { has_trimmed_cuts node ≡ true }
        ensures id { IfOk result (IsChoice markers self.new (variable node) (value_at node)) }
        ensures rules { IsStore markers self.new }
        ensures kept { Keeps markers self.old self.new }
        ensures added { AddsOnly result self.old self.new }
    {
        let pieces = node.piece_count();
        if self.room - self.pieces < pieces {
            if !self.nodes.contains(&node) {
                self.has_met_room = true;
                return Err(AllocError);
            }
        }
        let (index, is_new) = self.nodes.insert_full(node)?;
        self.pieces += if is_new { pieces } else { 0 };
        let _len = self.nodes.len();
        Ok(NodeId::new(index, false))
    }
}

// The child of the first piece of a node.
fn first_child(node: &Node) -> NodeId
    ensures { value_at node.now lowest ≡ result }
{
    match node {
        Branches::Version(_, edges) => *edges.leftmost_value(),
        Branches::Text(_, edges) => *edges.leftmost_value(),
        Branches::Truth(_, high, _) => *high,
    }
}
