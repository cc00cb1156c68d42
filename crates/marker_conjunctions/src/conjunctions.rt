//! Conjunctions that are computed once.

ghost use Rattle.std.specs.Prelude.{◌≡◌};
ghost use Rattle.marker_diagrams.specs.Id.{place_of};
ghost use Rattle.marker_conjunctions.specs.Reach.{reaches_from};

use indexmap::IndexMap;
use marker_nodes::{Choice, NodeId, NodeTable, short_cut};
use node_hasher::NodeState;
use smallvec::SmallVec;
use std::alloc::{AllocError, Global};

/// The conjunctions of ids of one table of nodes that were computed so far.
#[derive(Drop)]
pub struct Conjunctions {
    // The known conjunctions, in the order in which they were computed.
    memo: IndexMap<(NodeId, NodeId), NodeId, NodeState>,
    // For each of them, the highest place of an id in it and the earlier ones.
    reaches: Vec<u32>,
    // How many conjunctions of nodes were computed.
    expansions: u64,
    pub ghost reached: { reaches.items ≡ reaches_from 0 memo.entries },
}

// What the children of two ids show about their conjunction.
#[derive(Drop)]
enum Step {
    // It is this choice among the conjunctions of their children.
    Made(Choice),
    // It needs the conjunction of these two children first.
    Open(NodeId, NodeId),
}

// The place of an id among the nodes, counted from the oldest at 1; `TRUE` and `FALSE` have 0.
fn height(id: NodeId) -> u32
    ensures { result ≡ place_of id }
{
    match id.index() {
        Some(index) => index as u32 + 1,
        None => 0,
    }
}

impl Conjunctions {
    ghost use Rattle.std.specs.Prelude.{[], IfNone, IfOk, IfSome, OnOk, length, slice_index, take};
    ghost use Rattle.std.specs.HashMap.{hasher_of};
    ghost use Rattle.node_hasher.specs.Hash.{keyed};
    ghost use Rattle.marker_diagrams.specs.Diagram.{Keeps};
    ghost use Rattle.marker_nodes.specs.And.{IsAnd};
    ghost use Rattle.marker_nodes.specs.Node.{markers};
    ghost use Rattle.marker_conjunctions.specs.Branch.{Joins};
    ghost use Rattle.marker_conjunctions.specs.Contents.{contents, nothing, HoldsBoth, IsAndBy, IsWellKept};
    ghost use Rattle.marker_conjunctions.specs.Count.{AddsPair, IsCountedIn, IsToldIfSettled, SpendsWithin};
    ghost use Rattle.marker_conjunctions.specs.Reach.{first_within, reach};
    ghost use Rattle.marker_conjunctions.specs.Step.{IsDue, IsOpen, IsPair, IsSettled, IsSettledAnd, IsStep, StaysWellKept, TakesPair, Waits, WaitsFor};

    /// Returns the state without any conjunction. It hashes by the fixed key.
    pub fn new(alloc: Global) -> Self
        ensures { contents [] result ≡ nothing }
    {
        Conjunctions::with_key(alloc, [0, 0])
    }

    /// Returns the state without any conjunction. It hashes by a key of two random words, which
    /// protects against markers that are chosen to make hashes collide.
    pub fn with_key(alloc: Global, key: [u64; 2]) -> Self
        ensures empty { contents [] result ≡ nothing }
        ensures key { hasher_of result.memo ≡ keyed (slice_index key 0) (slice_index key 1) }
    {
        Conjunctions {
            memo: IndexMap::with_hasher(alloc, NodeState::with_key(key)),
            reaches: Vec::new(alloc),
            expansions: 0,
        }
    }

    /// Returns how many conjunctions of nodes were computed. The count stays at its maximum once it
    /// is there.
    pub fn expansions(&self) -> u64
        ensures { result ≡ self.now.expansions }
    {
        self.expansions
    }

    /// Returns how many conjunctions are known.
    pub fn known(&self) -> usize
        ensures { result ≡ length self.now.memo.entries }
    {
        self.memo.len()
    }

    /// Forgets the newest conjunctions, so that `known` are left; none is left if one of those has
    /// an id beyond the oldest `nodes` nodes.
    pub fn truncate(&mut self, known: usize, nodes: usize)
        ensures memo { self.new.memo.entries ≡ first_within known nodes self.old.memo.entries }
        ensures expansions { self.new.expansions ≡ self.old.expansions }
    {
        let left = if self.reach(known) as usize <= nodes {
            known
        } else {
            0
        };
        self.memo.truncate(left);
        self.reaches.truncate(left);
    }

    // The highest place of an id in the oldest `known` conjunctions.
    fn reach(&self, known: usize) -> u32
        ensures { result ≡ reach (take known self.now.memo.entries) }
    {
        match known.min(self.reaches.len()).checked_sub(1) {
            Some(last) => self.reaches[last],
            None => 0,
        }
    }

    /// Returns the conjunction of two ids of the table. Ids keep their meaning and known
    /// conjunctions stay known, even after an error.
    ///
    /// The count of computed conjunctions grows by at most the number of pairs of a subtree of each
    /// id. It does not grow, and nothing is allocated, in three cases: the conjunction is known;
    /// one of the ids is `TRUE` or `FALSE`; both are equal, or each other's negation.
    ///
    /// Pairs that wait for those of their children are in a list, so that depth costs memory and no
    /// stack.
    pub fn and(&mut self, nodes: &mut NodeTable, a: NodeId, b: NodeId) -> Result<NodeId, AllocError>
        requires held { HoldsBoth (contents nodes.old self.old) a b }
        ensures kept { StaysWellKept (contents nodes.old self.old) (contents nodes.new self.new) }
        ensures and { IfOk result (IsSettledAnd (contents nodes.new self.new) a b) }
        ensures spends { SpendsWithin (nodes.old, self.old) (nodes.new, self.new) a b }
        ensures counted { IfOk result (IsCountedIn (nodes.old, self.old) (nodes.new, self.new)) }
        ensures told { IsToldIfSettled result (nodes.old, self.old) (nodes.new, self.new) (a, b) }
    {
        if let Some(known) = self.look_up(a, b) {
            return Ok(known);
        }
        let mut pending = Vec::new(nodes.allocator());
        let mut next = (a, b);
        loop {
            let ((left, right), choice) = self.descend(nodes, &mut pending, next)?;
            let id = self.compute(nodes, left, right, choice)?;
            if left == a && right == b {
                return Ok(id);
            }
            if let Some(pair) = self.next_open(&mut pending) {
                next = pair;
                continue;
            }
            if let Some(id) = self.look_up(a, b) {
                return Ok(id);
            }
            next = (a, b);
        }
    }

    // The conjunction of two ids if it is known or needs no node.
    #[inline(always)]
    fn look_up(&self, a: NodeId, b: NodeId) -> Option<NodeId>
        ensures and { IfSome result (IsAndBy self.now a b) }
        ensures settled { IfSome result (λ t. IsSettled self.now.memo.entries (a, b)) }
        ensures unsettled { IfNone result (IsOpen self.now.memo.entries (a, b)) }
    {
        if let Some(id) = short_cut(a, b) {
            return Some(id);
        }
        self.memo.get(&(a, b)).copied()
    }

    // The last pair of a list whose conjunction is not computed yet. Removes it and those above it.
    fn next_open(&self, pending: &mut Vec<(NodeId, NodeId)>) -> Option<(NodeId, NodeId)>
        ensures unsettled { IfSome result (IsOpen self.now.memo.entries) }
        ensures pairs { TakesPair pending.old.items pending.new.items result }
    {
        while let Some((left, right)) = pending.pop() {
            if let None = self.look_up(left, right) {
                return Some((left, right));
            }
        }
        None
    }

    // A pair that needs no other one, the given one or one below it, with its conjunction as a
    // choice. The pairs on the way to it and those that they need are appended to the list.
    fn descend(
        &self,
        nodes: &NodeTable,
        pending: &mut Vec<(NodeId, NodeId)>,
        first: (NodeId, NodeId),
    ) -> Result<((NodeId, NodeId), Choice), AllocError>
        requires held { HoldsBoth (contents nodes.now self.now) first.0 first.1 }
        requires unsettled { IsOpen self.now.memo.entries first }
        ensures pair { IfOk result (λ r. IsPair nodes.now first.0 first.1 r.0) }
        ensures due { IfOk result (λ r. IsDue nodes.now self.now.memo.entries r.0 r.1) }
        ensures waits { OnOk result (WaitsFor nodes.now first pending.old.items pending.new.items) }
    {
        let mut pair = first;
        loop {
            match self.look(nodes, pending, pair.0, pair.1)? {
                Step::Made(choice) => return Ok((pair, choice)),
                Step::Open(left, right) => pair = (left, right),
            }
        }
    }

    // The conjunction of two ids as a choice among those of their children, if these are known;
    // otherwise the last pair of children without a known conjunction. The two ids and the other
    // such pairs are then appended to the list.
    fn look(
        &self,
        nodes: &NodeTable,
        pending: &mut Vec<(NodeId, NodeId)>,
        a: NodeId,
        b: NodeId,
    ) -> Result<Step, AllocError>
        requires held { HoldsBoth (contents nodes.now self.now) a b }
        requires unsettled { IsOpen self.now.memo.entries (a, b) }
        ensures step { IfOk result (IsStep nodes.now self.now.memo.entries a b) }
        ensures waits { OnOk result (Waits nodes.now a b pending.old.items pending.new.items) }
    {
        let unsigned_a = a.negate(a);
        let unsigned_b = b.negate(b);
        let sides = &nodes.side_by_side(&unsigned_a, &unsigned_b);
        let mut children = SmallVec::new(nodes.allocator());
        let mut next = (a, b);
        for (left, right) in sides.pairs() {
            let left = left.negate(a);
            let right = right.negate(b);
            match self.look_up(left, right) {
                Some(child) => children.push(child)?,
                None => {
                    pending.push(next)?;
                    next = (left, right);
                }
            }
        }
        if next != (a, b) {
            return Ok(Step::Open(next.0, next.1));
        }
        let choice = sides.choice(nodes.allocator(), children)?;
        Ok(Step::Made(choice))
    }

    // Makes the conjunction of two ids known, and returns it. The choice is among those of their
    // children.
    fn compute(
        &mut self,
        nodes: &mut NodeTable,
        a: NodeId,
        b: NodeId,
        choice: Choice,
    ) -> Result<NodeId, AllocError>
        requires held { HoldsBoth (contents nodes.old self.old) a b }
        requires due { IsDue nodes.old self.old.memo.entries (a, b) choice }
        ensures and { IfOk result (IsAnd nodes.new a b) }
        ensures kept { StaysWellKept (contents nodes.old self.old) (contents nodes.new self.new) }
        ensures spends { SpendsWithin (nodes.old, self.old) (nodes.new, self.new) a b }
        ensures known { OnOk result (AddsPair self.old self.new (a, b)) }
    {
        let id = self.place(nodes, a, b, choice)?;
        let before = self.reach(self.known());
        let reach = before.max(height(a).max(height(b)).max(height(id)));
        self.reaches.reserve(1)?;
        self.memo.insert((a, b), id)?;
        self.reaches.push(reach).unwrap();
        self.expansions = self.expansions.saturating_add(1);
        Ok(id)
    }

    // The conjunction of two ids, which is a choice among those of their children.
    fn place(
        &self,
        nodes: &mut NodeTable,
        a: NodeId,
        b: NodeId,
        choice: Choice,
    ) -> Result<NodeId, AllocError>
        requires held { HoldsBoth (contents nodes.old self.now) a b }
        requires joins { Joins nodes.old a b choice }
        ensures rules { IsWellKept (contents nodes.new self.now) }
        ensures kept { Keeps markers nodes.old nodes.new }
        ensures and { IfOk result (IsAnd nodes.new a b) }
    {
        nodes.place_choice(choice)
    }
}
