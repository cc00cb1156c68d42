//! Whether nothing satisfies two ids.
//!
//! Most answers need the children of both ids alone. Otherwise a walk visits pairs of ids, and at
//! each pair the pairs of their children. Disjoint pairs are remembered in an array on the stack,
//! which may overwrite them. So a walk that needs too many visits starts again with a larger array.

ghost use Rattle.std.specs.Prelude.{◌≡◌, ◌+◌, ◌<◌, ◌≤◌, IfNone, IfSome, IsSome};
ghost use Rattle.marker_diagrams.specs.Diagram as diagram;
ghost use Rattle.marker_diagrams.specs.Id.{place_of};
ghost use Rattle.marker_nodes.specs.Node.{markers};
ghost use Rattle.marker_walks.specs.Disjoint.{AreDisjoint, HasBoth, IsKept, IsMemory, Leaves, RemainApartWith, TellsDisjoint, TellsDisjointEverywhere, TellsDisjointWith};
ghost use Rattle.marker_walks.specs.Looks.{AreUnbounded};

use crate::looks::{FIRST, Looks, SECOND, THIRD};
use marker_nodes::{NodeId, NodeTable, short_cut};

// A disjoint pair of ids: no valuation satisfies both.
type Pair = (NodeId, NodeId);

// What a walk remembers, and how many visits are left. A pair has two places, which other pairs may
// overwrite.
#[derive(Drop)]
struct Memory<const N: usize> {
    apart: [Pair; N],
    looks: Looks,
}

// A path of at most this many last pairs is walked again when it is met; a longer one is
// remembered.
const SHORT_WAY: usize = 32;

/// Returns whether no valuation satisfies both ids.
///
/// Disjoint pairs are remembered on the stack, up to 65,536 of them. Calls are nested at most as
/// deep as the ids have variables.
pub fn are_disjoint(nodes: &NodeTable, a: NodeId, b: NodeId) -> bool
    requires rules { diagram.IsStore markers nodes.now }
    requires a { diagram.IsHeld nodes.now a }
    requires b { diagram.IsHeld nodes.now b }
    ensures { TellsDisjoint nodes.now a b result }
{
    match tell(nodes, Looks::new(None), a, b) {
        Some(answer) => answer,
        None => unreachable!(),
    }
}

/// Returns whether no valuation satisfies both ids, or `None` if that takes more than `looks`
/// visits of pairs of nodes.
pub fn are_disjoint_within(nodes: &NodeTable, a: NodeId, b: NodeId, looks: usize) -> Option<bool>
    requires rules { diagram.IsStore markers nodes.now }
    requires a { diagram.IsHeld nodes.now a }
    requires b { diagram.IsHeld nodes.now b }
    ensures { IfSome result (TellsDisjoint nodes.now a b) }
{
    tell(nodes, Looks::new(Some(looks)), a, b)
}

// The answer within some visits: most walks end within the first of them.
fn tell(nodes: &NodeTable, mut looks: Looks, a: NodeId, b: NodeId) -> Option<bool>
    requires rules { diagram.IsStore markers nodes.now }
    requires a { diagram.IsHeld nodes.now a }
    requires b { diagram.IsHeld nodes.now b }
    ensures answer { IfSome result (TellsDisjoint nodes.now a b) }
    ensures answered { AreUnbounded looks → IsSome result }
{
    if looks.are_left() {
        if let Some(answer) = glance(nodes, a, b) {
            return Some(answer);
        }
    }
    if let Some(answer) = walk::<2>(nodes, looks.set_aside(FIRST), a, b) {
        return Some(answer);
    }
    if let Some(answer) = walk::<256>(nodes, looks.set_aside(SECOND), a, b) {
        return Some(answer);
    }
    if let Some(answer) = walk::<4_096>(nodes, looks.set_aside(THIRD), a, b) {
        return Some(answer);
    }
    walk::<65_536>(nodes, looks, a, b)
}

// The answer, if it needs no node. Two ids that are no negations are both true at the lowest
// valuation, since the first child of a node is no negation either.
fn at_once(a: NodeId, b: NodeId) -> Option<bool>
    ensures answer { IfSome result (TellsDisjointEverywhere a b) }
    ensures nodes { IfNone result ((0 < place_of a) × (0 < place_of b)) }
{
    if !a.is_complement() && !b.is_complement() {
        return Some(false);
    }
    match short_cut(a, b) {
        Some(both) => Some(both == NodeId::FALSE),
        None => None,
    }
}

// The answer, if it needs the children of both ids alone, and no visit of their children.
fn glance(nodes: &NodeTable, a: NodeId, b: NodeId) -> Option<bool>
    requires rules { diagram.IsStore markers nodes.now }
    requires a { diagram.IsHeld nodes.now a }
    requires b { diagram.IsHeld nodes.now b }
    ensures { IfSome result (TellsDisjoint nodes.now a b) }
{
    if let Some(answer) = at_once(a, b) {
        return Some(answer);
    }
    let unsigned_a = a.negate(a);
    let unsigned_b = b.negate(b);
    for (left, right) in nodes.side_by_side(&unsigned_a, &unsigned_b).pairs() {
        let left = left.negate(a);
        let right = right.negate(b);
        let is_apart = at_once(left, right)?;
        if !is_apart {
            return Some(false);
        }
    }
    Some(true)
}

// The answer by a walk with `N` places. They are on the stack of this call, so that no other walk
// pays for them.
#[inline(never)]
fn walk<const N: usize>(nodes: &NodeTable, looks: Looks, a: NodeId, b: NodeId) -> Option<bool>
    requires ids { HasBoth nodes.now a b }
    requires places { 2 ≤ N }
    requires size { N ≤ 65536 }
    ensures answer { IfSome result (TellsDisjoint nodes.now a b) }
    ensures answered { AreUnbounded looks → IsSome result }
{
    let mut memory = Memory {
        apart: [(NodeId::FALSE, NodeId::FALSE); N],
        looks,
    };
    are_apart::<N>(nodes, &mut memory, a, b)
}

// What remains of a pair if all other pairs of its children are disjoint: nothing if one is not,
// otherwise the last pair.
#[derive(Drop)]
pub(crate) enum Rest {
    Shared,
    Last(NodeId, NodeId),
}

// The answer, using and extending what is remembered.
#[cycle(apart)]
fn are_apart<const N: usize>(
    nodes: &NodeTable,
    memory: &mut Memory<N>,
    a: NodeId,
    b: NodeId,
) -> Option<bool>
    requires ids { HasBoth nodes.now a b }
    requires memory { IsMemory nodes.now N memory.old.apart }
    ensures answer { IfSome result (TellsDisjoint nodes.now a b) }
    ensures answered { AreUnbounded memory.old.looks → IsSome result }
    ensures kept { IsKept nodes.now memory.old.looks memory.new.looks memory.new.apart }
{
    if let Some(answer) = memory.recall(a, b) {
        return Some(answer);
    }
    let mut pair = (a, b);
    let mut passed = 0usize;
    loop {
        match all_but_last::<N>(nodes, memory, pair.0, pair.1)? {
            Rest::Last(left, right) => pair = (left, right),
            Rest::Shared => return Some(false),
        }
        if let Some(answer) = memory.recall(pair.0, pair.1) {
            if answer && passed > SHORT_WAY {
                remember_way::<N>(nodes, memory, a, b);
            } else if answer {
                memory.remember(a, b);
            }
            return Some(answer);
        }
        passed = passed.saturating_add(1);
    }
}

// Remembers a disjoint pair, and those on the path from each to the last pair of its children.
#[cycle(apart)]
fn remember_way<const N: usize>(nodes: &NodeTable, memory: &mut Memory<N>, a: NodeId, b: NodeId)
    requires ids { HasBoth nodes.now a b }
    requires nodes { (0 < place_of a) × (0 < place_of b) }
    requires memory { IsMemory nodes.now N memory.old.apart }
    requires disjoint { AreDisjoint nodes.now a b }
    ensures kept { IsKept nodes.now memory.old.looks memory.new.looks memory.new.apart }
{
    memory.remember(a, b);
    let mut pair = (a, b);
    loop {
        match all_but_last::<N>(nodes, memory, pair.0, pair.1) {
            Some(Rest::Last(left, right)) => pair = (left, right),
            _ => return,
        }
        if memory.recall(pair.0, pair.1).is_some() {
            return;
        }
        memory.remember(pair.0, pair.1);
    }
}

// Visits all pairs of children but the last undecided one.
#[cycle(apart)]
fn all_but_last<const N: usize>(
    nodes: &NodeTable,
    memory: &mut Memory<N>,
    a: NodeId,
    b: NodeId,
) -> Option<Rest>
    requires ids { HasBoth nodes.now a b }
    requires nodes { (0 < place_of a) × (0 < place_of b) }
    requires memory { IsMemory nodes.now N memory.old.apart }
    ensures rest { IfSome result (Leaves nodes.now a b) }
    ensures answered { AreUnbounded memory.old.looks → IsSome result }
    ensures kept { IsKept nodes.now memory.old.looks memory.new.looks memory.new.apart }
{
    memory.looks.take()?;
    let mut last = (NodeId::FALSE, NodeId::FALSE);
    let unsigned_a = a.negate(a);
    let unsigned_b = b.negate(b);
    for (left, right) in nodes.side_by_side(&unsigned_a, &unsigned_b).pairs() {
        let left = left.negate(a);
        let right = right.negate(b);
        match memory.recall(left, right) {
            Some(true) => {}
            Some(false) => return Some(Rest::Shared),
            None => {
                if !are_apart::<N>(nodes, memory, last.0, last.1)? {
                    return Some(Rest::Shared);
                }
                last = (left, right);
            }
        }
    }
    Some(Rest::Last(last.0, last.1))
}

impl<const N: usize> Memory<N> {
    // Whether no valuation satisfies both ids, if that is remembered or needs no visit of a node.
    fn recall(&self, a: NodeId, b: NodeId) -> Option<bool>
        requires { 2 ≤ N }
        ensures answer { IfSome result (TellsDisjointWith self.now.apart a b) }
        ensures nodes { IfNone result ((0 < place_of a) × (0 < place_of b)) }
    {
        if let Some(answer) = at_once(a, b) {
            return Some(answer);
        }
        let place = first_place(N, a, b);
        let first = self.apart[place];
        if first.0 == a && first.1 == b {
            return Some(true);
        }
        let second = self.apart[place + 1];
        if second.0 == a && second.1 == b {
            return Some(true);
        }
        None
    }

    // Remembers a pair in the first of its places, and moves what was there to the second.
    fn remember(&mut self, a: NodeId, b: NodeId)
        requires { 2 ≤ N }
        ensures looks { self.new.looks ≡ self.old.looks }
        ensures apart { RemainApartWith (a, b) self.old.apart self.new.apart }
    {
        let place = first_place(N, a, b);
        self.apart[place + 1] = self.apart[place];
        self.apart[place] = (a, b);
    }
}

// The first of the two of `places` for a pair: by the high bits of a sum of products, because many
// pairs of a walk have ids at one distance.
fn first_place(places: usize, a: NodeId, b: NodeId) -> usize
    requires { 2 ≤ places }
    ensures { result + 1 < places }
{
    let left = number(a).wrapping_mul(0x9e37_79b9_7f4a_7c15);
    let right = number(b).wrapping_mul(0xc2b2_ae3d_27d4_eb4f);
    let mixed = left.wrapping_add(right) >> 32;
    mixed % (places / 2) * 2
}

// A number of an id, different for each.
fn number(id: NodeId) -> usize {
    let index = id.index().unwrap_or(0);
    index
        .wrapping_mul(2)
        .wrapping_add(usize::from(id.is_complement()))
}
