//! The order of two diagrams.

ghost use Rattle.std.specs.Prelude.{◌≡◌, ◌+◌, ◌<◌, ◌≤◌, ◌^◌, IfSome, IsSome, None, true};
ghost use Rattle.std.specs.declared.cmp.Ordering.TheVariants.{Equal};
ghost use Rattle.marker_diagrams.specs.Diagram.{IsStore};
ghost use Rattle.marker_nodes.specs.Node.{markers};
ghost use Rattle.marker_order.specs.Agreement.{AgreeAt, AgreeUpTo, AreKnown, AreStores, IsEqualWith, IsOrderOf, RemainEqualWith};
ghost use Rattle.marker_order.specs.Order.{diagram_cmp};

use crate::turns::{Turn, side_by_side};
use marker_nodes::{NodeId, NodeTable};
use std::cmp::Ordering;

// How many more nodes are compared when equal ids are met.
const PACE: usize = 8;

// How many pairs of nodes are visited by a comparison that remembers hardly any, because most end
// within them, and by one that remembers 4,096.
const FIRST: usize = 64;

const SECOND: usize = 65_536;

// What a comparison remembers, and how many pairs of nodes it may visit.
#[derive(Drop)]
struct Memory<const N: usize> {
    // How many nodes of both tables are known to be equal, from the oldest on.
    agreed: usize,
    // Pairs of ids whose diagrams are equal. A pair has two places, which other pairs may
    // overwrite.
    equal: [(NodeId, NodeId); N],
    // How many visits are left, or `None` for any number.
    looks: Option<usize>,
}

/// Returns the order of two diagrams, each an id in its table. `TRUE` and `FALSE` come first. Then
/// the first variable decides, versions before texts before substring tests and extras; then each
/// edge, by lower bound, upper bound and child. A diagram that has no more edges comes first. Calls
/// are nested at most as deep as the ids have variables.
///
/// Equal ids are skipped if both tables are known to be equal from their oldest node up to there;
/// at each pair of equal ids some more nodes are compared for this. Other equal pairs are
/// remembered in an array on the stack, which may overwrite them. So a comparison that needs too
/// many visits starts again with a larger array, of up to 65,536 pairs.
pub fn diagram_order(
    table: &NodeTable,
    id: NodeId,
    other_table: &NodeTable,
    other: NodeId,
) -> Ordering
    requires rules { IsStore markers table.now }
    requires other_rules { IsStore markers other_table.now }
    ensures { result ≡ diagram_cmp (table.now, id) (other_table.now, other) }
{
    if let Some(order) = order_by::<2>(table, id, other_table, other, Some(FIRST)) {
        return order;
    }
    if let Some(order) = order_by::<4_096>(table, id, other_table, other, Some(SECOND)) {
        return order;
    }
    match order_by::<65_536>(table, id, other_table, other, None) {
        Some(order) => order,
        None => unreachable!(),
    }
}

// The order by a comparison with `N` places, if it ends within the visits. The places are on the
// stack of this call, so that no other comparison pays for them.
#[inline(never)]
fn order_by<const N: usize>(
    table: &NodeTable,
    id: NodeId,
    other_table: &NodeTable,
    other: NodeId,
    looks: Option<usize>,
) -> Option<Ordering>
    requires rules { AreStores table.now other_table.now }
    requires places { 2 ≤ N }
    requires size { N ≤ 65536 }
    ensures order { IfSome result (IsOrderOf (table.now, id) (other_table.now, other)) }
    ensures answered { looks ≡ None → IsSome result }
{
    let mut memory = Memory {
        agreed: 0,
        equal: [(NodeId::FALSE, NodeId::FALSE); N],
        looks,
    };
    order_from::<N>(table, id, other_table, other, &mut memory)
}

// The order, using and extending what is remembered.
fn order_from<const N: usize>(
    table: &NodeTable,
    id: NodeId,
    other_table: &NodeTable,
    other: NodeId,
    memory: &mut Memory<N>,
) -> Option<Ordering>
    requires rules { AreStores table.now other_table.now }
    requires places { 2 ≤ N }
    requires known { AreKnown table.now other_table.now memory.old.agreed memory.old.equal }
    ensures order { IfSome result (IsOrderOf (table.now, id) (other_table.now, other)) }
    ensures unbounded { memory.old.looks ≡ None → IsSome result × (memory.new.looks ≡ None) }
    ensures known { AreKnown table.now other_table.now memory.new.agreed memory.new.equal }
{
    let mut agreed = memory.agreed;
    let passed_over = are_passed_over(table, id, other_table, other, &mut agreed);
    memory.agreed = agreed;
    if passed_over {
        return Some(Ordering::Equal);
    }
    let (left, right) = match (table.node(id), other_table.node(other)) {
        (Some(left), Some(right)) => (left, right),
        (Some(_), None) => return Some(Ordering::Greater),
        (None, Some(_)) => return Some(Ordering::Less),
        (None, None) => return Some(id.is_complement().cmp(&other.is_complement())),
    };
    match left.cmp_variable(right) {
        Ordering::Equal => {}
        Ordering::Less => return Some(Ordering::Less),
        Ordering::Greater => return Some(Ordering::Greater),
    }
    if memory.remembers(id, other) {
        return Some(Ordering::Equal);
    }
    memory.take_look()?;
    for turn in side_by_side(left, right) {
        let order = match turn {
            Turn::Told(order) => order,
            Turn::Below(child, other_child) => order_from::<N>(
                table,
                child.negate(id),
                other_table,
                other_child.negate(other),
                memory,
            )?,
        };
        if order != Ordering::Equal {
            return Some(order);
        }
    }
    memory.remember(id, other);
    Some(Ordering::Equal)
}

impl<const N: usize> Memory<N> {
    // Uses up a visit, if one is left.
    fn take_look(&mut self) -> Option<()>
        ensures unbounded { self.old.looks ≡ None → IsSome result × (self.new.looks ≡ None) }
        ensures agreed { self.new.agreed ≡ self.old.agreed }
        ensures equal { self.new.equal ≡ self.old.equal }
    {
        if let Some(looks) = self.looks {
            self.looks = Some(looks.checked_sub(1)?);
        }
        Some(())
    }

    // Whether a pair is remembered.
    fn remembers(&self, id: NodeId, other: NodeId) -> bool
        requires { 2 ≤ N }
        ensures { result ≡ true → IsEqualWith self.now.equal (id, other) }
    {
        let place = first_place(N, id, other);
        let first = self.equal[place];
        if first.0 == id && first.1 == other {
            return true;
        }
        let second = self.equal[place + 1];
        second.0 == id && second.1 == other
    }

    // Remembers a pair in the first of its places, and moves what was there to the second.
    fn remember(&mut self, id: NodeId, other: NodeId)
        requires { 2 ≤ N }
        ensures agreed { self.new.agreed ≡ self.old.agreed }
        ensures looks { self.new.looks ≡ self.old.looks }
        ensures equal { RemainEqualWith (id, other) self.old.equal self.new.equal }
    {
        let place = first_place(N, id, other);
        self.equal[place + 1] = self.equal[place];
        self.equal[place] = (id, other);
    }
}

// The first of the two of `places` for a pair.
fn first_place(places: usize, id: NodeId, other: NodeId) -> usize
    requires { 2 ≤ places }
    ensures { result + 1 < places }
{
    let left = number(id).wrapping_mul(0x9e37_79b9_7f4a_7c15);
    let right = number(other).wrapping_mul(0xc2b2_ae3d_27d4_eb4f);
    let mixed = left.wrapping_add(right) >> 32;
    mixed % (places / 2) * 2
}

// A number of an id, different for each.
fn number(id: NodeId) -> usize {
    let index = id.index().unwrap_or(0);
    index
        .wrapping_mul(2)
        .wrapping_add(usize::from(id.is_complement()))
}

// Whether the ids are equal and both tables are equal up to there, which some more comparisons of
// nodes may show.
fn are_passed_over(
    table: &NodeTable,
    id: NodeId,
    other_table: &NodeTable,
    other: NodeId,
    agreed: &mut usize,
) -> bool
    requires rules { AreStores table.now other_table.now }
    requires agreed { AgreeUpTo table.now other_table.now agreed.old }
    ensures equal { result ≡ true → diagram_cmp (table.now, id) (other_table.now, other) ≡ Equal }
    ensures agreed { AgreeUpTo table.now other_table.now agreed.new }
{
    if id != other {
        return false;
    }
    let Some(index) = id.index() else {
        return false;
    };
    for _ in 0..PACE {
        if index < *agreed {
            return true;
        }
        if !agree_at(table, other_table, *agreed) {
            return false;
        }
        *agreed += 1;
    }
    false
}

// Whether both tables have the same node at an index.
fn agree_at(table: &NodeTable, other_table: &NodeTable, index: usize) -> bool
    requires { index + 1 < 2 ^ 32 }
    ensures { result ≡ true → AgreeAt table.now other_table.now index }
{
    let id = NodeId::new(index, false);
    match (table.node(id), other_table.node(id)) {
        (Some(left), Some(right)) => left == right,
        (Some(_), None) => false,
        (None, Some(_)) => false,
        (None, None) => false,
    }
}
