//! Whether some valuation with given extras satisfies an id.
//!
//! A walk visits ids, and at each id its children. Those that no valuation satisfies are remembered
//! in an array on the stack, which may overwrite them. So a walk that needs too many visits starts
//! again with a larger array.

ghost use Rattle.std.specs.Prelude.{◌≡◌, ◌+◌, ◌<◌, ◌≤◌, IfSome, IsSome, Some, length, true};
ghost use Rattle.marker_diagrams.specs.Diagram as diagram;
ghost use Rattle.marker_nodes.specs.Node.{markers};
ghost use Rattle.marker_nodes.specs.declared.node.Branches.TheVariants as kinds;
ghost use Rattle.marker_walks.specs.Possible.{HasSome, may_be_so, may_lie_between, may_not_be_so};
ghost use Rattle.marker_walks.specs.Search.{Answers, IsKept, IsMemory, IsOneOf, IsOut, IsOutWith, IsSearch, Leaves, RemainOutWith};
ghost use Rattle.marker_walks.specs.Looks.{AreUnbounded};

use crate::child::is_listed;
use crate::looks::{FIRST, Looks, SECOND, THIRD};
use marker_nodes::{Branches, NodeId, NodeTable, TruthVariable};
use marker_words::VersionVariable;
use pep440_version::Version;
use pep508_names::ExtraName;
use version_ranges::{Cuts, Piece};

// A path of at most this many remaining children is walked again when it is met; a longer one is
// remembered.
const SHORT_WAY: usize = 32;

// What remains of an id that branches on a substring test or an extra: nothing if a child is
// satisfied, otherwise the other child.
#[derive(Drop)]
pub(crate) enum Rest {
    Satisfied,
    Child(NodeId),
}

/// Returns whether some valuation satisfies the id with exactly these extras, without an arbitrary
/// one, and if versions are given with one of these as the Python version.
///
/// Ids that no valuation satisfies are remembered on the stack, up to 65,536 of them. Calls are
/// nested at most as deep as the id has variables.
pub fn is_possible(
    nodes: &NodeTable,
    extras: &[ExtraName],
    versions: Option<&[Version]>,
    id: NodeId,
) -> bool
    requires rules { diagram.IsStore markers nodes.now }
    requires id { diagram.IsHeld nodes.now id }
    requires versions { HasSome versions }
    ensures { Answers extras.now versions.entry nodes.now id result }
{
    match first_walks(nodes, extras, versions, Looks::new(None), id) {
        Some(answer) => answer,
        None => unreachable!(),
    }
}

/// Returns what [`is_possible`] does, or `None` if that takes more than `looks` visits of nodes.
pub fn is_possible_within(
    nodes: &NodeTable,
    extras: &[ExtraName],
    versions: Option<&[Version]>,
    id: NodeId,
    looks: usize,
) -> Option<bool>
    requires rules { diagram.IsStore markers nodes.now }
    requires id { diagram.IsHeld nodes.now id }
    requires versions { HasSome versions }
    ensures { IfSome result (Answers extras.now versions.entry nodes.now id) }
{
    first_walks(nodes, extras, versions, Looks::new(Some(looks)), id)
}

// The answer within some visits: most walks end within the first of them.
fn first_walks(
    nodes: &NodeTable,
    extras: &[ExtraName],
    versions: Option<&[Version]>,
    mut looks: Looks,
    id: NodeId,
) -> Option<bool>
    requires search { IsSearch nodes.now versions id }
    ensures answer { IfSome result (Answers extras.now versions.entry nodes.now id) }
    ensures answered { AreUnbounded looks → IsSome result }
{
    if let Some(answer) = walk::<2>(nodes, extras, versions, looks.set_aside(FIRST), id) {
        return Some(answer);
    }
    if let Some(answer) = walk::<256>(nodes, extras, versions, looks.set_aside(SECOND), id) {
        return Some(answer);
    }
    if let Some(answer) = walk::<4_096>(nodes, extras, versions, looks.set_aside(THIRD), id) {
        return Some(answer);
    }
    walk::<65_536>(nodes, extras, versions, looks, id)
}

// The answer by a walk with `N` places. They are on the stack of this call, so that no other walk
// pays for them.
#[inline(never)]
fn walk<const N: usize>(
    nodes: &NodeTable,
    extras: &[ExtraName],
    versions: Option<&[Version]>,
    looks: Looks,
    id: NodeId,
) -> Option<bool>
    requires search { IsSearch nodes.now versions id }
    requires places { 2 ≤ N }
    requires size { N ≤ 65536 }
    ensures answer { IfSome result (Answers extras.now versions.entry nodes.now id) }
    ensures answered { AreUnbounded looks → IsSome result }
{
    let mut out = [NodeId::FALSE; N];
    let mut looks = looks;
    possible(nodes, extras, versions, &mut out, &mut looks, id)
}

// The answer, using and extending what is remembered.
#[cycle(possible)]
fn possible(
    nodes: &NodeTable,
    extras: &[ExtraName],
    versions: Option<&[Version]>,
    out: &mut [NodeId],
    looks: &mut Looks,
    id: NodeId,
) -> Option<bool>
    requires search { IsSearch nodes.now versions id }
    requires memory { IsMemory extras.now versions nodes.now out.old }
    ensures answer { IfSome result (Answers extras.now versions.entry nodes.now id) }
    ensures answered { AreUnbounded looks.old → IsSome result }
    ensures kept { IsKept extras.now versions.entry nodes.now looks.old out.old looks.new out.new }
{
    if id.is_true() {
        return Some(true);
    }
    if is_known_out(out, id) {
        return Some(false);
    }
    let answer = possible_by_nodes(nodes, extras, versions, out, looks, id)?;
    if !answer {
        remember(out, id);
    }
    Some(answer)
}

// The answer for an id that is not remembered.
#[cycle(possible)]
fn possible_by_nodes(
    nodes: &NodeTable,
    extras: &[ExtraName],
    versions: Option<&[Version]>,
    out: &mut [NodeId],
    looks: &mut Looks,
    id: NodeId,
) -> Option<bool>
    requires search { IsSearch nodes.now versions id }
    requires memory { IsMemory extras.now versions nodes.now out.old }
    ensures answer { IfSome result (Answers extras.now versions.entry nodes.now id) }
    ensures answered { AreUnbounded looks.old → IsSome result }
    ensures kept { IsKept extras.now versions.entry nodes.now looks.old out.old looks.new out.new }
{
    let mut at = id;
    let mut passed = 0usize;
    loop {
        looks.take()?;
        match nodes.node(at) {
            Some(Branches::Version(variable, edges)) => {
                return possible_at_version(
                    nodes, extras, versions, out, looks, at, *variable, edges,
                );
            }
            Some(Branches::Text(_, edges)) => {
                return possible_at_text(nodes, extras, versions, out, looks, at, edges);
            }
            Some(Branches::Truth(variable, high, low)) => {
                match rest_at_truth(
                    nodes, extras, versions, out, looks, at, variable, *high, *low,
                )? {
                    Rest::Child(child) => {
                        if is_known_out(out, child) {
                            if passed > SHORT_WAY {
                                remember_way(nodes, extras, versions, out, looks, id);
                            }
                            return Some(false);
                        }
                        at = child;
                        passed = passed.saturating_add(1);
                    }
                    Rest::Satisfied => return Some(true),
                }
            }
            None => return Some(!at.is_complement()),
        }
    }
}

// Remembers the children that remain on the path from an id that nothing satisfies.
#[cycle(possible)]
fn remember_way(
    nodes: &NodeTable,
    extras: &[ExtraName],
    versions: Option<&[Version]>,
    out: &mut [NodeId],
    looks: &mut Looks,
    id: NodeId,
)
    requires search { IsSearch nodes.now versions id }
    requires impossible { IsOut extras.now versions nodes.now id }
    requires memory { IsMemory extras.now versions nodes.now out.old }
    ensures kept { IsKept extras.now versions.entry nodes.now looks.old out.old looks.new out.new }
{
    let mut at = id;
    loop {
        let Some(Branches::Truth(variable, high, low)) = nodes.node(at) else {
            return;
        };
        match rest_at_truth(
            nodes, extras, versions, out, looks, at, variable, *high, *low,
        ) {
            Some(Rest::Child(child)) => at = child,
            _ => return,
        }
        if is_known_out(out, at) {
            return;
        }
        remember(out, at);
    }
}

// The answer for an id that branches on a version.
#[cycle(possible)]
fn possible_at_version(
    nodes: &NodeTable,
    extras: &[ExtraName],
    versions: Option<&[Version]>,
    out: &mut [NodeId],
    looks: &mut Looks,
    id: NodeId,
    variable: VersionVariable,
    edges: &Cuts<Version, NodeId>,
) -> Option<bool>
    requires search { IsSearch nodes.now versions id }
    requires node { diagram.node_of nodes.now id ≡ Some (kinds.Version variable edges.now) }
    requires memory { IsMemory extras.now versions nodes.now out.old }
    ensures answer { IfSome result (Answers extras.now versions.entry nodes.now id) }
    ensures answered { AreUnbounded looks.old → IsSome result }
    ensures kept { IsKept extras.now versions.entry nodes.now looks.old out.old looks.new out.new }
{
    for piece in edges.pieces() {
        if !may_lie_in(variable, versions, &piece) {
            continue;
        }
        if possible(nodes, extras, versions, out, looks, piece.value.negate(id))? {
            return Some(true);
        }
    }
    Some(false)
}

// The answer for an id that branches on a text.
#[cycle(possible)]
fn possible_at_text(
    nodes: &NodeTable,
    extras: &[ExtraName],
    versions: Option<&[Version]>,
    out: &mut [NodeId],
    looks: &mut Looks,
    id: NodeId,
    edges: &Cuts<String, NodeId>,
) -> Option<bool>
    requires search { IsSearch nodes.now versions id }
    requires node { IsOneOf nodes.now id (λ x. kinds.Text x edges.now) }
    requires memory { IsMemory extras.now versions nodes.now out.old }
    ensures answer { IfSome result (Answers extras.now versions.entry nodes.now id) }
    ensures answered { AreUnbounded looks.old → IsSome result }
    ensures kept { IsKept extras.now versions.entry nodes.now looks.old out.old looks.new out.new }
{
    for piece in edges.pieces() {
        if possible(nodes, extras, versions, out, looks, piece.value.negate(id))? {
            return Some(true);
        }
    }
    Some(false)
}

// Visits one child of an id that branches on a substring test or an extra, unless that value is
// impossible. If both are possible, the child that remains is never a constant.
#[cycle(possible)]
fn rest_at_truth(
    nodes: &NodeTable,
    extras: &[ExtraName],
    versions: Option<&[Version]>,
    out: &mut [NodeId],
    looks: &mut Looks,
    id: NodeId,
    variable: &TruthVariable,
    high: NodeId,
    low: NodeId,
) -> Option<Rest>
    requires search { IsSearch nodes.now versions id }
    requires node { diagram.node_of nodes.now id ≡ Some (kinds.Truth variable.now high low) }
    requires memory { IsMemory extras.now versions nodes.now out.old }
    ensures rest { IfSome result (Leaves extras.now versions.entry nodes.now id) }
    ensures answered { AreUnbounded looks.old → IsSome result }
    ensures kept { IsKept extras.now versions.entry nodes.now looks.old out.old looks.new out.new }
{
    if !may_be_so(variable, extras) {
        return Some(Rest::Child(low.negate(id)));
    }
    if !may_not_be_so(variable, extras) {
        return Some(Rest::Child(high.negate(id)));
    }
    if low.index().is_none() {
        if possible(nodes, extras, versions, out, looks, low.negate(id))? {
            return Some(Rest::Satisfied);
        }
        return Some(Rest::Child(high.negate(id)));
    }
    if possible(nodes, extras, versions, out, looks, high.negate(id))? {
        return Some(Rest::Satisfied);
    }
    Some(Rest::Child(low.negate(id)))
}

// Whether an id is false or remembered.
fn is_known_out(out: &[NodeId], id: NodeId) -> bool
    requires { 2 ≤ length out.now }
    ensures { result ≡ true → IsOutWith out.now id }
{
    if id.is_false() {
        return true;
    }
    is_remembered(out, id)
}

// Whether an id is remembered. It has two places, which other ids may overwrite.
fn is_remembered(out: &[NodeId], id: NodeId) -> bool
    requires { 2 ≤ length out.now }
    ensures { result ≡ true → IsOutWith out.now id }
{
    let place = first_place(out.len(), id);
    if out[place] == id {
        return true;
    }
    out[place + 1] == id
}

// Remembers an id in the first of its places, and moves what was there to the second.
fn remember(out: &mut [NodeId], id: NodeId)
    requires { 2 ≤ length out.old }
    ensures places { length out.new ≡ length out.old }
    ensures out { RemainOutWith id out.old out.new }
{
    let place = first_place(out.len(), id);
    out[place + 1] = out[place];
    out[place] = id;
}

// The first of the two of `places` for an id: by the high bits of a product, because the ids of a
// walk often differ by a power of two.
fn first_place(places: usize, id: NodeId) -> usize
    requires { 2 ≤ places }
    ensures { result + 1 < places }
{
    let index = id.index().unwrap_or(0).wrapping_mul(2);
    let number = index.wrapping_add(usize::from(id.is_complement()));
    let mixed = number.wrapping_mul(0x9e37_79b9_7f4a_7c15) >> 40;
    mixed % (places / 2) * 2
}

// Whether the variable's version may be in a piece: always, except for the Python version if
// versions are given.
fn may_lie_in(
    variable: VersionVariable,
    versions: Option<&[Version]>,
    piece: &Piece<'_, Version, NodeId>,
) -> bool
    ensures { result ≡ may_lie_between variable versions.entry piece.now.lower piece.now.upper }
{
    match (variable, versions) {
        (VersionVariable::PythonFullVersion, Some(versions)) => {
            versions.iter().any(|version| piece.contains(version))
        }
        (VersionVariable::PythonFullVersion, None) => true,
        (VersionVariable::ImplementationVersion, _) => true,
    }
}

// Whether the variable may be true: a substring test may, and an extra if it is listed.
fn may_be_so(variable: &TruthVariable, extras: &[ExtraName]) -> bool
    ensures { result ≡ may_be_so extras.now variable.now }
{
    match variable {
        TruthVariable::In(_, _) | TruthVariable::Contains(_, _) => true,
        TruthVariable::Extra(name) => is_listed(name, extras),
        TruthVariable::Arbitrary(_) => false,
    }
}

// Whether the variable may be false.
fn may_not_be_so(variable: &TruthVariable, extras: &[ExtraName]) -> bool
    ensures { result ≡ may_not_be_so extras.now variable.now }
{
    match variable {
        TruthVariable::In(_, _) | TruthVariable::Contains(_, _) => true,
        TruthVariable::Extra(name) => !is_listed(name, extras),
        TruthVariable::Arbitrary(_) => true,
    }
}
