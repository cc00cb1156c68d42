//! Ids simplified for extras that are active.

ghost use Rattle.std.specs.Prelude.{◌≡◌, [], IfNone, IfOk, IfSome, OnOk, length, true};
ghost use Rattle.std.specs.Fn.{FnReturnsAt};
ghost use Rattle.marker_diagrams.specs.Diagram as diagram;
ghost use Rattle.marker_diagrams.specs.Diagram.{Keeps};
ghost use Rattle.marker_nodes.specs.Node.{markers};
ghost use Rattle.marker_nodes.specs.Table.{GrowsByRules};
ghost use Rattle.marker_simplifications.specs.Granting.{AreFoundAs, AreSettled, AreWantedOf, IsFoundAs, IsNext, IsPlain, IsUnknown, IsUnsolved, RemainPlainWith, Solves, TakesPlain, plain};
ghost use Rattle.marker_simplifications.specs.Simplified.{Grants, IsGranted, IsTouched, IsUntouched, KnowsGranted};

use marker_nodes::{Branches, Children, Node, NodeId, NodeTable, TruthVariable};
use pep508_names::ExtraName;
use smallvec::SmallVec;
use std::alloc::{AllocError, Global};
use std::collections::HashMap;

/// Returns the id with each extra set to true for which the closure returns `true`, if that is a
/// fixed set of extras. It no longer depends on them.
///
/// Ids that wait for those below them are in a list, so that depth costs memory and no stack.
pub fn grant_extras<F: Fn(&ExtraName) -> bool>(
    nodes: &mut NodeTable,
    is_extra: &F,
    id: NodeId,
) -> Result<NodeId, AllocError>
    requires rules { diagram.IsStore markers nodes.old }
    requires held { diagram.IsHeld nodes.old id }
    requires callable { F.IsAlwaysCallable is_extra.now }
    ensures kept { Keeps markers nodes.old nodes.new }
    ensures rules { diagram.IsStore markers nodes.new }
    ensures granted { IfOk result (IsGranted nodes.new (FnReturnsAt F.Fn is_extra.now) id) }
{
    let mut known = HashMap::new(nodes.allocator());
    let mut pending = Vec::new(nodes.allocator());
    loop {
        if let Some(found) = look_up(&known, id) {
            return Ok(found);
        }
        let first = match next_unknown(&known, &mut pending) {
            Some(next) => next,
            None => id.negate(id),
        };
        let (lowest, made) = descend(nodes, &known, is_extra, &mut pending, first)?;
        if lowest == id.negate(id) {
            return Ok(made.negate(id));
        }
        known.insert(lowest, made)?;
    }
}

// The id with extras set to true, from the results for ids that are not negations.
fn look_up(known: &HashMap<NodeId, NodeId>, id: NodeId) -> Option<NodeId>
    ensures granted { IfSome result (IsFoundAs known.now.entries id) }
    ensures settled { IfSome result (λ t. ¬ IsUnknown known.now.entries (plain id)) }
    ensures unknown { IfNone result (IsUnknown known.now.entries (plain id)) }
{
    if let None = id.index() {
        return Some(id);
    }
    match known.get(&id.negate(id)) {
        Some(found) => Some(found.negate(id)),
        None => None,
    }
}

// The last id of a list that has no result yet. Removes it and those above it.
fn next_unknown(known: &HashMap<NodeId, NodeId>, pending: &mut Vec<NodeId>) -> Option<NodeId>
    ensures unknown { IfSome result (λ t. IsUnknown known.now.entries (plain t)) }
    ensures plain { TakesPlain pending.old.items pending.new.items result }
{
    while let Some(id) = pending.pop() {
        if let None = look_up(known, id) {
            return Some(id);
        }
    }
    None
}

// An id that needs no other one, the given one or one below it, and its result. The ids on the way
// to it and those that they need are appended to the list.
fn descend<F: Fn(&ExtraName) -> bool>(
    nodes: &mut NodeTable,
    known: &HashMap<NodeId, NodeId>,
    is_extra: &F,
    pending: &mut Vec<NodeId>,
    first: NodeId,
) -> Result<(NodeId, NodeId), AllocError>
    requires first { IsUnsolved (length nodes.old) known.now.entries first }
    requires callable { F.IsAlwaysCallable is_extra.now }
    requires known { KnowsGranted nodes.old (FnReturnsAt F.Fn is_extra.now) known.now.entries }
    ensures kept { GrowsByRules nodes.old nodes.new }
    ensures solved { IfOk result (Solves nodes.new (FnReturnsAt F.Fn is_extra.now)
        known.now.entries first) }
    ensures pending { OnOk result (RemainPlainWith first pending.old.items pending.new.items) }
{
    let mut at = first;
    loop {
        match advance(nodes, known, is_extra, at)? {
            Step::Made(made) => return Ok((at, made)),
            Step::Waits(last, others) => {
                pending.push(at)?;
                pending.extend_from_slice(&others)?;
                at = last;
            }
        }
    }
}

// The next step for an id without a result.
enum Step {
    // Its result is this id.
    Made(NodeId),
    // It needs the results of these ids, which are not negations: the last one, and the others.
    Waits(NodeId, Children),
}

// The next step for an id that is not a negation.
fn advance<F: Fn(&ExtraName) -> bool>(
    nodes: &mut NodeTable,
    known: &HashMap<NodeId, NodeId>,
    is_extra: &F,
    id: NodeId,
) -> Result<Step, AllocError>
    requires plain { IsPlain (length nodes.old) id }
    requires callable { F.IsAlwaysCallable is_extra.now }
    requires known { KnowsGranted nodes.old (FnReturnsAt F.Fn is_extra.now) known.now.entries }
    ensures kept { GrowsByRules nodes.old nodes.new }
    ensures next { IfOk result (IsNext nodes.new (FnReturnsAt F.Fn is_extra.now)
        known.now.entries id) }
{
    let alloc = nodes.allocator();
    let Some(node) = nodes.node(id) else {
        return Ok(Step::Made(id));
    };
    if let Some(high) = granted_child(is_extra, node) {
        return Ok(match look_up(known, high) {
            Some(made) => Step::Made(made),
            None => Step::Waits(high.negate(high), SmallVec::new(alloc)),
        });
    }
    let ids = node.values(alloc)?;
    let mut wanted = unknown_ids(alloc, known, &ids)?;
    if let Some(last) = wanted.pop() {
        return Ok(Step::Waits(last, wanted));
    }
    if are_unchanged(known, &ids) {
        return Ok(Step::Made(id));
    }
    let branches = node.clone()?;
    let values = branches.values(alloc)?;
    let children = look_up_all(alloc, known, &values)?;
    let made = nodes.place(branches, children)?;
    Ok(Step::Made(made))
}

// The ids of a list without a result, without their signs.
fn unknown_ids(
    alloc: Global,
    known: &HashMap<NodeId, NodeId>,
    ids: &[NodeId],
) -> Result<Children, AllocError>
    ensures wanted { IfOk result (λ r. AreWantedOf known.now.entries ids.now r.items) }
    ensures none { IfOk result (λ r. r.items ≡ [] → AreSettled known.now.entries ids.now) }
{
    let mut wanted = SmallVec::new(alloc);
    for id in ids {
        if let Some(_) = look_up(known, *id) {
            continue;
        }
        wanted.push(id.negate(*id))?;
    }
    Ok(wanted)
}

// Whether each id of a list is its own result.
fn are_unchanged(known: &HashMap<NodeId, NodeId>, ids: &[NodeId]) -> bool
    ensures { result ≡ true → AreFoundAs known.now.entries ids.now ids.now }
{
    ids.iter().all(|id| look_up(known, *id) == Some(*id))
}

// The results of the ids of a list, which all have one.
fn look_up_all(
    alloc: Global,
    known: &HashMap<NodeId, NodeId>,
    ids: &[NodeId],
) -> Result<Children, AllocError>
    requires settled { AreSettled known.now.entries ids.now }
    ensures count { IfOk result (λ r. length r.items ≡ length ids.now) }
    ensures granted { IfOk result (λ r. AreFoundAs known.now.entries ids.now r.items) }
{
    let mut children = SmallVec::with_capacity(alloc, ids.len())?;
    for i in 0..ids.len() {
        match look_up(known, ids[i]) {
            Some(child) => children.push(child)?,
            // Each of the ids has a result.
            None => unreachable!(),
        }
    }
    Ok(children)
}

// Whether the variable is an extra that is set to true.
fn is_granted<F: Fn(&ExtraName) -> bool>(is_extra: &F, variable: &TruthVariable) -> bool
    requires { F.IsAlwaysCallable is_extra.now }
    ensures { Grants (FnReturnsAt F.Fn is_extra.now) variable.now result }
{
    match variable {
        TruthVariable::Extra(name) => is_extra(name),
        TruthVariable::In(_, _) | TruthVariable::Contains(_, _) | TruthVariable::Arbitrary(_) =>
            false,
    }
}

// The child of a node on an extra that is set to true.
fn granted_child<F: Fn(&ExtraName) -> bool>(is_extra: &F, node: &Node) -> Option<NodeId>
    requires { F.IsAlwaysCallable is_extra.now }
    ensures touched { IfSome result (IsTouched (FnReturnsAt F.Fn is_extra.now) node.now) }
    ensures untouched { IfNone result (IsUntouched (FnReturnsAt F.Fn is_extra.now) node.now) }
{
    match node {
        Branches::Version(_, _) => None,
        Branches::Text(_, _) => None,
        Branches::Truth(variable, high, _) => {
            if is_granted(is_extra, variable) {
                Some(*high)
            } else {
                None
            }
        }
    }
}
