//! Joining the trees of one connective.

ghost use Rattle.std.specs.Prelude.{◌≡◌, ◌++◌, ◌∷◌, [], length, IfNone, IfOk, IfSome, OnOk, ◌≤◌};
ghost use Rattle.std.specs.List.Sorted.{IsPermutation};
ghost use Rattle.marker_graph.specs.Contents.{IsHeld};
ghost use Rattle.pep508_markers.specs.Text.{OnlyGrows};
ghost use Rattle.pep508_markers.specs.Trees.{trees_of, truth_under, AreHeld, AreLastTwo, AreRuns, Connects, HasTreesOfBoth, JoinsAll, JoinsRun, JoinsTwo, SaysTheSameUnder, SaysUnder};

use crate::sets::joined_set_of;
use marker_graph::{Interner, MarkerTree};
use marker_nodes::{Branches, Node, NodeId, NodeTable};
use std::alloc::{AllocError, Global};
use std::cmp::Ordering;
use std::collections::VecDeque;

// How formulas are joined.
#[derive(Clone, Copy, PartialEq, Eq)]
pub(crate) enum Connective {
    And,
    Or,
}

// A formula in parts: trees that the connective is still to join. They are joined when another
// connective needs the tree. A single tree needs no list.
#[derive(Drop)]
pub(crate) struct Run {
    pub(crate) connective: Connective,
    pub(crate) first: MarkerTree,
    pub(crate) others: VecDeque<MarkerTree>,
}

// The tree of two trees under a connective.
fn join_two(
    interner: &mut Interner,
    connective: Connective,
    left: MarkerTree,
    right: MarkerTree,
) -> Result<MarkerTree, AllocError>
    requires left { IsHeld interner.old left }
    requires right { IsHeld interner.old right }
    ensures kept { OnlyGrows interner.old interner.new }
    ensures held { IfOk result (IsHeld interner.new) }
    ensures means { IfOk result (JoinsTwo interner.new connective left right) }
{
    let mut tree = left;
    match connective {
        Connective::And => tree.and(interner, right)?,
        Connective::Or => tree.or(interner, right)?,
    }
    Ok(tree)
}

// Appends a tree to the others, and takes the first of all.
fn rotate(trees: &mut VecDeque<MarkerTree>, tree: MarkerTree) -> Result<MarkerTree, AllocError>
    ensures { IfOk result (λ first. first ∷ trees.new.items ≡ trees.old.items ++ tree ∷ []) }
{
    let Some(first) = trees.pop_front() else {
        return Ok(tree);
    };
    trees.push_back(tree)?;
    Ok(first)
}

// The tree of a tree and others under a connective. They are joined in pairs, then the results, so
// that of n trees each takes part in about log n joins.
fn join_by_halves(
    interner: &mut Interner,
    connective: Connective,
    first: MarkerTree,
    others: VecDeque<MarkerTree>,
) -> Result<MarkerTree, AllocError>
    requires { AreHeld interner.old (first ∷ others.items) }
    ensures kept { OnlyGrows interner.old interner.new }
    ensures held { IfOk result (IsHeld interner.new) }
    ensures means { IfOk result (JoinsAll interner.old interner.new connective first others.items) }
{
    let mut left = first;
    let mut trees = others;
    while let Some(right) = trees.pop_front() {
        let tree = join_two(interner, connective, left, right)?;
        left = rotate(&mut trees, tree)?;
    }
    Ok(left)
}

// Whether an id is `TRUE` or `FALSE`.
fn is_constant(id: NodeId) -> bool {
    id.index().is_none()
}

// Whether the first two children of a node are constants. Then it is most often a set of the values
// of its variable.
fn begins_with_constants(node: &Node) -> bool {
    match node {
        Branches::Version(_, edges) => edges
            .pieces()
            .take(2)
            .all(|piece| is_constant(*piece.value)),
        Branches::Text(_, edges) => edges
            .pieces()
            .take(2)
            .all(|piece| is_constant(*piece.value)),
        Branches::Truth(_, high, low) => is_constant(*high) && is_constant(*low),
    }
}

// The order in which trees are joined: those that branch on a later variable come first, and of
// those on one variable those that may be sets of its values. It has no contract, because trees
// that are joined in any order mean the same.
fn joining_order(table: &NodeTable, left: MarkerTree, right: MarkerTree) -> Ordering {
    match (table.node(left.id()), table.node(right.id())) {
        (Some(left), Some(right)) => match right.cmp_variable(left) {
            Ordering::Equal => begins_with_constants(right).cmp(&begins_with_constants(left)),
            other => other,
        },
        (None, Some(_)) => Ordering::Less,
        (Some(_), None) => Ordering::Greater,
        (None, None) => Ordering::Equal,
    }
}

fn sort(table: &NodeTable, trees: &mut VecDeque<MarkerTree>)
    ensures { IsPermutation trees.old.items trees.new.items }
{
    let slice = trees.make_contiguous();
    slice.sort_unstable_by(|left, right| joining_order(table, *left, *right));
}

// Takes the trees at the front of a list that branch on the same variable as `first`.
fn split_alike(
    interner: &Interner,
    first: MarkerTree,
    trees: &mut VecDeque<MarkerTree>,
) -> Result<VecDeque<MarkerTree>, AllocError>
    ensures { IfOk result (λ alike. trees.old.items ≡ alike.items ++ trees.new.items) }
{
    let mut alike = VecDeque::new(interner.allocator());
    while let Some(next) = trees.front().copied() {
        if joining_order(interner.table(), first, next) != Ordering::Equal {
            return Ok(alike);
        }
        alike.push_back(next)?;
        let _next = trees.pop_front();
    }
    Ok(alike)
}

// The tree of a tree and others under a connective. Many sets of the values of one variable are
// joined as sets, so that only the result becomes a node.
fn join_others(
    interner: &mut Interner,
    connective: Connective,
    first: MarkerTree,
    others: VecDeque<MarkerTree>,
) -> Result<MarkerTree, AllocError>
    requires { AreHeld interner.old (first ∷ others.items) }
    ensures kept { OnlyGrows interner.old interner.new }
    ensures held { IfOk result (IsHeld interner.new) }
    ensures means { IfOk result (JoinsAll interner.old interner.new connective first others.items) }
{
    if others.len() < FEW {
        return join_by_halves(interner, connective, first, others);
    }
    let mut others = others;
    let slice = others.make_contiguous();
    match joined_set_of(interner, connective, first, slice)? {
        Some(set) => {
            let tree = MarkerTree::of_value_set(interner, set)?;
            Ok(tree)
        }
        None => join_by_halves(interner, connective, first, others),
    }
}

// Takes the trees at the front of a list that branch on the same variable as `first`, and joins
// them with it.
fn join_alike(
    interner: &mut Interner,
    connective: Connective,
    first: MarkerTree,
    trees: &mut VecDeque<MarkerTree>,
) -> Result<MarkerTree, AllocError>
    requires { AreHeld interner.old (first ∷ trees.old.items) }
    ensures kept { OnlyGrows interner.old interner.new }
    ensures held { IfOk result (λ t. AreHeld interner.new (t ∷ trees.new.items)) }
    ensures means { IfOk result (λ t. SaysUnder interner.old connective (first ∷ trees.old.items)
        (truth_under interner.new connective (t ∷ trees.new.items))) }
    ensures fewer { OnOk result (length trees.new.items ≤ length trees.old.items) }
{
    let others = split_alike(interner, first, trees)?;
    let tree = join_others(interner, connective, first, others)?;
    Ok(tree)
}

// At most this many trees are joined as they come, because sorting them takes longer.
const FEW: usize = 8;

// The tree of a run. Trees that branch on the same variable are joined by halves, and the results
// from the last variable on. A tree on later variables only is then a subtree of the next result as
// it is, so n extras make n nodes.
pub(crate) fn join_all(interner: &mut Interner, run: Run) -> Result<MarkerTree, AllocError>
    requires { AreHeld interner.old (trees_of run) }
    ensures kept { OnlyGrows interner.old interner.new }
    ensures held { IfOk result (IsHeld interner.new) }
    ensures means { IfOk result (JoinsRun interner.old interner.new run) }
{
    let connective = run.connective;
    let mut trees = run.others;
    if trees.len() < FEW {
        return join_by_halves(interner, connective, run.first, trees);
    }
    trees.push_front(run.first)?;
    sort(interner.table(), &mut trees);
    let Some(first) = trees.pop_front() else {
        unreachable!()
    };
    let mut joined = join_alike(interner, connective, first, &mut trees)?;
    while let Some(next) = trees.pop_front() {
        let tree = join_alike(interner, connective, next, &mut trees)?;
        joined = join_two(interner, connective, tree, joined)?;
    }
    Ok(joined)
}

// A tree as a run of one.
pub(crate) fn run_of(alloc: Global, connective: Connective, tree: MarkerTree) -> Run
    ensures connective { result.connective ≡ connective }
    ensures trees { trees_of result ≡ tree ∷ [] }
{
    Run {
        connective,
        first: tree,
        others: VecDeque::new(alloc),
    }
}

// A run whose trees the connective joins: the run itself if it has that connective, otherwise the
// one tree of it.
fn run_under(interner: &mut Interner, connective: Connective, run: Run) -> Result<Run, AllocError>
    requires { AreHeld interner.old (trees_of run) }
    ensures kept { OnlyGrows interner.old interner.new }
    ensures connective { IfOk result (λ r. r.connective ≡ connective) }
    ensures held { IfOk result (λ r. AreHeld interner.new (trees_of r)) }
    ensures means { IfOk result (SaysTheSameUnder interner.old interner.new connective run) }
{
    if run.connective == connective {
        return Ok(run);
    }
    let tree = join_all(interner, run)?;
    Ok(run_of(interner.allocator(), connective, tree))
}

// Appends the trees of another run.
fn append(run: Run, more: Run) -> Result<Run, AllocError>
    ensures connective { IfOk result (λ r. r.connective ≡ run.connective) }
    ensures trees { IfOk result (λ r. trees_of r ≡ trees_of run ++ trees_of more) }
{
    let mut others = run.others;
    let mut last = more.others;
    others.push_back(more.first)?;
    others.append(&mut last)?;
    Ok(Run {
        connective: run.connective,
        first: run.first,
        others,
    })
}

// The trees of both runs. The shorter list is moved, so each tree is moved about log n times at
// most.
fn join_runs(left: Run, right: Run) -> Result<Run, AllocError>
    requires { right.connective ≡ left.connective }
    ensures connective { IfOk result (λ r. r.connective ≡ left.connective) }
    ensures trees { IfOk result (HasTreesOfBoth left right) }
{
    if left.others.len() < right.others.len() {
        append(right, left)
    } else {
        append(left, right)
    }
}

// Joins the last two runs.
pub(crate) fn connect(
    interner: &mut Interner,
    runs: &mut Vec<Run>,
    connective: Connective,
) -> Result<(), AllocError>
    requires { AreRuns interner.old runs.old.items }
    ensures kept { OnlyGrows interner.old interner.new }
    ensures runs { OnOk result (Connects connective interner.old runs.old interner.new runs.new) }
{
    let Some((left, right)) = pop_two(runs) else {
        return Ok(());
    };
    let first = run_under(interner, connective, left)?;
    let second = run_under(interner, connective, right)?;
    let both = join_runs(first, second)?;
    runs.push(both)?;
    Ok(())
}

// Takes the last two runs. Takes none if there are fewer.
fn pop_two(runs: &mut Vec<Run>) -> Option<(Run, Run)>
    ensures two { IfSome result (AreLastTwo runs.old.items runs.new.items) }
    ensures fewer { IfNone result ((runs.new.items ≡ []) × (length runs.old.items ≤ 1)) }
{
    let right = runs.pop()?;
    let left = runs.pop()?;
    Some((left, right))
}
