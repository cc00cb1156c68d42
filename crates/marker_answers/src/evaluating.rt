//! Markers where parts of an environment are known.

ghost use Rattle.std.specs.Prelude.{◌≡◌, ◌∷◌, ◌++◌, [], IfOk, IsTrue, OnOk, if◌then◌else◌, map};
ghost use Rattle.marker_diagrams.specs.Residue.{AreExactly, IsSubtree};
ghost use Rattle.marker_environment.specs.Valuation.{Valuation};
ghost use Rattle.marker_parts.specs.Expression.{test_of};
ghost use Rattle.marker_nodes.specs.Node.{markers};
ghost use Rattle.marker_walks.specs.Keys.{DependsOnKey};
ghost use Rattle.marker_graph.specs.Contents.{IsHeld, IsKept, truth};
ghost use Rattle.marker_answers.specs.Evaluation.{all_hold, DependAlone, IsEvaluation, IsSettled};

use crate::facts::facts_of;
use crate::known::KnownValues;
use marker_graph::{Interner, InvalidExpression, MarkerTree};
use marker_nodes::NodeId;
use marker_parts::MarkerExpression;
use marker_walks::{EnvironmentKey, depends_on, subtrees};
use pep508_names::ExtraName;
use refusal::Refusal;
use std::alloc::AllocError;

/// What a marker is where some values of an environment are known.
#[derive(Debug, Drop)]
pub enum Evaluation {
    /// The known values imply the marker, or exclude it.
    Known(bool),
    /// The truth still depends on these keys, which are in the order of their names.
    Depends(Vec<EnvironmentKey>),
    /// A diagram has more nodes than were allowed.
    TooComplex,
}

/// What a marker is where these values and no others are known, and exactly these extras are asked
/// for. `TooComplex` if the marker, or the marker together with what is known, has more than `most`
/// subtrees.
///
/// # Errors
/// `OutOfMemory` if memory runs out or the interner has no room.
pub fn evaluate(
    interner: &mut Interner,
    marker: MarkerTree,
    known: &KnownValues,
    extras: &[ExtraName],
    most: usize,
) -> Result<Evaluation, Refusal<InvalidExpression>>
    requires { IsHeld interner.old marker }
    ensures kept { IsKept interner.old interner.new }
    ensures answer { IfOk result
        (IsEvaluation (truth interner.new marker) known.now extras.now) }
{
    let Some(nodes) = subtrees(interner.table(), marker.id(), most)? else {
        return Ok(Evaluation::TooComplex);
    };
    let alloc = interner.allocator();
    let facts = facts_of(alloc, interner.table(), nodes.as_slice(), known, extras)?;
    settle(interner, marker, facts, most)
}

/// What a marker is where all of these comparisons hold. `TooComplex` if the marker that says so,
/// or the marker together with it, has more than `most` subtrees.
///
/// # Errors
/// A comparison is no marker, memory runs out or the interner has no room.
pub fn settle(
    interner: &mut Interner,
    marker: MarkerTree,
    facts: Vec<MarkerExpression>,
    most: usize,
) -> Result<Evaluation, Refusal<InvalidExpression>>
    requires { IsHeld interner.old marker }
    ensures kept { IsKept interner.old interner.new }
    ensures answer { IfOk result
        (IsSettled (truth interner.new marker) (map test_of facts.items)) }
{
    let given = join_facts(interner, facts)?;
    let mut both = marker;
    both.and(interner, given)?;
    if both.is_false() {
        return Ok(Evaluation::Known(false));
    }
    if both == given {
        return Ok(Evaluation::Known(true));
    }
    missing_keys(interner, given, both, most)
}

// The marker that is true where all facts hold.
fn join_facts(
    interner: &mut Interner,
    facts: Vec<MarkerExpression>,
) -> Result<MarkerTree, Refusal<InvalidExpression>>
    ensures kept { IsKept interner.old interner.new }
    ensures held { IfOk result (IsHeld interner.new) }
    ensures means { IfOk result (λ t. (v : Valuation)
        → truth interner.new t v ≡ all_hold (map test_of facts.items) v) }
{
    let mut given = MarkerTree::TRUE;
    let mut left = facts.into_iter();
    while let Some(fact) = left.next() {
        let tree = MarkerTree::expression(interner, fact)?;
        given.and(interner, tree)?;
    }
    Ok(given)
}

// The keys on which the second marker depends and the first one does not.
fn missing_keys(
    interner: &Interner,
    given: MarkerTree,
    both: MarkerTree,
    most: usize,
) -> Result<Evaluation, Refusal<InvalidExpression>>
    requires given { IsHeld interner.now given }
    requires both { IsHeld interner.now both }
    ensures { IfOk result
        (DependAlone (truth interner.now both) (truth interner.now given)) }
{
    let table = interner.table();
    let Some(settled) = subtrees(table, given.id(), most)? else {
        return Ok(Evaluation::TooComplex);
    };
    let Some(asked) = subtrees(table, both.id(), most)? else {
        return Ok(Evaluation::TooComplex);
    };
    let settled = settled.as_slice();
    let asked = asked.as_slice();
    let mut keys = Vec::new(interner.allocator());
    for key in EnvironmentKey::ALL {
        let missing = is_missing(interner, both, asked, given, settled, key);
        add_key(&mut keys, key, missing)?;
    }
    Ok(Evaluation::Depends(keys))
}

// Whether the first marker depends on the key and the second one does not, given their subtrees.
fn is_missing(
    interner: &Interner,
    both: MarkerTree,
    asked: &[NodeId],
    given: MarkerTree,
    settled: &[NodeId],
    key: EnvironmentKey,
) -> bool
    requires both { IsHeld interner.now both }
    requires asked { AreExactly (IsSubtree markers interner.now.nodes both.id) asked.now }
    requires given { IsHeld interner.now given }
    requires settled { AreExactly (IsSubtree markers interner.now.nodes given.id) settled.now }
    ensures { IsTrue result → DependsOnKey (truth interner.now both) key
        × ¬ DependsOnKey (truth interner.now given) key }
{
    let table = interner.table();
    if depends_on(table, both.id(), asked, key) {
        !depends_on(table, given.id(), settled, key)
    } else {
        false
    }
}

// Adds a key that is missing.
fn add_key(
    keys: &mut Vec<EnvironmentKey>,
    key: EnvironmentKey,
    is_missing: bool,
) -> Result<(), AllocError>
    ensures { OnOk result (keys.new.items
        ≡ (if is_missing then keys.old.items ++ key ∷ [] else keys.old.items)) }
{
    if is_missing {
        keys.push(key)?;
    }
    Ok(())
}
