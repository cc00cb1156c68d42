//! Markers where a range of Python versions and extras are granted.

ghost use Rattle.std.specs.Prelude.{IfOk};
ghost use Rattle.marker_graph.specs.Contents.{IsHeld, IsKept, truth};
ghost use Rattle.marker_answers.specs.Simplified.{IsGranted, IsSimplified, Shows};

use marker_graph::{Interner, MarkerTree};
use marker_view::has_room_for_text;
use pep440_version::Version;
use pep508_markers::MarkerText;
use pep508_names::ExtraName;
use std::alloc::AllocError;
use std::ops::Bound;

/// What is granted of an environment.
#[derive(Clone, Copy, Debug)]
pub struct Granted<'g> {
    /// Where the Python versions begin and end.
    pub lower: Bound<&'g Version>,
    pub upper: Bound<&'g Version>,
    /// Whether the marker also requires the range, in place of taking it for granted.
    pub requires_python: bool,
    /// Extras that are asked for.
    pub extras: &'g [ExtraName],
}

/// A marker as people read it.
#[derive(Debug, PartialEq, Eq, Drop)]
pub enum MarkerAnswer {
    /// It is true everywhere.
    Always,
    /// It is false everywhere.
    Never,
    /// Its text.
    Text(String),
}

/// What a call ran out of.
#[derive(Clone, Copy, Debug, PartialEq, Eq)]
pub enum Shortage {
    /// Memory.
    Memory,
    /// Room of the interner: for nodes, or for the clauses of a text.
    Room,
}

/// What is left of a marker where something is granted. In the range it means what the marker
/// means with the extras; with `requires_python` it is false outside of the range.
///
/// # Errors
/// A [`Shortage`] if memory runs out or the interner has no room.
pub fn simplify(
    interner: &mut Interner,
    marker: MarkerTree,
    granted: Granted<'_>,
) -> Result<MarkerAnswer, Shortage>
    requires { IsHeld interner.old marker }
    ensures kept { IsKept interner.old interner.new }
    ensures answer { IfOk result (IsSimplified (truth interner.new marker) granted.entry) }
{
    let left = match grant(interner, marker, granted) {
        Ok(left) => left,
        Err(AllocError) => return Err(shortage_of(interner)),
    };
    match answer_of(interner, left) {
        Ok(answer) => Ok(answer),
        Err(AllocError) => Err(shortage_of_text(interner, left)),
    }
}

// Why there was no memory for a node.
fn shortage_of(interner: &Interner) -> Shortage {
    if interner.has_met_room() {
        Shortage::Room
    } else {
        Shortage::Memory
    }
}

// Why there was no memory for the text of a marker.
fn shortage_of_text(interner: &Interner, marker: MarkerTree) -> Shortage
    requires { IsHeld interner.now marker }
{
    match has_room_for_text(interner, marker) {
        Ok(false) => Shortage::Room,
        _ => Shortage::Memory,
    }
}

// The marker where something is granted.
fn grant(
    interner: &mut Interner,
    marker: MarkerTree,
    granted: Granted<'_>,
) -> Result<MarkerTree, AllocError>
    requires { IsHeld interner.old marker }
    ensures kept { IsKept interner.old interner.new }
    ensures held { IfOk result (IsHeld interner.new) }
    ensures means { IfOk result (λ t. IsGranted (truth interner.new marker) granted.entry
        (truth interner.new t)) }
{
    let left = marker.simplify_extras(interner, granted.extras)?;
    if granted.requires_python {
        left.complexify_python_versions(interner, granted.lower, granted.upper)
    } else {
        left.simplify_python_versions(interner, granted.lower, granted.upper)
    }
}

// The marker as people read it.
fn answer_of(interner: &Interner, marker: MarkerTree) -> Result<MarkerAnswer, AllocError>
    requires { IsHeld interner.now marker }
    ensures { IfOk result (Shows (truth interner.now marker)) }
{
    if interner.equivalent(marker, MarkerTree::FALSE) {
        return Ok(MarkerAnswer::Never);
    }
    match marker.try_to_string(interner)? {
        Some(text) => Ok(MarkerAnswer::Text(text)),
        None => Ok(MarkerAnswer::Always),
    }
}
