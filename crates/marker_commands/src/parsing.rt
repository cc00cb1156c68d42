//! Markers of the command line, and why one is refused.

ghost use Rattle.std.specs.Prelude.{IfErr, IfOk};
ghost use Rattle.marker_graph.specs.Contents.{IsHeld, IsKept};
ghost use Rattle.marker_commands.specs.Outcome.{IsRefusalOf};
ghost use Rattle.marker_commands.specs.Parsing.{IsShort, IsTreeFor, Refuses, Told};

use crate::messages::GivenMarker;
use crate::outcome::Outcome;
use marker_graph::{Interner, MarkerTree};
use pep508_errors::{MarkerWarningKind, Pep508Error};
use pep508_markers::MarkerText;
use refusal::Refusal;
use std::alloc::{AllocError, Global};
use url::Url;

/// Returns how a command ends: with this outcome, unless its message had no memory.
pub fn told(outcome: Outcome, message: Result<(), AllocError>) -> Outcome
    ensures { Told outcome result }
{
    match message {
        Ok(()) => outcome,
        Err(AllocError) => Outcome::OutOfMemory,
    }
}

/// Appends why a text was refused as a marker, and returns how the command ends.
pub fn refuse(
    interner: &Interner,
    given: &GivenMarker<'_>,
    refusal: &Refusal<Pep508Error<Url>>,
    messages: &mut String,
) -> Outcome
    ensures { Refuses refusal.now result }
{
    let alloc = interner.allocator();
    match refusal {
        Refusal::Fault(error) => told(Outcome::Invalid, given.add_fault(alloc, messages, error)),
        Refusal::SegmentAtEnd => told(Outcome::TooLarge, given.add_too_large(alloc, messages)),
        Refusal::OutOfMemory => out_of_memory(interner, given, messages),
    }
}

/// Returns how a command ends that got no memory: with `TooComplex` if its interner had no room,
/// which it appends.
pub fn out_of_memory(interner: &Interner, given: &GivenMarker<'_>, messages: &mut String) -> Outcome
    ensures { IsShort result }
{
    if interner.has_met_room() {
        too_complex(interner, given, messages)
    } else {
        Outcome::OutOfMemory
    }
}

/// Appends that a marker is too complex, and returns how the command ends.
pub(crate) fn too_complex(
    interner: &Interner,
    given: &GivenMarker<'_>,
    messages: &mut String,
) -> Outcome
    ensures { IsShort result }
{
    told(
        Outcome::TooComplex,
        given.add_too_complex(interner.allocator(), messages),
    )
}

/// Parses a marker. Appends its warnings, or why the text is refused.
#[tactic(auto, using(crate::proofs::ParsingLaws::markers))]
pub fn parse_marker(
    given: &GivenMarker<'_>,
    interner: &mut Interner,
    messages: &mut String,
) -> Result<MarkerTree, Outcome>
    ensures kept { IsKept interner.old interner.new }
    ensures held { IfOk result (IsHeld interner.new) }
    ensures reads { IfOk result (IsTreeFor interner.new given.now.text.now) }
    ensures refused { IfErr result (IsRefusalOf given.now.text.now) }
{
    let alloc = interner.allocator();
    let mut warnings = Vec::new(alloc);
    match MarkerTree::parse_reporter::<Url, _>(given.text, &mut warnings, interner) {
        Ok(tree) => {
            given.add_warnings(alloc, messages, &warnings)?;
            Ok(tree)
        }
        Err(refusal) => Err(refuse(interner, given, &refusal, messages)),
    }
}
