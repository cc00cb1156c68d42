//! The command `simplify`.

ghost use Rattle.std.specs.Prelude.{◌≡◌, IfErr, IfOk};
ghost use Rattle.marker_commands.specs.Simplifying.{IsSimplified, IsSimplificationReply, answer_text};
ghost use Rattle.marker_commands.specs.Outcome.{IsRefusalOf};

use crate::messages::GivenMarker;
use crate::outcome::{Outcome, Reply};
use crate::parsing::{parse_marker, too_complex};
use crate::ranges::PythonRange;
use crate::settings::Settings;
use marker_answers::{Granted, MarkerAnswer, Shortage, simplify};
use marker_graph::Interner;
use pep508_names::ExtraName;
use std::alloc::Global;

/// What is granted to a marker that is simplified.
#[derive(Clone, Copy, Debug)]
pub struct Simplification<'s> {
    /// The Python versions.
    pub range: &'s PythonRange,
    /// Whether the marker requires the range, in place of taking it for granted.
    pub requires_python: bool,
    /// The extras that are requested.
    pub extras: &'s [ExtraName],
}

// What is left of the marker of a text. Appends its warnings, or why the text is refused.
#[tactic(auto, using(crate::proofs::SimplifyingLaws::simplifications))]
fn rest_of(
    given: &GivenMarker<'_>,
    simplification: Simplification<'_>,
    interner: &mut Interner,
    messages: &mut String,
) -> Result<MarkerAnswer, Outcome>
    ensures simplified { IfOk result (IsSimplified given.now.text.now simplification.entry) }
    ensures refused { IfErr result (IsRefusalOf given.now.text.now) }
{
    let tree = parse_marker(given, interner, messages)?;
    let range = simplification.range;
    let granted = Granted {
        lower: range.lower.as_ref(),
        upper: range.upper.as_ref(),
        requires_python: simplification.requires_python,
        extras: simplification.extras,
    };
    match simplify(interner, tree, granted) {
        Ok(answer) => Ok(answer),
        Err(Shortage::Room) => Err(too_complex(interner, given, messages)),
        Err(Shortage::Memory) => Err(Outcome::OutOfMemory),
    }
}

// The words for an answer.
fn words(answer: &MarkerAnswer) -> &str
    ensures { result.now ≡ answer_text answer.now }
{
    match answer {
        MarkerAnswer::Always => "always",
        MarkerAnswer::Never => "never",
        MarkerAnswer::Text(text) => text.as_str(),
    }
}

/// Returns what `simplify` writes: what is left of the marker of a text, or `always` or `never`.
#[tactic(auto, using(crate::proofs::SimplifyingLaws::replies))]
pub fn simplify_marker(
    alloc: Global,
    settings: Settings,
    text: &str,
    simplification: Simplification<'_>,
) -> Reply
    ensures { IsSimplificationReply text.now simplification.entry result }
{
    let mut interner = settings.interner(alloc);
    let mut messages = String::new(alloc);
    let given = GivenMarker {
        name: "<marker>",
        text,
        has_colors: settings.has_colors,
    };
    match rest_of(&given, simplification, &mut interner, &mut messages) {
        Ok(answer) => Reply::with_line(alloc, Outcome::Answered, words(&answer), messages),
        Err(outcome) => Reply::without_answer(alloc, outcome, messages),
    }
}
