//! Calls about one marker.

ghost use Rattle.std.specs.Prelude.{◌≡◌, ◌≢◌, IfErr, IfOk, OnErr, string_bytes};
ghost use Rattle.marker_environment.specs.Environment.{values_of};
ghost use Rattle.marker_grammar.specs.Refused.{IsNoMarker};
ghost use Rattle.marker_graph.specs.Contents.{HoldsTheSame, IsHeld, IsKept, truth};
ghost use Rattle.pep508_markers.specs.Text.{TextOverflows};
ghost use Rattle.foreign_calls.specs.Buffer.{WouldWrite, Writes};
ghost use Rattle.foreign_calls.specs.Environment.{bytes_of};
ghost use Rattle.foreign_calls.specs.Marker.{IsNormal, IsTextOf, IsTreeFor, IsTrueIn, IsValueAt};
ghost use Rattle.foreign_calls.specs.Refused.{Answers, IsMarkerRefusal, IsOutOfMemory};

use crate::answer::{Answer, hand_over};
use crate::environment::{Environment, read_environment, read_names};
use crate::options::{Options, Settings, read_text};
use marker_environment::MarkerEnvironment;
use marker_graph::{Interner, MarkerTree};
use marker_view::has_room_for_text;
use pep508_markers::MarkerText;
use pep508_names::ExtraName;
use refusal::Refusal;
use std::alloc::Global;
use url::Url;

/// The answer to a text that is refused. An interner that had no room for a node is `TooComplex`.
pub(crate) fn answer_to<E>(interner: &Interner, refusal: &Refusal<E>) -> Answer
    ensures { Answers refusal.now result }
{
    match refusal {
        Refusal::Fault(_) => Answer::Invalid,
        Refusal::SegmentAtEnd => Answer::NumberTooLarge,
        Refusal::OutOfMemory => out_of_memory(interner),
    }
}

/// `TooComplex` if the interner had no room for a node, else `OutOfMemory`.
pub fn out_of_memory(interner: &Interner) -> Answer
    ensures { IsOutOfMemory result }
{
    if interner.has_met_room() {
        Answer::TooComplex
    } else {
        Answer::OutOfMemory
    }
}

/// The answer where the text of a marker could not be made: `TooComplex` if the interner has no
/// room for it, else `OutOfMemory`.
pub(crate) fn no_text(tree: MarkerTree, interner: &Interner) -> Answer
    requires { IsHeld interner.now tree }
    ensures { IsOutOfMemory result }
{
    match has_room_for_text(interner, tree) {
        Ok(false) => Answer::TooComplex,
        _ => Answer::OutOfMemory,
    }
}

/// Parses a marker into the interner.
#[tactic(auto, using(crate::proofs::MarkerLaws::refused, crate::proofs::MarkerLaws::said))]
pub fn parse_marker(text: &str, interner: &mut Interner) -> Result<MarkerTree, Answer>
    ensures kept { IsKept interner.old interner.new }
    ensures held { IfOk result (IsHeld interner.new) }
    ensures tree { IfOk result (IsTreeFor interner.new text.now) }
    ensures refused { IfErr result (IsMarkerRefusal text.now) }
    ensures released { OnErr result (HoldsTheSame interner.old interner.new) }
{
    match MarkerTree::parse_str::<Url>(text, interner) {
        Ok(tree) => Ok(tree),
        Err(refusal) => Err(answer_to(interner, &refusal)),
    }
}

/// The text of a marker, or an empty text for one that is true everywhere.
#[tactic(auto, using(crate::proofs::MarkerLaws::texts_written))]
pub fn marker_text(tree: MarkerTree, interner: &Interner) -> Result<String, Answer>
    requires { IsHeld interner.now tree }
    ensures written { IfOk result (λ text. IsTextOf (truth interner.now tree) (string_bytes text)) }
    ensures refused { IfErr result IsOutOfMemory }
{
    match tree.try_to_string(interner) {
        Ok(Some(text)) => Ok(text),
        Ok(None) => Ok(String::new(interner.allocator())),
        Err(_) => Err(no_text(tree, interner)),
    }
}

// The normal text of a marker.
#[tactic(auto, using(crate::proofs::MarkerLaws::normal))]
fn normal_text(text: &str, interner: &mut Interner) -> Result<String, Answer>
    ensures written { IfOk result (λ normal. IsNormal text.now (string_bytes normal)) }
    ensures refused { IfErr result (IsMarkerRefusal text.now) }
{
    let tree = parse_marker(text, interner)?;
    marker_text(tree, interner)
}

// The normal text of a marker of these bytes.
fn normal_text_of(alloc: Global, text: &[u8], options: &[Options<'_>]) -> Result<String, Answer>
    ensures written { IfOk result (λ normal. IsNormal text.now (string_bytes normal)) }
    ensures refused { IfErr result (IsMarkerRefusal text.now) }
{
    let settings = Settings::of(options)?;
    let text = read_text(text)?;
    let mut interner = settings.interner(alloc);
    normal_text(text, &mut interner)
}

/// Writes the normal text of a marker, which is empty if it is true everywhere.
pub fn normalize_marker(
    alloc: Global,
    text: &[u8],
    options: &[Options<'_>],
    buffer: &mut [u8],
    needed: &mut usize,
) -> Answer
    ensures done { result ≡ Answer.Done
        → Writes (IsNormal text.now) buffer.old buffer.new needed.new }
    ensures too_small { result ≡ Answer.BufferTooSmall
        → WouldWrite (IsNormal text.now) buffer.old buffer.new needed.new }

    ensures invalid { result ≡ Answer.Invalid → IsNoMarker text.now }
    ensures too_large { result ≡ Answer.NumberTooLarge → TextOverflows text.now }
    ensures kept { result ≢ Answer.Done → buffer.new ≡ buffer.old }
    ensures none { result ≢ Answer.Done → result ≢ Answer.BufferTooSmall → needed.new ≡ 0 }
{
    *needed = 0;
    match normal_text_of(alloc, text, options) {
        Ok(normal) => hand_over(normal.as_bytes(), buffer, needed),
        Err(answer) => answer,
    }
}

// Whether the marker is true there.
#[tactic(auto, using(crate::proofs::MarkerLaws::value_at))]
fn value_in(
    text: &str,
    environment: &MarkerEnvironment,
    names: &[ExtraName],
    interner: &mut Interner,
) -> Result<bool, Answer>
    ensures value { IfOk result
        (IsValueAt text.now (values_of environment.now) names.now) }
    ensures refused { IfErr result (IsMarkerRefusal text.now) }
{
    let tree = parse_marker(text, interner)?;
    Ok(tree.evaluate(interner, environment, names))
}

// Whether the marker is true in the environment with these extras.
fn value_of(
    alloc: Global,
    text: &[u8],
    values: &Environment<'_>,
    extras: &[&[u8]],
    options: &[Options<'_>],
) -> Result<bool, Answer>
    ensures value { IfOk result (IsTrueIn text.now values.now (bytes_of extras.now)) }
    ensures refused { IfErr result (IsMarkerRefusal text.now) }
{
    let settings = Settings::of(options)?;
    let text = read_text(text)?;
    let environment = read_environment(alloc, values)?;
    let names = read_names(alloc, extras)?;
    let mut interner = settings.interner(alloc);
    match value_in(text, &environment, &names, &mut interner) {
        Ok(value) => Ok(value),
        Err(answer) => Err(answer),
    }
}

/// Writes whether a marker is true in an environment with these extras.
pub fn evaluate_marker(
    alloc: Global,
    text: &[u8],
    values: &Environment<'_>,
    extras: &[&[u8]],
    options: &[Options<'_>],
    value: &mut bool,
) -> Answer
    ensures done { result ≡ Answer.Done
        → IsTrueIn text.now values.now (bytes_of extras.now) value.new }
    ensures invalid { result ≡ Answer.Invalid → IsNoMarker text.now }
    ensures too_large { result ≡ Answer.NumberTooLarge → TextOverflows text.now }
    ensures kept { result ≢ Answer.Done → value.new ≡ value.old }
    ensures not_small { result ≢ Answer.BufferTooSmall }
{
    match value_of(alloc, text, values, extras, options) {
        Ok(found) => {
            *value = found;
            Answer::Done
        }
        Err(answer) => answer,
    }
}
