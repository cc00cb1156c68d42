//! Markers with part of what they depend on taken for granted.

ghost use Rattle.std.specs.Prelude.{◌≡◌, ◌≢◌, IfErr, IfOk, string_bytes};
ghost use Rattle.pep440_version.specs.Grammar.{IsVersionText};
ghost use Rattle.marker_grammar.specs.Refused.{IsNoMarker};
ghost use Rattle.marker_graph.specs.Contents.{IsHeld, IsKept};
ghost use Rattle.version_ranges.specs.Clamp.{bound_of};
ghost use Rattle.pep508_markers.specs.Text.{TextOverflows};
ghost use Rattle.foreign_calls.specs.Buffer.{WouldWrite, Writes};
ghost use Rattle.foreign_calls.specs.Refused.{IsMarkerRefusal, IsOfArguments, IsOutOfMemory};
ghost use Rattle.foreign_calls.specs.Simplified.{given_bound, SaysBound, IsInside, IsSimple, IsSimpleText, IsSimplified};

use crate::answer::{Answer, hand_over};
use crate::environment::read_names;
use crate::marker::{marker_text, out_of_memory, parse_marker};
use crate::options::{Options, Settings, read_text};
use marker_graph::{Interner, MarkerTree};
use pep440_version::Version;
use pep508_names::ExtraName;
use refusal::Refusal;
use std::alloc::Global;
use std::ops::Bound;

/// Where a range of Python versions begins or ends.
#[repr(C)]
#[derive(Clone, Copy)]
pub struct BoundText<'a> {
    /// 0 for no bound, 1 for one that belongs to the range, 2 for one that does not.
    pub kind: u32,
    /// The version at the bound, which is not read if there is none.
    pub version: &'a [u8],
}

// The version of a text.
fn read_version(alloc: Global, text: &[u8]) -> Result<Version, Answer>
    ensures read { IfOk result (λ version. IsVersionText text.now version) }
    ensures refused { IfErr result IsOfArguments }
{
    match Version::parse(alloc, read_text(text)?) {
        Ok(version) => Ok(version),
        Err(Refusal::Fault(_)) => Err(Answer::InvalidArgument),
        Err(Refusal::OutOfMemory | Refusal::SegmentAtEnd) => Err(Answer::OutOfMemory),
    }
}

#[tactic(auto, using(crate::proofs::SimplifiedLaws::bounds))]
/// The bound with the version of its text. `InvalidArgument` if that is no version or there is no
/// such kind.
pub fn read_bound(alloc: Global, bound: &BoundText<'_>) -> Result<Bound<Version>, Answer>
    ensures read { IfOk result (SaysBound (given_bound bound.now)) }
    ensures refused { IfErr result IsOfArguments }
{
    match bound.kind {
        0 => Ok(Bound::Unbounded),
        1 => Ok(Bound::Included(read_version(alloc, bound.version)?)),
        2 => Ok(Bound::Excluded(read_version(alloc, bound.version)?)),
        _ => Err(Answer::InvalidArgument),
    }
}

// The marker for Python in a range.
fn inside(
    tree: MarkerTree,
    lower: Bound<&Version>,
    upper: Bound<&Version>,
    interner: &mut Interner,
) -> Result<MarkerTree, Answer>
    requires { IsHeld interner.old tree }
    ensures kept { IsKept interner.old interner.new }
    ensures held { IfOk result (IsHeld interner.new) }
    ensures inside { IfOk result (IsInside interner.new (bound_of lower.entry)
        (bound_of upper.entry) tree) }
    ensures refused { IfErr result IsOutOfMemory }
{
    match tree.simplify_python_versions(interner, lower, upper) {
        Ok(tree) => Ok(tree),
        Err(_) => Err(out_of_memory(interner)),
    }
}

// The marker for Python in a range and with these extras.
#[tactic(auto, using(crate::proofs::SimplifiedLaws::simple_tree))]
fn simplified(
    tree: MarkerTree,
    lower: Bound<&Version>,
    upper: Bound<&Version>,
    extras: &[ExtraName],
    interner: &mut Interner,
) -> Result<MarkerTree, Answer>
    requires { IsHeld interner.old tree }
    ensures kept { IsKept interner.old interner.new }
    ensures held { IfOk result (IsHeld interner.new) }
    ensures simple { IfOk result (IsSimple interner.new (bound_of lower.entry)
        (bound_of upper.entry) extras.now tree) }
    ensures refused { IfErr result IsOutOfMemory }
{
    let inside = inside(tree, lower, upper, interner)?;
    match inside.simplify_extras(interner, extras) {
        Ok(simple) => Ok(simple),
        Err(_) => Err(out_of_memory(interner)),
    }
}

// The text of the marker for Python in a range and with these extras.
#[tactic(auto, using(crate::proofs::SimplifiedLaws::simple))]
fn simple_text(
    text: &str,
    lower: Bound<&Version>,
    upper: Bound<&Version>,
    extras: &[ExtraName],
    interner: &mut Interner,
) -> Result<String, Answer>
    ensures simple { IfOk result (λ simple. IsSimpleText text.now (bound_of lower.entry) (bound_of
        upper.entry) extras.now (string_bytes simple)) }
    ensures refused { IfErr result (IsMarkerRefusal text.now) }
{
    let tree = parse_marker(text, interner)?;
    let simple = simplified(tree, lower, upper, extras, interner)?;
    marker_text(simple, interner)
}

// The same, of the bytes of a caller.
#[tactic(auto, using(crate::proofs::SimplifiedLaws::simplified))]
fn simple_text_of(
    alloc: Global,
    text: &[u8],
    lower: &BoundText<'_>,
    upper: &BoundText<'_>,
    extras: &[&[u8]],
    options: &[Options<'_>],
) -> Result<String, Answer>
    ensures simple { IfOk result (λ simple. IsSimplified text.now lower.now upper.now extras.now
        (string_bytes simple)) }
    ensures refused { IfErr result (IsMarkerRefusal text.now) }
{
    let settings = Settings::of(options)?;
    let text = read_text(text)?;
    let from = read_bound(alloc, lower)?;
    let until = read_bound(alloc, upper)?;
    let names = read_names(alloc, extras)?;
    let mut interner = settings.interner(alloc);
    match simple_text(text, from.as_ref(), until.as_ref(), &names, &mut interner) {
        Ok(simple) => Ok(simple),
        Err(answer) => Err(answer),
    }
}

/// Writes the normal text of a marker for Python in a range and with these extras: inside the range
/// and with these extras, both markers are true in the same environments.
pub fn simplify_marker(
    alloc: Global,
    text: &[u8],
    lower: &BoundText<'_>,
    upper: &BoundText<'_>,
    extras: &[&[u8]],
    options: &[Options<'_>],
    buffer: &mut [u8],
    needed: &mut usize,
) -> Answer
    ensures done { result ≡ Answer.Done → Writes (IsSimplified text.now lower.now upper.now
        extras.now) buffer.old buffer.new needed.new }
    ensures too_small { result ≡ Answer.BufferTooSmall → WouldWrite (IsSimplified text.now lower.now
        upper.now extras.now) buffer.old buffer.new needed.new }

    ensures invalid { result ≡ Answer.Invalid → IsNoMarker text.now }
    ensures too_large { result ≡ Answer.NumberTooLarge → TextOverflows text.now }
    ensures kept { result ≢ Answer.Done → buffer.new ≡ buffer.old }
    ensures none { result ≢ Answer.Done → result ≢ Answer.BufferTooSmall → needed.new ≡ 0 }
{
    *needed = 0;
    match simple_text_of(alloc, text, lower, upper, extras, options) {
        Ok(simple) => hand_over(simple.as_bytes(), buffer, needed),
        Err(answer) => answer,
    }
}
