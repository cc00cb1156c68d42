//! The command `compare`.

ghost use Rattle.std.specs.Prelude.{◌≡◌, IfErr, IfOk, string_bytes};
ghost use Rattle.marker_commands.specs.Comparing.{IsComparisonReply, IsWitnessReply, IsWitnessText, RefusesPair, RelatesPair, relation_word, witness_text};

use crate::messages::GivenMarker;
use crate::outcome::{Outcome, Reply};
use crate::parsing::{out_of_memory, parse_marker, told};
use crate::settings::Settings;
use marker_graph::{Interner, MarkerRelation, MarkerTree};
use marker_witnesses::{ShownWitness, witness_lines, witnesses};
use std::alloc::{AllocError, Global};

// The words for a relation.
fn word(relation: MarkerRelation) -> &'static str
    ensures { result.now ≡ relation_word relation }
{
    match relation {
        MarkerRelation::Equal => "equal",
        MarkerRelation::Disjoint => "disjoint",
        MarkerRelation::FirstImpliesSecond => "first implies second",
        MarkerRelation::SecondImpliesFirst => "second implies first",
        MarkerRelation::Overlapping => "overlapping",
    }
}

// Two markers of an interner, and how they relate.
#[derive(Clone, Copy, Debug)]
struct Related {
    first: MarkerTree,
    second: MarkerTree,
    relation: MarkerRelation,
}

// Two markers of the command line.
#[derive(Clone, Copy, Debug)]
struct Pair<'t> {
    first: GivenMarker<'t>,
    second: GivenMarker<'t>,
}

impl<'t> Pair<'t> {
    fn new(first: &'t str, second: &'t str, has_colors: bool) -> Pair<'t>
        ensures first { result.first.text.now ≡ first.now }
        ensures second { result.second.text.now ≡ second.now }
    {
        Pair {
            first: GivenMarker {
                name: "<first>",
                text: first,
                has_colors,
            },
            second: GivenMarker {
                name: "<second>",
                text: second,
                has_colors,
            },
        }
    }

    // Parses both markers, and returns how they relate. Appends their warnings, or why there is no
    // answer.
    #[tactic(auto, using(crate::proofs::ComparingLaws::relations))]
    fn relate(
        &self,
        looks: usize,
        interner: &mut Interner,
        messages: &mut String,
    ) -> Result<Related, Outcome>
        ensures related { IfOk result (RelatesPair interner.new self.now) }
        ensures refused { IfErr result (RefusesPair self.now) }
    {
        let first = parse_marker(&self.first, interner, messages)?;
        let second = parse_marker(&self.second, interner, messages)?;
        match MarkerRelation::of(interner, first, second, looks) {
            Some(relation) => Ok(Related {
                first,
                second,
                relation,
            }),
            None => {
                let added = self.first.add_too_complex(interner.allocator(), messages);
                Err(told(Outcome::TooComplex, added))
            }
        }
    }
}

/// Returns what `compare` writes: the word for how the markers of two texts relate.
#[tactic(auto, using(crate::proofs::ComparingLaws::replies))]
pub fn compare_markers(alloc: Global, settings: Settings, first: &str, second: &str) -> Reply
    ensures { IsComparisonReply first.now second.now result }
{
    let mut interner = settings.interner(alloc);
    let mut messages = String::new(alloc);
    let pair = Pair::new(first, second, settings.has_colors);
    match pair.relate(settings.looks(), &mut interner, &mut messages) {
        Ok(related) => {
            Reply::with_line(alloc, Outcome::Answered, word(related.relation), messages)
        }
        Err(outcome) => Reply::without_answer(alloc, outcome, messages),
    }
}

// The word for the relation, and the lines of what shows it.
fn text_of(
    alloc: Global,
    relation: MarkerRelation,
    shown: &[ShownWitness],
) -> Result<String, AllocError>
    ensures { IfOk result (λ text. string_bytes text ≡ witness_text relation shown.now) }
{
    let mut text = String::from_str(alloc, word(relation))?;
    text.push_str("\n")?;
    let lines = witness_lines(alloc, shown)?;
    text.push_str(lines.as_str())?;
    Ok(text)
}

// How the markers of a pair relate, and what shows it. Appends their warnings, or why there is no
// answer.
#[tactic(auto, using(crate::proofs::ComparingLaws::texts))]
fn witnessed_text(
    pair: &Pair<'_>,
    looks: usize,
    interner: &mut Interner,
    messages: &mut String,
) -> Result<String, Outcome>
    ensures shown { IfOk result
        (IsWitnessText pair.now.first.text.now pair.now.second.text.now) }
    ensures refused { IfErr result (RefusesPair pair.now) }
{
    let related = pair.relate(looks, interner, messages)?;
    match witnesses(interner, related.first, related.second, related.relation) {
        Ok(shown) => Ok(text_of(interner.allocator(), related.relation, &shown)?),
        Err(AllocError) => Err(out_of_memory(interner, &pair.first, messages)),
    }
}

/// Returns what `compare --witness` writes: the word for how the markers of two texts relate, and
/// environments that show it.
#[tactic(auto, using(crate::proofs::ComparingLaws::replies))]
pub fn compare_with_witness(alloc: Global, settings: Settings, first: &str, second: &str) -> Reply
    ensures { IsWitnessReply first.now second.now result }
{
    let mut interner = settings.interner(alloc);
    let mut messages = String::new(alloc);
    let pair = Pair::new(first, second, settings.has_colors);
    match witnessed_text(&pair, settings.looks(), &mut interner, &mut messages) {
        Ok(output) => Reply {
            outcome: Outcome::Answered,
            output,
            messages,
        },
        Err(refused) => Reply::without_answer(alloc, refused, messages),
    }
}
