//! The command `eval`.

ghost use Rattle.std.specs.Prelude.{◌≡◌, ◌⊎◌, IfErr, IfOk, OnOk};
ghost use Rattle.marker_commands.specs.Evaluating.{IsEvaluated, IsEvaluationReply, ShowsEvaluation, ShowsKeys, keys_text, names_of, outcome_of, truth_word};
ghost use Rattle.marker_commands.specs.declared.outcome.Outcome.TheVariants.{OutOfMemory};
ghost use Rattle.marker_commands.specs.Outcome.{HasAppended, HasNoAnswer, IsRefusalOf};

use crate::messages::GivenMarker;
use crate::outcome::{Outcome, Reply};
use crate::parsing::{out_of_memory, parse_marker, told};
use crate::settings::Settings;
use marker_answers::{Evaluation, KnownValues, evaluate};
use marker_graph::Interner;
use marker_walks::EnvironmentKey;
use pep508_names::ExtraName;
use std::alloc::{AllocError, Global};

/// What is known of an environment, and how `eval` answers.
#[derive(Clone, Copy, Debug)]
pub struct Situation<'s> {
    /// The values of keys.
    pub known: &'s KnownValues,
    /// The extras that are requested: these and no others.
    pub extras: &'s [ExtraName],
    /// Whether `eval` fails if the marker is false.
    pub fails_on_false: bool,
}

// What the marker of a text is there. Appends its warnings, or why the text is refused.
#[tactic(auto, using(crate::proofs::EvaluatingLaws::evaluations))]
fn evaluation_of(
    given: &GivenMarker<'_>,
    situation: Situation<'_>,
    room: usize,
    interner: &mut Interner,
    messages: &mut String,
) -> Result<Evaluation, Outcome>
    ensures evaluated { IfOk result
        (IsEvaluated given.now.text.now situation.entry) }
    ensures refused { IfErr result (IsRefusalOf given.now.text.now) }
{
    let tree = parse_marker(given, interner, messages)?;
    match evaluate(interner, tree, situation.known, situation.extras, room) {
        Ok(evaluation) => Ok(evaluation),
        Err(_) => Err(out_of_memory(interner, given, messages)),
    }
}

// The word for a truth.
fn word(is_true: bool) -> &'static str
    ensures { result.now ≡ truth_word is_true }
{
    if is_true { "true" } else { "false" }
}

// How the command ends that writes a truth.
fn truth_outcome(fails_on_false: bool, is_true: bool) -> Outcome
    ensures { result ≡ outcome_of fails_on_false is_true }
{
    match (fails_on_false, is_true) {
        (true, false) => Outcome::Failed,
        (_, _) => Outcome::Answered,
    }
}

// Appends the names of keys, with a space before each.
fn add_names(messages: &mut String, keys: &[EnvironmentKey]) -> Result<(), AllocError>
    ensures { OnOk result (HasAppended messages.old messages.new (names_of keys.now)) }
{
    for key in keys {
        messages.push_str(" ")?;
        messages.push_str(key.name())?;
    }
    Ok(())
}

// Appends which keys the truth still depends on.
fn add_keys(messages: &mut String, keys: &[EnvironmentKey]) -> Result<(), AllocError>
    ensures { OnOk result (HasAppended messages.old messages.new (keys_text keys.now)) }
{
    messages.push_str("The marker depends on values that are not given:")?;
    add_names(messages, keys)?;
    messages.push_str("\n")?;
    Ok(())
}

// The reply that names the keys on which a truth depends.
#[tactic(auto, using(crate::proofs::EvaluatingLaws::keys_shown))]
fn keys_reply(alloc: Global, keys: &[EnvironmentKey], messages: String) -> Reply
    ensures { HasNoAnswer OutOfMemory result ⊎ ShowsKeys keys.now result }
{
    let mut messages = messages;
    match add_keys(&mut messages, keys) {
        Ok(()) => Reply::without_answer(alloc, Outcome::Open, messages),
        Err(AllocError) => Reply::without_answer(alloc, Outcome::OutOfMemory, messages),
    }
}

// The reply with what a marker is.
#[tactic(auto, using(crate::proofs::EvaluatingLaws::lines))]
fn reply_to(
    given: &GivenMarker<'_>,
    evaluation: &Evaluation,
    fails_on_false: bool,
    alloc: Global,
    messages: String,
) -> Reply
    ensures { ShowsEvaluation fails_on_false evaluation.now result }
{
    let mut messages = messages;
    match evaluation {
        Evaluation::Known(is_true) => {
            let outcome = truth_outcome(fails_on_false, *is_true);
            Reply::with_line(alloc, outcome, word(*is_true), messages)
        }
        Evaluation::Depends(keys) => keys_reply(alloc, keys, messages),
        Evaluation::TooComplex => {
            let added = given.add_too_complex(alloc, &mut messages);
            Reply::without_answer(alloc, told(Outcome::TooComplex, added), messages)
        }
    }
}

/// Returns what `eval` writes: whether the marker of a text is true where these values and no
/// others are known, or the keys on which that still depends.
#[tactic(auto, using(crate::proofs::EvaluatingLaws::replies))]
pub fn evaluate_marker(
    alloc: Global,
    settings: Settings,
    text: &str,
    situation: Situation<'_>,
) -> Reply
    ensures { IsEvaluationReply text.now situation.entry result }
{
    let mut interner = settings.interner(alloc);
    let mut messages = String::new(alloc);
    let given = GivenMarker {
        name: "<marker>",
        text,
        has_colors: settings.has_colors,
    };
    match evaluation_of(
        &given,
        situation,
        settings.room,
        &mut interner,
        &mut messages,
    ) {
        Ok(evaluation) => reply_to(
            &given,
            &evaluation,
            situation.fails_on_false,
            alloc,
            messages,
        ),
        Err(outcome) => Reply::without_answer(alloc, outcome, messages),
    }
}
