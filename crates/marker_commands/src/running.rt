//! The commands about markers, from their words to their status.

use crate::arguments::{CompareWords, EvalWords, MarkerCommand, MarkerTask, SimplifyWords};
use crate::comparing::{compare_markers, compare_with_witness};
use crate::environments::{SHORT, assignments_of, extras_of, is_short, known_of};
use crate::evaluating::{Situation, evaluate_marker};
use crate::outcome::{Outcome, Reply};
use crate::ranges::PythonRange;
use crate::settings::Settings;
use crate::simplifying::{Simplification, simplify_marker};
use crate::stops::{Stop, refused_value};
use pep508_program::{Failure, Host, Tally, has_colors, out_of_memory, report_failure};
use std::alloc::Global;

fn compare(alloc: Global, settings: Settings, words: &CompareWords<'_>) -> Reply {
    if words.shows_witness {
        compare_with_witness(alloc, settings, words.first, words.second)
    } else {
        compare_markers(alloc, settings, words.first, words.second)
    }
}

fn range_of(alloc: Global, word: Option<&str>) -> Result<PythonRange, Stop> {
    let Some(text) = word else {
        return Ok(PythonRange::ALL);
    };
    match PythonRange::parse(alloc, text) {
        Ok(range) => Ok(range),
        Err(refusal) => Err(refused_value(alloc, "--python <RANGE>", text, refusal)?),
    }
}

fn simplify(alloc: Global, settings: Settings, words: &SimplifyWords<'_>) -> Result<Reply, Stop> {
    let range = range_of(alloc, words.python)?;
    let extras = extras_of(alloc, words.extras)?;
    let simplification = Simplification {
        range: &range,
        requires_python: words.requires_python,
        extras: &extras,
    };
    Ok(simplify_marker(alloc, settings, words.marker, simplification))
}

fn evaluate<H: Host>(
    alloc: Global,
    host: &mut H,
    settings: Settings,
    words: &EvalWords<'_>,
) -> Result<Reply, Stop> {
    let assignments = assignments_of(alloc, host, &words.environment)?;
    let known = known_of(alloc, &assignments)?;
    let extras = extras_of(alloc, words.extras)?;
    let situation = Situation {
        known: &known,
        extras: &extras,
        fails_on_false: words.fails_on_false,
    };
    let reply = evaluate_marker(alloc, settings, words.marker, situation);
    if is_short(&assignments) {
        return Ok(reply.after(alloc, SHORT)?);
    }
    Ok(reply)
}

// What the command writes.
fn reply_to<H: Host>(
    alloc: Global,
    host: &mut H,
    settings: Settings,
    task: MarkerTask<'_>,
) -> Reply {
    let reply = match task {
        MarkerTask::Compare(words) => Ok(compare(alloc, settings, &words)),
        MarkerTask::Simplify(words) => simplify(alloc, settings, &words),
        MarkerTask::Eval(words) => evaluate(alloc, host, settings, &words),
    };
    match reply {
        Ok(reply) => reply,
        Err(stop) => stop.reply(alloc),
    }
}

// Writes a reply.
fn write<H: Host>(host: &mut H, reply: &Reply) -> Result<(), Failure> {
    if !reply.messages.is_empty() {
        host.write_message(reply.messages.as_str())?;
    }
    if !reply.output.is_empty() {
        host.write_output(reply.output.as_str())?;
    }
    Ok(())
}

// What counts for the status if a reply cannot be written.
fn tally_of(outcome: Outcome) -> Tally {
    let status = outcome.status();
    Tally {
        errors: u64::from(status == 1),
        warnings: 0,
        failures: u64::from(status > 1),
    }
}

/// Writes a reply, and returns the status of the program.
pub fn write_reply<H: Host>(alloc: Global, host: &mut H, reply: &Reply) -> u8 {
    match write(host, reply) {
        Ok(()) if reply.outcome == Outcome::OutOfMemory => out_of_memory(host),
        Ok(()) => reply.outcome.status(),
        Err(failure) => {
            let tally = tally_of(reply.outcome);
            report_failure(alloc, host, &failure, tally, false)
        }
    }
}

/// Runs a command about markers, and returns the status of the program. `key` are two random words,
/// by which nodes of markers are hashed.
pub fn run_marker_command<H: Host>(
    alloc: Global,
    host: &mut H,
    command: &MarkerCommand<'_>,
    key: [u64; 2],
) -> u8 {
    let is_terminal = host.is_message_terminal();
    let Ok(has_colors) = has_colors(alloc, host, command.coloring, is_terminal) else {
        return out_of_memory(host);
    };
    let settings = Settings {
        key,
        room: usize::try_from(command.limit).unwrap_or(usize::MAX),
        has_colors,
    };
    let reply = reply_to(alloc, host, settings, command.task);
    write_reply(alloc, host, &reply)
}
