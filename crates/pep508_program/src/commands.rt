//! The program, from its words to its status.

ghost use Rattle.pep508_program.specs.Status.{IsFinished};

use crate::arguments::{Coloring, Request, Task, request_of, task_of};
use crate::command_line::matches_of;
use crate::excerpts::visible;
use crate::failures::Failure;
use crate::hosts::Host;
use crate::notices::Style;
use crate::totals::{Ending, Finish, Tally, ended, status};
use crate::variables::is_variable_name;
use crate::walks::Walk;
use clap::error::ErrorKind;
use clap::{ArgMatches, Error};
use requirement_findings::CheckLines;
use std::alloc::{AllocError, Global};
use std::io;

// The status of a wrong use.
const WRONG_USE: u8 = 2;

/// Reports that memory ran out. Returns the status of the program.
pub fn out_of_memory<H: Host>(host: &mut H) -> u8 {
    // If standard error fails too, only the status remains.
    let _told = host.write_message("pep508: out of memory\n");
    status(Tally::NOTHING, Ending::OutOfMemory, false)
}

/// Reports that the program was called in a wrong way. Returns the status of the program.
pub fn wrong_use<H: Host>(host: &mut H, message: &str) -> u8 {
    let _told = host.write_message(message);
    WRONG_USE
}

// Writes clap's answer in place of matches: help, the version, or what is wrong.
fn answer<H: Host>(alloc: Global, host: &mut H, error: &Error) -> Result<u8, Failure> {
    if error.kind() == ErrorKind::OutOfMemory {
        return Err(Failure::OutOfMemory);
    }
    let mut text = format!(in alloc; "{error}")?;
    if !text.ends_with('\n') {
        text.push('\n')?;
    }
    if error.use_stderr() {
        host.write_message(text.as_str())?;
        return Ok(WRONG_USE);
    }
    host.write_output(text.as_str())?;
    Ok(0)
}

// The first variable that is not `NAME=VALUE`.
fn invalid_variable<'m>(variables: &'m [&'m str]) -> Option<&'m str> {
    for given in variables {
        match given.split_once('=') {
            Some((name, _)) if is_variable_name(name) => {}
            _ => return Some(given),
        }
    }
    None
}

/// Returns the matches of the words of a command line, of which the first is the name of the
/// program. An `Err` is the status with which the program ends, after help, the version or what is
/// wrong was written.
pub fn read_words<'w, H: Host>(
    alloc: Global,
    host: &mut H,
    words: &'w [String],
) -> Result<ArgMatches<'w>, u8> {
    match matches_of(alloc, words) {
        Ok(matches) => Ok(matches),
        Err(error) => match answer(alloc, host, &error) {
            Ok(status) => Err(status),
            Err(failure) => Err(report_failure(alloc, host, &failure, Tally::NOTHING, false)),
        },
    }
}

/// Returns the request of the matches. An `Err` is the status with which the program ends, after
/// what is wrong was written.
pub fn read_request<'m, 'w, H: Host>(
    alloc: Global,
    host: &mut H,
    matches: &'m ArgMatches<'w>,
) -> Result<Request<'m>, u8> {
    let Some((name, given)) = matches.subcommand() else {
        return Err(wrong_use(host, "pep508: there is no command\n"));
    };
    let Some(task) = task_of(name) else {
        return Err(wrong_use(host, "pep508: there is no such command\n"));
    };
    let request = request_of(task, given);
    match invalid_variable(request.variables) {
        None => Ok(request),
        Some(given) => Err(refuse_variable(alloc, host, given)),
    }
}

// Reports an invalid variable. Its value is not shown.
fn refuse_variable<H: Host>(alloc: Global, host: &mut H, given: &str) -> u8 {
    let name = given.split_once('=').map_or(given, |halves| halves.0);
    match variable_message(alloc, name) {
        Ok(message) => wrong_use(host, message.as_str()),
        Err(AllocError) => out_of_memory(host),
    }
}

fn variable_message(alloc: Global, name: &str) -> Result<String, AllocError> {
    let shown = visible(alloc, name)?;
    format!(in alloc;
        "error: invalid value for '--var <NAME=VALUE>': {shown}\n\nA variable is NAME=VALUE, and \
its name has A to Z, 0 to 9 and _ alone.\n"
    )
}

fn ending_of(failure: &Failure) -> Ending {
    match failure {
        Failure::OutOfMemory => Ending::OutOfMemory,
        Failure::Write(error) if error.kind() == io::ErrorKind::BrokenPipe => Ending::ClosedPipe,
        Failure::Write(_) => Ending::WriteFailed,
    }
}

// Reports why a command ended early.
fn tell_failure<H: Host>(alloc: Global, host: &mut H, failure: &Failure) {
    match failure {
        Failure::OutOfMemory => {
            let _told = host.write_message("pep508: out of memory\n");
        }
        Failure::Write(error) if error.kind() == io::ErrorKind::BrokenPipe => {}
        Failure::Write(error) => {
            if let Ok(message) = format!(in alloc; "pep508: cannot write: {error}\n") {
                let _told = host.write_message(message.as_str());
            }
        }
    }
}

/// Reports why a command ended early. Returns the status of the program.
pub fn report_failure<H: Host>(
    alloc: Global,
    host: &mut H,
    failure: &Failure,
    tally: Tally,
    is_strict: bool,
) -> u8 {
    tell_failure(alloc, host, failure);
    status(tally, ending_of(failure), is_strict)
}

/// Returns whether text is colored that goes to a terminal or not.
pub fn has_colors<H: Host>(
    alloc: Global,
    host: &mut H,
    coloring: Coloring,
    is_terminal: bool,
) -> Result<bool, AllocError> {
    match coloring {
        Coloring::Always => Ok(true),
        Coloring::Never => Ok(false),
        Coloring::Auto if !is_terminal => Ok(false),
        Coloring::Auto => match host.variable(alloc, "NO_COLOR")? {
            Some(value) => Ok(value.is_empty()),
            None => Ok(true),
        },
    }
}

/// Runs the request, and reports why if that ended early. Returns what was reported, how it ended,
/// and the status of the program. `folder` is the path of the current folder.
pub fn execute<H: Host, C: CheckLines>(
    alloc: Global,
    host: &mut H,
    checker: &mut C,
    request: Request<'_>,
    folder: &str,
) -> Finish
    ensures { IsFinished request.entry.is_strict result }
{
    let is_terminal = match request.task {
        Task::Check => host.is_output_terminal(),
        Task::List => host.is_message_terminal(),
    };
    let Ok(has_colors) = has_colors(alloc, host, request.coloring, is_terminal) else {
        let _status = out_of_memory(host);
        return ended(Tally::NOTHING, Ending::OutOfMemory, request.is_strict);
    };
    let style = Style {
        format: request.format,
        has_colors,
    };
    let (tally, outcome) = run_walk(alloc, host, checker, request, folder, style);
    match outcome {
        Ok(()) => ended(tally, Ending::Done, request.is_strict),
        Err(failure) => {
            tell_failure(alloc, host, &failure);
            ended(tally, ending_of(&failure), request.is_strict)
        }
    }
}

// Runs the command, and returns how much it reported. What was reported before memory ran out is
// written.
fn run_walk<H: Host, C: CheckLines>(
    alloc: Global,
    host: &mut H,
    checker: &mut C,
    request: Request<'_>,
    folder: &str,
    style: Style,
) -> (Tally, Result<(), Failure>) {
    let mut walk = Walk::new(alloc, host, checker, request, folder, style);
    let outcome = walk.run();
    if let Err(Failure::OutOfMemory) = &outcome {
        if let Err(failure) = walk.flush() {
            return (walk.report.tally, Err(failure));
        }
    }
    (walk.report.tally, outcome)
}
