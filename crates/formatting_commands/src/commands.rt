//! The command `fmt`, from its words to its status.

use crate::arguments::{FormatCommand, FormatMode};
use crate::files::{Job, format_path};
use crate::formatting::FormatSettings;
use crate::outputs::Outputs;
use pep508_program::{
    Ending, Failure, Format, Host, Style, Tally, has_colors, out_of_memory, report_failure, status,
    wrong_use,
};
use requirement_findings::CheckLines;
use std::alloc::Global;

// What is wrong with the use of the command.
fn misuse(command: &FormatCommand<'_>) -> Option<&'static str> {
    match command.mode {
        FormatMode::Print if command.files.len() > 1 => {
            Some("pep508: without --check or --write only one file is formatted\n")
        }
        FormatMode::Write if command.files.is_empty() || command.files.contains(&"-") => {
            Some("pep508: --write needs files: standard input cannot be replaced\n")
        }
        _ => None,
    }
}

// Formats all files of the command, and counts what was reported.
fn format_all<H: Host, O: Outputs, C: CheckLines>(
    alloc: Global,
    host: &mut H,
    outputs: &mut O,
    checker: &mut C,
    files: &[&str],
    job: Job<'_>,
    tally: &mut Tally,
) -> Result<(), Failure> {
    if files.is_empty() {
        return format_path(alloc, host, outputs, checker, job, "-", tally);
    }
    for path in files {
        format_path(alloc, host, outputs, checker, job, path, tally)?;
    }
    Ok(())
}

/// Runs the command `fmt`, and returns the status of the program: 2 if a file could not be read or
/// written, memory ran out, or the use was wrong; otherwise 1 if a requirement is not read, or with
/// `--check` if a line would change; otherwise 0.
pub fn run_format_command<H: Host, O: Outputs, C: CheckLines>(
    alloc: Global,
    host: &mut H,
    outputs: &mut O,
    checker: &mut C,
    command: &FormatCommand<'_>,
    settings: FormatSettings<'_>,
) -> u8 {
    if let Some(message) = misuse(command) {
        return wrong_use(host, message);
    }
    let is_terminal = host.is_message_terminal();
    let Ok(has_colors) = has_colors(alloc, host, command.coloring, is_terminal) else {
        return out_of_memory(host);
    };
    let job = Job {
        mode: command.mode,
        settings,
        style: Style {
            format: Format::Text,
            has_colors,
        },
    };
    let is_strict = command.mode == FormatMode::Check;
    let mut tally = Tally::NOTHING;
    match format_all(
        alloc,
        host,
        outputs,
        checker,
        command.files,
        job,
        &mut tally,
    ) {
        Ok(()) => status(tally, Ending::Done, is_strict),
        Err(failure) => report_failure(alloc, host, &failure, tally, is_strict),
    }
}
