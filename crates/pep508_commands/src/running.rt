//! Running the command that words name.

use clap::ArgMatches;
use formatting_commands::{
    FormatCommand, FormatSettings, Outputs, format_command, run_format_command,
};
use marker_commands::{marker_command, run_marker_command};
use marker_drawings::{draw_command, run_draw_command};
use pep508_program::{Host, Request, Task, execute, out_of_memory, read_request, read_words};
use requirement_checks::{CheckSettings, Checker};
use selection_commands::{run_selection_command, selection_command};
use std::alloc::Global;
use std::io;

fn room_of(limit: u64) -> usize {
    usize::try_from(limit).unwrap_or(usize::MAX)
}

// The current folder. An `Err` is the status with which the program ends.
fn current_folder<H: Host>(alloc: Global, host: &mut H) -> Result<String, u8> {
    match host.current_folder(alloc) {
        Ok(folder) => Ok(folder),
        Err(error) if error.kind() == io::ErrorKind::OutOfMemory => Err(out_of_memory(host)),
        // It no longer exists: paths are relative to it all the same.
        Err(_) => Ok(String::new(alloc)),
    }
}

fn run_format<H: Host, O: Outputs>(
    alloc: Global,
    host: &mut H,
    outputs: &mut O,
    key: [u64; 2],
    folder: &str,
    command: &FormatCommand<'_>,
) -> u8 {
    let room = room_of(command.limit);
    let checks = CheckSettings {
        folder,
        key,
        room,
        prints: true,
        lists: false,
        shows_values: false,
    };
    let mut checker = Checker::new(alloc, checks);
    let settings = FormatSettings { folder, key, room };
    run_format_command(alloc, host, outputs, &mut checker, command, settings)
}

// Runs `check`, `list`, `select` or `matrix`.
fn run_request<H: Host>(
    alloc: Global,
    host: &mut H,
    key: [u64; 2],
    folder: &str,
    matches: &ArgMatches<'_>,
    request: Request<'_>,
) -> u8 {
    let settings = CheckSettings {
        folder,
        key,
        room: room_of(request.limit),
        prints: request.task == Task::List,
        lists: request.task == Task::List,
        shows_values: request.shows_values,
    };
    if let Some(command) = selection_command(matches) {
        return run_selection_command(alloc, host, &command, request, settings);
    }
    let mut checker = Checker::new(alloc, settings);
    execute(alloc, host, &mut checker, request, folder).status
}

// Runs a command that reads files.
fn run_on_files<H: Host, O: Outputs>(
    alloc: Global,
    host: &mut H,
    outputs: &mut O,
    key: [u64; 2],
    folder: &str,
    matches: &ArgMatches<'_>,
) -> u8 {
    if let Some(command) = format_command(matches) {
        return run_format(alloc, host, outputs, key, folder, &command);
    }
    match read_request(alloc, host, matches) {
        Ok(request) => run_request(alloc, host, key, folder, matches, request),
        Err(status) => status,
    }
}

fn run_matches<H: Host, O: Outputs>(
    alloc: Global,
    host: &mut H,
    outputs: &mut O,
    key: [u64; 2],
    matches: &ArgMatches<'_>,
) -> u8 {
    if let Some(command) = marker_command(matches) {
        return run_marker_command(alloc, host, &command, key);
    }
    if let Some(command) = draw_command(matches) {
        return run_draw_command(alloc, host, &command, key);
    }
    match current_folder(alloc, host) {
        Ok(folder) => run_on_files(alloc, host, outputs, key, folder.as_str(), matches),
        Err(status) => status,
    }
}

/// Runs the command of a command line, whose first word is the name of the program, and returns
/// the status of the program. `fmt` writes to `outputs`. `key` is the key of the tables of nodes:
/// two random words, so that nobody can choose texts that collide in them.
pub fn run_words<H: Host, O: Outputs>(
    alloc: Global,
    host: &mut H,
    outputs: &mut O,
    key: [u64; 2],
    words: &[String],
) -> u8 {
    match read_words(alloc, host, words) {
        Ok(matches) => run_matches(alloc, host, outputs, key, &matches),
        Err(status) => status,
    }
}
