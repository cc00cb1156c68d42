//! The commands `select` and `matrix`, from their words to their status.

use crate::Target;
use crate::arguments::{MatrixWords, SelectWords, SelectionCommand, TableFormat};
use crate::columns::{Column, Targets, columns_of, targets_of};
use crate::selector::Selector;
use crate::tables::table_text;
use crate::tabulator::{Row, Tabulator};
use marker_commands::{SHORT, Stop, assignments_of, extras_of, is_short, known_of, write_reply};
use pep508_program::{
    Ending, Failure, Finish, Host, Request, Tally, execute, out_of_memory, report_failure,
};
use requirement_checks::CheckSettings;
use std::alloc::Global;

// Warns that a value of `python_version` is taken for that of `python_full_version`.
fn warn<H: Host>(host: &mut H, is_short: bool) -> Result<(), Failure> {
    if is_short {
        host.write_message(SHORT)?;
    }
    Ok(())
}

// The environment of `select`, and whether its Python version is that of `python_version`.
fn target_of<H: Host>(
    alloc: Global,
    host: &mut H,
    words: &SelectWords<'_>,
) -> Result<(Target, bool), Stop> {
    let assignments = assignments_of(alloc, host, &words.environment)?;
    let target = Target {
        known: known_of(alloc, &assignments)?,
        extras: extras_of(alloc, words.extras)?,
    };
    Ok((target, is_short(&assignments)))
}

// Runs `select`, and returns the status of the program.
fn select<H: Host>(
    alloc: Global,
    host: &mut H,
    words: &SelectWords<'_>,
    request: Request<'_>,
    settings: CheckSettings<'_>,
) -> u8 {
    let (target, is_short) = match target_of(alloc, host, words) {
        Ok(found) => found,
        Err(stop) => return write_reply(alloc, host, &stop.reply(alloc)),
    };
    if let Err(failure) = warn(host, is_short) {
        return report_failure(alloc, host, &failure, Tally::NOTHING, false);
    }
    let mut selector = Selector::new(alloc, settings, target, request.format);
    execute(alloc, host, &mut selector, request, settings.folder).status
}

// Writes the table, if all files were read or tried. Returns the status of the program.
fn write_table<H: Host>(
    alloc: Global,
    host: &mut H,
    format: TableFormat,
    columns: &[Column<'_>],
    rows: &[Row],
    finish: Finish,
) -> u8 {
    if finish.ending != Ending::Done {
        return finish.status;
    }
    let Ok(text) = table_text(alloc, format, columns, rows) else {
        return out_of_memory(host);
    };
    match host.write_output(text.as_str()) {
        Ok(()) => finish.status,
        Err(error) => {
            let failure = Failure::from(error);
            report_failure(alloc, host, &failure, finish.tally, false)
        }
    }
}

// The columns and the environments of `matrix`.
fn table_of<'m, H: Host>(
    alloc: Global,
    host: &mut H,
    words: &MatrixWords<'m>,
) -> Result<(Vec<Column<'m>>, Targets), Stop> {
    let columns = columns_of(alloc, words)?;
    let targets = targets_of(alloc, host, words, &columns)?;
    Ok((columns, targets))
}

// Runs `matrix`, and returns the status of the program.
fn tabulate<H: Host>(
    alloc: Global,
    host: &mut H,
    words: &MatrixWords<'_>,
    request: Request<'_>,
    settings: CheckSettings<'_>,
) -> u8 {
    let (columns, found) = match table_of(alloc, host, words) {
        Ok(found) => found,
        Err(stop) => return write_reply(alloc, host, &stop.reply(alloc)),
    };
    if let Err(failure) = warn(host, found.has_short) {
        return report_failure(alloc, host, &failure, Tally::NOTHING, false);
    }
    let mut tabulator = Tabulator::new(alloc, settings, found.targets);
    let finish = execute(alloc, host, &mut tabulator, request, settings.folder);
    write_table(alloc, host, words.format, &columns, &tabulator.rows, finish)
}

/// Runs the command `select` or `matrix`, and returns the status of the program. The requirements
/// are read as `settings` says.
pub fn run_selection_command<H: Host>(
    alloc: Global,
    host: &mut H,
    command: &SelectionCommand<'_>,
    request: Request<'_>,
    settings: CheckSettings<'_>,
) -> u8 {
    match command {
        SelectionCommand::Select(words) => select(alloc, host, words, request, settings),
        SelectionCommand::Matrix(words) => tabulate(alloc, host, words, request, settings),
    }
}
