//! A file that is formatted.

use crate::Edit;
use crate::arguments::FormatMode;
use crate::faults::report_faults;
use crate::formatting::{FormatSettings, Formatted, format_file};
use crate::outputs::Outputs;
use crate::replacing::replace_file;
use pep508_program::{
    Failure, FileKind, Host, Sheet, Style, Tally, file_name, kind_of_name, visible,
};
use requirement_findings::CheckLines;
use requirement_lines::Positions;
use std::alloc::{AllocError, Global};
use std::fmt::Write;
use std::io;

/// How files are formatted, and what becomes of them.
#[derive(Clone, Copy)]
pub(crate) struct Job<'s> {
    pub(crate) mode: FormatMode,
    pub(crate) settings: FormatSettings<'s>,
    pub(crate) style: Style,
}

// Whether a file of this path is a requirements file.
fn is_requirements_file(path: &str) -> bool {
    let name = file_name(path);
    kind_of_name(name) == FileKind::Requirements && name != "pyproject.toml"
}

// Reports why a file is not formatted.
fn report_failed<H: Host>(
    alloc: Global,
    host: &mut H,
    path: &str,
    reason: &str,
    tally: &mut Tally,
) -> Result<(), Failure> {
    let shown = visible(alloc, path)?;
    let message = format!(in alloc; "pep508: {shown}: {reason}\n")?;
    host.write_message(message.as_str())?;
    tally.failures = tally.failures.saturating_add(1);
    Ok(())
}

// Reports a file that could not be read or written, unless memory ran out.
fn report_error<H: Host>(
    alloc: Global,
    host: &mut H,
    path: &str,
    error: io::Error,
    tally: &mut Tally,
) -> Result<(), Failure> {
    match Failure::from(error) {
        Failure::Write(error) => {
            let reason = format!(in alloc; "{error}")?;
            report_failed(alloc, host, path, reason.as_str(), tally)
        }
        failure => Err(failure),
    }
}

// The lines that name what would change in a file.
fn changes_of(alloc: Global, sheet: &Sheet, edits: &[Edit]) -> Result<String, AllocError> {
    let text = sheet.text();
    let name = sheet.shown.as_str();
    let mut positions = Positions::new(text);
    let mut lines = String::new(alloc);
    for edit in edits {
        let position = positions.position_of(text.len().saturating_sub(edit.start));
        let new = visible(alloc, edit.text.as_str())?;
        writeln!(lines, "{name}:{}: would change to {new}", position.line)?;
    }
    Ok(lines)
}

// Names the lines of a file that would change. Each counts as a warning.
fn name_changes<H: Host>(
    alloc: Global,
    host: &mut H,
    sheet: &Sheet,
    edits: &[Edit],
    tally: &mut Tally,
) -> Result<(), Failure> {
    let lines = changes_of(alloc, sheet, edits)?;
    if !lines.is_empty() {
        host.write_output(lines.as_str())?;
    }
    let count = u64::try_from(edits.len()).unwrap_or(u64::MAX);
    tally.warnings = tally.warnings.saturating_add(count);
    Ok(())
}

// Replaces the file that the path leads to, also by links.
fn replace_target<H: Host, O: Outputs>(
    alloc: Global,
    host: &mut H,
    outputs: &mut O,
    path: &str,
    bytes: &[u8],
) -> io::Result<()> {
    let target = host.resolve(alloc, path)?;
    replace_file(alloc, outputs, target.as_str(), bytes)
}

// Does with the formatted file what the mode says.
fn deliver<H: Host, O: Outputs>(
    alloc: Global,
    host: &mut H,
    outputs: &mut O,
    mode: FormatMode,
    sheet: &Sheet,
    done: &Formatted,
    tally: &mut Tally,
) -> Result<(), Failure> {
    let edits = done.edits.as_slice();
    let bytes = done.bytes.as_slice();
    match mode {
        FormatMode::Print => Ok(outputs.print(bytes)?),
        FormatMode::Check => name_changes(alloc, host, sheet, edits, tally),
        FormatMode::Write if edits.is_empty() => Ok(()),
        FormatMode::Write => {
            match replace_target(alloc, host, outputs, sheet.path.as_str(), bytes) {
                Ok(()) => Ok(()),
                Err(error) => report_error(alloc, host, sheet.path.as_str(), error, tally),
            }
        }
    }
}

// Formats a decoded file, which has these bytes.
fn format_sheet<H: Host, O: Outputs, C: CheckLines>(
    alloc: Global,
    host: &mut H,
    outputs: &mut O,
    checker: &mut C,
    job: Job<'_>,
    sheet: &Sheet,
    bytes: &[u8],
    tally: &mut Tally,
) -> Result<(), Failure> {
    match format_file(alloc, bytes, sheet.text(), job.settings)? {
        Some(done) => deliver(alloc, host, outputs, job.mode, sheet, &done, tally)?,
        None => {
            let reason = "its text has more bytes than the file";
            return report_failed(alloc, host, sheet.path.as_str(), reason, tally);
        }
    }
    let found = report_faults(alloc, host, checker, sheet, job.settings, job.style)?;
    tally.errors = tally.errors.saturating_add(found.errors);
    tally.failures = tally.failures.saturating_add(found.failures);
    Ok(())
}

// Decodes a file with these bytes, and formats it.
fn format_bytes<H: Host, O: Outputs, C: CheckLines>(
    alloc: Global,
    host: &mut H,
    outputs: &mut O,
    checker: &mut C,
    job: Job<'_>,
    path: &str,
    bytes: Vec<u8>,
    tally: &mut Tally,
) -> Result<(), Failure> {
    let sheet = Sheet::new(alloc, path, bytes.clone()?, false)?;
    let bytes = bytes.as_slice();
    format_sheet(alloc, host, outputs, checker, job, &sheet, bytes, tally)
}

/// Formats the file of this path, or standard input if it is `-`, and counts what was reported.
pub(crate) fn format_path<H: Host, O: Outputs, C: CheckLines>(
    alloc: Global,
    host: &mut H,
    outputs: &mut O,
    checker: &mut C,
    job: Job<'_>,
    path: &str,
    tally: &mut Tally,
) -> Result<(), Failure> {
    let is_input = path == "-";
    if !is_input && !is_requirements_file(path) {
        return report_failed(
            alloc,
            host,
            path,
            "only requirements files are formatted",
            tally,
        );
    }
    let read = if is_input {
        host.read_input(alloc)
    } else {
        host.read_file(alloc, path)
    };
    let name = if is_input { "<stdin>" } else { path };
    match read {
        Ok(bytes) => format_bytes(alloc, host, outputs, checker, job, name, bytes, tally),
        Err(error) => report_error(alloc, host, name, error, tally),
    }
}
