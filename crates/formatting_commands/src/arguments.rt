//! The words of the command `fmt`.

use clap::ArgMatches;
use pep508_program::{Coloring, coloring_of};

/// What becomes of the formatted files.
#[derive(Clone, Copy, PartialEq, Eq)]
pub enum FormatMode {
    /// The new text goes to standard output.
    Print,
    /// The lines that would change are named.
    Check,
    /// Each file that changes is replaced.
    Write,
}

/// The command `fmt`.
#[derive(Clone, Copy)]
pub struct FormatCommand<'m> {
    /// The files; none means standard input, and so does `-`.
    pub files: &'m [&'m str],
    pub mode: FormatMode,
    pub coloring: Coloring,
    /// The room of each requirement.
    pub limit: u64,
}

fn mode_of(checks: bool, writes: bool) -> FormatMode {
    if checks {
        FormatMode::Check
    } else if writes {
        FormatMode::Write
    } else {
        FormatMode::Print
    }
}

/// Returns the command of the matches, or `None` if it is not `fmt`.
pub fn format_command<'m>(matches: &'m ArgMatches<'_>) -> Option<FormatCommand<'m>> {
    match matches.subcommand() {
        Some(("fmt", given)) => Some(FormatCommand {
            files: given.get_strs("file").unwrap_or(&[]),
            mode: mode_of(given.get_flag("check"), given.get_flag("write")),
            coloring: coloring_of(given.get_str("color")),
            limit: given.get_one::<u64>("limit").unwrap_or(u64::MAX),
        }),
        _ => None,
    }
}
