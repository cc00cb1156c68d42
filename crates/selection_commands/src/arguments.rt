//! The words of `select` and `matrix`.

use clap::ArgMatches;
use marker_commands::{EnvironmentWords, environment_words};

/// The words of `select` about the environment.
#[derive(Clone, Copy, Debug)]
pub struct SelectWords<'m> {
    pub environment: EnvironmentWords<'m>,
    pub extras: &'m [&'m str],
}

/// How a table is written.
#[derive(Clone, Copy, Debug, PartialEq, Eq)]
pub enum TableFormat {
    /// As columns for people.
    Text,
    /// As an object of JSON for each requirement.
    Json,
    /// As comma-separated values (RFC 4180).
    Csv,
}

/// The words of `matrix` about the environments.
#[derive(Clone, Copy, Debug)]
pub struct MatrixWords<'m> {
    /// Versions of Python, with commas between them.
    pub pythons: Option<&'m str>,
    /// Platforms, with commas between them.
    pub platforms: Option<&'m str>,
    /// Values of keys in all environments, as `KEY=VALUE`.
    pub values: &'m [&'m str],
    pub implementation: Option<&'m str>,
    pub extras: &'m [&'m str],
    pub format: TableFormat,
}

/// A command about requirements in environments.
#[derive(Clone, Copy, Debug)]
pub enum SelectionCommand<'m> {
    Select(SelectWords<'m>),
    Matrix(MatrixWords<'m>),
}

fn table_format_of(word: Option<&str>) -> TableFormat {
    match word {
        Some("json") => TableFormat::Json,
        Some("csv") => TableFormat::Csv,
        _ => TableFormat::Text,
    }
}

fn matrix_words<'m>(given: &'m ArgMatches<'_>) -> MatrixWords<'m> {
    MatrixWords {
        pythons: given.get_str("python"),
        platforms: given.get_str("platform"),
        values: given.get_strs("env").unwrap_or(&[]),
        implementation: given.get_str("implementation"),
        extras: given.get_strs("extra").unwrap_or(&[]),
        format: table_format_of(given.get_str("format")),
    }
}

/// Returns the command of the matches, or `None` if it is neither `select` nor `matrix`.
pub fn selection_command<'m>(matches: &'m ArgMatches<'_>) -> Option<SelectionCommand<'m>> {
    match matches.subcommand() {
        Some(("select", given)) => Some(SelectionCommand::Select(SelectWords {
            environment: environment_words(given),
            extras: given.get_strs("extra").unwrap_or(&[]),
        })),
        Some(("matrix", given)) => Some(SelectionCommand::Matrix(matrix_words(given))),
        _ => None,
    }
}
