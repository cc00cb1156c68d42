//! The words of a command that reads files.

use crate::kinds::FileKind;
use crate::notices::Format;
use clap::ArgMatches;

/// When output has colors.
#[derive(Clone, Copy, Debug, PartialEq, Eq)]
pub enum Coloring {
    /// On a terminal, unless `NO_COLOR` is set.
    Auto,
    Always,
    Never,
}

/// A command of the program.
#[derive(Clone, Copy, PartialEq, Eq)]
pub enum Task {
    Check,
    List,
}

/// What the program is to do.
#[derive(Clone, Copy)]
pub struct Request<'m> {
    pub task: Task,
    /// The files; none means standard input, and so does `-`.
    pub files: &'m [&'m str],
    /// How the named files are read; `None`: by their names.
    pub kind: Option<FileKind>,
    /// Folders are searched for files.
    pub is_recursive: bool,
    pub format: Format,
    pub coloring: Coloring,
    /// Warnings fail too.
    pub is_strict: bool,
    /// Names of warnings that are not reported.
    pub ignored: &'m [&'m str],
    /// Variables, as `NAME=VALUE`.
    pub variables: &'m [&'m str],
    /// The room of each requirement.
    pub limit: u64,
    /// Values of variables are shown.
    pub shows_values: bool,
    /// The one group of projects whose requirements are listed.
    pub group: Option<&'m str>,
}

/// Returns the coloring of a word of `--color`.
pub fn coloring_of(word: Option<&str>) -> Coloring {
    match word {
        Some("always") => Coloring::Always,
        Some("never") => Coloring::Never,
        _ => Coloring::Auto,
    }
}

fn format_of(word: Option<&str>) -> Format {
    match word {
        Some("json") => Format::Json,
        _ => Format::Text,
    }
}

fn file_kind_of(word: &str) -> FileKind {
    match word {
        "metadata" => FileKind::Metadata,
        "project" => FileKind::Project,
        _ => FileKind::Requirements,
    }
}

/// Returns the request of the matches of a command.
pub fn request_of<'m, 'w>(task: Task, given: &'m ArgMatches<'w>) -> Request<'m> {
    Request {
        task,
        files: given.get_strs("file").unwrap_or(&[]),
        kind: given.get_str("kind").map(file_kind_of),
        is_recursive: given.get_flag("recursive"),
        format: format_of(given.get_str("format")),
        coloring: coloring_of(given.get_str("color")),
        is_strict: given.get_flag("strict"),
        ignored: given.get_strs("ignore").unwrap_or(&[]),
        variables: given.get_strs("var").unwrap_or(&[]),
        limit: given.get_one::<u64>("limit").unwrap_or(u64::MAX),
        shows_values: given.get_flag("show-values"),
        group: given.get_str("group"),
    }
}

/// Returns what the command of this name does with files: `select` and `matrix` read them as `list`
/// does.
pub fn task_of(name: &str) -> Option<Task> {
    match name {
        "check" => Some(Task::Check),
        "list" | "select" | "matrix" => Some(Task::List),
        _ => None,
    }
}
