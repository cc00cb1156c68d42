//! The environments of a table.

ghost use Rattle.std.specs.Prelude.{◌≡◌, IfOk, string_bytes};
ghost use Rattle.selection_commands.specs.Cells.{title_of};

use crate::arguments::MatrixWords;
use crate::{Target, product};
use marker_commands::{
    EnvironmentWords, Stop, assignments_of, extras_of, invalid_value, is_short, known_of,
};
use pep508_program::Host;
use std::alloc::{AllocError, Global};

/// What differs between the environments of a table.
#[derive(Clone, Copy, Debug, PartialEq, Eq)]
pub struct Column<'m> {
    pub python: Option<&'m str>,
    pub platform: Option<&'m str>,
}

/// The environments of a table.
#[derive(Debug, Drop)]
pub(crate) struct Targets {
    pub(crate) targets: Vec<Target>,
    /// Whether the Python version of one is the value of `python_version`.
    pub(crate) has_short: bool,
}

impl Column<'_> {
    /// Returns the title of the column, such as `3.12 linux`.
    pub fn title(&self, alloc: Global) -> Result<String, AllocError>
        ensures { IfOk result (λ title. string_bytes title ≡ title_of self.now) }
    {
        match (self.python, self.platform) {
            (Some(python), Some(platform)) => format!(in alloc; "{python} {platform}"),
            (Some(word), None) | (None, Some(word)) => String::from_str(alloc, word),
            (None, None) => Ok(String::new(alloc)),
        }
    }
}

// The words of a list with commas; one that is not given, if there is no list.
fn choices<'m>(alloc: Global, list: Option<&'m str>) -> Result<Vec<Option<&'m str>>, AllocError> {
    let mut choices = Vec::new(alloc);
    match list {
        None => choices.push(None)?,
        Some(words) => {
            for word in words.split(',') {
                choices.push(Some(word.trim()))?;
            }
        }
    }
    Ok(choices)
}

// Refuses platforms that there are not.
fn check_platforms(alloc: Global, platforms: &[Option<&str>]) -> Result<(), Stop> {
    for platform in platforms {
        match *platform {
            None | Some("linux" | "macos" | "windows") => {}
            Some(word) => {
                let reason = "Expected linux, macos or windows";
                return Err(invalid_value(alloc, "--platform <NAMES>", word, reason)?);
            }
        }
    }
    Ok(())
}

/// Returns what differs between the environments that the words name: each version with each
/// platform, the first version with all platforms first.
pub fn columns_of<'m>(alloc: Global, words: &MatrixWords<'m>) -> Result<Vec<Column<'m>>, Stop> {
    if words.pythons.is_none() && words.platforms.is_none() {
        let message = "error: matrix needs --python <VERSIONS>, --platform <NAMES> or both\n";
        return Err(Stop::WrongUse(String::from_str(alloc, message)?));
    }
    let pythons = choices(alloc, words.pythons)?;
    let platforms = choices(alloc, words.platforms)?;
    check_platforms(alloc, &platforms)?;
    let mut columns = Vec::new(alloc);
    for (python, platform) in product(alloc, &pythons, &platforms)? {
        columns.push(Column { python, platform })?;
    }
    Ok(columns)
}

/// Returns the environments of the columns, with what the words say of all of them.
pub(crate) fn targets_of<'m, H: Host>(
    alloc: Global,
    host: &mut H,
    words: &MatrixWords<'m>,
    columns: &[Column<'m>],
) -> Result<Targets, Stop> {
    let mut targets = Vec::new(alloc);
    let mut has_short = false;
    for column in columns {
        let environment = EnvironmentWords {
            values: words.values,
            file: None,
            python: column.python,
            platform: column.platform,
            implementation: words.implementation,
        };
        let assignments = assignments_of(alloc, host, &environment)?;
        has_short = has_short || is_short(&assignments);
        targets.push(Target {
            known: known_of(alloc, &assignments)?,
            extras: extras_of(alloc, words.extras)?,
        })?;
    }
    Ok(Targets { targets, has_short })
}
