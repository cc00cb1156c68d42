//! What the words of a command say of an environment.

use crate::arguments::EnvironmentWords;
use crate::extras::read_extras;
use crate::files::file_assignments;
use crate::keys::{GivenKey, key_named};
use crate::stops::{Stop, invalid_value, refused_value};
use crate::values::{Assignment, known_values};
use marker_answers::KnownValues;
use marker_walks::EnvironmentKey;
use marker_words::{TextVariable, VersionVariable};
use pep508_names::ExtraName;
use pep508_program::{Host, visible};
use refusal::Refusal;
use std::alloc::{AllocError, Global};
use std::io;

/// Returns the extras that the words name.
pub fn extras_of(alloc: Global, words: &[&str]) -> Result<Vec<ExtraName>, Stop> {
    match read_extras(alloc, words) {
        Ok(extras) => Ok(extras),
        Err(Refusal::Fault(fault)) => {
            let reason = "Expected letters, digits, `-`, `_` and `.`, the first and last of them a \
letter or digit";
            Err(invalid_value(alloc, "--extra <NAME>", fault.as_str(), reason)?)
        }
        Err(_) => Err(Stop::OutOfMemory),
    }
}

// Adds a value of a text key.
fn add_text(
    alloc: Global,
    assignments: &mut Vec<Assignment>,
    key: TextVariable,
    value: &str,
) -> Result<(), AllocError> {
    let key = GivenKey::Key(EnvironmentKey::Text(key));
    assignments.push(Assignment::new(alloc, key, value)?)?;
    Ok(())
}

/// Adds what a platform determines: `linux`, `macos` or `windows`.
pub fn add_platform(
    alloc: Global,
    assignments: &mut Vec<Assignment>,
    platform: &str,
) -> Result<(), AllocError> {
    let (os_name, sys_platform, platform_system) = match platform {
        "linux" => ("posix", "linux", "Linux"),
        "macos" => ("posix", "darwin", "Darwin"),
        "windows" => ("nt", "win32", "Windows"),
        _ => return Ok(()),
    };
    add_text(alloc, assignments, TextVariable::OsName, os_name)?;
    add_text(alloc, assignments, TextVariable::SysPlatform, sys_platform)?;
    add_text(
        alloc,
        assignments,
        TextVariable::PlatformSystem,
        platform_system,
    )
}

/// Adds what an implementation of Python determines: `cpython` or `pypy`.
pub fn add_implementation(
    alloc: Global,
    assignments: &mut Vec<Assignment>,
    implementation: &str,
) -> Result<(), AllocError> {
    let name = match implementation {
        "cpython" => "CPython",
        "pypy" => "PyPy",
        _ => return Ok(()),
    };
    add_text(
        alloc,
        assignments,
        TextVariable::ImplementationName,
        implementation,
    )?;
    add_text(
        alloc,
        assignments,
        TextVariable::PlatformPythonImplementation,
        name,
    )
}

// The key and the value of a word `KEY=VALUE`.
fn key_and_value<'m>(alloc: Global, word: &'m str) -> Result<(GivenKey, &'m str), Stop> {
    let Some((name, value)) = word.split_once('=') else {
        return Err(invalid_value(alloc, "--env <KEY=VALUE>", word, "Expected KEY=VALUE")?);
    };
    match key_named(name) {
        Some(key) => Ok((key, value)),
        None => Err(invalid_value(alloc, "--env <KEY=VALUE>", word, "There is no such key")?),
    }
}

// Adds the values of `--env`, the last one first, if they are of `python_version` or if they are
// not.
fn add_values(
    alloc: Global,
    assignments: &mut Vec<Assignment>,
    words: &[&str],
    are_short: bool,
) -> Result<(), Stop> {
    for word in words.iter().rev() {
        let (key, value) = key_and_value(alloc, word)?;
        if (key == GivenKey::PythonVersion) == are_short {
            assignments.push(Assignment::new(alloc, key, value)?)?;
        }
    }
    Ok(())
}

// The text of a file of the command line.
fn text_of<H: Host>(alloc: Global, host: &mut H, path: &str) -> Result<String, Stop> {
    let read = if path == "-" {
        host.read_input(alloc)
    } else {
        host.read_file(alloc, path)
    };
    let bytes = match read {
        Ok(bytes) => bytes,
        Err(error) if error.kind() == io::ErrorKind::OutOfMemory => return Err(Stop::OutOfMemory),
        Err(error) => {
            let shown = visible(alloc, path)?;
            let message = format!(in alloc; "pep508: cannot read {shown}: {error}\n")?;
            return Err(Stop::WrongUse(message));
        }
    };
    match String::from_utf8(bytes) {
        Ok(text) => Ok(text),
        Err(_) => Err(invalid_value(alloc, "--env-file <FILE>", path, "The file is not UTF-8")?),
    }
}

// Adds the values of the file, if there is one.
fn add_file<H: Host>(
    alloc: Global,
    host: &mut H,
    assignments: &mut Vec<Assignment>,
    path: Option<&str>,
) -> Result<(), Stop> {
    let Some(path) = path else {
        return Ok(());
    };
    let text = text_of(alloc, host, path)?;
    match file_assignments(alloc, text.as_str()) {
        Ok(values) => {
            for value in values {
                assignments.push(value)?;
            }
            Ok(())
        }
        Err(refusal) => Err(refused_value(alloc, "--env-file <FILE>", path, refusal)?),
    }
}

/// Returns the values that the words give, those that count first.
pub fn assignments_of<H: Host>(
    alloc: Global,
    host: &mut H,
    words: &EnvironmentWords<'_>,
) -> Result<Vec<Assignment>, Stop> {
    let mut assignments = Vec::new(alloc);
    add_values(alloc, &mut assignments, words.values, false)?;
    add_values(alloc, &mut assignments, words.values, true)?;
    if let Some(version) = words.python {
        let key = GivenKey::Key(EnvironmentKey::Version(VersionVariable::PythonFullVersion));
        assignments.push(Assignment::new(alloc, key, version)?)?;
    }
    add_platform(alloc, &mut assignments, words.platform.unwrap_or(""))?;
    add_implementation(alloc, &mut assignments, words.implementation.unwrap_or(""))?;
    add_file(alloc, host, &mut assignments, words.file)?;
    Ok(assignments)
}

/// What standard error says if only `python_version` is given.
pub const SHORT: &str =
    "warning: python_version is taken for python_full_version, which is not given\n";

/// Returns whether the Python version is that of `python_version`.
pub fn is_short(assignments: &[Assignment]) -> bool {
    let python = EnvironmentKey::Version(VersionVariable::PythonFullVersion);
    match assignments
        .iter()
        .find(|assignment| assignment.key == python)
    {
        Some(assignment) => assignment.is_short,
        None => false,
    }
}

/// Returns the values that keys are given.
pub fn known_of(alloc: Global, assignments: &[Assignment]) -> Result<KnownValues, Stop> {
    match known_values(alloc, assignments) {
        Ok(known) => Ok(known),
        Err(Refusal::Fault(fault)) => {
            let value = fault.error.text();
            let reason = format!(in alloc; "{}", fault.error)?;
            Err(invalid_value(alloc, fault.key.name(), value, reason.as_str())?)
        }
        Err(_) => Err(Stop::OutOfMemory),
    }
}
