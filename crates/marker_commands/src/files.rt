//! Environments in files of JSON.

use crate::keys::{GivenKey, key_named};
use crate::values::Assignment;
use refusal::Refusal;
use serde_json::{Map, Value};
use std::alloc::{AllocError, Global};
use std::fmt;

/// Why a text is no environment.
#[derive(Debug, Drop)]
pub enum FileFault {
    /// It is no JSON, as the message says.
    Json(String),
    /// It is no object.
    NoObject,
    /// The value of this key is no text.
    NoText(String),
}

impl fmt::Display for FileFault {
    fn fmt<W: fmt::Write>(&self, f: &mut fmt::Formatter<W>) -> fmt::Result {
        match self {
            FileFault::Json(message) => write!(f, "Expected JSON: {message}"),
            FileFault::NoObject => f.write_str("Expected an object of JSON"),
            FileFault::NoText(key) => write!(f, "The value of {key} is no text"),
        }
    }
}

// The object that the text is.
fn parse(alloc: Global, text: &str) -> Result<Value, Refusal<FileFault>> {
    match Value::from_str(alloc, text) {
        Ok(value) => Ok(value),
        Err(error) if error.is_memory() => Err(Refusal::OutOfMemory),
        Err(error) => {
            let message = format!(in alloc; "{error}")?;
            Err(Refusal::Fault(FileFault::Json(message)))
        }
    }
}

// The text of a member.
fn text_of<'v>(alloc: Global, name: &str, value: &'v Value) -> Result<&'v str, Refusal<FileFault>> {
    match value.as_str() {
        Some(text) => Ok(text),
        None => {
            let name = String::from_str(alloc, name)?;
            Err(Refusal::Fault(FileFault::NoText(name)))
        }
    }
}

// The values that the members give to keys, other than `python_version`.
fn assignments_in(
    alloc: Global,
    members: &Map<String, Value>,
) -> Result<Vec<Assignment>, Refusal<FileFault>> {
    let mut assignments = Vec::new(alloc);
    for (name, value) in members {
        if let Some(GivenKey::Key(key)) = key_named(name.as_str()) {
            let text = text_of(alloc, name.as_str(), value)?;
            assignments.push(Assignment::new(alloc, GivenKey::Key(key), text)?)?;
        }
    }
    Ok(assignments)
}

/// Returns the values of a file, an object of JSON as Python prints
/// `packaging.markers.default_environment()`. Other members than keys are ignored.
///
/// # Errors
/// - [`Refusal::Fault`] if the text is no object of JSON, or the value of a key is no text.
/// - [`Refusal::OutOfMemory`] when memory runs out.
pub fn file_assignments(alloc: Global, text: &str) -> Result<Vec<Assignment>, Refusal<FileFault>> {
    let file = parse(alloc, text)?;
    let Some(members) = file.as_object() else {
        return Err(Refusal::Fault(FileFault::NoObject));
    };
    let mut assignments = assignments_in(alloc, members)?;
    // It counts only where the file has no `python_full_version`.
    if let Some(value) = members.get("python_version") {
        let text = text_of(alloc, "python_version", value)?;
        assignments.push(Assignment::new(alloc, GivenKey::PythonVersion, text)?)?;
    }
    Ok(assignments)
}
