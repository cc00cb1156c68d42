//! The output of `list` for a requirement.

use crate::excerpts::visible;
use crate::notices::{Format, Span, add_member, members_of};
use requirement_findings::Listed;
use requirement_lines::{Mark, Piece, cut_line, text_of};
use serde_json::{Map, Value, json};
use std::alloc::{AllocError, Global};

/// Where a requirement is.
#[derive(Clone, Copy)]
pub struct ListedPlace<'a> {
    /// The name of its file, as [`visible`](crate::visible) shows it.
    pub file: &'a str,
    pub span: Span,
    /// The string of a project that it is, as `project.dependencies[3]`.
    pub key: Option<&'a str>,
}

// A list of texts.
fn list_of(alloc: Global, texts: &[String]) -> Result<Value, AllocError> {
    let mut values = Vec::new(alloc);
    for text in texts {
        values.push(json!(in alloc; (text.as_str()))?)?;
    }
    Ok(Value::Array(values))
}

// Adds the lists and the flags of a requirement to its JSON object.
fn add_rest(
    alloc: Global,
    members: &mut Map<String, Value>,
    listed: &Listed,
) -> Result<(), AllocError> {
    let lists = [
        ("extras", listed.extras.as_slice()),
        ("specifiers", listed.specifiers.as_slice()),
        ("hashes", listed.hashes.as_slice()),
    ];
    for (name, list) in lists {
        add_member(alloc, members, name, list_of(alloc, list)?)?;
    }
    for (name, flag) in [
        ("editable", listed.is_editable),
        ("constraint", listed.is_constraint),
    ] {
        add_member(alloc, members, name, Value::Bool(flag))?;
    }
    Ok(())
}

// The JSON object of a requirement.
fn object_of(alloc: Global, place: &ListedPlace<'_>, listed: &Listed) -> Result<Value, AllocError> {
    let texts = [
        ("file", Some(place.file)),
        ("key", place.key),
        ("name", listed.name.as_deref()),
        ("url", listed.url.as_deref()),
        ("given_url", listed.given_url.as_deref()),
        ("marker", listed.marker.as_deref()),
        ("text", listed.text.as_deref()),
    ];
    let position = place.span.position;
    let numbers = [("line", position.line), ("column", position.column)];
    let mut members = members_of(alloc, &texts, &numbers)?;
    add_rest(alloc, &mut members, listed)?;
    Ok(Value::Object(members))
}

// The requirement as it is written in the file.
fn as_written(alloc: Global, line: &[Piece<'_>]) -> Result<String, AllocError> {
    let requirement = cut_line(alloc, line, Mark::Options)?;
    let text = text_of(alloc, requirement.as_slice())?;
    visible(alloc, text.as_str().trim_end())
}

// Writes the requirement in its normal text, or as in the file if that would show the value of a
// variable.
fn write_text(
    alloc: Global,
    out: &mut String,
    line: &[Piece<'_>],
    listed: &Listed,
) -> Result<(), AllocError> {
    match &listed.text {
        Some(text) => out.push_str(text.as_str()),
        None => out.push_str(as_written(alloc, line)?.as_str()),
    }
}

/// Appends a requirement to the output. `line` is its line as it is written in the file.
pub fn write_listed(
    alloc: Global,
    out: &mut String,
    format: Format,
    place: &ListedPlace<'_>,
    line: &[Piece<'_>],
    listed: &Listed,
) -> Result<(), AllocError> {
    match format {
        Format::Text => write_text(alloc, out, line, listed)?,
        Format::Json => {
            let text = object_of(alloc, place, listed)?.to_string(alloc)?;
            out.push_str(text.as_str())?;
        }
    }
    out.push('\n')
}
