//! How errors and warnings are written.

use crate::excerpts::{Excerpt, draw_excerpt};
use crate::secrets::Password;
use requirement_lines::Position;
use serde_json::{Map, Value, json};
use std::alloc::{AllocError, Global};
use std::fmt::Write;

/// The format of errors, warnings and requirements.
#[derive(Clone, Copy, PartialEq, Eq)]
pub enum Format {
    /// Lines for people.
    Text,
    /// An object of JSON on a line.
    Json,
}

/// Whether a command fails on it.
#[derive(Clone, Copy)]
pub enum Weight {
    Error,
    Warning,
}

/// A part of a file.
#[derive(Clone, Copy)]
pub struct Span {
    /// Its first byte, counted from the first of the file.
    pub start: usize,
    /// The byte after its last one.
    pub end: usize,
    /// Where it begins, as people see it.
    pub position: Position,
}

/// An error or a warning, and where it is.
#[derive(Clone, Copy)]
pub struct Notice<'a> {
    pub weight: Weight,
    pub name: &'a str,
    pub message: &'a str,
    pub span: Span,
}

/// A file as notices show it.
#[derive(Clone, Copy)]
pub struct Page<'a> {
    /// Its name, as [`visible`](crate::visible) shows it.
    pub name: &'a str,
    /// Its text, empty if it is not known.
    pub text: &'a str,
    /// The passwords of the text.
    pub hidden: &'a [Password],
}

/// How notices are written.
#[derive(Clone, Copy)]
pub struct Style {
    pub format: Format,
    /// Whether text has colors.
    pub has_colors: bool,
}

const PLAIN: &str = "\u{1b}[0m";

const BOLD: &str = "\u{1b}[1m";

impl Weight {
    /// Returns the word for the weight.
    pub fn word(self) -> &'static str {
        match self {
            Weight::Error => "error",
            Weight::Warning => "warning",
        }
    }

    // The terminal's code for the color of the weight.
    fn color(self) -> &'static str {
        match self {
            Weight::Error => "\u{1b}[1;31m",
            Weight::Warning => "\u{1b}[1;33m",
        }
    }
}

// Writes the place, the word and the message.
fn write_head(
    out: &mut String,
    page: &Page<'_>,
    notice: &Notice<'_>,
    has_colors: bool,
) -> Result<(), AllocError> {
    let name = page.name;
    let line = notice.span.position.line;
    let column = notice.span.position.column;
    let word = notice.weight.word();
    if has_colors {
        let color = notice.weight.color();
        write!(
            out,
            "{BOLD}{name}:{line}:{column}:{PLAIN} {color}{word}:{PLAIN} "
        )?;
    } else {
        write!(out, "{name}:{line}:{column}: {word}: ")?;
    }
    let message = notice.message;
    let kind = notice.name;
    writeln!(out, "{message} [{kind}]")
}

// Writes the line, and carets under its mark.
fn write_excerpt(out: &mut String, shown: &Excerpt, color: Option<&str>) -> Result<(), AllocError> {
    let line = shown.line.as_str();
    write!(out, "  {line}\n  ")?;
    for _ in 0..shown.before {
        out.push(' ')?;
    }
    out.push_str(color.unwrap_or(""))?;
    for _ in 0..shown.width {
        out.push('^')?;
    }
    if color.is_some() {
        out.push_str(PLAIN)?;
    }
    out.push('\n')
}

// Writes a notice for people.
fn write_text(
    alloc: Global,
    out: &mut String,
    page: &Page<'_>,
    notice: &Notice<'_>,
    has_colors: bool,
) -> Result<(), AllocError> {
    write_head(out, page, notice, has_colors)?;
    if page.text.is_empty() {
        return Ok(());
    }
    let span = notice.span;
    let shown = draw_excerpt(alloc, page.text, page.hidden, span.start, span.end)?;
    let color = if has_colors {
        Some(notice.weight.color())
    } else {
        None
    };
    write_excerpt(out, &shown, color)
}

// A text, or null.
fn text_or_null(alloc: Global, text: Option<&str>) -> Result<Value, AllocError> {
    match text {
        Some(text) => json!(in alloc; (text)),
        None => Ok(Value::Null),
    }
}

// Adds a member to a JSON object.
pub(crate) fn add_member(
    alloc: Global,
    members: &mut Map<String, Value>,
    name: &str,
    value: Value,
) -> Result<(), AllocError> {
    let name = String::from_str(alloc, name)?;
    let _before = members.insert(name, value)?;
    Ok(())
}

// The members of a JSON object with these texts, or null, and numbers.
pub(crate) fn members_of(
    alloc: Global,
    texts: &[(&str, Option<&str>)],
    numbers: &[(&str, usize)],
) -> Result<Map<String, Value>, AllocError> {
    let mut members = Map::new(alloc);
    for (name, text) in texts {
        let value = text_or_null(alloc, *text)?;
        add_member(alloc, &mut members, name, value)?;
    }
    for (name, number) in numbers {
        let value = json!(in alloc; (*number))?;
        add_member(alloc, &mut members, name, value)?;
    }
    Ok(members)
}

// Writes a notice as JSON.
fn write_json(
    alloc: Global,
    out: &mut String,
    page: &Page<'_>,
    notice: &Notice<'_>,
    key: Option<&str>,
) -> Result<(), AllocError> {
    let span = notice.span;
    let texts = [
        ("file", Some(page.name)),
        ("key", key),
        ("kind", Some(notice.weight.word())),
        ("name", Some(notice.name)),
        ("message", Some(notice.message)),
    ];
    let numbers = [
        ("line", span.position.line),
        ("column", span.position.column),
        ("start", span.start),
        ("end", span.end),
    ];
    let members = members_of(alloc, &texts, &numbers)?;
    let text = Value::Object(members).to_string(alloc)?;
    out.push_str(text.as_str())?;
    out.push('\n')
}

/// Appends a notice to the output.
pub fn write_notice(
    alloc: Global,
    out: &mut String,
    style: Style,
    page: &Page<'_>,
    notice: &Notice<'_>,
) -> Result<(), AllocError> {
    write_notice_at(alloc, out, style, page, notice, None)
}

// Appends a notice that may be about a key of a project.
pub(crate) fn write_notice_at(
    alloc: Global,
    out: &mut String,
    style: Style,
    page: &Page<'_>,
    notice: &Notice<'_>,
    key: Option<&str>,
) -> Result<(), AllocError> {
    match style.format {
        Format::Text => write_text(alloc, out, page, notice, style.has_colors),
        Format::Json => write_json(alloc, out, page, notice, key),
    }
}
