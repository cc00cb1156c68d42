//! Hints about the text of a requirement.

use crate::comparisons::{
    Found, after_keyword, first_comparison, has_commas, has_three_numbers, is_version_as_text,
    requested_extra,
};
use crate::url_and_marker::{marker_of, url_of};
use marker_words::MarkerValueRef;
use requirement_findings::FindingName;
use std::alloc::{AllocError, Global};

/// A hint about a part of the text of a requirement.
#[derive(Clone, Copy)]
pub struct TextHint {
    /// The kind of the hint.
    pub name: FindingName,
    /// The first byte of the part.
    pub start: usize,
    /// How many bytes it has.
    pub size: usize,
}

// Adds a hint about the part of the text that begins with `before`, up to `after`.
fn add(
    hints: &mut Vec<TextHint>,
    name: FindingName,
    text: &str,
    before: &str,
    after: &str,
) -> Result<(), AllocError> {
    hints.push(TextHint {
        name,
        start: text.len().saturating_sub(before.len()),
        size: before.len().saturating_sub(after.len()),
    })?;
    Ok(())
}

// Adds a hint about the first control character of a quoted text that begins at this byte.
fn add_control(hints: &mut Vec<TextHint>, quoted: &str, start: usize) -> Result<(), AllocError> {
    for (at, c) in quoted.char_indices() {
        if c.is_control() {
            hints.push(TextHint {
                name: FindingName::ControlCharacter,
                start: start.saturating_add(at),
                size: c.len_utf8(),
            })?;
            return Ok(());
        }
    }
    Ok(())
}

// Adds the hints about the quoted texts of a comparison. The left one begins after its quote, and
// the right one ends before its quote.
fn add_controls(
    hints: &mut Vec<TextHint>,
    text: &str,
    found: &Found<'_>,
) -> Result<(), AllocError> {
    if let MarkerValueRef::QuotedString(quoted) = found.comparison.left {
        let start = text.len().saturating_sub(found.before.len());
        add_control(hints, quoted, start.saturating_add(1))?;
    }
    if let MarkerValueRef::QuotedString(quoted) = found.comparison.right {
        let end = text.len().saturating_sub(found.after.len());
        let start = end.saturating_sub(quoted.len()).saturating_sub(1);
        add_control(hints, quoted, start)?;
    }
    Ok(())
}

// Adds the hints about a comparison.
fn add_comparison(
    alloc: Global,
    hints: &mut Vec<TextHint>,
    text: &str,
    found: &Found<'_>,
) -> Result<(), AllocError> {
    let (before, after) = (found.before, found.after);
    add_controls(hints, text, found)?;
    if has_commas(&found.comparison) {
        add(hints, FindingName::VersionList, text, before, after)?;
    }
    if is_version_as_text(alloc, &found.comparison)? {
        add(hints, FindingName::VersionAsText, text, before, after)?;
    }
    if has_three_numbers(&found.comparison) {
        add(hints, FindingName::ThreeNumbers, text, before, after)?;
    }
    Ok(())
}

// Adds the hints about the comparisons of the marker at the end of the text.
fn add_comparisons(
    alloc: Global,
    hints: &mut Vec<TextHint>,
    text: &str,
    marker: &str,
) -> Result<(), AllocError> {
    let mut rest = marker;
    // Each comparison has at least one byte.
    for _ in 0..marker.len() {
        let Some(found) = first_comparison(rest) else {
            return Ok(());
        };
        add_comparison(alloc, hints, text, &found)?;
        rest = after_keyword(found.after);
    }
    Ok(())
}

// Adds the hint that a part of the URL may be meant as a marker: the text after a `;`, if it begins
// with a comparison.
fn add_marker_in_url(hints: &mut Vec<TextHint>, text: &str) -> Result<(), AllocError> {
    let (url, rest) = url_of(text);
    let mut after = url;
    for _ in 0..url.len() {
        let Some((_, behind)) = after.split_once(';') else {
            return Ok(());
        };
        if first_comparison(behind).is_some() {
            let end = text.len().saturating_sub(rest.len());
            let size = behind.len().saturating_add(1);
            hints.push(TextHint {
                name: FindingName::MarkerInUrl,
                start: end.saturating_sub(size),
                size,
            })?;
            return Ok(());
        }
        after = behind;
    }
    Ok(())
}

/// Returns the hints about the text of a valid requirement. First a marker in its URL; then for
/// each comparison of its marker: a control character in a quoted text, a list of versions with
/// commas, a version compared with a text, and `python_version` with three numbers. `has_url` says
/// that the requirement has a URL or is one.
pub fn text_hints(alloc: Global, text: &str, has_url: bool) -> Result<Vec<TextHint>, AllocError> {
    let mut hints = Vec::new(alloc);
    if has_url {
        add_marker_in_url(&mut hints, text)?;
    }
    add_comparisons(alloc, &mut hints, text, marker_of(text, has_url))?;
    Ok(hints)
}

/// A comparison that requests an extra, as `extra == 'dev'`.
#[derive(Clone, Copy)]
pub struct ExtraRequest<'a> {
    /// The name of the extra, as it is written.
    pub name: &'a str,
    /// The first byte of the comparison in the text of the requirement.
    pub start: usize,
    /// How many bytes it has.
    pub size: usize,
}

/// Returns the comparisons of the marker that request an extra, of the text of a valid requirement,
/// in order. `has_url` says that the requirement has a URL or is one.
pub fn extra_requests<'a>(
    alloc: Global,
    text: &'a str,
    has_url: bool,
) -> Result<Vec<ExtraRequest<'a>>, AllocError> {
    let mut requests = Vec::new(alloc);
    let marker = marker_of(text, has_url);
    let mut left = marker;
    // Each comparison has at least one byte.
    for _ in 0..marker.len() {
        let Some(found) = first_comparison(left) else {
            return Ok(requests);
        };
        if let Some(name) = requested_extra(&found.comparison) {
            requests.push(ExtraRequest {
                name,
                start: text.len().saturating_sub(found.before.len()),
                size: found.before.len().saturating_sub(found.after.len()),
            })?;
        }
        left = after_keyword(found.after);
    }
    Ok(requests)
}
