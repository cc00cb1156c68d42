//! The cause and the place of the fault in an invalid version.

ghost use Rattle.std.specs.Prelude.{◌≡◌, IfOk, string_bytes};

use crate::error::{Expected, VersionParseError};
use crate::read;
use std::alloc::{AllocError, Global};

// The fault of an invalid version.
pub(crate) fn of_version(alloc: Global, text: &str) -> Result<VersionParseError, AllocError>
    ensures { IfOk result (λ fault. string_bytes fault.text ≡ text.now) }
{
    let version = text.trim().as_bytes().to_ascii_lowercase(alloc)?;
    let (expected, rest) = version_fault(&version);
    before_rest(alloc, text, rest.len(), expected)
}

// The fault of an invalid pattern of versions.
pub(crate) fn of_pattern(alloc: Global, text: &str) -> Result<VersionParseError, AllocError>
    ensures { IfOk result (λ fault. string_bytes fault.text ≡ text.now) }
{
    let pattern = text.trim().as_bytes().to_ascii_lowercase(alloc)?;
    let (expected, rest) = pattern_fault(&pattern);
    before_rest(alloc, text, rest.len(), expected)
}

// A fault `rest` bytes before the end of the text, not counting the white space there. The text
// before it is ASCII, so a character begins there.
fn before_rest(
    alloc: Global,
    text: &str,
    rest: usize,
    expected: Expected,
) -> Result<VersionParseError, AllocError>
    ensures { IfOk result (λ fault. string_bytes fault.text ≡ text.now) }
{
    let end = text.trim_end().len();
    let offset = text.floor_char_boundary(end.saturating_sub(rest));
    VersionParseError::new(alloc, text, offset, expected)
}

// The functions below take a text in lower case. Each returns what was expected, and the rest of
// the text from there.

// The text from its release on.
fn release_of(text: &[u8]) -> &[u8] {
    let text = read::after_mark(text);
    match read::number(text) {
        Some((_, [b'!', release @ ..])) => release,
        _ => text,
    }
}

fn version_fault(text: &[u8]) -> (Expected, &[u8]) {
    let after = match after_release(release_of(text)) {
        (Some(expected), rest) => return (expected, rest),
        (None, after) => after,
    };
    let (_, rest) = read::pre(after);
    let (_, rest) = read::post(rest);
    let (_, rest) = read::dev(rest);
    match rest {
        [b'+', local @ ..] => local_fault(local),
        _ => suffix_fault(rest, rest.len() == after.len()),
    }
}

fn pattern_fault(text: &[u8]) -> (Expected, &[u8]) {
    let release = release_of(text);
    match after_release(release) {
        (Some(Expected::ReleaseNumber), [b'*', rest @ ..]) if read::starts_digit(release) => {
            (Expected::End, rest)
        }
        _ => version_fault(text),
    }
}

// The fault of a text that does not begin with a number below 2^64.
fn number_fault(text: &[u8]) -> Expected {
    if read::starts_digit(text) {
        Expected::SmallerNumber
    } else {
        Expected::ReleaseNumber
    }
}

fn begins_suffix(text: &[u8]) -> bool {
    let (pre, _) = read::pre(text);
    let (post, _) = read::post(text);
    let (dev, _) = read::dev(text);
    pre.is_some() || post.is_some() || dev.is_some()
}

// The text after a release, or the fault in the release.
fn after_release(text: &[u8]) -> (Option<Expected>, &[u8]) {
    let mut rest = text;
    for _ in 0..text.len() {
        let Some((_, after)) = read::number(rest) else {
            return (Some(number_fault(rest)), rest);
        };
        match after {
            [b'.', number @ ..] if !begins_suffix(after) => rest = number,
            _ => return (None, after),
        }
    }
    (Some(Expected::ReleaseNumber), rest)
}

// The fault of a text that begins with neither a suffix nor a local part.
fn suffix_fault(text: &[u8], follows_release: bool) -> (Expected, &[u8]) {
    let after = read::after_separator(text);
    if read::starts_digit(after) && read::number(after).is_none() {
        return (Expected::SmallerNumber, after);
    }
    if follows_release && after.len() < text.len() {
        return (Expected::Suffix, after);
    }
    (Expected::End, text)
}

fn local_fault(text: &[u8]) -> (Expected, &[u8]) {
    let mut rest = text;
    for _ in 0..text.len() {
        let (run, after) = rest.split_at(read::run_len(rest));
        if run.is_empty() {
            return (Expected::LocalSegment, rest);
        }
        if read::is_numeric(run) && read::number(run).is_none() {
            return (Expected::SmallerNumber, rest);
        }
        match after {
            [byte, others @ ..] if read::is_separator(*byte) => rest = others,
            _ => return (Expected::End, after),
        }
    }
    (Expected::LocalSegment, rest)
}
