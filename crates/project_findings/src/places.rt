//! Where the strings and names of entries are in the file.

ghost use Rattle.std.specs.Prelude.{◌≡◌, ℕ, true, List, Option, Some, drop, IfOk, IfSome};
ghost use Rattle.project_files.specs.Found.{entry_in, entries_in};
ghost use Rattle.project_findings.specs.Places.{Holds, HoldEach, IsPart, IsQuoted, IsWritten, string_of};

use crate::parts::{Part, Parts, Written, name_of_key};
use crate::scanner::parts_of;
use project_files::{Content, ProjectEntry};
use std::alloc::{AllocError, Global};
use toml_parser::{ParseError, quoted, starts_string};

/// Where an entry is in the file, in bytes from the first of the file.
#[derive(Clone, Copy)]
pub enum EntryPlace {
    /// Its string, or the name of its group or extra, begins here and is written as it is.
    Written(usize),
    /// Its string, or the name of its group or extra, is this quoted string, which has escapes.
    Quoted(Part),
    /// Its string was not found, or it has none. Its value, its key or its list is here.
    Near(Part),
    /// Nothing of it was found.
    Unknown,
}

// The text of the file from a byte on.
fn text_from(file: &str, start: usize) -> Option<&str>
    ensures { IfSome result (λ rest. rest.now ≡ drop start file.now) }
{
    match file.split_at_checked(start) {
        Some((_, rest)) => Some(rest),
        None => None,
    }
}

// Whether the text is written as it is from a byte of the file on.
fn is_written(file: &str, start: usize, text: &str) -> bool
    ensures { result ≡ true → IsWritten file.now text.now start }
{
    match text_from(file, start) {
        Some(rest) => match rest.split_at_checked(text.len()) {
            Some((front, _)) => front == text,
            None => false,
        },
        None => false,
    }
}

// The byte after the quoted string at a byte of the file, if it reads as the text.
fn quoted_end(
    alloc: Global,
    file: &str,
    start: usize,
    text: &str,
) -> Result<Option<usize>, AllocError>
    ensures { IfOk result (λ end. IfSome end (IsQuoted file.now text.now start)) }
{
    let Some(rest) = text_from(file, start) else {
        return Ok(None);
    };
    if !starts_string(rest) {
        return Ok(None);
    }
    match quoted(alloc, rest) {
        Ok((string, after)) if string.as_str() == text => {
            Ok(Some(file.len().saturating_sub(after.len())))
        }
        Err(ParseError::OutOfMemory) => Err(AllocError),
        _ => Ok(None),
    }
}

// The first character of a quoted string that is written as it is: after one quote, or three of
// them and a line break.
fn inner_start(file: &str, part: Part, text: &str) -> Option<usize>
    ensures { IfSome result (IsWritten file.now text.now) }
{
    for quotes in [1usize, 3, 4, 5] {
        let start = part.start.saturating_add(quotes);
        let end = part.end.saturating_sub(quotes.min(3));
        let is_whole = start.saturating_add(text.len()) == end;
        if is_whole && is_written(file, start, text) {
            return Some(start);
        }
    }
    None
}

// The place of a quoted string that reads as the text.
fn quoted_place(file: &str, start: usize, end: usize, text: &str) -> EntryPlace
    requires { IsQuoted file.now text.now start end }
    ensures { Holds file.now (Some text.now) result }
{
    let part = Part { start, end };
    match inner_start(file, part, text) {
        Some(start) => EntryPlace::Written(start),
        None => EntryPlace::Quoted(part),
    }
}

// The place of a part, unless the file has no such part.
fn near(file: &str, part: Part) -> EntryPlace
    ensures { (string : Option (List ℕ)) → Holds file.now string result }
{
    if part.start <= part.end && part.end <= file.len() {
        EntryPlace::Near(part)
    } else {
        EntryPlace::Unknown
    }
}

// The place of a text that may be in a part; that of another part if it is not.
fn place_of_text(
    alloc: Global,
    file: &str,
    part: Part,
    text: &str,
    other: Part,
) -> Result<EntryPlace, AllocError>
    ensures { IfOk result (Holds file.now (Some text.now)) }
{
    if let Some(end) = quoted_end(alloc, file, part.start, text)? {
        return Ok(quoted_place(file, part.start, end, text));
    }
    Ok(near(file, other))
}

// The place of a name that may be a key.
fn place_of_name(alloc: Global, file: &str, key: Part, name: &str) -> Result<EntryPlace, AllocError>
    ensures { IfOk result (Holds file.now (Some name.now)) }
{
    let is_bare = key.start.saturating_add(name.len()) == key.end;
    if is_bare && is_written(file, key.start, name) {
        return Ok(EntryPlace::Written(key.start));
    }
    place_of_text(alloc, file, key, name, key)
}

// Where the value of an entry should be: its item, or the whole value.
fn value_of(entry: &ProjectEntry, written: &Written) -> Option<Part> {
    match entry.key.index {
        Some(index) => written.items.get(index).copied(),
        None => Some(written.value),
    }
}

// The place of an entry whose key was found.
fn place_at(
    alloc: Global,
    file: &str,
    entry: &ProjectEntry,
    written: &Written,
) -> Result<EntryPlace, AllocError>
    ensures { IfOk result (Holds file.now (string_of (entry_in entry.now))) }
{
    let key = written.key;
    let value = value_of(entry, written).unwrap_or(key);
    match &entry.content {
        Content::Text(text) => place_of_text(alloc, file, value, text.as_str(), key),
        Content::Include(name) => place_of_text(alloc, file, value, name.as_str(), key),
        Content::Name => match &entry.key.name {
            Some(name) => place_of_name(alloc, file, key, name.as_str()),
            None => Ok(near(file, key)),
        },
        Content::Wrong(_) => Ok(near(file, value)),
    }
}

// The place of an entry.
fn place_of(
    alloc: Global,
    file: &str,
    entry: &ProjectEntry,
    parts: &Parts,
) -> Result<EntryPlace, AllocError>
    ensures { IfOk result (Holds file.now (string_of (entry_in entry.now))) }
{
    let name = name_of_key(alloc, &entry.key)?;
    match parts.get(name.as_str()) {
        Some(written) => place_at(alloc, file, entry, written),
        None => Ok(EntryPlace::Unknown),
    }
}

// The places of all entries of a file.
pub(crate) fn places_of(
    alloc: Global,
    file: &str,
    entries: &[ProjectEntry],
) -> Result<Vec<EntryPlace>, AllocError>
    ensures { IfOk result (λ places.
        HoldEach file.now (entries_in entries.now) places.items) }
{
    let parts = parts_of(alloc, file)?;
    let mut places = Vec::new(alloc);
    for index in 0..entries.len() {
        let place = place_of(alloc, file, &entries[index], &parts)?;
        places.push(place)?;
    }
    Ok(places)
}
