//! Findings at their places in the file.

ghost use Rattle.std.specs.Prelude.{◌≡◌, IfOk};
ghost use Rattle.project_findings.specs.Names as spec;

use crate::faults::fault_name;
use crate::parts::Part;
use crate::places::EntryPlace;
use project_files::{Content, ProjectEntry, ProjectFaultKind};
use requirement_findings::Finding;
use requirement_lines::{Place, Source};
use std::alloc::{AllocError, Global};

// The place of a byte of the file.
fn place_in(file: &str, at: usize) -> Place {
    Place {
        to_end: file.len().saturating_sub(at),
        source: Source::File,
    }
}

// The string of an entry, or the name of its group or extra.
fn string_of(entry: &ProjectEntry) -> &str {
    match &entry.content {
        Content::Text(text) | Content::Include(text) => text.as_str(),
        Content::Name => entry.key.name.as_deref().unwrap_or(""),
        Content::Wrong(_) => "",
    }
}

// The column of a place of a string, counted from 1 by code points.
fn column_of(text: &str, place: Place) -> usize {
    let at = text.len().saturating_sub(place.to_end);
    let front = text.split_at_checked(at).map_or(text, |halves| halves.0);
    front.chars().count().saturating_add(1)
}

// The place in the file of a place of a string that is written as it is.
fn place_after(file: &str, start: usize, text: &str, place: Place) -> Place {
    let end = start.saturating_add(text.len());
    let behind = file.len().saturating_sub(end);
    Place {
        to_end: place.to_end.saturating_add(behind),
        source: place.source,
    }
}

impl EntryPlace {
    /// Returns the part of the file that is marked for the entry. Of one that was not found that is
    /// the front of the file.
    pub fn part(self, entry: &ProjectEntry) -> Part {
        match self {
            EntryPlace::Written(start) => Part {
                start,
                end: start.saturating_add(string_of(entry).len()),
            },
            EntryPlace::Quoted(part) | EntryPlace::Near(part) => part,
            EntryPlace::Unknown => Part { start: 0, end: 0 },
        }
    }

    // Whether the string of the entry was found.
    fn is_found(self) -> bool {
        matches!(self, EntryPlace::Written(_) | EntryPlace::Quoted(_))
    }
}

// A finding in the string of an entry, at its place in the file.
fn place_finding(
    alloc: Global,
    file: &str,
    entry: &ProjectEntry,
    place: EntryPlace,
    finding: Finding,
) -> Result<Finding, AllocError>
    ensures { IfOk result (λ placed. placed.name ≡ finding.name) }
{
    let text = string_of(entry);
    let mut placed = finding;
    if let EntryPlace::Written(start) = place {
        placed.start = place_after(file, start, text, placed.start);
        placed.end = place_after(file, start, text, placed.end);
        return Ok(placed);
    }
    if !place.is_found() {
        let key = &entry.key;
        let column = column_of(text, placed.start);
        let message = placed.message.as_str();
        placed.message = format!(in alloc; "{key}, column {column}: {message}")?;
    }
    let part = place.part(entry);
    placed.start = place_in(file, part.start);
    placed.end = place_in(file, part.end);
    Ok(placed)
}

/// Returns findings in the string of an entry at their places in the file, in their order. If the
/// string has escapes, each marks the whole string. If it was not found, the message names the key
/// and the column in the string, and what was found of the key is marked.
pub fn place_findings(
    alloc: Global,
    file: &str,
    entry: &ProjectEntry,
    place: EntryPlace,
    findings: Vec<Finding>,
) -> Result<Vec<Finding>, AllocError>
    ensures { IfOk result (λ placed.
        spec.names_of placed.items ≡ spec.names_of findings.items) }
{
    let mut placed = Vec::new(alloc);
    for finding in findings {
        let finding = place_finding(alloc, file, entry, place, finding)?;
        placed.push(finding)?;
    }
    Ok(placed)
}

/// Returns the finding that the fault of an entry is. If its string was not found, or it has none,
/// the message names the key.
pub fn fault_finding(
    alloc: Global,
    file: &str,
    entry: &ProjectEntry,
    place: EntryPlace,
    kind: ProjectFaultKind,
) -> Result<Finding, AllocError>
    ensures { IfOk result (λ finding. finding.name ≡ spec.fault_name kind) }
{
    let part = place.part(entry);
    let key = &entry.key;
    let message = if place.is_found() {
        format!(in alloc; "{kind}")?
    } else {
        format!(in alloc; "{key}: {kind}")?
    };
    Ok(Finding {
        name: fault_name(kind),
        message,
        start: place_in(file, part.start),
        end: place_in(file, part.end),
        earlier: None,
    })
}
