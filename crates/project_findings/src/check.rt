//! A project, checked entry by entry.

ghost use Rattle.std.specs.Prelude.{◌≡◌, IfErr, IfOk};
ghost use Rattle.project_files.specs.Found.{entry_in};
ghost use Rattle.project_files.specs.Reading.{IsTomlRefusal};
ghost use Rattle.project_findings.specs.Checks.{ChecksEntry, ChecksProject, ChecksString};

use crate::places::{EntryPlace, places_of};
use project_files::{Content, ProjectEntry, ProjectFile, Section};
use refusal::Refusal;
use requirement_findings::{CheckLines, CheckedText, Finding, Origin};
use requirement_lines::Piece;
use std::alloc::{AllocError, Global};
use toml::de::Error;

/// A `pyproject.toml` that was checked.
#[derive(Drop)]
pub struct CheckedProject {
    /// Its entries, and their faults.
    pub file: ProjectFile,
    /// Where each entry is, in their order.
    pub places: Vec<EntryPlace>,
    /// The findings in the string of each entry and its list entry, in their order. Places are
    /// counted in the string, as if it was a file by itself.
    pub checked: Vec<CheckedText>,
}

// Findings without a list entry.
fn unlisted(findings: Vec<Finding>) -> CheckedText
    ensures { result.findings.items ≡ findings.items }
{
    CheckedText {
        findings,
        listed: None,
    }
}

// Checks the string of an entry.
fn check_string<C: CheckLines>(
    alloc: Global,
    section: Section,
    text: &str,
    checker: &mut C,
) -> Result<CheckedText, AllocError>
    ensures { IfOk result
        (λ c. ChecksString C.checks_text C.finds section text.now checker.old c checker.new) }
{
    let pieces = [Piece::whole(text)];
    match section {
        Section::RequiresPython => {
            let findings = checker.check_specifiers(alloc, text, &pieces)?;
            Ok(unlisted(findings))
        }
        _ => checker.check_requirement(alloc, text, &pieces, Origin::Project),
    }
}

// Checks an entry.
fn check_entry<C: CheckLines>(
    alloc: Global,
    entry: &ProjectEntry,
    checker: &mut C,
) -> Result<CheckedText, AllocError>
    ensures { IfOk result
        (λ c. ChecksEntry C.checks_text C.finds (entry_in entry.now) checker.old c checker.new) }
{
    match &entry.content {
        Content::Text(text) => check_string(alloc, entry.key.section, text.as_str(), checker),
        Content::Include(_) | Content::Name | Content::Wrong(_) => { Ok(unlisted(Vec::new(alloc))) }
    }
}

/// Checks a `pyproject.toml`: the string of each entry, in the order of the entries. A string of a
/// group is checked once, however many groups include it.
///
/// # Errors
/// - [`Refusal::Fault`] if the text is invalid TOML: `message()` says why, and `span()` where.
/// - [`Refusal::OutOfMemory`] when memory runs out.
pub fn check_project<C: CheckLines>(
    alloc: Global,
    text: &str,
    checker: &mut C,
) -> Result<CheckedProject, Refusal<Error>>
    ensures checked { IfOk result
        (λ p. ChecksProject C.checks_text C.finds text.now checker.old p checker.new) }
    ensures refused { IfErr result (λ refusal. IsTomlRefusal text.now refusal) }
{
    let file = ProjectFile::read(alloc, text)?;
    let places = places_of(alloc, text, file.entries.as_slice())?;
    let mut checked = Vec::new(alloc);
    for index in 0..file.entries.len() {
        let text = check_entry(alloc, &file.entries[index], checker)?;
        checked.push(text)?;
    }
    Ok(CheckedProject {
        file,
        places,
        checked,
    })
}
