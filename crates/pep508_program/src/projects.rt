//! The entries of a project as they are reported.

use project_files::{Content, ProjectEntry, ProjectFile, Section};
use project_findings::{CheckedProject, EntryPlace, fault_finding, place_findings};
use requirement_findings::{CheckedText, Finding, Listed};
use std::alloc::{AllocError, Global};

// An entry of a project.
#[derive(Drop)]
pub(crate) struct EntryReport {
    // Its first byte in the file.
    pub(crate) start: usize,
    // Its key, as `project.dependencies[3]`.
    pub(crate) key: String,
    // Its fault, and the findings in its string, at their places in the file.
    pub(crate) findings: Vec<Finding>,
    // The list entry of its requirement.
    pub(crate) listed: Option<Listed>,
    pub(crate) is_requirement: bool,
}

// Whether the entry is a requirement, valid or not.
fn is_requirement(entry: &ProjectEntry) -> bool {
    let is_text = matches!(entry.content, Content::Text(_));
    is_text && entry.key.section != Section::RequiresPython
}

fn key_of(alloc: Global, entry: &ProjectEntry) -> Result<String, AllocError> {
    let key = &entry.key;
    format!(in alloc; "{key}")
}

// The report of an entry at its place, without its fault.
fn report_of(
    alloc: Global,
    text: &str,
    entry: &ProjectEntry,
    place: EntryPlace,
    checked: CheckedText,
) -> Result<EntryReport, AllocError> {
    let CheckedText { findings, listed } = checked;
    let findings = place_findings(alloc, text, entry, place, findings)?;
    Ok(EntryReport {
        start: place.part(entry).start,
        key: key_of(alloc, entry)?,
        findings,
        listed,
        is_requirement: is_requirement(entry),
    })
}

// Adds a finding to the report of this number.
fn add_finding(
    reports: &mut [EntryReport],
    number: usize,
    finding: Finding,
) -> Result<(), AllocError> {
    if let Some(report) = reports.get_mut(number) {
        report.findings.push(finding)?;
    }
    Ok(())
}

// The reports of the entries, in their order, without their faults.
fn checked_reports(
    alloc: Global,
    text: &str,
    entries: &[ProjectEntry],
    places: &[EntryPlace],
    checked: Vec<CheckedText>,
) -> Result<Vec<EntryReport>, AllocError> {
    let mut reports = Vec::new(alloc);
    for text_checked in checked {
        let number = reports.len();
        if let (Some(entry), Some(place)) = (entries.get(number), places.get(number)) {
            reports.push(report_of(alloc, text, entry, *place, text_checked)?)?;
        }
    }
    Ok(reports)
}

// Adds the faults of the entries to their reports.
fn add_faults(
    alloc: Global,
    text: &str,
    file: &ProjectFile,
    places: &[EntryPlace],
    reports: &mut [EntryReport],
) -> Result<(), AllocError> {
    for fault in file.faults.iter() {
        let number = fault.entry;
        if let (Some(entry), Some(place)) = (file.entries.get(number), places.get(number)) {
            let finding = fault_finding(alloc, text, entry, *place, fault.kind)?;
            add_finding(reports, number, finding)?;
        }
    }
    Ok(())
}

// The reports of the entries of a project, in their order.
pub(crate) fn reports_of(
    alloc: Global,
    text: &str,
    project: CheckedProject,
) -> Result<Vec<EntryReport>, AllocError> {
    let CheckedProject {
        file,
        places,
        checked,
    } = project;
    let places = places.as_slice();
    let mut reports = checked_reports(alloc, text, file.entries.as_slice(), places, checked)?;
    add_faults(alloc, text, &file, places, reports.as_mut_slice())?;
    Ok(reports)
}

// The numbers of the reports in the order of their places.
pub(crate) fn order_of(alloc: Global, reports: &[EntryReport]) -> Result<Vec<usize>, AllocError> {
    let mut order = Vec::new(alloc);
    for index in 0..reports.len() {
        order.push((reports[index].start, index))?;
    }
    order.sort()?;
    let mut indices = Vec::new(alloc);
    for (_, index) in order {
        indices.push(index)?;
    }
    Ok(indices)
}
