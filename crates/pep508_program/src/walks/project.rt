//! Reading projects, entry by entry.

ghost use Rattle.pep508_program.specs.Reporting.{Grows};

use super::{Reading, Walk, error_at, to_end_of};
use crate::excerpts::visible;
use crate::failures::Failure;
use crate::hosts::Host;
use crate::notices::Span;
use crate::projects::{EntryReport, order_of, reports_of};
use crate::sheets::Sheet;
use project_files::ExpansionFault;
use project_findings::{CheckedProject, check_project};
use refusal::Refusal;
use requirement_findings::{CheckLines, FindingName};
use requirement_lines::{Piece, Place, Position, Source};
use std::alloc::AllocError;
use std::mem;
use toml::de::Error;

// The front of a file.
const FRONT: Span = Span {
    start: 0,
    end: 0,
    position: Position { line: 1, column: 1 },
};

// The place of a byte of a file.
fn piece_at(sheet: &Sheet, start: usize) -> Piece<'_> {
    Piece {
        text: "",
        place: Place {
            to_end: to_end_of(sheet, start),
            source: Source::File,
        },
    }
}

impl<H: Host, C: CheckLines> Walk<'_, H, C> {
    // Reports that a file is invalid TOML.
    fn report_toml(&mut self, reading: &mut Reading<'_>, error: &Error) -> Result<(), AllocError>
        ensures { Grows self.old.report.tally self.new.report.tally }
    {
        let sheet = reading.sheet;
        let (start, end) = match error.span() {
            Some(span) => (span.start, span.end),
            None => (0, 0),
        };
        let span = Span {
            start,
            end,
            position: reading.positions.position_of(to_end_of(sheet, start)),
        };
        let notice = error_at(FindingName::InvalidToml.name(), error.message(), span);
        self.report.notice(self.alloc, &sheet.page(), &notice)
    }

    // Checks a project, unless it is no TOML, which is reported.
    fn read_project(&mut self, reading: &mut Reading<'_>) -> Result<Option<CheckedProject>, Failure>
        ensures { Grows self.old.report.tally self.new.report.tally }
    {
        let text = reading.sheet.text();
        if reading.sheet.has_invalid(0, text.len()) {
            self.report_invalid(reading, 0, text.len())?;
            return Ok(None);
        }
        match check_project(self.alloc, text, self.checker) {
            Ok(project) => Ok(Some(project)),
            Err(Refusal::Fault(error)) => {
                self.report_toml(reading, &error)?;
                Ok(None)
            }
            Err(Refusal::OutOfMemory | Refusal::SegmentAtEnd) => Err(Failure::OutOfMemory),
        }
    }

    // Reports the findings of some entries, those of each once, and lists their requirements.
    fn report_entries(
        &mut self,
        reading: &mut Reading<'_>,
        mut reports: Vec<EntryReport>,
        numbers: &[usize],
    ) -> Result<(), Failure>
        ensures { Grows self.old.report.tally self.new.report.tally }
    {
        for number in numbers {
            if let Some(report) = reports.get_mut(*number) {
                let findings = mem::replace(&mut report.findings, Vec::new(self.alloc));
                if report.is_requirement {
                    self.requirements = self.requirements.saturating_add(1);
                }
                let place = piece_at(reading.sheet, report.start);
                let key = Some(report.key.as_str());
                let listed = report.listed.as_ref();
                self.report_part(reading, place, key, findings.as_slice(), listed)?;
                self.progress.step(self.alloc, self.host)?;
                if self.report.is_full() {
                    self.flush()?;
                }
            }
        }
        Ok(())
    }

    // Reads a project.
    pub(super) fn walk_project(&mut self, sheet: &Sheet) -> Result<(), Failure>
        ensures { Grows self.old.report.tally self.new.report.tally }
    {
        let mut reading = self.begin(sheet)?;
        if let Some(project) = self.read_project(&mut reading)? {
            let reports = reports_of(self.alloc, sheet.text(), project)?;
            let numbers = order_of(self.alloc, reports.as_slice())?;
            self.report_entries(&mut reading, reports, numbers.as_slice())?;
        }
        Ok(())
    }

    // Reports an error about a whole file.
    fn refuse_file(&mut self, sheet: &Sheet, name: &str, message: &str) -> Result<(), AllocError>
        ensures { Grows self.old.report.tally self.new.report.tally }
    {
        let notice = error_at(name, message, FRONT);
        self.report.notice(self.alloc, &sheet.page(), &notice)
    }

    // Reports why a group has no expansion.
    fn refuse_group(
        &mut self,
        reading: &mut Reading<'_>,
        group: &str,
        fault: ExpansionFault,
        reports: Vec<EntryReport>,
    ) -> Result<(), Failure>
        ensures { Grows self.old.report.tally self.new.report.tally }
    {
        let name = match fault {
            ExpansionFault::FaultyEntry(number) => {
                return self.report_entries(reading, reports, &[number]);
            }
            ExpansionFault::NoSuchGroup => FindingName::UnknownGroup.name(),
            ExpansionFault::TooLarge => "too-large-group",
        };
        let shown = visible(self.alloc, group)?;
        let message = format!(in self.alloc; "{fault}: {shown}")?;
        self.refuse_file(reading.sheet, name, message.as_str())?;
        Ok(())
    }

    // Reads one group of a project.
    pub(super) fn walk_group(&mut self, sheet: &Sheet, group: &str) -> Result<(), Failure>
        ensures { Grows self.old.report.tally self.new.report.tally }
    {
        let mut reading = self.begin(sheet)?;
        let Some(project) = self.read_project(&mut reading)? else {
            return Ok(());
        };
        let expansion = project.file.expand_group(self.alloc, group);
        let reports = reports_of(self.alloc, sheet.text(), project)?;
        match expansion {
            Ok(numbers) => self.report_entries(&mut reading, reports, numbers.as_slice()),
            Err(Refusal::Fault(fault)) => self.refuse_group(&mut reading, group, fault, reports),
            Err(Refusal::OutOfMemory | Refusal::SegmentAtEnd) => Err(Failure::OutOfMemory),
        }
    }

    // Reports that a file is no project.
    pub(super) fn refuse_kind(&mut self, sheet: &Sheet) -> Result<(), Failure>
        ensures { Grows self.old.report.tally self.new.report.tally }
    {
        let reading = self.begin(sheet)?;
        let message = "only a project has groups, and this file is read as another kind";
        self.refuse_file(reading.sheet, "not-a-project", message)?;
        Ok(())
    }
}
