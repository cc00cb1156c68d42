//! Reading metadata, field by field.

ghost use Rattle.pep508_program.specs.Reporting.{Grows};

use super::{Reading, Walk, is_spoiled, offset_of};
use crate::failures::Failure;
use crate::hosts::Host;
use crate::marks::marks_of;
use crate::notices::Span;
use crate::sheets::Sheet;
use metadata_files::{Field, FieldKind};
use requirement_findings::{
    CheckLines, CheckedField, CheckedMetadata, CheckedText, Finding, Listed, check_metadata,
};
use requirement_lines::Piece;
use std::alloc::AllocError;

impl<H: Host, C: CheckLines> Walk<'_, H, C> {
    // Reports the findings of a part of a file, and lists its requirement. Of a project the part
    // has a key.
    pub(super) fn report_part(
        &mut self,
        reading: &mut Reading<'_>,
        part: Piece<'_>,
        key: Option<&str>,
        findings: &[Finding],
        listed: Option<&Listed>,
    ) -> Result<(), AllocError>
        ensures { Grows self.old.report.tally self.new.report.tally }
    {
        let sheet = reading.sheet;
        let start = offset_of(sheet, part.place.to_end);
        let span = Span {
            start,
            end: start.saturating_add(part.text.len()),
            position: reading.positions.position_of(part.place.to_end),
        };
        let positions = &mut reading.positions;
        let marks = marks_of(self.alloc, sheet.text(), findings, None, positions)?;
        self.report_marked(sheet, &[part], span, key, marks.as_slice(), listed)
    }

    // Reports the findings of a field, and lists its requirement, unless a byte of it is not UTF-8.
    fn report_field(
        &mut self,
        reading: &mut Reading<'_>,
        field: &Field<'_>,
        checked: &CheckedText,
    ) -> Result<(), AllocError>
        ensures { Grows self.old.report.tally self.new.report.tally }
    {
        if is_spoiled(reading.sheet, &[field.value]) {
            return Ok(());
        }
        if field.kind == FieldKind::RequiresDist {
            self.requirements = self.requirements.saturating_add(1);
        }
        let findings = checked.findings.as_slice();
        self.report_part(
            reading,
            field.value,
            None,
            findings,
            checked.listed.as_ref(),
        )
    }

    // Processes a field of metadata, and the bytes before it from one on. Returns the byte after
    // it.
    fn take_field(
        &mut self,
        reading: &mut Reading<'_>,
        from: usize,
        checked: &CheckedField<'_>,
    ) -> Result<usize, Failure>
        ensures { Grows self.old.report.tally self.new.report.tally }
    {
        let field = &checked.field;
        let sheet = reading.sheet;
        let value = field.value;
        let start = offset_of(sheet, field.name.place.to_end);
        let end = offset_of(sheet, value.place.to_end).saturating_add(value.text.len());
        self.report_invalid(reading, from, start)?;
        self.report_field(reading, field, &checked.checked)?;
        self.report_invalid(reading, start, end)?;
        self.progress.step(self.alloc, self.host)?;
        if self.report.is_full() {
            self.flush()?;
        }
        Ok(end)
    }

    // Reports the finding about the line that ended the headers.
    fn report_stray(
        &mut self,
        reading: &mut Reading<'_>,
        finding: Finding,
    ) -> Result<(), AllocError>
        ensures { Grows self.old.report.tally self.new.report.tally }
    {
        let whole = Piece::whole(reading.sheet.text());
        self.report_part(reading, whole, None, &[finding], None)
    }

    // Reads a file of metadata.
    pub(super) fn walk_metadata(&mut self, sheet: &Sheet) -> Result<(), Failure>
        ensures { Grows self.old.report.tally self.new.report.tally }
    {
        let mut reading = self.begin(sheet)?;
        let checked = check_metadata(self.alloc, sheet.text(), self.checker)?;
        let CheckedMetadata { fields, stray } = checked;
        let mut from = 0;
        for field in fields.iter() {
            from = self.take_field(&mut reading, from, field)?;
        }
        if let Some(finding) = stray {
            self.report_stray(&mut reading, finding)?;
        }
        self.report_invalid(&mut reading, from, sheet.text().len())?;
        Ok(())
    }
}
