//! The rows of a table of requirements and environments.

ghost use Rattle.std.specs.Prelude.{◌≡◌, [], IfOk, OnOk};
ghost use Rattle.requirement_lines.specs.Reports.{text_of};
ghost use Rattle.requirement_checks.specs.Findings.{names_of};
ghost use Rattle.requirement_checks.specs.Specifiers.{FindsInSpecifiers};
ghost use Rattle.selection_commands.specs.Tabulating.{FindsTruths, Stays, TabulatesFrom, TabulatesLine, TabulatesText};

use crate::reading::MarkerReader;
use crate::written::{Stretch, stretch_of};
use crate::{Target, Truth, truths_in};
use requirement_checks::{
    CheckLines, CheckSettings, CheckedLine, CheckedText, Checker, Finding, Listed, Origin,
};
use requirement_lines::{Piece, text_of};
use std::alloc::{AllocError, Global};

/// A requirement, and what its marker is in each environment.
#[derive(Debug, Drop)]
pub struct Row {
    /// The requirement as it is written.
    pub requirement: String,
    /// The normal name of the package.
    pub name: Option<String>,
    /// The marker in normal form.
    pub marker: Option<String>,
    pub truths: Vec<Truth>,
}

/// Checks lines, and collects a row for each requirement that can be read.
#[derive(Drop)]
pub struct Tabulator<'s> {
    checker: Checker<'s>,
    reader: MarkerReader<'s>,
    targets: Vec<Target>,
    shows_values: bool,
    pub rows: Vec<Row>,
}

impl<'s> Tabulator<'s> {
    /// Returns a tabulator that has seen no line.
    pub fn new(alloc: Global, settings: CheckSettings<'s>, targets: Vec<Target>) -> Tabulator<'s>
        ensures targets { result.targets ≡ targets }
        ensures settings { result.reader.settings ≡ settings.entry }
        ensures checker { result.checker.settings ≡ settings.entry }
        ensures empty { result.rows.items ≡ [] }
    {
        Tabulator {
            checker: Checker::new(alloc, settings),
            reader: MarkerReader::new(settings),
            targets,
            shows_values: settings.shows_values,
            rows: Vec::new(alloc),
        }
    }

    // What the marker of a requirement is in each environment; `None` if that needs more room than
    // there is.
    fn truths_of(
        &mut self,
        alloc: Global,
        stretch: &Stretch<'_, '_>,
    ) -> Result<Option<Vec<Truth>>, AllocError>
        ensures rows { self.new.rows.items ≡ self.old.rows.items }
        ensures stays { OnOk result (Stays self.old self.new) }
        ensures truths { IfOk result (FindsTruths self.old stretch.now) }
    {
        let text = text_of(alloc, stretch.pieces)?;
        let room = self.reader.room();
        let Some(held) = self.reader.read(alloc, text.as_str(), stretch.is_editable)? else {
            return Ok(None);
        };
        let truths = truths_in(&held.interner, held.marker.tree, &self.targets, room)?;
        self.reader.put_back(held);
        Ok(truths)
    }

    // Adds the row of a requirement, if there is one that the checker lists. Appends why there is
    // no row.
    fn tabulate(
        &mut self,
        alloc: Global,
        stretch: Option<Stretch<'_, '_>>,
        listed: Option<Listed>,
        findings: &mut Vec<Finding>,
    ) -> Result<(), AllocError>
        ensures stays { OnOk result (Stays self.old self.new) }
        ensures tabulated { OnOk result
            (TabulatesFrom self.old stretch.entry listed findings.old self.new findings.new) }
    {
        let Some(stretch) = stretch else {
            return Ok(());
        };
        let Some(listed) = listed else {
            return Ok(());
        };
        let Some(truths) = self.truths_of(alloc, &stretch)? else {
            findings.push(stretch.too_complex(alloc, None)?)?;
            return Ok(());
        };
        let row = Row {
            requirement: stretch.written(alloc, self.shows_values)?,
            name: listed.name,
            marker: listed.marker,
            truths,
        };
        self.rows.push(row)?;
        Ok(())
    }
}

impl CheckLines for Tabulator<'_> {
    ghost checks = { TabulatesLine };

    ghost checks_text = { TabulatesText };

    ghost finds = { λ text findings. FindsInSpecifiers (text_of text) (names_of findings) };

    fn check_line<'f>(
        &mut self,
        alloc: Global,
        file: &'f str,
        line: &[Piece<'f>],
        is_constraint: bool,
    ) -> Result<CheckedLine<'f>, AllocError> {
        let checked = self.checker.check_line(alloc, file, line, is_constraint)?;
        let CheckedLine {
            line,
            mut findings,
            listed,
        } = checked;
        self.tabulate(alloc, stretch_of(file, &line), listed, &mut findings)?;
        Ok(CheckedLine {
            line,
            findings,
            listed: None,
        })
    }

    fn check_requirement<'f>(
        &mut self,
        alloc: Global,
        file: &'f str,
        text: &[Piece<'f>],
        origin: Origin<'_>,
    ) -> Result<CheckedText, AllocError> {
        let checked = self.checker.check_requirement(alloc, file, text, origin)?;
        let CheckedText {
            mut findings,
            listed,
        } = checked;
        let stretch = Stretch {
            file,
            pieces: text,
            is_editable: false,
        };
        self.tabulate(alloc, Some(stretch), listed, &mut findings)?;
        Ok(CheckedText {
            findings,
            listed: None,
        })
    }

    fn check_specifiers<'f>(
        &self,
        alloc: Global,
        file: &'f str,
        text: &[Piece<'f>],
    ) -> Result<Vec<Finding>, AllocError> {
        self.checker.check_specifiers(alloc, file, text)
    }
}
