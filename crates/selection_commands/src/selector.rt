//! The requirements that apply in an environment.

ghost use Rattle.std.specs.Prelude.{◌≡◌, IfOk, OnOk};
ghost use Rattle.marker_graph.specs.Contents.{IsHeld};
ghost use Rattle.requirement_lines.specs.Reports.{text_of};
ghost use Rattle.requirement_checks.specs.Findings.{names_of};
ghost use Rattle.requirement_checks.specs.Specifiers.{FindsInSpecifiers};
ghost use Rattle.selection_commands.specs.Truth.{IsTruth};
ghost use Rattle.selection_commands.specs.Markers.{requirement_at, truth_held};
ghost use Rattle.selection_commands.specs.Selecting.{Chooses, SelectsFrom, SelectsLine, SelectsText, Stays, TruthOf, without_text};

use crate::reading::{HeldMarker, MarkerReader};
use crate::written::{Stretch, stretch_of};
use crate::{Target, Truth, open_keys, truth_in};
use pep508_program::Format;
use requirement_checks::{
    CheckLines, CheckSettings, CheckedLine, CheckedText, Checker, Finding, Listed, Origin,
};
use requirement_lines::{Piece, text_of};
use std::alloc::{AllocError, Global};

// What becomes of a requirement.
#[derive(Drop)]
enum Choice {
    // It is listed.
    Listed,
    // It does not apply.
    LeftOut,
    // Whether it applies is not known.
    Reported(Finding),
}

/// Checks lines, and lists the requirements whose markers are true in a target.
#[derive(Drop)]
pub struct Selector<'s> {
    checker: Checker<'s>,
    reader: MarkerReader<'s>,
    target: Target,
    format: Format,
    shows_values: bool,
}

// What becomes of a requirement with this marker.
fn choose(
    alloc: Global,
    target: &Target,
    stretch: &Stretch<'_, '_>,
    held: &mut HeldMarker,
    room: usize,
) -> Result<Choice, AllocError>
    requires { IsHeld held.old.interner held.old.marker.tree }
    ensures { IfOk result (Chooses (IsTruth target.now (truth_held held.old))) }
{
    let marker = held.marker;
    match truth_in(&held.interner, marker.tree, target, room)? {
        Some(Truth::Yes) => Ok(Choice::Listed),
        Some(Truth::No) => Ok(Choice::LeftOut),
        Some(Truth::Open) => {
            let keys = open_keys(&mut held.interner, marker.tree, target, room)?;
            let finding = stretch.unknown_value(alloc, &keys, marker.has_url)?;
            Ok(Choice::Reported(finding))
        }
        None => Ok(Choice::Reported(stretch.too_complex(alloc, Some(marker.has_url))?)),
    }
}

impl<'s> Selector<'s> {
    /// Returns a selector that has seen no line. In text, requirements are listed as they are
    /// written.
    pub fn new(
        alloc: Global,
        settings: CheckSettings<'s>,
        target: Target,
        format: Format,
    ) -> Selector<'s>
        ensures target { result.target ≡ target }
        ensures settings { result.reader.settings ≡ settings.entry }
        ensures checker { result.checker.settings ≡ settings.entry }
    {
        Selector {
            checker: Checker::new(alloc, settings),
            reader: MarkerReader::new(settings),
            target,
            format,
            shows_values: settings.shows_values,
        }
    }

    // What becomes of a requirement.
    fn choice_of(&mut self, alloc: Global, stretch: &Stretch<'_, '_>) -> Result<Choice, AllocError>
        ensures stays { OnOk result (Stays self.old self.new) }
        ensures chosen { IfOk result (Chooses (TruthOf self.old (requirement_at stretch.now))) }
    {
        let text = text_of(alloc, stretch.pieces)?;
        let room = self.reader.room();
        let Some(mut held) = self.reader.read(alloc, text.as_str(), stretch.is_editable)? else {
            return Ok(Choice::Reported(stretch.too_complex(alloc, None)?));
        };
        let choice = choose(alloc, &self.target, stretch, &mut held, room)?;
        self.reader.put_back(held);
        Ok(choice)
    }

    // The list entry of a requirement that applies.
    fn entry_of(
        &self,
        alloc: Global,
        stretch: &Stretch<'_, '_>,
        listed: Listed,
    ) -> Result<Listed, AllocError>
        ensures { IfOk result (λ entry. without_text entry ≡ without_text listed) }
    {
        if self.format != Format::Text {
            return Ok(listed);
        }
        let mut entry = listed;
        entry.text = Some(stretch.written(alloc, self.shows_values)?);
        Ok(entry)
    }

    // The list entry of a requirement, if there is one that the checker lists, and it applies.
    // Appends why that is not known.
    fn select(
        &mut self,
        alloc: Global,
        stretch: Option<Stretch<'_, '_>>,
        listed: Option<Listed>,
        findings: &mut Vec<Finding>,
    ) -> Result<Option<Listed>, AllocError>
        ensures stays { OnOk result (Stays self.old self.new) }
        ensures selected { IfOk result
            (SelectsFrom self.old stretch.entry listed findings.old findings.new) }
    {
        let Some(stretch) = stretch else {
            return Ok(None);
        };
        let Some(listed) = listed else {
            return Ok(None);
        };
        match self.choice_of(alloc, &stretch)? {
            Choice::Listed => Ok(Some(self.entry_of(alloc, &stretch, listed)?)),
            Choice::LeftOut => Ok(None),
            Choice::Reported(finding) => {
                findings.push(finding)?;
                Ok(None)
            }
        }
    }
}

impl CheckLines for Selector<'_> {
    ghost checks = { SelectsLine };

    ghost checks_text = { SelectsText };

    ghost finds = { λ text findings. FindsInSpecifiers (text_of text) (names_of findings) };

    fn check_line<'f>(
        &mut self,
        alloc: Global,
        file: &'f str,
        line: &[Piece<'f>],
        is_constraint: bool,
    ) -> Result<CheckedLine<'f>, AllocError> {
        let checked = self.checker.check_line(alloc, file, line, is_constraint)?;
        let CheckedLine {
            line,
            mut findings,
            listed,
        } = checked;
        let listed = self.select(alloc, stretch_of(file, &line), listed, &mut findings)?;
        Ok(CheckedLine {
            line,
            findings,
            listed,
        })
    }

    fn check_requirement<'f>(
        &mut self,
        alloc: Global,
        file: &'f str,
        text: &[Piece<'f>],
        origin: Origin<'_>,
    ) -> Result<CheckedText, AllocError> {
        let checked = self.checker.check_requirement(alloc, file, text, origin)?;
        let CheckedText {
            mut findings,
            listed,
        } = checked;
        let stretch = Stretch {
            file,
            pieces: text,
            is_editable: false,
        };
        let listed = self.select(alloc, Some(stretch), listed, &mut findings)?;
        Ok(CheckedText { findings, listed })
    }

    fn check_specifiers<'f>(
        &self,
        alloc: Global,
        file: &'f str,
        text: &[Piece<'f>],
    ) -> Result<Vec<Finding>, AllocError> {
        self.checker.check_specifiers(alloc, file, text)
    }
}
