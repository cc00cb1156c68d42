//! Findings in a line of a requirements file or a field of metadata, and list entries.

ghost use Rattle.std.specs.Prelude.{List, IfOk};
ghost use Rattle.requirement_lines.specs.Character.{Character};
ghost use Rattle.requirement_lines.specs.Pieces.{line_of};
ghost use Rattle.requirement_findings.specs.declared.finding.CheckedLine.{CheckedLine};
ghost use Rattle.requirement_findings.specs.declared.finding.CheckedText.{CheckedText};
ghost use Rattle.requirement_findings.specs.declared.finding.Finding.{Finding};

use crate::name::FindingName;
use pep508_names::ExtraName;
use requirement_lines::{Piece, Place};
use requirement_options::FileLine;
use std::alloc::{AllocError, Global};
use std::collections::BTreeSet;

/// A finding in a line of a requirements file, or in a field of another file.
#[derive(Drop)]
pub struct Finding {
    /// What kind of finding it is.
    pub name: FindingName,
    /// What is wrong, as a sentence. It contains no value of a variable, and no password of a URL.
    pub message: String,
    /// Where the part of the file begins that it is about.
    pub start: Place,
    /// Where that part ends: after its last character.
    pub end: Place,
    /// The earlier requirement that it is about: the number of the call of
    /// [`CheckLines::check_line`] that had it, counted from 0.
    pub earlier: Option<usize>,
}

/// The list entry of a requirement. A field is `None` if the requirement has no such part, or if it
/// would show the value of a variable that must not be shown. Passwords of URLs are `***`.
#[derive(Drop)]
pub struct Listed {
    /// The normal name of the package (PEP 503).
    pub name: Option<String>,
    /// The normal names of the required extras.
    pub extras: Vec<String>,
    /// The version specifiers, in order.
    pub specifiers: Vec<String>,
    /// The URL, as the URL Standard writes it.
    pub url: Option<String>,
    /// The URL as it is written in the file.
    pub given_url: Option<String>,
    /// The marker in normal form.
    pub marker: Option<String>,
    /// The requirement in normal form.
    pub text: Option<String>,
    /// The arguments of the options `--hash`.
    pub hashes: Vec<String>,
    /// Whether the requirement is editable (`-e`).
    pub is_editable: bool,
    /// Whether it is one of a file of constraints (`-c`).
    pub is_constraint: bool,
}

/// A line of a requirements file that was checked.
#[derive(Drop)]
pub struct CheckedLine<'a> {
    /// The line.
    pub line: FileLine<'a>,
    /// The findings: first of its requirement, then of its options, then hints.
    pub findings: Vec<Finding>,
    /// The list entry of its requirement, if that is valid and lists are needed.
    pub listed: Option<Listed>,
}

/// A requirement of metadata or of a project that was checked.
#[derive(Drop)]
pub struct CheckedText {
    /// The findings: of the requirement, and then hints.
    pub findings: Vec<Finding>,
    /// The list entry of the requirement, if it is valid and lists are needed.
    pub listed: Option<Listed>,
}

/// What a requirement belongs to, other than a requirements file.
#[derive(Clone, Copy)]
pub enum Origin<'e> {
    /// The metadata of a package that provides these extras.
    Metadata(&'e BTreeSet<ExtraName>),
    /// A project: its extras are not compared with those of markers.
    Project,
}

/// Checks lines of requirements files, and requirements and specifiers of other files.
pub trait CheckLines {
    /// In the first state the line is checked as this, and the last state comes of it.
    ghost checks: { Self → List Character → CheckedLine → Self → Type 0 };

    /// Checks a logical line of a file, with the values of its variables. `is_constraint` says that
    /// the file is one of constraints (`-c`).
    fn check_line<'f>(
        &mut self,
        alloc: Global,
        file: &'f str,
        line: &[Piece<'f>],
        is_constraint: bool,
    ) -> Result<CheckedLine<'f>, AllocError>
        ensures { IfOk result (λ c. checks self.old (line_of line.now) c self.new) };

    /// In the first state the requirement is checked as this, and the last state comes of it.
    ghost checks_text: { Self → List Character → CheckedText → Self → Type 0 };

    /// Checks a requirement of metadata or of a project: it has no options, comments or variables.
    fn check_requirement<'f>(
        &mut self,
        alloc: Global,
        file: &'f str,
        text: &[Piece<'f>],
        origin: Origin<'_>,
    ) -> Result<CheckedText, AllocError>
        ensures { IfOk result (λ c. checks_text self.old (line_of text.now) c self.new) };

    /// These are the findings in the version specifiers.
    ghost finds: { List Character → List Finding → Type 0 };

    /// Checks version specifiers, with commas between them.
    fn check_specifiers<'f>(
        &self,
        alloc: Global,
        file: &'f str,
        text: &[Piece<'f>],
    ) -> Result<Vec<Finding>, AllocError>
        ensures { IfOk result (λ findings. finds (line_of text.now) findings.items) };
}
