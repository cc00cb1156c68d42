//! A line of a requirements file: its content and its options.

ghost use Rattle.std.specs.Prelude.{◌≡◌, ◌++◌, [], false, true, map, unwrap_or, IfOk, OnOk};
ghost use Rattle.requirement_lines.specs.Marks.{from_mark};
ghost use Rattle.requirement_lines.specs.Pieces.{line_of};
ghost use Rattle.requirement_lines.specs.declared.sets.Mark.TheVariants.{Options};
ghost use Rattle.requirement_options.specs.Forms.{argument_in, IsArgument, IsLine};
ghost use Rattle.requirement_options.specs.Found.{settings_in, Tells};
ghost use Rattle.requirement_options.specs.Content.{read_with, IsReadAs, Says};
ghost use Rattle.requirement_options.specs.Line.{said_by};
ghost use Rattle.requirement_options.specs.Line as spec;

use crate::fault::{OptionFault, OptionFaultKind};
use crate::line_kind::{LineKind, counts_on, is_ignored, is_taken};
use crate::reading::{Found, LineOption, Outcome, copied, read_words};
use requirement_lines::{
    Mark, Piece, Place, Words, cut_line, drop_last, next_character, options_of, split_words,
    whole_line,
};
use std::alloc::{AllocError, Global};

/// The content of a line besides its options.
#[derive(Drop)]
pub enum Content<'a> {
    /// A requirement: the text before the options of the line, with the space between them.
    Requirement(Vec<Piece<'a>>),
    /// An editable requirement: the argument of the first `-e`.
    Editable(Vec<Piece<'a>>),
    /// Another requirements file: the argument of the first `-r`.
    File(Vec<Piece<'a>>),
    /// A file of constraints: the argument of the first `-c`.
    Constraints(Vec<Piece<'a>>),
    /// Only settings of the installer.
    Settings,
}

/// A line of a requirements file.
#[derive(Drop)]
pub struct FileLine<'a> {
    /// The content of the line besides its options.
    pub content: Content<'a>,
    /// Its options, in order; none if one of them is invalid, other than by being ignored.
    pub options: Vec<LineOption<'a>>,
    /// The faults of its options: one that cannot be read; otherwise each one that pip ignores on
    /// this kind of line, and then each text after an option.
    pub faults: Vec<OptionFault>,
}

impl Content<'_> {
    ghost use Rattle.std.specs.Prelude.{◌≡◌};
    ghost use Rattle.requirement_options.specs.Line.{kind_of};
    ghost use Rattle.requirement_options.specs.Content.{said_in};

    // The kind of the line.
    fn kind(&self) -> LineKind
        ensures { result ≡ kind_of (said_in self.now) }
    {
        match self {
            Content::Requirement(_) => LineKind::Requirement,
            Content::Editable(_) => LineKind::Editable,
            Content::File(_) => LineKind::File,
            Content::Constraints(_) => LineKind::Constraints,
            Content::Settings => LineKind::Settings,
        }
    }
}

// A copy of the argument of an option, empty if it has none.
fn argument_of<'a>(alloc: Global, option: &LineOption<'a>) -> Result<Vec<Piece<'a>>, AllocError>
    ensures { IfOk result (IsLine (unwrap_or (argument_in option.now.argument) [])) }
{
    match &option.argument {
        Some(pieces) => copied(alloc, pieces.as_slice()),
        None => Ok(Vec::new(alloc)),
    }
}

// The argument of the first option that counts on this kind of line.
fn first_argument<'a>(
    alloc: Global,
    line: LineKind,
    options: &[LineOption<'a>],
) -> Result<Option<Vec<Piece<'a>>>, AllocError>
    ensures { IfOk result (IsArgument (spec.first_argument line (settings_in options.now))) }
{
    for index in 0..options.len() {
        let option = &options[index];
        if counts_on(line, option.kind) {
            return Ok(Some(argument_of(alloc, option)?));
        }
    }
    Ok(None)
}

// The content of a line that has only options, and neither `-e` nor `-r`.
fn said_by_constraints<'a>(
    alloc: Global,
    options: &[LineOption<'a>],
) -> Result<Content<'a>, AllocError>
    ensures { IfOk result (Says (spec.said_by_constraints (settings_in options.now))) }
{
    match first_argument(alloc, LineKind::Constraints, options)? {
        Some(name) => Ok(Content::Constraints(name)),
        None => Ok(Content::Settings),
    }
}

// The content of a line that has only options, and no `-e`.
fn said_by_files<'a>(alloc: Global, options: &[LineOption<'a>]) -> Result<Content<'a>, AllocError>
    ensures { IfOk result (Says (spec.said_by_files (settings_in options.now))) }
{
    match first_argument(alloc, LineKind::File, options)? {
        Some(name) => Ok(Content::File(name)),
        None => said_by_constraints(alloc, options),
    }
}

// The content of a line that has only options.
fn said_by_options<'a>(alloc: Global, options: &[LineOption<'a>]) -> Result<Content<'a>, AllocError>
    ensures { IfOk result (Says (spec.said_by [] (settings_in options.now))) }
{
    match first_argument(alloc, LineKind::Editable, options)? {
        Some(text) => Ok(Content::Editable(text)),
        None => said_by_files(alloc, options),
    }
}

// The content of a line, with the text before its options.
fn said_by<'a>(
    alloc: Global,
    front: Vec<Piece<'a>>,
    options: &[LineOption<'a>],
) -> Result<Content<'a>, AllocError>
    ensures { IfOk result (Says (said_by (line_of front.entry.items) (settings_in options.now))) }
{
    match next_character(front.as_slice(), whole_line()) {
        Some(_) => Ok(Content::Requirement(front)),
        None => said_by_options(alloc, options),
    }
}

// A fault for each option that pip ignores.
fn ignored(
    alloc: Global,
    line: LineKind,
    options: &[LineOption<'_>],
) -> Result<Vec<OptionFault>, AllocError>
    ensures { IfOk result (λ v. v.items ≡ spec.ignored line false (settings_in options.now)) }
{
    let mut faults = Vec::new(alloc);
    let mut taken = false;
    for index in 0..options.len() {
        let option = &options[index];
        if is_ignored(line, taken, option.kind) {
            faults.push(OptionFault {
                kind: OptionFaultKind::Ignored,
                place: option.place,
            })?;
        }
        taken = is_taken(line, taken, option.kind);
    }
    Ok(faults)
}

// Appends a fault for each text after an option.
fn add_lost(faults: &mut Vec<OptionFault>, lost: &[Place]) -> Result<(), AllocError>
    ensures { OnOk result (faults.new.items ≡ faults.old.items ++ map spec.lost_at lost.now) }
{
    for index in 0..lost.len() {
        faults.push(OptionFault {
            kind: OptionFaultKind::LostText,
            place: lost[index],
        })?;
    }
    Ok(())
}

// A line with options that can be read.
fn found_line<'a>(
    alloc: Global,
    front: Vec<Piece<'a>>,
    found: Found<'a>,
) -> Result<FileLine<'a>, AllocError>
    ensures { IfOk result (IsReadAs (read_with front.entry.items (Outcome.All found.entry))) }
{
    let Found { options, lost } = found;
    let content = said_by(alloc, front, options.as_slice())?;
    let mut faults = ignored(alloc, content.kind(), options.as_slice())?;
    add_lost(&mut faults, lost.as_slice())?;
    Ok(FileLine {
        content,
        options,
        faults,
    })
}

// A line whose options have a fault and cannot be read.
fn invalid_line<'a>(
    alloc: Global,
    front: Vec<Piece<'a>>,
    fault: OptionFault,
) -> Result<FileLine<'a>, AllocError>
    ensures { IfOk result (IsReadAs (read_with front.entry.items (Outcome.Invalid fault))) }
{
    let mut faults = Vec::new(alloc);
    faults.push(fault)?;
    let content = said_by(alloc, front, &[])?;
    Ok(FileLine {
        content,
        options: Vec::new(alloc),
        faults,
    })
}

// The text before the options of a line, without the space between them.
fn front_of<'a>(
    alloc: Global,
    line: &[Piece<'a>],
    options: &[Piece<'a>],
) -> Result<Vec<Piece<'a>>, AllocError>
    requires { line_of options.now ≡ from_mark Options true (line_of line.now) }
    ensures { IfOk result (IsLine (spec.front_of (line_of line.now))) }
{
    let mut front = cut_line(alloc, line, Mark::Options)?;
    if next_character(options, whole_line()).is_some() {
        drop_last(&mut front)?;
    }
    Ok(front)
}

// The result of reading the options of a line.
fn outcome_of<'a>(alloc: Global, options: &[Piece<'a>]) -> Result<Outcome<'a>, AllocError>
    ensures { IfOk result (Tells (spec.outcome_of_text (line_of options.now))) }
{
    match split_words(alloc, options)? {
        Words::All(words) => read_words(alloc, words.as_slice()),
        Words::Unclosed(place) => Ok(Outcome::Invalid(OptionFault {
            kind: OptionFaultKind::Unclosed,
            place,
        })),
    }
}

/// Reads a logical line, with the values of its variables
/// ([`requirement_lines::replace_variables`]), as pip 23.2.1 reads it.
///
/// The requirement is the text before the first option: before a `-` at the front, or before a
/// space and a `-`. The rest is split into words as `shlex` does, and read as `optparse` does: a
/// long name may be abbreviated if only one option is meant, and its argument follows a `=` or is
/// the next word.
pub fn read_line<'a>(alloc: Global, line: &[Piece<'a>]) -> Result<FileLine<'a>, AllocError>
    ensures { IfOk result (IsReadAs (spec.line_read (line_of line.now))) }
{
    let options = options_of(alloc, line)?;
    let front = front_of(alloc, line, options.as_slice())?;
    match outcome_of(alloc, options.as_slice())? {
        Outcome::All(found) => found_line(alloc, front, found),
        Outcome::Invalid(fault) => invalid_line(alloc, front, fault),
    }
}
