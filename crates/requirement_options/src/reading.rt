//! Reading the words of the options of a line.

ghost use Rattle.std.specs.Prelude.{◌≡◌, map, IfOk};
ghost use Rattle.requirement_lines.specs.Pieces.{line_of};
ghost use Rattle.requirement_lines.specs.Reading.{spelled_of};
ghost use Rattle.requirement_options.specs.Forms.{argument_in, form_in, IsLine};
ghost use Rattle.requirement_options.specs.Found.{effect_in, resumed, Does, Tells};
ghost use Rattle.requirement_options.specs.Reading as spec;
ghost use Rattle.requirement_options.specs.declared.reading.Mode.TheVariants.{Ready};

use crate::argument::argument_fault;
use crate::fault::{OptionFault, OptionFaultKind};
use crate::form::{Form, form_of};
use crate::kind::OptionKind;
use crate::naming::{Naming, long_option, short_option};
use requirement_lines::{Piece, Place, Word, text_of};
use std::alloc::{AllocError, Global};

/// An option of a line.
#[derive(Drop)]
pub struct LineOption<'a> {
    /// Which option it is.
    pub kind: OptionKind,
    /// Where its word begins.
    pub place: Place,
    /// Its argument, if it takes one.
    pub argument: Option<Vec<Piece<'a>>>,
}

// What the next word may be.
#[derive(Clone, Copy)]
pub(crate) enum Mode {
    // An option, or text.
    Ready,
    // The argument of this option, whose word begins there.
    Waiting(OptionKind, Place),
    // Text: the options have ended.
    Ended,
}

// What a word means.
#[derive(Drop)]
pub(crate) enum Effect<'a> {
    // It is the last word of an option.
    Adds(LineOption<'a>),
    // The next word is the argument of this option, whose word begins there.
    Waits(OptionKind, Place),
    // It ends the options.
    Ends,
    // It is text, which begins there.
    Lost(Place),
    // It is wrong.
    Wrong(OptionFault),
}

// The options of the words of a line, and where words begin that are not options.
#[derive(Drop)]
pub(crate) struct Found<'a> {
    pub(crate) options: Vec<LineOption<'a>>,
    pub(crate) lost: Vec<Place>,
}

// The result of reading all words of a line.
#[derive(Drop)]
pub(crate) enum Outcome<'a> {
    // One of them is wrong.
    Invalid(OptionFault),
    // All words were read.
    All(Found<'a>),
}

fn wrong_at<'a>(place: Place, kind: OptionFaultKind) -> Effect<'a>
    ensures { Does (spec.wrong_at place kind) result }
{
    Effect::Wrong(OptionFault { kind, place })
}

// An option with its argument, unless pip rejects that.
fn with_argument<'a>(
    alloc: Global,
    kind: OptionKind,
    place: Place,
    argument: Vec<Piece<'a>>,
) -> Result<Effect<'a>, AllocError>
    ensures { IfOk result (Does (spec.with_argument kind place (line_of argument.entry.items))) }
{
    let text = text_of(alloc, argument.as_slice())?;
    match argument_fault(kind, text.as_str()) {
        Some(fault) => Ok(wrong_at(place, fault)),
        None => Ok(Effect::Adds(LineOption {
            kind,
            place,
            argument: Some(argument),
        })),
    }
}

// An option, with the argument in its word if there is one.
fn option_at<'a>(
    alloc: Global,
    kind: OptionKind,
    place: Place,
    argument: Option<Vec<Piece<'a>>>,
) -> Result<Effect<'a>, AllocError>
    ensures { IfOk result (Does (spec.option_at kind place (argument_in argument.entry))) }
{
    match argument {
        Some(_) if !kind.takes_argument() => Ok(wrong_at(place, OptionFaultKind::UnwantedArgument)),
        Some(pieces) => with_argument(alloc, kind, place, pieces),
        None if kind.takes_argument() => Ok(Effect::Waits(kind, place)),
        None => Ok(Effect::Adds(LineOption {
            kind,
            place,
            argument: None,
        })),
    }
}

// The effect of a word with this option.
fn long_at<'a>(
    alloc: Global,
    naming: Naming,
    place: Place,
    argument: Option<Vec<Piece<'a>>>,
) -> Result<Effect<'a>, AllocError>
    ensures { IfOk result (Does (spec.long_at naming place (argument_in argument.entry))) }
{
    match naming {
        Naming::One(kind) => option_at(alloc, kind, place, argument),
        Naming::Unknown => Ok(wrong_at(place, OptionFaultKind::Unknown)),
        Naming::Several => Ok(wrong_at(place, OptionFaultKind::Ambiguous)),
    }
}

// The effect of a word of this form, where an option may be.
fn form_at<'a>(alloc: Global, form: Form<'a>, place: Place) -> Result<Effect<'a>, AllocError>
    ensures { IfOk result (Does (spec.form_at (form_in form.entry) place)) }
{
    match form {
        Form::Plain => Ok(Effect::Lost(place)),
        Form::Ending => Ok(Effect::Ends),
        Form::Short(letter, argument) => match short_option(letter) {
            Some(kind) => option_at(alloc, kind, place, argument),
            None => Ok(wrong_at(place, OptionFaultKind::Unknown)),
        },
        Form::Long(name, argument) => {
            let naming = long_option(name.as_str());
            long_at(alloc, naming, place, argument)
        }
    }
}

// A copy of the pieces.
pub(crate) fn copied<'a>(alloc: Global, pieces: &[Piece<'a>]) -> Result<Vec<Piece<'a>>, AllocError>
    ensures { IfOk result (IsLine (line_of pieces.now)) }
{
    let mut copy = Vec::new(alloc);
    copy.extend_from_slice(pieces)?;
    Ok(copy)
}

// The effect of a word after others.
fn effect_of<'a>(alloc: Global, mode: Mode, word: &Word<'a>) -> Result<Effect<'a>, AllocError>
    ensures { IfOk result (Does (spec.effect_of mode (spelled_of word.now))) }
{
    match mode {
        Mode::Ready => {
            let form = form_of(alloc, word.pieces.as_slice())?;
            form_at(alloc, form, word.place)
        }
        Mode::Waiting(kind, place) => {
            let argument = copied(alloc, word.pieces.as_slice())?;
            with_argument(alloc, kind, place, argument)
        }
        Mode::Ended => Ok(Effect::Lost(word.place)),
    }
}

// What the next word may be after this effect.
fn next_mode(mode: Mode, effect: &Effect<'_>) -> Mode
    ensures { result ≡ spec.next_mode mode (effect_in effect.now) }
{
    match effect {
        Effect::Adds(_) => Mode::Ready,
        Effect::Waits(kind, place) => Mode::Waiting(*kind, *place),
        Effect::Ends => Mode::Ended,
        Effect::Lost(_) | Effect::Wrong(_) => mode,
    }
}

impl<'a> Found<'a> {
    ghost use Rattle.std.specs.Prelude.{◌≡◌, [], IfOk};
    ghost use Rattle.requirement_options.specs.Found.{effect_in, Takes};

    // No options.
    fn new(alloc: Global) -> Found<'a>
        ensures options { result.options.items ≡ [] }
        ensures lost { result.lost.items ≡ [] }
    {
        Found {
            options: Vec::new(alloc),
            lost: Vec::new(alloc),
        }
    }

    // Adds the effect of a word. Returns its fault, if it has one.
    fn take(&mut self, effect: Effect<'a>) -> Result<Option<OptionFault>, AllocError>
        ensures { IfOk result
            (λ fault. Takes self.old (effect_in effect.entry) fault self.new) }
    {
        match effect {
            Effect::Adds(option) => {
                self.options.push(option)?;
                Ok(None)
            }
            Effect::Lost(place) => {
                self.lost.push(place)?;
                Ok(None)
            }
            Effect::Waits(_, _) | Effect::Ends => Ok(None),
            Effect::Wrong(fault) => Ok(Some(fault)),
        }
    }
}

// The result where the words end.
fn ended<'a>(mode: Mode, found: Found<'a>) -> Outcome<'a>
    ensures { Tells (resumed found.entry (spec.finished mode)) result }
{
    match mode {
        Mode::Waiting(_, place) => Outcome::Invalid(OptionFault {
            kind: OptionFaultKind::NoArgument,
            place,
        }),
        Mode::Ready | Mode::Ended => Outcome::All(found),
    }
}

// Reads the words of the options of a line.
pub(crate) fn read_words<'a>(alloc: Global, words: &[Word<'a>]) -> Result<Outcome<'a>, AllocError>
    ensures { IfOk result (Tells (spec.outcome_of Ready (map spelled_of words.now))) }
{
    let mut found = Found::new(alloc);
    let mut mode = Mode::Ready;
    for index in 0..words.len() {
        let effect = effect_of(alloc, mode, &words[index])?;
        mode = next_mode(mode, &effect);
        if let Some(fault) = found.take(effect)? {
            return Ok(Outcome::Invalid(fault));
        }
    }
    Ok(ended(mode, found))
}
