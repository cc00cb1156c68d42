//! The words of the options of a line.

ghost use Rattle.std.specs.Prelude.{◌≡◌, IfOk};
ghost use Rattle.requirement_lines.specs.Character.{end_of_file};
ghost use Rattle.requirement_lines.specs.Pieces.{line_of};
ghost use Rattle.requirement_lines.specs.Rest.{rest_of};
ghost use Rattle.requirement_lines.specs.Words as spec;
ghost use Rattle.requirement_lines.specs.Reading as state;

use crate::pieces::Piece;
use crate::places::{Place, Source};
use crate::quoting::{Quoting, Step, is_kept, next_quoting, opened_at, step_at};
use crate::rest::{Rest, next_character};
use std::alloc::{AllocError, Global};
use std::mem;

/// A word of a line.
#[derive(Drop)]
pub struct Word<'a> {
    /// Where the word begins, with its quotes.
    pub place: Place,
    /// Its text, without the quotes.
    pub pieces: Vec<Piece<'a>>,
}

/// The words of a line.
#[derive(Drop)]
pub enum Words<'a> {
    /// All of them.
    All(Vec<Word<'a>>),
    /// None: quotes that begin at this place do not end, or a backslash there has nothing after it.
    Unclosed(Place),
}

// The state of splitting a line into words: complete words, and the beginning of the current one.
#[derive(Drop)]
pub(crate) struct Reading<'a> {
    pub(crate) words: Vec<Word<'a>>,
    pub(crate) inside: bool,
    pub(crate) place: Place,
    pub(crate) pieces: Vec<Piece<'a>>,
}

impl<'a> Reading<'a> {
    ghost use Rattle.std.specs.Prelude.{◌≡◌, ◌∷◌, [], true, false, OnOk};
    ghost use Rattle.requirement_lines.specs.Character.{character_at};
    ghost use Rattle.requirement_lines.specs.Pieces.{characters_of, line_of};
    ghost use Rattle.requirement_lines.specs.Words.{ended};
    ghost use Rattle.requirement_lines.specs.Reading.{AddsKept, CompletesWord, TakesOne, resumed};
    ghost use Rattle.requirement_lines.specs.Reading as state;

    // The state before the first character.
    fn new(alloc: Global, place: Place) -> Reading<'a>
        ensures words { result.words.items ≡ [] }
        ensures inside { result.inside ≡ false }
    {
        Reading {
            words: Vec::new(alloc),
            inside: false,
            place,
            pieces: Vec::new(alloc),
        }
    }

    // Ends the current word.
    fn end_word(&mut self, alloc: Global) -> Result<(), AllocError>
        ensures words { OnOk result (CompletesWord self.old self.new) }
        ensures inside { OnOk result (self.new.inside ≡ false) }
    {
        let pieces = mem::replace(&mut self.pieces, Vec::new(alloc));
        self.inside = false;
        self.words.push(Word {
            place: self.place,
            pieces,
        })?;
        Ok(())
    }

    // Appends the character to the current word, if it is kept.
    fn keep(&mut self, kept: bool, c: char, character: Piece<'a>) -> Result<(), AllocError>
        requires { characters_of character ≡ character_at character.place c ∷ [] }
        ensures pieces { OnOk result (AddsKept kept c character.entry self.old self.new) }
        ensures words { self.new.words ≡ self.old.words }
        ensures inside { self.new.inside ≡ self.old.inside }
        ensures place { self.new.place ≡ self.old.place }
    {
        if kept {
            self.pieces.push(character)?;
        }
        Ok(())
    }

    // Begins a word.
    fn begin(&mut self, place: Place)
        ensures pieces { line_of self.new.pieces.items ≡ [] }
        ensures words { self.new.words ≡ self.old.words }
        ensures inside { self.new.inside ≡ true }
        ensures place { self.new.place ≡ place }
    {
        self.pieces.clear();
        self.inside = true;
        self.place = place;
    }

    // Processes a character, which is a piece by itself.
    fn take(
        &mut self,
        alloc: Global,
        now: Step,
        kept: bool,
        c: char,
        character: Piece<'a>,
    ) -> Result<(), AllocError>
        requires one { characters_of character ≡ character_at character.place c ∷ [] }
        requires before { self.old.inside ≡ state.inside_before now }
        ensures after { OnOk result (self.new.inside ≡ state.inside_after now) }
        ensures resumed { OnOk result (TakesOne now kept c character.entry self.old self.new) }
    {
        match now {
            Step::Pass => Ok(()),
            Step::Begin => {
                self.begin(character.place);
                self.keep(kept, c, character)
            }
            Step::GoOn => self.keep(kept, c, character),
            Step::End => self.end_word(alloc),
        }
    }

    // The words of a line that ends here.
    fn finish(
        mut self,
        alloc: Global,
        quoting: Quoting,
        opened: Place,
    ) -> Result<Words<'a>, AllocError>
        requires { self.inside ≡ state.goes_on quoting }
        ensures { IfOk result (λ w. state.split_of w ≡ resumed self.entry (ended quoting opened)) }
    {
        match quoting {
            Quoting::Between => Ok(Words::All(self.words)),
            Quoting::Bare => {
                self.end_word(alloc)?;
                Ok(Words::All(self.words))
            }
            _ => Ok(Words::Unclosed(opened)),
        }
    }
}

// Whether a backslash in double quotes escapes the first character of the rest.
fn can_be_taken<'a>(line: &[Piece<'a>], rest: Rest<'a>) -> bool
    ensures { result ≡ spec.can_be_taken (rest_of line.now rest.entry) }
{
    match next_character(line, rest) {
        Some((c, _, _)) => c == '"' || c == '\\',
        None => false,
    }
}

/// Splits a line into words by the rules of a POSIX shell, like Python's `shlex`. White space
/// separates words, except in quotes. A backslash escapes the next character; in double quotes only
/// a double quote or a backslash.
pub fn split_words<'a>(alloc: Global, line: &[Piece<'a>]) -> Result<Words<'a>, AllocError>
    ensures { IfOk result (λ w. state.split_of w ≡ spec.words_of end_of_file (line_of line.now)) }
{
    let mut opened = Place {
        to_end: 0,
        source: Source::File,
    };
    let mut rest = Rest {
        piece: Piece::whole(""),
        next: 0,
    };
    let mut quoting = Quoting::Between;
    let mut reading = Reading::new(alloc, opened);
    while let Some((c, character, after)) = next_character(line, rest) {
        let taken = can_be_taken(line, after);
        let kept = is_kept(quoting, c, taken);
        reading.take(alloc, step_at(quoting, c), kept, c, character)?;
        opened = opened_at(quoting, character.place, opened);
        quoting = next_quoting(quoting, c, taken);
        rest = after;
    }
    reading.finish(alloc, quoting, opened)
}
