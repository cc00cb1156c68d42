//! The command of a line of the program `markers`.

ghost use Rattle.std.specs.Prelude.{◌≡◌, ◌≢◌, ◌↔◌, Err, IsTrue, IfOk, MatchOption};
ghost use Rattle.std.specs.Str.{IsUtf8};
ghost use Rattle.std.specs.Str.Parse.{IsNumeral};
ghost use Rattle.marker_lines.specs.Line.{Words, HasNoWords, AreDigits, Asks, AsksNothing, AsksOnly, Takes, TakesNothing, OneCell, CellAndNames, LacksCellAndNames, ReadsTwoCells};
ghost use Rattle.marker_lines.specs.LineView.{texts_of, request_of, ReadsBoundWord, ReadsCellAndBounds, SplitsAtSpace};

use crate::word::{NamesCommand, RangeCommand, Word};
use pep508_markers::Command;
use std::alloc::Global;
use std::ops::Bound;

// Why a line has no command.
#[derive(Clone, Copy)]
pub(crate) enum LineFault {
    // The line's bytes are not UTF-8.
    NotUtf8,
    // The line has none of the forms of `LineCommand`.
    Malformed,
    // Memory for the line's words ran out.
    OutOfMemory,
}

// The command of a line. Keys, names, texts and those of versions are as they are in the line, and
// not validated.
#[derive(Drop)]
pub(crate) enum LineCommand<'a> {
    // `env KEY VALUE`
    Set {
        key: &'a str,
        value: &'a str,
    },
    // `parse TEXT`, and commands on one cell or two: `not A`, `text A`, `and A B`, ..
    Run(Command<'a>),
    // `extras A NAME ..`, `eval A NAME ..`, `possible A NAME ..`
    WithNames {
        command: NamesCommand,
        cell: usize,
        names: Vec<&'a str>,
    },
    // `simplify A LOWER UPPER`, `complexify A LOWER UPPER`, with the texts of the versions
    WithRange {
        command: RangeCommand,
        cell: usize,
        lower: Bound<&'a str>,
        upper: Bound<&'a str>,
    },
}

impl<'a> LineCommand<'a> {
    // Parses a line, which is given without its line feed.
    //
    // A line that is not UTF-8 is `NotUtf8`. Any other that has none of the forms above is
    // `Malformed`: another command word, a wrong number of words, two spaces in a row or a space at
    // the end outside of a value or a text, a cell that is not a number, a word that is not a
    // bound.
    pub(crate) fn read(alloc: Global, line: &'a [u8]) -> Result<LineCommand<'a>, LineFault>
        ensures asks { IfOk result (λ command. Asks line.now (request_of command)) }
        ensures only { IfOk result (λ command. AsksOnly line.now (request_of command)) }
        ensures utf8 { result ≢ Err LineFault.NotUtf8 → IsUtf8 line.now }

        ensures not_utf8 { result ≡ Err LineFault.NotUtf8 → IsUtf8 line.now → ⊥ }
        ensures malformed { result ≡ Err LineFault.Malformed → AsksNothing line.now }
    {
        let Ok(text) = str::from_utf8(line) else {
            return Err(LineFault::NotUtf8);
        };
        let Some((first, rest)) = split_word(text) else {
            return Err(LineFault::Malformed);
        };
        match Word::parse(first) {
            Some(word) => read_behind(alloc, word, rest),
            None => Err(LineFault::Malformed),
        }
    }
}

// The command of a word and the text after it.
fn read_behind<'a>(alloc: Global, word: Word, text: &'a str) -> Result<LineCommand<'a>, LineFault>
    ensures takes { IfOk result (λ command. Takes word text.now (request_of command)) }
    ensures text { result ≢ Err LineFault.NotUtf8 }
    ensures malformed { result ≡ Err LineFault.Malformed → TakesNothing word text.now }
{
    match word {
        Word::Env => match split_word(text) {
            Some((key, value)) => Ok(LineCommand::Set { key, value }),
            None => Err(LineFault::Malformed),
        },
        Word::Parse => Ok(LineCommand::Run(Command::Parse(text))),
        Word::OnOne(command) => match read_cell(text) {
            Some(cell) => Ok(LineCommand::Run(command.on(cell))),
            None => Err(LineFault::Malformed),
        },
        Word::OnTwo(command) => match two_cells(text) {
            Some((left, right)) => Ok(LineCommand::Run(command.on(left, right))),
            None => Err(LineFault::Malformed),
        },
        Word::WithNames(command) => {
            let (cell, names) = cell_and_names(alloc, text)?;
            Ok(LineCommand::WithNames {
                command,
                cell,
                names,
            })
        }
        Word::WithRange(command) => match cell_and_bounds(text) {
            Some((cell, lower, upper)) => Ok(LineCommand::WithRange {
                command,
                cell,
                lower,
                upper,
            }),
            None => Err(LineFault::Malformed),
        },
    }
}

// The numbers of two cells.
fn two_cells(text: &str) -> Option<(usize, usize)>
    ensures { ReadsTwoCells text.now result }
{
    let Some((first, second)) = split_word(text) else {
        return None;
    };
    let Some(left) = read_cell(first) else {
        return None;
    };
    let Some(right) = read_cell(second) else {
        return None;
    };
    Some((left, right))
}

// The number of a cell, and two bounds.
fn cell_and_bounds(text: &str) -> Option<(usize, Bound<&str>, Bound<&str>)>
    ensures { ReadsCellAndBounds text.now result }
{
    let Some((number, bounds)) = split_word(text) else {
        return None;
    };
    let Some((first, second)) = split_word(bounds) else {
        return None;
    };
    if split_word(second).is_some() {
        return None;
    }
    let Some(cell) = read_cell(number) else {
        return None;
    };
    let Some(lower) = read_bound(first) else {
        return None;
    };
    let Some(upper) = read_bound(second) else {
        return None;
    };
    Some((cell, lower, upper))
}

// The bound of a word, with the text of its version.
fn read_bound(word: &str) -> Option<Bound<&str>>
    ensures { ReadsBoundWord word.now result }
{
    if word == "none" {
        return Some(Bound::Unbounded);
    }
    if let Some(version) = word.strip_prefix("incl:") {
        return Some(Bound::Included(version));
    }
    if let Some(version) = word.strip_prefix("excl:") {
        return Some(Bound::Excluded(version));
    }
    None
}

// The number of a cell, and any number of names.
fn cell_and_names<'a>(alloc: Global, rest: &'a str) -> Result<(usize, Vec<&'a str>), LineFault>
    ensures read { IfOk result (λ read. CellAndNames rest.now read.0 (texts_of read.1.items)) }
    ensures malformed { result ≡ Err LineFault.Malformed → LacksCellAndNames rest.now }
    ensures text { result ≢ Err LineFault.NotUtf8 }
{
    let Some((number, names)) = split_word(rest) else {
        let Some(cell) = read_cell(rest) else {
            return Err(LineFault::Malformed);
        };
        return Ok((cell, Vec::new(alloc)));
    };
    let Some(cell) = read_cell(number) else {
        return Err(LineFault::Malformed);
    };
    Ok((cell, words(alloc, names)?))
}

// The words of a text.
fn words<'a>(alloc: Global, text: &'a str) -> Result<Vec<&'a str>, LineFault>
    ensures words { IfOk result (λ words. Words text.now (texts_of words.items)) }
    ensures malformed { result ≡ Err LineFault.Malformed → HasNoWords text.now }
    ensures text { result ≢ Err LineFault.NotUtf8 }
{
    let mut words = Vec::new(alloc);
    let mut rest = text;
    while let Some((word, after)) = split_word(rest) {
        if word.is_empty() {
            return Err(LineFault::Malformed);
        }
        let Ok(()) = words.push(word) else {
            return Err(LineFault::OutOfMemory);
        };
        rest = after;
    }
    if rest.is_empty() {
        return Err(LineFault::Malformed);
    }
    match words.push(rest) {
        Ok(()) => Ok(words),
        Err(_) => Err(LineFault::OutOfMemory),
    }
}

// The text before and after the first space.
fn split_word(text: &str) -> Option<(&str, &str)>
    ensures { SplitsAtSpace text.now result }
{
    text.split_once(' ')
}

// The number of a cell.
fn read_cell(word: &str) -> Option<usize>
    ensures { MatchOption result (IsNumeral 10 word.now → ⊥) (OneCell word.now) }
{
    if !is_number(word.as_bytes()) {
        return None;
    }
    Some(word.parse().unwrap_or(usize::MAX))
}

// Whether a word is one or more ASCII digits.
fn is_number(word: &[u8]) -> bool
    ensures { IsTrue result ↔ AreDigits word.now }
{
    !word.is_empty() && word.iter().all(|b| b.is_ascii_digit())
}
