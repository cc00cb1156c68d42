//! Lines and columns of places, for people.

ghost use Rattle.std.specs.Prelude.{◌≡◌, ◌<◌, ◌+◌, ◌^◌, length};
ghost use Rattle.requirement_lines.specs.Character.{characters};
ghost use Rattle.requirement_lines.specs.Pieces.{characters_of};
ghost use Rattle.requirement_lines.specs.Position as spec;

use crate::logical::without_mark;
use crate::pieces::Piece;
use std::marker::Model;

/// A line of a file and a column of it, both counted from 1.
#[derive(Clone, Copy, PartialEq, Eq)]
pub struct Position {
    /// The line. Lines end at LF, CR LF or CR, as in editors.
    pub line: usize,
    /// The column, in code points. A byte order mark at the front of the file has none.
    pub column: usize,
}

// The position of the first character of a file.
fn first_position() -> Position
    ensures { result ≡ spec.first_position }
{
    Position { line: 1, column: 1 }
}

// The position after this character, which is followed by the rest of the file.
fn next_position(here: Position, c: char, rest: Piece<'_>) -> Position
    requires line { here.line + 1 < 2 ^ 64 }
    requires column { here.column + 1 < 2 ^ 64 }
    ensures { result ≡ spec.next_position here c (characters_of rest.entry) }
{
    if c == '\n' || c == '\r' && !rest.begins_with('\n') {
        Position {
            line: here.line + 1,
            column: 1,
        }
    } else {
        Position {
            line: here.line,
            column: here.column + 1,
        }
    }
}

// The position of a place in the rest of a file, and the text from there on.
fn advance(here: Position, rest: &str, to_end: usize) -> (Position, &str)
    requires line { here.line + length rest.now < 2 ^ 64 }
    requires column { here.column + length rest.now < 2 ^ 64 }
    ensures position { result.0 ≡ spec.position_from here to_end (characters rest.now) }
    ensures goes_on { spec.GoesOnFrom here rest.now result.0 result.1.now }
{
    let mut position = here;
    let mut left = Piece::whole(rest);
    while let Some((c, after)) = left.first() {
        if left.place.to_end <= to_end {
            break;
        }
        position = next_position(position, c, after);
        left = after;
    }
    (position, left.text)
}

// Where to begin for a place: at the last position, or at the front of the file if the place is
// before it.
fn start<'a>(file: &'a str, rest: &'a str, last: Position, to_end: usize) -> (Position, &'a str)
    requires { spec.StandsAt file.now rest.now last }
    ensures stands { spec.StandsAt file.now result.1.now result.0 }
    ensures asked { spec.IsCountedFrom result.0 result.1.now file.now to_end }
{
    if to_end <= rest.len() {
        (last, rest)
    } else {
        (first_position(), without_mark(file))
    }
}

/// Finds the positions of places of a file. Going forward takes one pass over the file; a place
/// before the last one starts a new pass.
#[derive(Drop)]
pub struct Positions<'a> {
    file: &'a str,
    rest: &'a str,
    last: Position,
}

impl<'a> Model for Positions<'a> {
    ghost use Rattle.std.specs.Prelude.{ℕ, List};
    ghost use Rattle.requirement_lines.specs.Position.{StandsAt};

    ghost Value = { List ℕ };

    ghost view = { λ p. p.file.now };

    ghost invariant = { λ p. StandsAt p.file.now p.rest.now p.last };
}

impl<'a> Positions<'a> {
    /// Returns the positions of a file, which is given with its byte order mark.
    pub fn new(file: &'a str) -> Positions<'a>
        ensures { result ≡ file.now }
    {
        Positions {
            file,
            rest: without_mark(file),
            last: first_position(),
        }
    }

    /// Returns the position of the place with `to_end` bytes from it to the end of the file.
    pub fn position_of(&mut self, to_end: usize) -> Position
        ensures position { result ≡ spec.position_in self.old to_end }
        ensures same { self.new ≡ self.old }
    {
        let (from, rest) = start(self.file, self.rest, self.last, to_end);
        let (position, after) = advance(from, rest, to_end);
        self.last = position;
        self.rest = after;
        position
    }
}
