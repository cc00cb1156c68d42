//! Pieces of a file's text that are read character by character.

ghost use Rattle.std.specs.Prelude.{◌≡◌, ◌<◌, ◌++◌, length, IfSome, MatchOption, encode_utf8_all};
ghost use Rattle.std.specs.Str.{chars};
ghost use Rattle.requirement_lines.specs.Character.{after};
ghost use Rattle.requirement_lines.specs.Pieces.{characters_of, HasFirst, HasLast, HasNoCharacter, IsEnd};
ghost use Rattle.requirement_lines.specs.Reports.{text_of};
ghost use Rattle.metadata_files.specs.Headers.{skip_space, skip_space_back, trimmed};
ghost use Rattle.pep508_text.specs.Suffix.{IsSuffix};

use pep508_text::{first, last};
use requirement_lines::{Piece, Place, Source};

// The place so many bytes later.
fn place_after(place: Place, size: usize) -> Place
    ensures { result ≡ after place size }
{
    let to_end = match place.source {
        Source::File => place.to_end.saturating_sub(size),
        Source::Variable => place.to_end,
    };
    Place {
        to_end,
        source: place.source,
    }
}

// The first character of a piece, and the rest.
pub(crate) fn first_of<'a>(piece: Piece<'a>) -> Option<(char, Piece<'a>)>
    ensures characters { MatchOption result (HasNoCharacter piece.entry) (HasFirst piece.entry) }
    ensures end { IfSome result (λ x. IsEnd piece.entry x.1) }
    ensures shorter { IfSome result (λ x. length x.1.text.now < length piece.entry.text.now) }
{
    let (c, rest) = first(piece.text)?;
    let after = Piece {
        text: rest,
        place: place_after(piece.place, c.len_utf8()),
    };
    Some((c, after))
}

// The piece before the last character, and that character.
fn last_of<'a>(piece: Piece<'a>) -> Option<(Piece<'a>, char)>
    ensures characters { MatchOption result (HasNoCharacter piece.entry) (HasLast piece.entry) }
    ensures shorter { IfSome result (λ x. length x.0.text.now < length piece.entry.text.now) }
{
    let Some((front, c)) = last(piece.text) else {
        return None;
    };
    let before = Piece {
        text: front,
        place: piece.place,
    };
    Some((before, c))
}

// The text before this end of it.
fn before_end<'a>(text: &'a str, rest: &str) -> &'a str
    requires { IsSuffix text.now rest.now }
    ensures { text.now ≡ result.now ++ rest.now }
{
    text.split_at(text.len() - rest.len()).0
}

// The piece before this end of it.
pub(crate) fn front_of<'a>(piece: Piece<'a>, rest: Piece<'a>) -> Piece<'a>
    requires { IsEnd piece rest }
    ensures { characters_of piece.entry ≡ characters_of result ++ characters_of rest.entry }
{
    Piece {
        text: before_end(piece.text, rest.text),
        place: piece.place,
    }
}

// The piece without white space at its ends.
pub(crate) fn trim<'a>(piece: Piece<'a>) -> Piece<'a>
    ensures { characters_of result ≡ trimmed (characters_of piece.entry) }
{
    trim_start(trim_end(piece))
}

// The piece without white space at its front.
fn trim_start<'a>(piece: Piece<'a>) -> Piece<'a>
    ensures { characters_of result ≡ skip_space (characters_of piece.entry) }
{
    let mut rest = piece;
    while let Some((c, after)) = first_of(rest) {
        if !c.is_whitespace() {
            break;
        }
        rest = after;
    }
    rest
}

// The piece without white space at its back.
fn trim_end<'a>(piece: Piece<'a>) -> Piece<'a>
    ensures { characters_of result ≡ skip_space_back (characters_of piece.entry) }
{
    let mut front = piece;
    while let Some((before, c)) = last_of(front) {
        if !c.is_whitespace() {
            break;
        }
        front = before;
    }
    front
}

// The bytes of a text, as those of its characters.
fn text_itself(text: &str) -> &str
    ensures { result.now ≡ encode_utf8_all (chars text.now) }
{
    text
}

// The text of a piece.
pub(crate) fn text_in<'a>(piece: Piece<'a>) -> &'a str
    ensures { result.now ≡ text_of (characters_of piece.entry) }
{
    text_itself(piece.text)
}
