//! Pieces of lines, with their places in the file.

ghost use Rattle.std.specs.Prelude.{◌≡◌, ◌≢◌, ◌↔◌, IsTrue, encode_utf8_all, ◌++◌, [], ◌<◌, ◌≤◌, length, reverse, IfSome, MatchOption};
ghost use Rattle.std.specs.Str.{chars};
ghost use Rattle.pep508_text.specs.Suffix.{IsSuffix};
ghost use Rattle.requirement_lines.specs.Character.{characters, start_of};
ghost use Rattle.requirement_lines.specs.Pieces.{HasFirst, HasLast, HasNoCharacter, IsEnd, IsMadeOf, characters_of};
ghost use Rattle.requirement_lines.specs.Ends as ends;
ghost use Rattle.requirement_lines.specs.Marks as marks;
ghost use Rattle.requirement_lines.specs.Physical.{EndsAtBreak, HasFirstLine};
ghost use Rattle.requirement_lines.specs.Logical as logical;
ghost use Rattle.requirement_lines.specs.Reports.{text_of};

use crate::places::{Place, Source};
use crate::sets::{CharacterSet, Mark, is_break};
use pep508_text::{first, last};

/// A piece of a line: a part of the file's text, or the value of a variable.
#[derive(Clone, Copy)]
pub struct Piece<'a> {
    /// The characters of the piece.
    pub text: &'a str,
    /// The place of the first of them.
    pub place: Place,
}

// The text as the encoding of its characters.
fn text_itself(text: &str) -> &str
    ensures spelled { result.now ≡ encode_utf8_all (chars text.now) }
    ensures same { result.now ≡ text.now }
{
    text
}

// The text before this end of it.
fn before_end<'a>(text: &'a str, rest: &str) -> &'a str
    requires { IsSuffix text.now rest.now }
    ensures { text.now ≡ result.now ++ rest.now }
{
    text.split_at(text.len() - rest.len()).0
}

impl<'a> Piece<'a> {
    /// Returns the whole text of a file as one piece.
    pub fn whole(text: &'a str) -> Piece<'a>
        ensures characters { characters_of result ≡ characters text.now }
        ensures text { result.text.now ≡ text.now }
        ensures place { result.place ≡ start_of text.now }
    {
        Piece {
            text,
            place: Place {
                to_end: text.len(),
                source: Source::File,
            },
        }
    }

    // The bytes of the piece.
    pub(crate) fn bytes(self) -> &'a str
        ensures { result.now ≡ text_of (characters_of self.entry) }
    {
        text_itself(self.text)
    }

    // How many bytes the piece has.
    pub(crate) fn size(self) -> usize
        ensures { result ≡ length (encode_utf8_all (chars self.entry.text.now)) }
    {
        text_itself(self.text).len()
    }

    // Whether the piece has no character.
    pub(crate) fn is_empty(self) -> bool
        ensures { IsTrue result ↔ HasNoCharacter self.entry }
    {
        self.first().is_none()
    }

    // The first character, and the rest.
    pub(crate) fn first(self) -> Option<(char, Piece<'a>)>
        ensures characters { MatchOption result (HasNoCharacter self.entry) (HasFirst self.entry) }
        ensures end { IfSome result (λ x. IsEnd self.entry x.1) }
        ensures shorter { IfSome result
            (λ x. length x.1.text.now < length self.entry.text.now) }
    {
        let (c, rest) = first(self.text)?;
        let piece = Piece {
            text: rest,
            place: self.place.after(c.len_utf8()),
        };
        Some((c, piece))
    }

    // The piece before the last character, and that character.
    pub(crate) fn last(self) -> Option<(Piece<'a>, char)>
        ensures characters { MatchOption result (HasNoCharacter self.entry) (HasLast self.entry) }
        ensures shorter { IfSome result
            (λ x. length x.0.text.now < length self.entry.text.now) }
    {
        let Some((front, c)) = last(self.text) else {
            return None;
        };
        let piece = Piece {
            text: front,
            place: self.place,
        };
        Some((piece, c))
    }

    // The piece before this end of it.
    pub(crate) fn front(self, rest: Piece<'a>) -> Piece<'a>
        requires { IsEnd self rest }
        ensures parts { IsMadeOf self.entry result rest.entry }
        ensures place { result.place ≡ self.entry.place }
    {
        Piece {
            text: before_end(self.text, rest.text),
            place: self.place,
        }
    }

    // The piece without characters of the set at the front.
    pub(crate) fn skip(self, set: CharacterSet) -> Piece<'a>
        ensures { characters_of result ≡ ends.skip set (characters_of self.entry) }
    {
        let mut rest = self;
        while let Some((c, after)) = rest.first() {
            if !set.holds(c) {
                break;
            }
            rest = after;
        }
        rest
    }

    // The piece without characters of the set at the back.
    pub(crate) fn skip_back(self, set: CharacterSet) -> Piece<'a>
        ensures { characters_of result ≡ ends.skip_back set (characters_of self.entry) }
    {
        let mut front = self;
        while let Some((before, c)) = front.last() {
            if !set.holds(c) {
                break;
            }
            front = before;
        }
        front
    }

    // The piece before the first mark that counts, and whether one counts after that; `None` if one
    // was found.
    pub(crate) fn cut(self, mark: Mark, may: bool) -> (Piece<'a>, Option<bool>)
        ensures front { characters_of result.0 ≡ marks.before mark may (characters_of self.entry) }
        ensures follow { result.1 ≡ marks.may_follow mark may (characters_of self.entry) }
    {
        let mut rest = self;
        let mut now = may;
        while let Some((c, after)) = rest.first() {
            if mark.counts(now, c) {
                return (self.front(rest), None);
            }
            now = mark.opens(c);
            rest = after;
        }
        (self, Some(now))
    }

    // The piece from the first mark that counts on.
    pub(crate) fn from_mark(self, mark: Mark, may: bool) -> Piece<'a>
        ensures { characters_of result ≡ marks.from_mark mark may (characters_of self.entry) }
    {
        let mut rest = self;
        let mut now = may;
        while let Some((c, after)) = rest.first() {
            if mark.counts(now, c) {
                break;
            }
            now = mark.opens(c);
            rest = after;
        }
        rest
    }

    // Whether the first character is this one.
    pub(crate) fn begins_with(self, c: char) -> bool
        ensures { result ≡ ends.begins_with c (characters_of self.entry) }
    {
        match self.first() {
            None => false,
            Some((found, _)) => found == c,
        }
    }

    // Whether the last character is this one.
    fn ends_with(self, c: char) -> bool
        ensures { result ≡ ends.begins_with c (reverse (characters_of self.entry)) }
    {
        match self.last() {
            None => false,
            Some((_, found)) => found == c,
        }
    }

    // Whether the line is a comment: its first character after white space is `#`.
    fn is_comment(self) -> bool
        ensures { result ≡ logical.is_comment (characters_of self.entry) }
    {
        self.skip(CharacterSet::Space).begins_with('#')
    }

    // Whether the line is continued in the next one.
    pub(crate) fn is_continued(self) -> bool
        ensures { result ≡ logical.is_continued (characters_of self.entry) }
    {
        self.ends_with('\\') && !self.is_comment()
    }

    // Nothing, at the place of the piece.
    fn none(self) -> Piece<'a>
        ensures { HasNoCharacter result }
    {
        Piece {
            text: "",
            place: self.place,
        }
    }

    // The part of a physical line in its logical line.
    pub(crate) fn part(self) -> Piece<'a>
        ensures { characters_of result ≡ logical.part_of (characters_of self.entry) }
    {
        if self.is_continued() {
            self.skip(CharacterSet::Backslash)
                .skip_back(CharacterSet::Backslash)
        } else if self.is_comment() {
            self.none()
        } else {
            self
        }
    }
}

// The text after a line break that begins with this character.
fn after_break(c: char, after: Piece<'_>) -> Piece<'_>
    ensures end { IsEnd after.entry result }
    ensures no_longer { length result.text.now ≤ length after.entry.text.now }
    ensures lines { EndsAtBreak c (characters_of after.entry) (characters_of result) }
{
    if c != '\r' {
        return after;
    }
    match after.first() {
        Some(('\n', more)) => more,
        _ => after,
    }
}

/// Returns the first physical line of the text, without its line break, and the text after that.
pub fn split_line(text: &str) -> (Piece<'_>, &str)
    ensures lines { text.now ≢ [] → HasFirstLine text.now (characters_of result.0) result.1.now }
    ensures shorter { text.now ≢ [] → length result.1.now < length text.now }
    ensures suffix { IsSuffix text.now result.1.now }
{
    let whole = Piece {
        text,
        place: Place {
            to_end: text.len(),
            source: Source::File,
        },
    };
    let mut rest = whole;
    while let Some((c, after)) = rest.first() {
        if is_break(c) {
            let line = whole.front(rest);
            let behind = after_break(c, after);
            return (line, behind.text);
        }
        rest = after;
    }
    (whole, "")
}
