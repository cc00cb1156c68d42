//! Faults in marker texts, and their places.

ghost use Rattle.std.specs.Prelude.{◌≡◌, ◌-◌, Some, length};
ghost use Rattle.marker_words.specs.Fault.{message_of, IsTold, IsWordFault};

use pep508_text::Place;
use std::fmt;
use std::fmt::Display;

/// What is wrong with a marker text.
#[derive(Clone, Copy, Debug, PartialEq, Eq)]
pub enum FaultKind {
    /// The text ends where a value is expected.
    ValueAtEnd,
    /// There is neither a quoted text nor a key.
    NoValue,
    /// There is no operator.
    NoOperator,
    /// The text ends after `not`.
    NotAtEnd,
    /// No white space follows `not`.
    NoSpaceAfterNot,
    /// A quote or parenthesis is never followed by this character, which closes it.
    Unclosed(char),
    /// The text ends before this character, which is expected.
    MissingAtEnd(char),
    /// There is another character instead of this one.
    Missing(char),
    /// There is this character instead of a keyword or the end.
    Unexpected(char),
    /// There is this character instead of the end.
    Trailing(char),
}

impl FaultKind {
    /// Returns the fault at a place of the text.
    pub fn at(self, place: Place<'_>) -> Fault<'_>
        ensures kind { result.kind ≡ self }
        ensures place { result.place ≡ place.entry }
    {
        Fault { kind: self, place }
    }
}

/// What is wrong with a marker text, and where. It prints as its message.
#[derive(Clone, Copy, Debug, PartialEq, Eq)]
pub struct Fault<'a> {
    /// What is wrong.
    pub kind: FaultKind,
    /// Where it is wrong.
    pub place: Place<'a>,
}

impl Fault<'_> {
    /// Returns where the fault begins, in bytes from the start of its text.
    pub fn start(&self, text: &str) -> usize
        ensures value { result ≡ length text.now - self.now.place.left }

        // A fault of words is one of the text: at this start, with its length and message.
        ensures told { IsWordFault text.now self.now → IsTold text.now self.now result }
    {
        self.place.start(text)
    }
}

impl Display for Fault<'_> {
    ghost output = { λ fault. Some (message_of fault.kind fault.place.piece.now) };

    fn fmt<W: fmt::Write>(&self, f: &mut fmt::Formatter<W>) -> fmt::Result {
        let piece = self.place.piece;
        match self.kind {
            FaultKind::ValueAtEnd => {
                f.write_str("Expected marker value, found end of dependency specification")
            }
            FaultKind::NoValue => write!(
                f,
                "Expected a quoted string or a valid marker name, found `{piece}`"
            ),
            FaultKind::NoOperator => write!(
                f,
                "Expected a valid marker operator (such as `>=` or `not in`), found `{piece}`"
            ),
            FaultKind::NotAtEnd => {
                f.write_str("Expected whitespace after 'not', found end of input")
            }
            FaultKind::NoSpaceAfterNot => {
                write!(f, "Expected whitespace after `not`, found `{piece}`")
            }
            FaultKind::Unclosed(c) | FaultKind::MissingAtEnd(c) => {
                write!(f, "Expected '{c}', found end of dependency specification")
            }
            FaultKind::Missing(c) => write!(f, "Expected `{c}`, found `{piece}`"),
            FaultKind::Unexpected(c) => write!(
                f,
                "Unexpected character '{c}', expected 'and', 'or' or end of input"
            ),
            FaultKind::Trailing(c) => {
                write!(f, "Unexpected character '{c}', expected end of input")
            }
        }
    }
}
