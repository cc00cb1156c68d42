//! The error of an invalid version, a message of one line.

ghost use Rattle.std.specs.Prelude.{◌≡◌, IfOk, Some, drop, string_bytes};
ghost use Rattle.std.specs.Str.{IsCharBoundary};
ghost use Rattle.pep440_version.specs.Message.{error_text, expected_text, found_in};

use std::alloc::{AllocError, Global};
use std::error::Error;
use std::fmt;

/// What is missing at the place of the fault in an invalid version.
#[derive(Clone, Copy, Debug, PartialEq, Eq)]
pub enum Expected {
    /// A number of the release, such as the `9` of `3.9`.
    ReleaseNumber,
    /// A number of at most 18446744073709551615.
    SmallerNumber,
    /// What may follow a release and a `-` or `_`.
    Suffix,
    /// A segment of the local part, such as the `ubuntu` of `1.0+ubuntu.7`.
    LocalSegment,
    /// Nothing more.
    End,
}

impl fmt::Display for Expected {
    ghost output = { λ expected. Some (expected_text expected) };

    fn fmt<W: fmt::Write>(&self, f: &mut fmt::Formatter<W>) -> fmt::Result {
        f.write_str(match self {
            Expected::ReleaseNumber => "a release number",
            Expected::SmallerNumber => "a number of at most 18446744073709551615",
            Expected::Suffix => "a pre-release, a post release or a development release",
            Expected::LocalSegment => "letters or digits of the local version",
            Expected::End => "the end of the version",
        })
    }
}

/// Why a text is an invalid version or pattern: what was expected, and at which byte.
#[derive(Debug, Drop, PartialEq, Eq)]
pub struct VersionParseError {
    text: String,
    offset: usize,
    expected: Expected,
    pub ghost in_text: { IsCharBoundary (string_bytes text) offset },
}

impl VersionParseError {
    // The fault of a text at the start of a character.
    pub(crate) fn new(
        alloc: Global,
        text: &str,
        offset: usize,
        expected: Expected,
    ) -> Result<VersionParseError, AllocError>
        requires { IsCharBoundary text.now offset }
        ensures { IfOk result (λ fault. string_bytes fault.text ≡ text.now) }
    {
        Ok(VersionParseError {
            text: String::from_str(alloc, text)?,
            offset,
            expected,
        })
    }

    /// Returns the parsed text, with the white space around it.
    pub fn text(&self) -> &str
        ensures { result.now ≡ string_bytes self.now.text }
    {
        self.text.as_str()
    }

    /// Returns the offset of the fault in bytes. A character begins there, or the text ends.
    pub fn offset(&self) -> usize
        ensures value { result ≡ self.now.offset }
        ensures boundary { IsCharBoundary (string_bytes self.now.text) result }
    {
        self.offset
    }

    /// Returns what was expected there.
    pub fn expectation(&self) -> Expected
        ensures { result ≡ self.now.expected }
    {
        self.expected
    }

    // The character at the fault, or `None` if only white space follows.
    fn character(&self) -> Option<char>
        ensures { result ≡ found_in (drop self.now.offset (string_bytes self.now.text)) }
    {
        let rest = &self.text.as_str()[self.offset..];
        if rest.trim().is_empty() {
            return None;
        }
        rest.chars().next()
    }
}

impl fmt::Display for VersionParseError {
    ghost output = { λ error. error_text error.expected (string_bytes error.text) error.offset };

    fn fmt<W: fmt::Write>(&self, f: &mut fmt::Formatter<W>) -> fmt::Result {
        let (expected, offset, text) = (self.expected, self.offset, self.text.as_str());
        match self.character() {
            Some(found) => write!(
                f,
                "Expected {expected}, found {found:?} at byte {offset} of {text:?}"
            ),
            None => write!(f, "Expected {expected}, found the end of {text:?}"),
        }
    }
}

impl Error for VersionParseError {}
