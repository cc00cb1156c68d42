//! The error of an invalid specifier, a message of one line.

ghost use Rattle.std.specs.Prelude.{◌≡◌, IfOk, IfSome, MatchOption, None, Some};
ghost use Rattle.pep440_specifier.specs.Fault.{IsAt, IsBetweenCharacters, IsToldOf, error_text, fault_text, offset_of};

use crate::operator::Operator;
use crate::place::Place;
use pep440_version::Expected;
use std::alloc::{AllocError, Global};
use std::error::Error;
use std::fmt;

/// What an invalid specifier lacks.
#[derive(Clone, Copy, Debug, PartialEq, Eq)]
pub enum SpecifierFault {
    /// One of the eight operators; `=>` is not one.
    Operator,
    /// A version, or a release with `.*` after it.
    Version(Expected),
    /// A version without `.*`: only `==` and `!=` accept one with it.
    NoStar(Operator),
    /// A release without anything but an epoch, before `.*`.
    ReleaseAlone,
    /// A second release number after `~=`, such as the `2` of `~=1.2`.
    SecondNumber,
    /// A version without a local part: only `==`, `!=` and `===` accept one with it.
    NoLocal(Operator),
}

impl fmt::Display for SpecifierFault {
    ghost output = { λ fault. Some (fault_text fault) };

    fn fmt<W: fmt::Write>(&self, f: &mut fmt::Formatter<W>) -> fmt::Result {
        match self {
            SpecifierFault::Operator => {
                f.write_str("Expected one of `==`, `!=`, `<`, `<=`, `>`, `>=`, `~=` and `===`")
            }
            SpecifierFault::Version(expected) => write!(f, "Expected {expected}"),
            SpecifierFault::NoStar(operator) => {
                write!(f, "Expected a version without `.*` after `{operator}`")
            }
            SpecifierFault::ReleaseAlone => {
                f.write_str("Expected a release without a suffix before `.*`")
            }
            SpecifierFault::SecondNumber => {
                f.write_str("Expected at least two release numbers after `~=`")
            }
            SpecifierFault::NoLocal(operator) => {
                write!(
                    f,
                    "Expected a version without a local part after `{operator}`"
                )
            }
        }
    }
}

/// Why an operator and a version, or a text, are an invalid specifier: what was expected, and for a
/// text at which byte.
#[derive(Debug, Drop, PartialEq, Eq)]
pub struct VersionSpecifierError {
    pub(crate) fault: SpecifierFault,
    pub(crate) place: Option<Place>,
}

impl VersionSpecifierError {
    // The fault of an operator and a version that were not parsed from a text.
    pub(crate) fn without_text(fault: SpecifierFault) -> VersionSpecifierError
        ensures { result.fault ≡ fault }
    {
        VersionSpecifierError { fault, place: None }
    }

    // A fault `rest` bytes before the end of the text, not counting the white space there.
    pub(crate) fn before_rest(
        alloc: Global,
        text: &str,
        rest: usize,
        fault: SpecifierFault,
    ) -> Result<VersionSpecifierError, AllocError>
        ensures { IfOk result (λ error. IsToldOf error text.now) }
    {
        let end = text.trim_end().len();
        let offset = text.floor_char_boundary(end.saturating_sub(rest));
        let text = String::from_str(alloc, text)?;
        Ok(VersionSpecifierError {
            fault,
            place: Some(Place { text, offset }),
        })
    }

    /// Returns what was expected.
    pub fn fault(&self) -> SpecifierFault
        ensures { result ≡ self.now.fault }
    {
        self.fault
    }

    /// Returns the parsed text, with the white space around it. `None` if no text was parsed.
    pub fn text(&self) -> Option<&str>
        ensures { MatchOption result (self.now.place ≡ None)
            (λ text. IsAt self.now.place text.now) }
    {
        match &self.place {
            Some(place) => Some(place.text.as_str()),
            None => None,
        }
    }

    /// Returns the offset of the fault in bytes. A character begins there, or the text ends. `None`
    /// if no text was parsed.
    pub fn offset(&self) -> Option<usize>
        ensures value { result ≡ offset_of self.now.place }
        ensures boundary { IfSome result (λ offset. IsBetweenCharacters self.now.place offset) }
    {
        match &self.place {
            Some(place) => Some(place.offset),
            None => None,
        }
    }
}

impl fmt::Display for VersionSpecifierError {
    ghost output = { λ error. error_text error.fault error.place };

    fn fmt<W: fmt::Write>(&self, f: &mut fmt::Formatter<W>) -> fmt::Result {
        let fault = self.fault;
        match &self.place {
            Some(place) => write!(f, "{fault}, found {place}"),
            None => write!(f, "{fault}"),
        }
    }
}

impl Error for VersionSpecifierError {}
