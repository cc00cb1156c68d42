//! Types of URLs.

ghost use Rattle.std.specs.Prelude.{◌≡◌, ◌≢◌, ℕ, List, Bool, ⊤, None, Ok, IfOk, IfErr};
ghost use Rattle.refusal.specs.declared.Refusal.TheVariants.{OutOfMemory, SegmentAtEnd, Fault};
ghost use Rattle.pep508_errors.specs.declared.surroundings.Surroundings.{Surroundings};
ghost use Rattle.pep508_errors.specs.Url.{HasNone, is_overflow, OnOtherFault, OnSizeFault};
ghost use Rattle.url.specs.declared.error.ParseError.TheVariants as faults;
ghost use Rattle.url.specs.Parser.{parse_url};

use crate::surroundings::Surroundings;
use refusal::Refusal;
use std::alloc::Global;
use std::error::Error;
use std::fmt::{Debug, Display};
use url::{ParseError, Url};

/// A type that the URL of a requirement is parsed into, such as [`Url`].
///
/// To use a type of your own, implement `parse_url`, `Display`, and the three definitions that its
/// contract is about:
///
/// - `names`: which values a text has. For a type that keeps `https` URLs as they are written: the
///   text begins with `https://`, and the value has that text.
/// - `tells_size`: which errors mean "too large". Often none: `λ _. false`.
/// - `may_overflow`: for which texts such an error may come. Often none: `λ _ _. ⊥`.
///
/// The check then proves that `parse_url` returns a value of the text, and an error only for a text
/// without a value or one that may be too large. The implementation for [`Url`] is an example;
/// `tests/test_urls/short_url.rt.txt` has the type of `https` URLs.
pub trait Pep508Url: Display + Debug + Drop {
    /// Why a text is rejected.
    type Err: Error;

    /// The value is one that the text has in the surroundings.
    ghost names: { List ℕ → Surroundings → Self → Type 0 };

    /// The fault says that the URL is too large, and nothing else about the text.
    ghost tells_size: { Self.Err → Bool };

    /// The text may be rejected in the surroundings with a fault of size.
    ghost may_overflow: { List ℕ → Surroundings → Type 0 };

    /// Parses a URL.
    ///
    /// # Errors
    /// - [`Refusal::Fault`] if the text has no value in the surroundings, or its URL is too large.
    /// - [`Refusal::OutOfMemory`] when memory runs out.
    fn parse_url(
        alloc: Global,
        text: &str,
        surroundings: &Surroundings<'_>,
    ) -> Result<Self, Refusal<Self::Err>>
        ensures value { IfOk result (λ url. names text.now surroundings.now url) }
        ensures fault { OnOtherFault tells_size result (HasNone (names text.now surroundings.now)) }
        ensures size { OnSizeFault tells_size result (may_overflow text.now surroundings.now) }
        ensures no_end { IfErr result (λ refusal. refusal ≢ SegmentAtEnd) };
}

/// Returns the refusal for an error of `url`: `OutOfMemory`, or a fault.
pub fn refusal_of(fault: ParseError) -> Refusal<ParseError>
    ensures memory { fault ≡ faults.OutOfMemory → result ≡ OutOfMemory }
    ensures fault { fault ≢ faults.OutOfMemory → result ≡ Fault fault }
{
    match fault {
        ParseError::OutOfMemory => Refusal::OutOfMemory,
        _ => Refusal::Fault(fault),
    }
}

/// A text has the value that the URL Standard gives it, in any surroundings. The error of size is
/// [`ParseError::Overflow`], for URLs of 4 GB or more; the contract of `url` leaves open for which
/// texts it is returned.
impl Pep508Url for Url {
    type Err = ParseError;

    ghost names = { λ text _ url. parse_url None text ≡ Ok url };

    ghost tells_size = { is_overflow };

    ghost may_overflow = { λ _ _. ⊤ };

    fn parse_url(
        alloc: Global,
        text: &str,
        _surroundings: &Surroundings<'_>,
    ) -> Result<Url, Refusal<ParseError>> {
        match Url::parse(alloc, text) {
            Ok(url) => Ok(url),
            Err(fault) => Err(refusal_of(fault)),
        }
    }
}
