//! Errors of requirements, with their messages and places.

ghost use Rattle.std.specs.Prelude.{◌++◌, IfOk, Some, string_bytes};
ghost use Rattle.pep508_text.specs.Suffix.{IsSuffix};
ghost use Rattle.pep508_requirements.specs.Refused.{HasMessage, OnError, TellsFault, TellsUrl};

use pep508_errors::{Pep508Error, Pep508ErrorSource, Pep508Url};
use pep508_text::Place;
use refusal::Refusal;
use requirement_words::Fault;
use std::alloc::{AllocError, Global};
use std::string::ToString;

// A message about a missing name, or about another fault.
fn source<T: Pep508Url>(is_unsupported: bool, message: String) -> Pep508ErrorSource<T>
    ensures { HasMessage is_unsupported (Some (string_bytes message)) result }
{
    if is_unsupported {
        Pep508ErrorSource::UnsupportedRequirement(message)
    } else {
        Pep508ErrorSource::String(message)
    }
}

// The error for a fault: its message, its place and the text.
fn error_of_fault<T: Pep508Url>(
    alloc: Global,
    text: &str,
    fault: Fault<'_>,
) -> Result<Pep508Error<T>, AllocError>
    ensures { IfOk result (TellsFault text.now fault.entry) }
{
    let message = fault.to_string(alloc)?;
    Ok(Pep508Error {
        message: source(fault.kind.is_unsupported(), message),
        start: fault.place.start(text),
        len: fault.place.len(),
        input: String::from_str(alloc, text)?,
    })
}

// The refusal for a fault: its message, its place and a copy of the text. `OutOfMemory` if there is
// no memory for them.
pub(crate) fn refusal_of_fault<T: Pep508Url>(
    alloc: Global,
    text: &str,
    fault: Fault<'_>,
) -> Refusal<Pep508Error<T>>
    ensures { OnError (TellsFault text.now fault.entry) result }
{
    match error_of_fault(alloc, text, fault) {
        Ok(error) => Refusal::Fault(error),
        Err(AllocError) => Refusal::OutOfMemory,
    }
}

// The refusal of a text whose URL is invalid.
pub(crate) fn refusal_of_url<T: Pep508Url>(
    alloc: Global,
    text: &str,
    url: &str,
    rest: &str,
    fault: T::Err,
) -> Refusal<Pep508Error<T>>
    requires { IsSuffix text.now (url.now ++ rest.now) }
    ensures { OnError (TellsUrl text.now url.now rest.now fault) result }
{
    let Ok(input) = String::from_str(alloc, text) else {
        return Refusal::OutOfMemory;
    };
    let place = Place {
        piece: url,
        left: url.len() + rest.len(),
    };
    Refusal::Fault(Pep508Error {
        message: Pep508ErrorSource::UrlError(fault),
        start: place.start(text),
        len: place.len(),
        input,
    })
}
