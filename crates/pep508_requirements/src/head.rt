//! A requirement up to its marker, with its URL parsed.

ghost use Rattle.std.specs.Prelude.{◌≡◌, ◌++◌, IfErr, IfOk};
ghost use Rattle.std.specs.Str.{chars};
ghost use Rattle.pep508_text.specs.Suffix.{IsSuffix};
ghost use Rattle.pep508_urls.specs.Variables.{value_of};
ghost use Rattle.requirement_words.specs.Fault.{FindsInHead};
ghost use Rattle.requirement_words.specs.Head.{asked_of, HasNoHead, IsHead};
ghost use Rattle.pep508_requirements.specs.Requirement.{IsWanted, urls_in};
ghost use Rattle.pep508_requirements.specs.Refused.{asked_url, IsAskedErrorIn, IsRefusedBy, OnError};

use crate::error::{refusal_of_fault, refusal_of_url};
use crate::version_or_url::VersionOrUrl;
use pep508_errors::{Pep508Error, Pep508Url, Surroundings};
use refusal::Refusal;
use requirement_words::{Asked, Head, read_head};
use std::alloc::Global;

// A requirement up to its marker, and what follows it.
pub(crate) fn read_named<'a, T: Pep508Url>(
    alloc: Global,
    text: &'a str,
    surroundings: &Surroundings<'_>,
) -> Result<(Head<'a>, &'a str), Refusal<Pep508Error<T>>>
    ensures found { IfOk result (λ x. IsHead (chars text.now) (chars x.1.now) x.0.name
        x.0.extras.items (asked_of x.0.asked)) }
    ensures refused { IfErr result (IsRefusedBy
        (FindsInHead (value_of surroundings.now) text.now) (HasNoHead (chars text.now)) text.now) }
    ensures suffix { IfOk result (λ x. IsSuffix text.now x.1.now) }

    // The text of a URL comes directly before `rest`.
    ensures placed { IfOk result (λ x. IsSuffix text.now
        (asked_url (asked_of x.0.asked) ++ x.1.now)) }
{
    match read_head(alloc, text, surroundings) {
        Ok((head, rest)) => Ok((head, rest)),
        Err(Refusal::Fault(fault)) => Err(refusal_of_fault(alloc, text, fault)),
        Err(_) => Err(Refusal::OutOfMemory),
    }
}

// The text of the URL, or an empty text.
pub(crate) fn written_url<'a>(asked: &Asked<'a>) -> &'a str
    ensures { result.now ≡ asked_url (asked_of asked.now) }
{
    match asked {
        Asked::Url(url) => *url,
        _ => "",
    }
}

// Parses the text of a URL, which comes before `rest`, by the type of URLs.
pub(crate) fn read_version_or_url<T: Pep508Url>(
    alloc: Global,
    text: &str,
    asked: Asked<'_>,
    rest: &str,
    surroundings: &Surroundings<'_>,
) -> Result<Option<VersionOrUrl<T>>, Refusal<Pep508Error<T>>>
    requires { IsSuffix text.now (asked_url (asked_of asked) ++ rest.now) }
    ensures found { IfOk result
        (IsWanted (urls_in T.names surroundings.now) (asked_of asked.entry)) }
    ensures refused { IfErr result (OnError (IsAskedErrorIn T.names T.tells_size T.may_overflow
        surroundings.now text.now (asked_of asked.entry) rest.now)) }
{
    match asked {
        Asked::Nothing => Ok(None),
        Asked::Specifiers(set) => Ok(Some(VersionOrUrl::VersionSpecifier(set))),
        Asked::Url(piece) => match T::parse_url(alloc, piece, surroundings) {
            Ok(url) => Ok(Some(VersionOrUrl::Url(url))),
            Err(Refusal::Fault(fault)) => Err(refusal_of_url(alloc, text, piece, rest, fault)),
            Err(_) => Err(Refusal::OutOfMemory),
        },
    }
}
