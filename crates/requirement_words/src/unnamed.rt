//! A requirement without a name, up to its marker.

ghost use Rattle.std.specs.Prelude.{◌++◌, IfErr, IfOk};
ghost use Rattle.pep508_text.specs.Suffix.{IsSuffix};
ghost use Rattle.requirement_words.specs.Fault.{RefusesUnnamed};
ghost use Rattle.requirement_words.specs.Unnamed.{IsUnnamedHeadOf};

use crate::extras::read_extras;
use crate::fault::{Fault, FaultKind};
use crate::url::{UrlPlace, split_url};
use pep508_names::ExtraName;
use pep508_text::{Place, first, skip_space};
use pep508_urls::split_extras;
use refusal::Refusal;
use std::alloc::Global;

/// A requirement without a name, up to its marker.
#[derive(Debug, Drop)]
pub struct UnnamedHead<'a> {
    /// The URL as it is written, with its extras.
    pub given: &'a str,
    /// The URL without its extras.
    pub url: &'a str,
    /// The extras in brackets at the end of the URL, in the order of the text.
    pub extras: Vec<ExtraName>,
}

/// Parses a requirement without a name up to its marker, and returns the rest: a URL, after any
/// white space and with extras in brackets at its end.
///
/// # Errors
/// - A fault if there is no URL, or the extras at its end are invalid.
pub fn read_unnamed_head<'a>(
    alloc: Global,
    text: &'a str,
) -> Result<(UnnamedHead<'a>, &'a str), Refusal<Fault<'a>>>
    ensures found { IfOk result (λ x. IsUnnamedHeadOf text.now x.0 x.1.now) }
    ensures refused { IfErr result (RefusesUnnamed text.now) }
    ensures suffix { IfOk result (λ x. IsSuffix text.now x.1.now) }

    // The URL as it is written comes directly before the rest.
    ensures placed { IfOk result (λ x. IsSuffix text.now (x.0.given.now ++ x.1.now)) }
{
    let place = skip_space(text);
    let (given, rest) = split_url(place, UrlPlace::Alone);
    let Some(_) = first(given) else {
        return Err(Refusal::Fault(FaultKind::NoUrl.at(Place::before(place, place))));
    };
    let Some((url, _)) = split_extras(given) else {
        let extras = Vec::new(alloc);
        return Ok((
            UnnamedHead {
                given,
                url: given,
                extras,
            },
            rest,
        ));
    };
    match read_extras(alloc, place.split_at(url.len()).1) {
        Ok((extras, _)) => Ok((UnnamedHead { given, url, extras }, rest)),
        Err(refusal) => Err(refusal),
    }
}
