//! The end of a requirement.

ghost use Rattle.std.specs.Prelude.{IfErr, IfOk, IfSome, OnErr};
ghost use Rattle.std.specs.Option.{option_map};
ghost use Rattle.std.specs.Str.{chars};
ghost use Rattle.pep508_text.specs.Suffix.{IsSuffix};
ghost use Rattle.requirement_words.specs.Fault.{IsTailFault};
ghost use Rattle.requirement_words.specs.Tail.{HasNoTail, IsTail};

use crate::fault::{Fault, FaultKind};
use pep508_text::{Place, first, skip_space};

/// Returns the text of the marker after the `;` at the end of a requirement, or `None` if only
/// white space is left. `url` is the URL before it as it is written, or empty without one.
///
/// # Errors
/// - A fault if anything else is left: at the last character of a URL that ends with `;` or `#`,
///   otherwise at the first character that is not white space.
pub fn read_tail<'a>(url: &'a str, rest: &'a str) -> Result<Option<&'a str>, Fault<'a>>
    ensures found { IfOk result (λ marker.
        IsTail (chars rest.now) (option_map (λ text. chars text.now) marker)) }
    ensures refused { OnErr result (HasNoTail (chars rest.now)) }
    ensures fault { IfErr result (IsTailFault url.now rest.now) }
    ensures suffix { IfOk result (λ marker. IfSome marker (λ text. IsSuffix rest.now text.now)) }
{
    let end = skip_space(rest);
    let Some((found, after)) = first(end) else {
        return Ok(None);
    };
    if found == ';' {
        return Ok(Some(after));
    }
    if url.ends_with(';') {
        return Err(FaultKind::AmbiguousEnd.at(Place::at_last(url, rest)));
    }
    if url.ends_with('#') {
        return Err(FaultKind::AmbiguousEnd.at(Place::at_last(url, rest)));
    }
    Err(FaultKind::Trailing.at(Place::before(end, after)))
}
