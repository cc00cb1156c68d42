//! The version specifiers of a requirement.

ghost use Rattle.std.specs.Prelude.{◌≢◌, IfOk, IfErr};
ghost use Rattle.std.specs.Str.{chars};
ghost use Rattle.pep508_text.specs.Suffix.{IsSuffix};
ghost use Rattle.requirement_words.specs.Fault.{RefusesSpecifiers};
ghost use Rattle.requirement_words.specs.Specifiers.{IsSpecifiers};

use crate::fault::{Fault, FaultKind};
use pep440_specifier::{VersionSpecifier, VersionSpecifiers};
use pep508_text::{Place, split_before_comma, strip};
use refusal::Refusal;
use std::alloc::Global;

/// Parses the specifiers at the front of a text, separated by commas, and returns the rest. They
/// end at the character `end`, which is not a comma, or at the end of the text.
///
/// # Errors
/// - The fault of the first piece that is an invalid specifier; an empty piece is one.
pub fn read_specifiers<'a>(
    alloc: Global,
    text: &'a str,
    end: char,
) -> Result<(VersionSpecifiers, &'a str), Refusal<Fault<'a>>>
    requires { end ≢ 44 }
    ensures found { IfOk result (λ x. IsSpecifiers end (chars text.now) (chars x.1.now) x.0) }
    ensures refused { IfErr result (RefusesSpecifiers end text.now) }
    ensures suffix { IfOk result (λ x. IsSuffix text.now x.1.now) }
{
    let mut specifiers = Vec::new(alloc);
    let mut left = text;
    loop {
        let (piece, rest) = split_before_comma(left, end);
        let specifier = match VersionSpecifier::parse(alloc, piece) {
            Ok(specifier) => specifier,
            Err(Refusal::Fault(error)) => {
                let kind = FaultKind::Specifier(error);
                return Err(Refusal::Fault(kind.at(Place::at_run(piece, left))));
            }
            Err(_) => return Err(Refusal::OutOfMemory),
        };
        specifiers.push(specifier)?;
        let Some(next) = strip(rest, ',') else {
            let set = VersionSpecifiers::from_list(specifiers)?;
            return Ok((set, rest));
        };
        left = next;
    }
}
