//! The extras of a requirement.

ghost use Rattle.std.specs.Prelude.{◌≡◌, ◌≢◌, ◌++◌, ◌∷◌, [], true, false, IfOk, IfErr, List, ℕ};
ghost use Rattle.std.specs.Char.{is_ascii_alphanumeric};
ghost use Rattle.std.specs.Str.{chars};
ghost use Rattle.pep508_names.specs.Name.{IsName};
ghost use Rattle.pep508_text.specs.Run.{Run, after_space};
ghost use Rattle.pep508_text.specs.Suffix.{IsSuffix};
ghost use Rattle.pep508_text.specs.declared.classes.Class.TheVariants.{NamePart};
ghost use Rattle.requirement_words.specs.Extras.{IsExtras};
ghost use Rattle.requirement_words.specs.First.{BeginsWith};
ghost use Rattle.requirement_words.specs.Fault.{begins_name, FindsInExtras, IsBehindExtra, IsFaultBy, Listed, may_follow_extra, RefusesExtras};

use crate::fault::{Fault, FaultKind};
use pep508_names::ExtraName;
use pep508_text::{Class, Place, first, skip_space, split_run, strip};
use refusal::Refusal;
use std::alloc::Global;

// Whether the character is a comma before the first name.
fn is_leading_comma(found: char, names: &[ExtraName]) -> bool
    ensures yes { result ≡ true → (found ≡ 44) × (names.now ≡ []) }
    ensures no { names.now ≡ [] → found ≡ 44 → result ≡ true }
{
    found == ',' && names.is_empty()
}

// The fault where a name may follow these, and this character does.
fn extra_fault<'a>(found: char, here: &'a str, after: &str, names: &[ExtraName]) -> Fault<'a>
    requires first { BeginsWith here.now found after.now }
    requires no_letter { is_ascii_alphanumeric found ≡ false }
    requires no_bracket { names.now ≡ [] → found ≢ 93 }
    ensures { (inside : List ℕ) → Listed inside names.now (chars here.now)
        → IsFaultBy (FindsInExtras (91 ∷ inside)) here.now result }
{
    if is_leading_comma(found, names) {
        return FaultKind::LeadingComma.at(Place::before(here, after));
    }
    FaultKind::NoExtra.at(Place::before(here, after))
}

fn may_follow_extra(c: char) -> bool
    ensures { result ≡ may_follow_extra c }
{
    c == ',' || c == ']' || c.is_whitespace()
}

// The fault of a run at the front of `here` that begins like a name and is invalid.
fn extra_end_fault<'a>(here: &'a str, run: &'a str, rest: &'a str) -> Fault<'a>
    requires joined { here.now ≡ run.now ++ rest.now }
    requires run { Run NamePart (chars here.now) (chars run.now) (chars rest.now) }
    requires suffix { IsSuffix here.now rest.now }
    requires begins { begins_name (chars here.now) ≡ true }
    requires no_name { ¬ IsName run.now }
    ensures { (inside : List ℕ) (names : List (List ℕ)) → Listed inside names (chars here.now)
        → IsFaultBy (FindsInExtras (91 ∷ inside)) here.now result }
{
    if let Some((next, behind)) = first(rest) {
        if !may_follow_extra(next) {
            return FaultKind::InvalidExtra.at(Place::before(rest, behind));
        }
    }
    FaultKind::ExtraEnd.at(Place::at_last(run, rest))
}

// The fault where neither a comma nor the bracket follows a name. `behind` is the text after the
// name and white space, which begins with this character.
fn separator_fault<'a>(found: char, rest: &'a str, behind: &'a str, after: &str) -> Fault<'a>
    requires skipped { chars behind.now ≡ after_space (chars rest.now) }
    requires behind { IsSuffix rest.now behind.now }
    requires first { BeginsWith behind.now found after.now }
    requires comma { found ≢ 44 }
    requires bracket { found ≢ 93 }
    ensures { (inside : List ℕ) → IsBehindExtra inside (chars rest.now)
        → IsFaultBy (FindsInExtras (91 ∷ inside)) behind.now result }
{
    if behind.len() == rest.len() {
        FaultKind::InvalidExtra.at(Place::before(behind, after))
    } else {
        FaultKind::NoSeparator.at(Place::before(behind, after))
    }
}

/// Parses the extras at the front of a text. Returns them and the rest; without a bracket there are
/// none, and the rest is the text.
///
/// # Errors
/// - The fault that applies to the text, with its place, if it begins with a bracket and an invalid
///   list.
pub fn read_extras<'a>(
    alloc: Global,
    text: &'a str,
) -> Result<(Vec<ExtraName>, &'a str), Refusal<Fault<'a>>>
    ensures found { IfOk result (λ x. IsExtras (chars text.now) (chars x.1.now) x.0.items) }
    ensures refused { IfErr result (RefusesExtras text.now) }
    ensures suffix { IfOk result (λ x. IsSuffix text.now x.1.now) }
{
    let mut names = Vec::new(alloc);
    let Some(inside) = strip(text, '[') else {
        return Ok((names, text));
    };
    if let Some(rest) = strip(skip_space(inside), ']') {
        return Ok((names, rest));
    }
    let mut left = inside;
    loop {
        let here = skip_space(left);
        let Some((found, after)) = first(here) else {
            let opening = Place::before(text, inside);
            return Err(Refusal::Fault(FaultKind::UnclosedBracket.at(opening)));
        };
        if !found.is_ascii_alphanumeric() {
            return Err(Refusal::Fault(extra_fault(found, here, after, names.as_slice())));
        }
        let (run, rest) = split_run(here, Class::NamePart);
        let name = match ExtraName::parse(alloc, run) {
            Ok(name) => name,
            Err(Refusal::Fault(_)) => {
                return Err(Refusal::Fault(extra_end_fault(here, run, rest)));
            }
            Err(_) => return Err(Refusal::OutOfMemory),
        };
        names.push(name)?;
        let behind = skip_space(rest);
        if let Some(rest) = strip(behind, ']') {
            return Ok((names, rest));
        }
        let Some(next) = strip(behind, ',') else {
            let Some((found, after)) = first(behind) else {
                let opening = Place::before(text, inside);
                return Err(Refusal::Fault(FaultKind::UnclosedBracket.at(opening)));
            };
            return Err(Refusal::Fault(separator_fault(found, rest, behind, after)));
        };
        left = next;
    }
}
