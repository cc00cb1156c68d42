//! A requirement up to its marker.

ghost use Rattle.std.specs.Prelude.{IfOk, IfErr, List, ℕ, ⊤, ◌≡◌, ◌≢◌, ◌∷◌, [], true, false};
ghost use Rattle.std.specs.Char.{is_ascii_alphanumeric};
ghost use Rattle.std.specs.Str.{chars};
ghost use Rattle.pep508_text.specs.Run.{after_space};
ghost use Rattle.pep508_text.specs.Suffix.{IsSuffix};
ghost use Rattle.pep508_urls.specs.Variables.{value_of};
ghost use Rattle.pep440_specifier.specs.Specifier.{Specifier as One};
ghost use Rattle.requirement_words.specs.Extras.{IsNameAt};
ghost use Rattle.requirement_words.specs.Fault.{FollowsExtras, IsFault, IsRefused, may_follow_name, RefusesAsked, RefusesAskedIn, RefusesHead, RefusesName};
ghost use Rattle.requirement_words.specs.First.{BeginsWith};
ghost use Rattle.requirement_words.specs.Head.{asked_of, IsAsked, IsAskedIn, IsBare, IsHeadOf, IsPlaced, nothing, specifiers};

use crate::extras::read_extras;
use crate::fault::{Fault, FaultKind};
use crate::nameless::{is_archive, is_nameless};
use crate::specifiers::read_specifiers;
use crate::url::{UrlPlace, split_url};
use pep440_specifier::VersionSpecifiers;
use pep508_errors::Surroundings;
use pep508_names::{ExtraName, PackageName};
use pep508_text::{Class, Place, first, skip_space, split_run, strip};
use refusal::Refusal;
use std::alloc::Global;

/// The wanted versions or URL of a requirement.
#[derive(Debug, Drop)]
pub enum Asked<'a> {
    /// Any version.
    Nothing,
    /// Specifiers that must all match.
    Specifiers(VersionSpecifiers),
    /// The text of a URL.
    Url(&'a str),
}

/// A requirement up to its marker (PEP 508, "Grammar"): the text before `;`, or all of it.
#[derive(Debug, Drop)]
pub struct Head<'a> {
    /// The name of the package.
    pub name: PackageName,
    /// The extras in brackets after the name, in the order of the text.
    pub extras: Vec<ExtraName>,
    /// The wanted versions or URL.
    pub asked: Asked<'a>,
}

// The fault of a text of only white space.
fn blank_fault(text: &str) -> Fault<'_>
    requires { after_space (chars text.now) ≡ [] }
    ensures { (value : List ℕ → List ℕ) → IsFault value text.now result }
{
    match first(text) {
        Some((_, after)) => FaultKind::Blank.at(Place::before(text, after)),
        None => FaultKind::Blank.at(Place::at_end()),
    }
}

// The refusal of a text with this character instead of a name. `start` is the text without white
// space at the front.
fn name_refusal<'a>(
    alloc: Global,
    text: &'a str,
    start: &'a str,
    found: char,
    after: &str,
    surroundings: &Surroundings<'_>,
) -> Refusal<Fault<'a>>
    requires start { chars start.now ≡ after_space (chars text.now) }
    requires suffix { IsSuffix text.now start.now }
    requires first { BeginsWith start.now found after.now }
    requires no_name { is_ascii_alphanumeric found ≡ false }
    ensures { IsRefused (IsFault (value_of surroundings.now) text.now) ⊤ result }
{
    let (run, _) = split_run(start, Class::NotSpace);
    let Ok(nameless) = is_nameless(alloc, run, surroundings) else {
        return Refusal::OutOfMemory;
    };
    if nameless {
        return Refusal::Fault(FaultKind::PathWithoutName.at(Place::at_run(run, start)));
    }
    Refusal::Fault(FaultKind::NoName.at(Place::before(start, after)))
}

// The refusal of a text with this character after the name and the extras, before `behind`.
fn asked_refusal<'a>(
    alloc: Global,
    text: &'a str,
    behind: &'a str,
    found: char,
    after: &str,
    surroundings: &Surroundings<'_>,
) -> Refusal<Fault<'a>>
    requires behind { FollowsExtras text.now behind.now }
    requires first { BeginsWith behind.now found after.now }
    requires no_body { may_follow_name found ≡ false }
    ensures { IsRefused (IsFault (value_of surroundings.now) text.now) ⊤ result }
{
    let start = skip_space(text);
    let (run, _) = split_run(start, Class::NotSpace);
    let Ok(nameless) = is_nameless(alloc, run, surroundings) else {
        return Refusal::OutOfMemory;
    };
    if nameless {
        return Refusal::Fault(FaultKind::UrlWithoutName.at(Place::at_run(run, start)));
    }
    Refusal::Fault(FaultKind::NoBody.at(Place::before(behind, after)))
}

fn may_follow_name(c: char) -> bool
    ensures { result ≡ may_follow_name c }
{
    matches!(c, '@' | '(' | ';' | '<' | '=' | '>' | '~' | '!')
}

// Parses the URL after an `@` and any white space.
fn read_url<'a>(text: &'a str, behind: &'a str) -> Result<(Asked<'a>, &'a str), Refusal<Fault<'a>>>
    requires { BeginsWith text.now 64 behind.now }
    ensures found { IfOk result (λ x. IsAsked (chars text.now) (chars x.1.now) (asked_of x.0)) }
    ensures refused { IfErr result (RefusesAsked text.now) }
    ensures suffix { IfOk result (λ x. IsSuffix text.now x.1.now) }
    ensures some { IfOk result (λ x. asked_of x.0 ≢ nothing) }
    ensures placed { IfOk result (λ x. IsPlaced text.now (asked_of x.0) x.1.now) }
{
    let place = skip_space(behind);
    let (url, rest) = split_url(place, UrlPlace::BehindName);
    match first(url) {
        Some(_) => Ok((Asked::Url(url), rest)),
        None => Err(Refusal::Fault(FaultKind::NoUrl.at(Place::before(place, place)))),
    }
}

// Parses the specifiers between parentheses, after any white space. If the text ends within the
// last of them, the fault is the parenthesis.
fn read_enclosed<'a>(
    alloc: Global,
    text: &'a str,
    behind: &'a str,
) -> Result<(Asked<'a>, &'a str), Refusal<Fault<'a>>>
    requires { BeginsWith text.now 40 behind.now }
    ensures found { IfOk result (λ x. IsAsked (chars text.now) (chars x.1.now) (asked_of x.0)) }
    ensures refused { IfErr result (RefusesAsked text.now) }
    ensures suffix { IfOk result (λ x. IsSuffix text.now x.1.now) }
    ensures specifiers { IfOk result (λ x. (set : List One) × (asked_of x.0 ≡ specifiers set)) }
{
    let opening = Place::before(text, behind);
    match read_specifiers(alloc, skip_space(behind), ')') {
        Ok((set, rest)) => match strip(rest, ')') {
            Some(rest) => Ok((Asked::Specifiers(set), rest)),
            None => Err(Refusal::Fault(FaultKind::UnclosedParenthesis.at(opening))),
        },
        Err(Refusal::Fault(fault)) => {
            if fault.place.left == fault.place.piece.len() {
                return Err(Refusal::Fault(FaultKind::UnclosedParenthesis.at(opening)));
            }
            Err(Refusal::Fault(fault))
        }
        Err(_) => Err(Refusal::OutOfMemory),
    }
}

// Parses the versions or URL of a requirement that has some, and returns the rest.
fn read_something<'a>(
    alloc: Global,
    text: &'a str,
) -> Result<(Asked<'a>, &'a str), Refusal<Fault<'a>>>
    requires { (c : ℕ) × (cs : List ℕ) × (chars text.now ≡ c ∷ cs) × (may_follow_name c ≡ true)
        × (c ≢ 59) }
    ensures found { IfOk result (λ x. IsAsked (chars text.now) (chars x.1.now) (asked_of x.0)) }
    ensures some { IfOk result (λ x. asked_of x.0 ≢ nothing) }
    ensures refused { IfErr result (RefusesAsked text.now) }
    ensures suffix { IfOk result (λ x. IsSuffix text.now x.1.now) }
    ensures placed { IfOk result (λ x. IsPlaced text.now (asked_of x.0) x.1.now) }
{
    if let Some(behind) = strip(text, '@') {
        return read_url(text, behind);
    }
    if let Some(behind) = strip(text, '(') {
        return read_enclosed(alloc, text, behind);
    }
    match read_specifiers(alloc, text, ';') {
        Ok((set, rest)) => Ok((Asked::Specifiers(set), rest)),
        Err(refusal) => Err(refusal),
    }
}

// Accepts a requirement without versions or URL, unless the name is that of an archive.
fn read_nothing<'a>(
    text: &'a str,
    behind: &'a str,
) -> Result<(Asked<'a>, &'a str), Refusal<Fault<'a>>>
    requires behind { FollowsExtras text.now behind.now }
    requires bare { IsBare (chars behind.now) }
    ensures found { IfOk result (λ x.
        IsAskedIn (chars text.now) (chars behind.now) (chars x.1.now) (asked_of x.0)) }
    ensures refused { IfErr result (λ refusal. (value : List ℕ → List ℕ)
        → RefusesAskedIn value text.now behind.now refusal) }
    ensures suffix { IfOk result (λ x. IsSuffix text.now x.1.now) }
    ensures placed { IfOk result (λ x. IsPlaced text.now (asked_of x.0) x.1.now) }
{
    let start = skip_space(text);
    let (run, _) = split_run(start, Class::NamePart);
    if is_archive(run) {
        return Err(Refusal::Fault(FaultKind::ArchiveWithoutName.at(Place::at_run(run, start))));
    }
    Ok((Asked::Nothing, behind))
}

// Parses what follows the name and the extras, and returns the rest.
fn read_asked<'a>(
    alloc: Global,
    text: &'a str,
    behind: &'a str,
    surroundings: &Surroundings<'_>,
) -> Result<(Asked<'a>, &'a str), Refusal<Fault<'a>>>
    requires { FollowsExtras text.now behind.now }
    ensures found { IfOk result (λ x.
        IsAskedIn (chars text.now) (chars behind.now) (chars x.1.now) (asked_of x.0)) }
    ensures refused { IfErr result
        (RefusesAskedIn (value_of surroundings.now) text.now behind.now) }
    ensures suffix { IfOk result (λ x. IsSuffix text.now x.1.now) }
    ensures placed { IfOk result (λ x. IsPlaced text.now (asked_of x.0) x.1.now) }
{
    let Some((found, after)) = first(behind) else {
        return read_nothing(text, behind);
    };
    if found == ';' {
        return read_nothing(text, behind);
    }
    if !may_follow_name(found) {
        return Err(asked_refusal(alloc, text, behind, found, after, surroundings));
    }
    match read_something(alloc, behind) {
        Ok(read) => Ok(read),
        Err(refusal) => Err(refusal),
    }
}

// Parses the name at the front of a text, after any white space, and returns the rest.
fn read_name<'a>(
    alloc: Global,
    text: &'a str,
    surroundings: &Surroundings<'_>,
) -> Result<(PackageName, &'a str), Refusal<Fault<'a>>>
    ensures found { IfOk result (λ x.
        IsNameAt (after_space (chars text.now)) (chars x.1.now) x.0) }
    ensures refused { IfErr result (RefusesName (value_of surroundings.now) text.now) }
    ensures suffix { IfOk result (λ x. IsSuffix text.now x.1.now) }
{
    let start = skip_space(text);
    let Some((found, after)) = first(start) else {
        return Err(Refusal::Fault(blank_fault(text)));
    };
    if !found.is_ascii_alphanumeric() {
        return Err(name_refusal(alloc, text, start, found, after, surroundings));
    }
    let (run, rest) = split_run(start, Class::NamePart);
    match PackageName::parse(alloc, run) {
        Ok(name) => Ok((name, rest)),
        Err(Refusal::Fault(_)) => Err(Refusal::Fault(FaultKind::NameEnd.at(Place::at_last(
            run, rest,
        )))),
        Err(_) => Err(Refusal::OutOfMemory),
    }
}

/// Parses a requirement up to its marker, and returns the rest. The surroundings have the values of
/// variables: a path or URL instead of a name is rejected as such.
///
/// # Errors
/// - The fault that applies to the text, with its place, if no requirement begins there.
pub fn read_head<'a>(
    alloc: Global,
    text: &'a str,
    surroundings: &Surroundings<'_>,
) -> Result<(Head<'a>, &'a str), Refusal<Fault<'a>>>
    ensures found { IfOk result (λ x. IsHeadOf text.now x.0 x.1.now) }
    ensures refused { IfErr result (RefusesHead (value_of surroundings.now) text.now) }
    ensures suffix { IfOk result (λ x. IsSuffix text.now x.1.now) }
    ensures placed { IfOk result (λ x. IsPlaced text.now (asked_of x.0.asked) x.1.now) }
{
    let (name, after_name) = match read_name(alloc, text, surroundings) {
        Ok(read) => read,
        Err(refusal) => return Err(refusal),
    };
    let (extras, after_extras) = match read_extras(alloc, skip_space(after_name)) {
        Ok(read) => read,
        Err(refusal) => return Err(refusal),
    };
    match read_asked(alloc, text, skip_space(after_extras), surroundings) {
        Ok((asked, rest)) => Ok((
            Head {
                name,
                extras,
                asked,
            },
            rest,
        )),
        Err(refusal) => Err(refusal),
    }
}
