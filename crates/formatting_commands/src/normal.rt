//! The normal texts of requirements.

ghost use Rattle.std.specs.Prelude.{IfOk, IfSome};
ghost use Rattle.marker_graph.specs.Contents.{IsHeld, IsKept};
ghost use Rattle.formatting_commands.specs.Same.{IsParsedIn, IsSameString, TellsSame};

use crate::parsing::{given_url, parse_whole};
use crate::same::is_same;
use marker_graph::{Interner, MarkerTree};
use marker_view::has_room_for_text;
use pep508_errors::Surroundings;
use pep508_markers::MarkerText;
use pep508_requirements::Requirement;
use pep508_urls::VerbatimUrl;
use std::alloc::AllocError;

// Prints the requirement without its URL and its marker.
fn print_front(
    requirement: &Requirement<VerbatimUrl>,
    interner: &Interner,
) -> Result<String, AllocError> {
    let mut front = requirement.clone()?;
    front.clear_url();
    front.marker = MarkerTree::TRUE;
    front.try_to_string(interner)
}

// Prints the requirement with this text in place of its URL.
fn print_with(
    requirement: &Requirement<VerbatimUrl>,
    url: &str,
    interner: &Interner,
) -> Result<String, AllocError>
    requires { IsHeld interner.now requirement.now.marker }
{
    let mut text = print_front(requirement, interner)?;
    text.push_str(" @ ")?;
    text.push_str(url)?;
    if let Some(marker) = requirement.marker.try_to_string(interner)? {
        text.push_str(" ; ")?;
        text.push_str(marker.as_str())?;
    }
    Ok(text)
}

// Prints the requirement with its URL as it was given.
fn print(requirement: &Requirement<VerbatimUrl>, interner: &Interner) -> Result<String, AllocError>
    requires { IsHeld interner.now requirement.now.marker }
{
    match given_url(requirement) {
        Some(url) => print_with(requirement, url, interner),
        None => requirement.try_to_string(interner),
    }
}

// Whether the interner has no room for the text of the requirement.
fn lacks_room(requirement: &Requirement<VerbatimUrl>, interner: &Interner) -> bool
    requires { IsHeld interner.now requirement.now.marker }
{
    matches!(has_room_for_text(interner, requirement.marker), Ok(false))
}

// Prints the requirement with its URL as it was given. `None` if the interner has no room for its
// text.
fn print_within(
    requirement: &Requirement<VerbatimUrl>,
    interner: &Interner,
) -> Result<Option<String>, AllocError>
    requires { IsHeld interner.now requirement.now.marker }
{
    match print(requirement, interner) {
        Ok(text) => Ok(Some(text)),
        Err(_) if lacks_room(requirement, interner) => Ok(None),
        Err(error) => Err(error),
    }
}

// Whether a new text parses as the same requirement.
fn parses_as(
    new: &str,
    requirement: &Requirement<VerbatimUrl>,
    surroundings: &Surroundings<'_>,
    interner: &mut Interner,
) -> Result<bool, AllocError>
    requires { IsHeld interner.old requirement.now.marker }
    ensures kept { IsKept interner.old interner.new }
    ensures same { IfOk result
        (TellsSame surroundings.now interner.old requirement.now new.now) }
{
    match parse_whole(new, surroundings, interner)? {
        Some(again) => is_same(interner.allocator(), requirement, &again),
        None => Ok(false),
    }
}

// The normal text of the requirement that `text` was parsed as, if it differs from `text` and
// parses back to the same requirement.
fn changed_text(
    text: &str,
    requirement: &Requirement<VerbatimUrl>,
    surroundings: &Surroundings<'_>,
    interner: &mut Interner,
) -> Result<Option<String>, AllocError>
    requires held { IsHeld interner.old requirement.now.marker }
    requires parsed { IsParsedIn surroundings.now interner.old text.now requirement.now }
    ensures { IfOk result (λ new. IfSome new (IsSameString surroundings.now text.now)) }
{
    let Some(new) = print_within(requirement, interner)? else {
        return Ok(None);
    };
    if new.as_str() != text && parses_as(new.as_str(), requirement, surroundings, interner)? {
        Ok(Some(new))
    } else {
        Ok(None)
    }
}

/// Returns the normal text of a requirement with a name, with its URL as it is given, if that is
/// another text that parses back to the same requirement.
///
/// `None` also if the text is not such a requirement, its marker or the new text needs more room
/// than the interner has, a comparison of the marker is dropped with a warning, or a variable is
/// outside of the URL.
pub fn normal_text(
    text: &str,
    surroundings: &Surroundings<'_>,
    interner: &mut Interner,
) -> Result<Option<String>, AllocError>
    ensures { IfOk result (λ new. IfSome new (IsSameString surroundings.now text.now)) }
{
    match parse_whole(text, surroundings, interner)? {
        Some(requirement) => changed_text(text, &requirement, surroundings, interner),
        None => Ok(None),
    }
}
