//! Parsing the text of a requirement by the library's parser.

ghost use Rattle.std.specs.Prelude.{IfOk, IfSome};
ghost use Rattle.marker_graph.specs.Contents.{IsHeld, IsKept};
ghost use Rattle.formatting_commands.specs.Same.{IsParsedIn};

use crate::variables::has_variable_outside;
use marker_graph::Interner;
use pep508_errors::{MarkerWarningKind, Surroundings};
use pep508_requirements::{Requirement, VersionOrUrl};
use pep508_urls::VerbatimUrl;
use refusal::Refusal;
use std::alloc::AllocError;

// Whether no comparison of the marker with these warnings is dropped.
fn keeps_all(warnings: &[(MarkerWarningKind, String)]) -> bool {
    warnings.iter().all(|warning| warning.0 == MarkerWarningKind::DeprecatedMarkerName)
}

// The text of the URL of a requirement, as it is given.
pub(crate) fn given_url(requirement: &Requirement<VerbatimUrl>) -> Option<&str> {
    match &requirement.version_or_url {
        Some(VersionOrUrl::Url(url)) => url.given(),
        _ => None,
    }
}

// Parses a requirement with a name. `None` if the text is no such requirement, the interner has no
// room for its marker, a comparison of the marker is dropped, or a variable is outside of its URL.
pub(crate) fn parse_whole(
    text: &str,
    surroundings: &Surroundings<'_>,
    interner: &mut Interner,
) -> Result<Option<Requirement<VerbatimUrl>>, AllocError>
    ensures kept { IsKept interner.old interner.new }
    ensures held { IfOk result (λ read. IfSome read (λ r. IsHeld interner.new r.marker)) }
    ensures read { IfOk result (λ r. IfSome r (IsParsedIn surroundings.now interner.new text.now)) }
{
    let mut warnings = Vec::new(interner.allocator());
    match Requirement::parse_reporter(text, surroundings, &mut warnings, interner) {
        Ok(requirement) => {
            let is_outside = has_variable_outside(text, given_url(&requirement));
            if is_outside || !keeps_all(warnings.as_slice()) {
                Ok(None)
            } else {
                Ok(Some(requirement))
            }
        }
        Err(Refusal::OutOfMemory) if !interner.has_met_room() => Err(AllocError),
        Err(_) => Ok(None),
    }
}
