//! Parsing the text of a requirement by the library's parsers.

ghost use Rattle.std.specs.Prelude.{◌≡◌, IfOk};
ghost use Rattle.requirement_checks.specs.Findings.{HoldsMarker};
ghost use Rattle.requirement_checks.specs.Reading.{is_unsupported, needs_name, IsNamedReading, IsReading, IsUnnamedReading};

use marker_graph::Interner;
use pep508_errors::{MarkerWarningKind, Pep508Error, Pep508ErrorSource, Pep508Url, Surroundings};
use pep508_requirements::{Requirement, UnnamedRequirement};
use pep508_urls::UnnamedRequirementUrl;
use refusal::Refusal;
use std::alloc::AllocError;

/// The warnings of a marker, in order.
pub type Warnings = Vec<(MarkerWarningKind, String)>;

/// The result of parsing the text of a requirement.
#[derive(Drop)]
pub enum Reading<T: UnnamedRequirementUrl> {
    /// A requirement with a name, with the warnings of its marker.
    Named(Requirement<T>, Warnings),
    /// A requirement without a name, with the warnings of its marker.
    Unnamed(UnnamedRequirement<T>, Warnings),
    /// An invalid requirement.
    Invalid(Pep508Error<T>),
    /// A bound of a comparison of its marker would be above 18446744073709551615.
    NumberTooLarge,
}

/// What a requirement may look like.
#[derive(Clone, Copy)]
pub enum Form {
    /// With a name, or a path, a URL or an archive without one: a line of a requirements file.
    Any,
    /// With a name: a requirement of a package.
    Named,
    /// Without a name: the argument of `-e`.
    Unnamed,
}

// Whether the fault is a path, a URL or an archive without a name.
fn is_unsupported<T: Pep508Url>(source: &Pep508ErrorSource<T>) -> bool
    ensures { result ≡ is_unsupported source.now }
{
    matches!(source, Pep508ErrorSource::UnsupportedRequirement(_))
}

// Whether a path, a URL or an archive without a name was found.
fn needs_name<T: UnnamedRequirementUrl>(reading: &Reading<T>) -> bool
    ensures { result ≡ needs_name reading.now }
{
    match reading {
        Reading::Invalid(error) => is_unsupported(&error.message),
        _ => false,
    }
}

// Parses the text as a requirement with a name.
pub(crate) fn read_named<T: UnnamedRequirementUrl>(
    text: &str,
    surroundings: &Surroundings<'_>,
    interner: &mut Interner,
) -> Result<Reading<T>, AllocError>
    ensures held { IfOk result (HoldsMarker interner.new) }
    ensures read { IfOk result (IsNamedReading T.names T.tells_size T.may_overflow T.given_text
        surroundings.now interner.new text.now) }
{
    let mut warnings = Vec::new(interner.allocator());
    match Requirement::parse_reporter(text, surroundings, &mut warnings, interner) {
        Ok(requirement) => Ok(Reading::Named(requirement, warnings)),
        Err(Refusal::Fault(error)) => Ok(Reading::Invalid(error)),
        Err(Refusal::SegmentAtEnd) => Ok(Reading::NumberTooLarge),
        Err(Refusal::OutOfMemory) => Err(AllocError),
    }
}

/// Parses the text as a requirement without a name, as for `-e`.
///
/// # Errors
/// - `AllocError` when memory runs out, or the interner has no room for the marker.
pub fn read_unnamed<T: UnnamedRequirementUrl>(
    text: &str,
    surroundings: &Surroundings<'_>,
    interner: &mut Interner,
) -> Result<Reading<T>, AllocError>
    ensures held { IfOk result (HoldsMarker interner.new) }
    ensures read { IfOk result (IsUnnamedReading T.names T.tells_size T.may_overflow T.given_text
        surroundings.now interner.new text.now) }
{
    let mut warnings = Vec::new(interner.allocator());
    match UnnamedRequirement::parse(text, surroundings, &mut warnings, interner) {
        Ok(requirement) => Ok(Reading::Unnamed(requirement, warnings)),
        Err(Refusal::Fault(error)) => Ok(Reading::Invalid(error)),
        Err(Refusal::SegmentAtEnd) => Ok(Reading::NumberTooLarge),
        Err(Refusal::OutOfMemory) => Err(AllocError),
    }
}

/// Parses the text as a requirement with a name, or, if the fault is that a path, a URL or an
/// archive has no name, as one without.
///
/// # Errors
/// - `AllocError` when memory runs out, or the interner has no room for the marker.
pub fn read_requirement<T: UnnamedRequirementUrl>(
    text: &str,
    surroundings: &Surroundings<'_>,
    interner: &mut Interner,
) -> Result<Reading<T>, AllocError>
    ensures held { IfOk result (HoldsMarker interner.new) }
    ensures read { IfOk result (IsReading T.names T.tells_size T.may_overflow T.given_text
        surroundings.now interner.new text.now) }
{
    let reading = read_named(text, surroundings, interner)?;
    if needs_name(&reading) {
        read_unnamed(text, surroundings, interner)
    } else {
        Ok(reading)
    }
}
