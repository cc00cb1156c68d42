//! Checking the requirement of a line by the library's parsers.

ghost use Rattle.std.specs.Prelude.{IfOk, IfSome, OnOk};
ghost use Rattle.requirement_checks.specs.Findings.{names_told, Gains, HoldsMarker};
ghost use Rattle.requirement_checks.specs.Reading.{ReadsWithin};

use crate::messages::{add_findings, add_too_complex};
use crate::part::Page;
use crate::reading::{Form, Reading, read_named, read_requirement, read_unnamed};
use marker_graph::Interner;
use marker_view::has_room_for_text;
use pep508_errors::Surroundings;
use pep508_urls::UnnamedRequirementUrl;
use requirement_findings::Finding;
use std::alloc::{AllocError, Global};

// Whether the interner has room for the text of what was parsed.
fn can_be_printed<T: UnnamedRequirementUrl>(
    reading: &Reading<T>,
    interner: &Interner,
) -> Result<bool, AllocError>
    requires { HoldsMarker interner.now reading.now }
{
    match reading {
        Reading::Named(named, _) => has_room_for_text(interner, named.marker),
        Reading::Unnamed(unnamed, _) => has_room_for_text(interner, unnamed.marker),
        Reading::Invalid(_) | Reading::NumberTooLarge => Ok(true),
    }
}

// Parses the text. `None` if the interner has no room for its marker, or for a text that is to be
// printed.
fn read_within<T: UnnamedRequirementUrl>(
    text: &str,
    form: Form,
    prints: bool,
    surroundings: &Surroundings<'_>,
    interner: &mut Interner,
) -> Result<Option<Reading<T>>, AllocError>
    ensures held { IfOk result (λ read. IfSome read (HoldsMarker interner.new)) }
    ensures read { IfOk result (ReadsWithin T.names T.tells_size T.may_overflow T.given_text
        surroundings.now form interner.new text.now) }
{
    let read = match form {
        Form::Any => read_requirement(text, surroundings, interner),
        Form::Named => read_named(text, surroundings, interner),
        Form::Unnamed => read_unnamed(text, surroundings, interner),
    };
    match read {
        Ok(reading) => {
            if prints && !can_be_printed(&reading, interner)? {
                return Ok(None);
            }
            Ok(Some(reading))
        }
        Err(_) if interner.has_met_room() => Ok(None),
        Err(error) => Err(error),
    }
}

// Appends the findings of a reading. If there is none, the marker is too complex.
fn add_reading<T: UnnamedRequirementUrl>(
    alloc: Global,
    page: &Page<'_, '_>,
    text: &str,
    read: &Option<Reading<T>>,
    findings: &mut Vec<Finding>,
) -> Result<(), AllocError>
    ensures { OnOk result (Gains (names_told read.now) findings.old findings.new) }
{
    match read {
        Some(reading) => add_findings(alloc, page, reading, findings),
        None => add_too_complex(alloc, page.marker(text), findings),
    }
}

// Checks the text of a requirement by the library's parsers, and appends the findings: each warning
// of its marker, or its error. `None` if the interner has no room for the marker, or for a text
// that is to be printed, which is then the finding.
pub(crate) fn judge<T: UnnamedRequirementUrl>(
    page: &Page<'_, '_>,
    text: &str,
    form: Form,
    prints: bool,
    surroundings: &Surroundings<'_>,
    interner: &mut Interner,
    findings: &mut Vec<Finding>,
) -> Result<Option<Reading<T>>, AllocError>
    ensures held { IfOk result (λ read. IfSome read (HoldsMarker interner.new)) }
    ensures read { IfOk result (ReadsWithin T.names T.tells_size T.may_overflow T.given_text
        surroundings.now form interner.new text.now) }
    ensures told { IfOk result (λ read. Gains (names_told read) findings.old findings.new) }
{
    let alloc = interner.allocator();
    let read = read_within(text, form, prints, surroundings, interner)?;
    add_reading(alloc, page, text, &read, findings)?;
    Ok(read)
}
