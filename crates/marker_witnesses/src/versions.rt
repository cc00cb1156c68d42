//! A version between two bounds.

ghost use Rattle.std.specs.Prelude.{IfOk, IfSome};
ghost use Rattle.marker_witnesses.specs.Path.{HasVersion};

use crate::step::VersionStep;
use crate::usual::{USUAL, usual_versions};
use pep440_version::Version;
use std::alloc::{AllocError, Global};
use std::ops::Bound;

// What is appended to the text of a version for one right above it.
static ABOVE: [&str; 3] = [".1", ".0.1", ".post0"];

// The lowest versions.
static LOWEST: [&str; 2] = ["0", "0.dev0"];

// The version of the first text that is one of the step.
fn first_of(
    alloc: Global,
    texts: &[&str],
    step: &VersionStep<'_>,
) -> Result<Option<Version>, AllocError>
    ensures { IfOk result (λ found. IfSome found (HasVersion step.now)) }
{
    for text in texts {
        if let Some(version) = Version::read(alloc, text)? {
            if step.has(&version) {
                return Ok(Some(version));
            }
        }
    }
    Ok(None)
}

// A version of the step right above its lower bound.
fn first_above(alloc: Global, step: &VersionStep<'_>) -> Result<Option<Version>, AllocError>
    ensures { IfOk result (λ found. IfSome found (HasVersion step.now)) }
{
    let Bound::Excluded(version) = step.lower else {
        return Ok(None);
    };
    let text = version.to_string(alloc)?;
    for ending in ABOVE {
        let mut longer = text.clone()?;
        longer.push_str(ending)?;
        let found = first_of(alloc, &[longer.as_str()], step)?;
        if found.is_some() {
            return Ok(found);
        }
    }
    Ok(None)
}

// An included bound, if it is a version of the step.
fn included(bound: Bound<&Version>, step: &VersionStep<'_>) -> Result<Option<Version>, AllocError>
    ensures { IfOk result (λ found. IfSome found (HasVersion step.now)) }
{
    match bound {
        Bound::Included(version) => {
            let version = version.clone()?;
            if step.has(&version) {
                return Ok(Some(version));
            }
            Ok(None)
        }
        _ => Ok(None),
    }
}

/// Returns the version that Python has most often, if it is one of the step.
pub(crate) fn most_usual_version(
    alloc: Global,
    step: &VersionStep<'_>,
) -> Result<Option<Version>, AllocError>
    ensures { IfOk result (λ found. IfSome found (HasVersion step.now)) }
{
    first_of(alloc, &[USUAL.python_full_version], step)
}

/// Returns a version of a step that one may have in mind: an included bound, or a version that
/// Python often has.
pub(crate) fn plain_version(
    alloc: Global,
    step: &VersionStep<'_>,
) -> Result<Option<Version>, AllocError>
    ensures { IfOk result (λ found. IfSome found (HasVersion step.now)) }
{
    for bound in [step.lower, step.upper] {
        let found = included(bound, step)?;
        if found.is_some() {
            return Ok(found);
        }
    }
    first_of(alloc, usual_versions(), step)
}

/// Returns a version between the bounds of a step: an included bound, one that Python often has,
/// one of the lowest, or one right above the lower bound. Returns `None` if none of these is
/// between the bounds.
pub fn version_of(alloc: Global, step: &VersionStep<'_>) -> Result<Option<Version>, AllocError>
    ensures { IfOk result (λ found. IfSome found (HasVersion step.now)) }
{
    let plain = plain_version(alloc, step)?;
    if plain.is_some() {
        return Ok(plain);
    }
    let lowest = first_of(alloc, &LOWEST, step)?;
    if lowest.is_some() {
        return Ok(lowest);
    }
    first_above(alloc, step)
}
