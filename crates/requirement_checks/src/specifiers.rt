//! Findings in version specifiers.

ghost use Rattle.std.specs.Prelude.{◌≡◌, ◌∷◌, [], IfOk};
ghost use Rattle.requirement_findings.specs.declared.name.FindingName.TheVariants.{InvalidSpecifiers};
ghost use Rattle.requirement_checks.specs.Findings.{names_of};
ghost use Rattle.requirement_checks.specs.Specifiers.{FindsInSpecifiers};

use crate::messages::{finding_at, fixed_at};
use crate::part::Page;
use refusal::Refusal;
use requirement_findings::{Finding, FindingName};
use requirement_words::{Fault, read_specifiers};
use std::alloc::{AllocError, Global};
use std::string::ToString;

// The finding about text after specifiers.
fn trailing(
    alloc: Global,
    page: &Page<'_, '_>,
    text: &str,
    rest: &str,
) -> Result<Vec<Finding>, AllocError>
    ensures { IfOk result (λ findings. names_of findings.items ≡ InvalidSpecifiers ∷ []) }
{
    let start = text.len().saturating_sub(rest.len());
    let message = "Expected a comma or the end after the version specifier";
    let part = page.part(start, rest.len());
    let mut findings = Vec::new(alloc);
    findings.push(fixed_at(alloc, FindingName::InvalidSpecifiers, message, part)?)?;
    Ok(findings)
}

// The finding about a specifier that is invalid.
fn invalid(
    alloc: Global,
    page: &Page<'_, '_>,
    text: &str,
    fault: &Fault<'_>,
) -> Result<Vec<Finding>, AllocError>
    ensures { IfOk result (λ findings. names_of findings.items ≡ InvalidSpecifiers ∷ []) }
{
    let message = fault.to_string(alloc)?;
    let piece = fault.place.piece;
    let space = piece.len().saturating_sub(piece.trim_start().len());
    let start = fault.place.start(text).saturating_add(space);
    let part = page.part(start, piece.trim().len());
    let mut findings = Vec::new(alloc);
    findings.push(finding_at(FindingName::InvalidSpecifiers, message, part))?;
    Ok(findings)
}

// The findings in version specifiers with commas between them.
#[tactic(auto, using(crate::proofs::SpecifierLaws::specifier_findings))]
pub(crate) fn specifier_findings(
    alloc: Global,
    page: &Page<'_, '_>,
    text: &str,
) -> Result<Vec<Finding>, AllocError>
    ensures { IfOk result (λ findings. FindsInSpecifiers text.now (names_of findings.items)) }
{
    if text.is_empty() {
        return Ok(Vec::new(alloc));
    }
    match read_specifiers(alloc, text, ';') {
        Ok((_, rest)) if rest.is_empty() => Ok(Vec::new(alloc)),
        Ok((_, rest)) => trailing(alloc, page, text, rest),
        Err(Refusal::Fault(fault)) => invalid(alloc, page, text, &fault),
        Err(_) => Err(AllocError),
    }
}
