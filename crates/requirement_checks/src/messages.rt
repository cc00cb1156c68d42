//! Findings of the parsers, with their messages, and the messages of hints.

ghost use Rattle.std.specs.Prelude.{◌≡◌, ◌∷◌, [], IfOk, OnOk};
ghost use Rattle.requirement_checks.specs.Findings.{names_in, warning_name, warning_names, Gains, HasName};
ghost use Rattle.requirement_checks.specs.Reading.{kinds_of};
ghost use Rattle.requirement_findings.specs.declared.name.FindingName.TheVariants.{InvalidRequirement, TooComplex};

use crate::part::{Page, Part};
use crate::reading::Reading;
use crate::secrets::without_passwords;
use pep508_errors::{MarkerWarningKind, Pep508Error, Pep508Url};
use pep508_urls::UnnamedRequirementUrl;
use requirement_findings::{Finding, FindingName};
use std::alloc::{AllocError, Global};
use std::string::ToString;

// A finding of this name at a part of a requirement.
pub(crate) fn finding_at(name: FindingName, message: String, part: Part<'_>) -> Finding
    ensures { result.name ≡ name }
{
    Finding {
        name,
        message,
        start: part.start,
        end: part.end,
        earlier: None,
    }
}

// A finding of this name with a fixed message, at a part of a requirement.
pub(crate) fn fixed_at(
    alloc: Global,
    name: FindingName,
    message: &str,
    part: Part<'_>,
) -> Result<Finding, AllocError>
    ensures { IfOk result (HasName name) }
{
    let message = String::from_str(alloc, message)?;
    Ok(finding_at(name, message, part))
}

// The error of an invalid requirement. A fault within the value of a variable is reported without
// the text that it quotes.
fn error_at<T: Pep508Url>(
    alloc: Global,
    page: &Page<'_, '_>,
    error: &Pep508Error<T>,
) -> Result<Finding, AllocError>
    ensures { IfOk result (HasName InvalidRequirement) }
{
    let part = page.part(error.start, error.len);
    let message = match part.variable {
        Some(variable) => format!(in alloc; "Invalid requirement, in the value of {variable}}}")?,
        None => {
            let message = error.message.to_string(alloc)?;
            without_passwords(alloc, message.as_str())?
        }
    };
    Ok(finding_at(FindingName::InvalidRequirement, message, part))
}

// The name of a warning.
fn name_of_warning(kind: MarkerWarningKind) -> FindingName
    ensures { result ≡ warning_name kind }
{
    match kind {
        MarkerWarningKind::DeprecatedMarkerName => FindingName::DeprecatedMarkerName,
        MarkerWarningKind::ExtraInvalidComparison => FindingName::InvalidExtraComparison,
        MarkerWarningKind::LexicographicComparison => FindingName::LexicographicComparison,
        MarkerWarningKind::MarkerMarkerComparison => FindingName::MarkerMarkerComparison,
        MarkerWarningKind::Pep440Error => FindingName::InvalidVersionComparison,
        MarkerWarningKind::StringStringComparison => FindingName::StringStringComparison,
    }
}

// A warning, which has no place of its own. Its text quotes nothing of the requirement.
fn warning_at(
    alloc: Global,
    page: &Page<'_, '_>,
    kind: MarkerWarningKind,
    message: &str,
) -> Result<Finding, AllocError>
    ensures { IfOk result (HasName (warning_name kind)) }
{
    fixed_at(alloc, name_of_warning(kind), message, page.whole())
}

// Appends the warnings of a marker.
fn add_warnings(
    alloc: Global,
    page: &Page<'_, '_>,
    warnings: &[(MarkerWarningKind, String)],
    findings: &mut Vec<Finding>,
) -> Result<(), AllocError>
    ensures { OnOk result
        (Gains (warning_names (kinds_of warnings.now)) findings.old findings.new) }
{
    for index in 0..warnings.len() {
        let (kind, message) = &warnings[index];
        let warning = warning_at(alloc, page, *kind, message.as_str())?;
        findings.push(warning)?;
    }
    Ok(())
}

// Appends the findings of a parsed requirement.
pub(crate) fn add_findings<T: UnnamedRequirementUrl>(
    alloc: Global,
    page: &Page<'_, '_>,
    reading: &Reading<T>,
    findings: &mut Vec<Finding>,
) -> Result<(), AllocError>
    ensures { OnOk result (Gains (names_in reading.now) findings.old findings.new) }
{
    match reading {
        Reading::Named(_, warnings) => add_warnings(alloc, page, warnings.as_slice(), findings),
        Reading::Unnamed(_, warnings) => add_warnings(alloc, page, warnings.as_slice(), findings),
        Reading::Invalid(error) => {
            let found = error_at(alloc, page, error)?;
            findings.push(found)?;
            Ok(())
        }
        Reading::NumberTooLarge => {
            let message = "18446744073709551615 is the largest number of a version";
            let found = fixed_at(alloc, FindingName::NumberTooLarge, message, page.whole())?;
            findings.push(found)?;
            Ok(())
        }
    }
}

// Appends that the marker needs more room than it may have.
pub(crate) fn add_too_complex(
    alloc: Global,
    part: Part<'_>,
    findings: &mut Vec<Finding>,
) -> Result<(), AllocError>
    ensures { OnOk result (Gains (TooComplex ∷ []) findings.old findings.new) }
{
    let message = "The marker is too complex";
    findings.push(fixed_at(alloc, FindingName::TooComplex, message, part)?)?;
    Ok(())
}

/// Returns the message of a hint; an empty text if the name is not of a hint.
pub fn hint_message(name: FindingName) -> &'static str {
    match name {
        FindingName::ControlCharacter => "A quoted text has a control character",
        FindingName::MarkerInUrl => {
            "What follows the `;` is part of the URL: a marker needs white space before its `;`"
        }
        FindingName::VersionList => "Commas do not separate the versions of a list: write spaces",
        FindingName::VersionAsText => {
            "This key is a text, so a version is compared with it character by character"
        }
        FindingName::NeverTrue => "The marker is never true",
        FindingName::AlwaysTrue => "The marker is always true",
        FindingName::RepeatedRequirement => {
            "An earlier requirement of this name may hold at the same time"
        }
        FindingName::ThreeNumbers => {
            "`python_version` has two numbers: `python_full_version` has all of them"
        }
        FindingName::UnprovidedExtra => "The package does not provide this extra",
        FindingName::UrlRequirement => "No index accepts a package that requires a URL",
        _ => "",
    }
}
