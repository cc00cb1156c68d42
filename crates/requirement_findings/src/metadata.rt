//! The metadata of a package, checked field by field.

ghost use Rattle.std.specs.Prelude.{◌≡◌, IfOk, is_some};
ghost use Rattle.requirement_findings.specs.Metadata as spec;
ghost use Rattle.requirement_findings.specs.Metadata.{ChecksField, ChecksMetadata};
ghost use Rattle.requirement_findings.specs.declared.name.FindingName.TheVariants.{InvalidName, RepeatedField};

use crate::finding::{CheckLines, CheckedText, Finding, Origin};
use crate::name::FindingName;
use metadata_files::{Field, FieldKind, read_headers};
use pep508_names::{ExtraName, PackageName};
use refusal::{Refusal, unless_fault};
use requirement_lines::{Piece, Place, Source};
use std::alloc::{AllocError, Global};
use std::collections::BTreeSet;

/// A field of metadata that was checked.
#[derive(Drop)]
pub struct CheckedField<'a> {
    pub field: Field<'a>,
    /// The findings in it, and the list entry of a requirement.
    pub checked: CheckedText,
}

/// The metadata of a package that was checked.
#[derive(Drop)]
pub struct CheckedMetadata<'a> {
    /// Each field, in order.
    pub fields: Vec<CheckedField<'a>>,
    /// The finding about the line that ended the headers, if that is not empty.
    pub stray: Option<Finding>,
}

// What was seen in earlier fields.
#[derive(Drop)]
struct Seen {
    has_name: bool,
    has_python: bool,
    extras: BTreeSet<ExtraName>,
}

// A finding about a part of the file.
fn finding_at(
    alloc: Global,
    name: FindingName,
    message: &str,
    part: Piece<'_>,
) -> Result<Finding, AllocError>
    ensures { IfOk result (λ finding. finding.name ≡ name) }
{
    let end = Place {
        to_end: part.place.to_end.saturating_sub(part.text.len()),
        source: Source::File,
    };
    Ok(Finding {
        name,
        message: String::from_str(alloc, message)?,
        start: part.place,
        end,
        earlier: None,
    })
}

// One finding, about a part of the file.
fn only(
    alloc: Global,
    name: FindingName,
    message: &str,
    part: Piece<'_>,
) -> Result<Vec<Finding>, AllocError>
    ensures { IfOk result (λ findings. spec.IsOnly name findings.items) }
{
    let mut findings = Vec::new(alloc);
    findings.push(finding_at(alloc, name, message, part)?)?;
    Ok(findings)
}

fn repeated_field(alloc: Global, field: &Field<'_>) -> Result<Vec<Finding>, AllocError>
    ensures { IfOk result (λ findings. spec.IsOnly RepeatedField findings.items) }
{
    let message = "An earlier field has this name";
    only(alloc, FindingName::RepeatedField, message, field.name)
}

fn invalid_name(alloc: Global, value: Piece<'_>) -> Result<Vec<Finding>, AllocError>
    ensures { IfOk result (λ findings. spec.IsOnly InvalidName findings.items) }
{
    let message = "Expected a name of ASCII letters, digits, `-`, `_` and `.`, with a letter or \
digit at each end";
    only(alloc, FindingName::InvalidName, message, value)
}

// The findings in the name of the package.
fn check_name(alloc: Global, value: Piece<'_>) -> Result<Vec<Finding>, AllocError>
    ensures { IfOk result (λ findings.
        spec.FindsInName value.entry.text.now findings.items) }
{
    match unless_fault(PackageName::parse(alloc, value.text))? {
        Some(_) => Ok(Vec::new(alloc)),
        None => invalid_name(alloc, value),
    }
}

// The findings in the name of an extra, which is now seen.
fn check_extra(
    alloc: Global,
    value: Piece<'_>,
    seen: &mut BTreeSet<ExtraName>,
) -> Result<Vec<Finding>, AllocError>
    ensures { IfOk result (λ findings.
        spec.FindsInExtra value.entry.text.now findings.items) }
{
    let Some(name) = unless_fault(ExtraName::parse(alloc, value.text))? else {
        return invalid_name(alloc, value);
    };
    if seen.insert(name)? {
        return Ok(Vec::new(alloc));
    }
    let message = "An earlier extra has this name in normal form";
    only(alloc, FindingName::RepeatedExtra, message, value)
}

// Findings without a list entry.
fn unlisted(findings: Vec<Finding>) -> CheckedText
    ensures { result.findings.items ≡ findings.items }
{
    CheckedText {
        findings,
        listed: None,
    }
}

// Checks a field. `provided` are all extras of the package.
fn check_field<'f, C: CheckLines>(
    alloc: Global,
    file: &'f str,
    field: &Field<'f>,
    provided: &BTreeSet<ExtraName>,
    seen: &mut Seen,
    checker: &mut C,
) -> Result<CheckedText, AllocError>
    ensures { IfOk result
        (λ c. ChecksField C.checks_text C.finds field.now checker.old c checker.new) }
{
    let value = [field.value];
    match field.kind {
        FieldKind::Name if seen.has_name => Ok(unlisted(repeated_field(alloc, field)?)),
        FieldKind::Name => {
            seen.has_name = true;
            Ok(unlisted(check_name(alloc, field.value)?))
        }
        FieldKind::RequiresPython if seen.has_python => {
            Ok(unlisted(repeated_field(alloc, field)?))
        }
        FieldKind::RequiresPython => {
            seen.has_python = true;
            Ok(unlisted(checker.check_specifiers(alloc, file, &value)?))
        }
        FieldKind::ProvidesExtra => {
            Ok(unlisted(check_extra(alloc, field.value, &mut seen.extras)?))
        }
        FieldKind::RequiresDist => {
            checker.check_requirement(alloc, file, &value, Origin::Metadata(provided))
        }
        FieldKind::Other => Ok(unlisted(Vec::new(alloc))),
    }
}

// The extras of the package.
fn extras_of(alloc: Global, fields: &[Field<'_>]) -> Result<BTreeSet<ExtraName>, AllocError> {
    let mut extras = BTreeSet::new(alloc);
    for index in 0..fields.len() {
        let field = fields[index];
        if field.kind == FieldKind::ProvidesExtra {
            if let Some(name) = unless_fault(ExtraName::parse(alloc, field.value.text))? {
                extras.insert(name)?;
            }
        }
    }
    Ok(extras)
}

// The finding about a line that is no header, up to its line break.
fn stray_finding(alloc: Global, line: Piece<'_>) -> Result<Finding, AllocError> {
    let is_break = |c: char| c == '\r' || c == '\n';
    let text = match line.text.split_once(is_break) {
        Some((text, _)) => text,
        None => line.text,
    };
    let part = Piece {
        text,
        place: line.place,
    };
    let message = "Expected a header, such as `Name: VALUE`, or an empty line";
    finding_at(alloc, FindingName::InvalidHeader, message, part)
}

// The finding about the line that ended the headers, if there is one.
fn find_stray(alloc: Global, stray: Option<Piece<'_>>) -> Result<Option<Finding>, AllocError>
    ensures { IfOk result (λ finding. is_some finding ≡ is_some stray.entry) }
{
    match stray {
        Some(line) => Ok(Some(stray_finding(alloc, line)?)),
        None => Ok(None),
    }
}

/// Checks the metadata of a package: each field of its headers, in order. A requirement may come
/// before the extras that its marker requests.
pub fn check_metadata<'f, C: CheckLines>(
    alloc: Global,
    file: &'f str,
    checker: &mut C,
) -> Result<CheckedMetadata<'f>, AllocError>
    ensures { IfOk result
        (λ c. ChecksMetadata C.checks_text C.finds file.now checker.old c checker.new) }
{
    let headers = read_headers(alloc, file)?;
    let provided = extras_of(alloc, headers.fields.as_slice())?;
    let mut seen = Seen {
        has_name: false,
        has_python: false,
        extras: BTreeSet::new(alloc),
    };
    let mut fields = Vec::new(alloc);
    for index in 0..headers.fields.len() {
        let field = headers.fields[index];
        let checked = check_field(alloc, file, &field, &provided, &mut seen, checker)?;
        fields.push(CheckedField { field, checked })?;
    }
    let stray = find_stray(alloc, headers.stray)?;
    Ok(CheckedMetadata { fields, stray })
}
