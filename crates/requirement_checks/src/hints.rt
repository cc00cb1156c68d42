//! Hints on valid requirements.

ghost use Rattle.std.specs.Prelude.{◌≡◌, IfOk, OnOk};
ghost use Rattle.requirement_checks.specs.Findings.{HasName};
ghost use Rattle.requirement_checks.specs.Lines.{AddsHints, IsHint};
ghost use Rattle.requirement_findings.specs.declared.name.FindingName.TheVariants.{RepeatedRequirement};

use crate::messages::{fixed_at, hint_message};
use crate::part::Page;
use crate::reading::Reading;
use crate::repeated::{Earlier, Repeat};
use crate::texts::{ExtraRequest, TextHint, extra_requests, text_hints};
use crate::url_and_marker::{marker_start, url_of};
use marker_graph::MarkerTree;
use pep508_errors::Surroundings;
use pep508_names::ExtraName;
use pep508_requirements::VersionOrUrl;
use pep508_urls::VerbatimUrl;
use refusal::unless_fault;
use requirement_findings::{Finding, FindingName, Origin, Severity};
use std::alloc::{AllocError, Global};
use std::collections::BTreeSet;

// A valid requirement, for hints.
#[derive(Clone, Copy)]
pub(crate) struct Subject<'a> {
    pub(crate) text: &'a str,
    pub(crate) reading: &'a Reading<VerbatimUrl>,
    // The number of its line.
    pub(crate) number: usize,
    pub(crate) is_constraint: bool,
    // Where it comes from, if it is no line of a requirements file.
    pub(crate) origin: Option<Origin<'a>>,
}

// Whether the requirement has a URL, if one was read.
fn has_url(reading: &Reading<VerbatimUrl>) -> Option<bool> {
    match reading {
        Reading::Named(requirement, _) => Some(matches!(
            requirement.version_or_url,
            Some(VersionOrUrl::Url(_))
        )),
        Reading::Unnamed(_, _) => Some(true),
        _ => None,
    }
}

// The marker of the requirement, unless it has warnings.
fn marker_of(reading: &Reading<VerbatimUrl>) -> Option<MarkerTree> {
    match reading {
        Reading::Named(requirement, warnings) if warnings.is_empty() => Some(requirement.marker),
        Reading::Unnamed(requirement, warnings) if warnings.is_empty() => Some(requirement.marker),
        _ => None,
    }
}

// Appends a hint on a part of the text.
fn add_hint(
    alloc: Global,
    page: &Page<'_, '_>,
    name: FindingName,
    start: usize,
    size: usize,
    findings: &mut Vec<Finding>,
) -> Result<(), AllocError>
    requires { IsHint name }
    ensures { OnOk result (AddsHints findings.old.items findings.new.items) }
{
    let part = page.part(start, size);
    let hint = fixed_at(alloc, name, hint_message(name), part)?;
    findings.push(hint)?;
    Ok(())
}

// Appends that a marker is never true, or always.
#[tactic(auto, using(crate::proofs::LineLaws::hints_none))]
fn add_truth(
    alloc: Global,
    page: &Page<'_, '_>,
    tree: MarkerTree,
    start: usize,
    size: usize,
    findings: &mut Vec<Finding>,
) -> Result<(), AllocError>
    ensures { OnOk result (AddsHints findings.old.items findings.new.items) }
{
    if tree.is_false() {
        add_hint(alloc, page, FindingName::NeverTrue, start, size, findings)
    } else if tree.is_true() {
        add_hint(alloc, page, FindingName::AlwaysTrue, start, size, findings)
    } else {
        Ok(())
    }
}

// Appends a hint on a part of the text, if its name is that of a hint.
#[tactic(auto, using(crate::proofs::LineLaws::hints_none))]
fn add_part(
    alloc: Global,
    page: &Page<'_, '_>,
    hint: TextHint,
    findings: &mut Vec<Finding>,
) -> Result<(), AllocError>
    ensures { OnOk result (AddsHints findings.old.items findings.new.items) }
{
    if hint.name.severity() == Severity::Hint {
        add_hint(alloc, page, hint.name, hint.start, hint.size, findings)
    } else {
        Ok(())
    }
}

// Appends hints on parts of the text.
fn add_parts(
    alloc: Global,
    page: &Page<'_, '_>,
    hints: &[TextHint],
    findings: &mut Vec<Finding>,
) -> Result<(), AllocError>
    ensures { OnOk result (AddsHints findings.old.items findings.new.items) }
{
    for index in 0..hints.len() {
        add_part(alloc, page, hints[index], findings)?;
    }
    Ok(())
}

// Appends the hints on the text of a requirement.
fn add_text_hints(
    alloc: Global,
    page: &Page<'_, '_>,
    text: &str,
    has_url: bool,
    findings: &mut Vec<Finding>,
) -> Result<(), AllocError>
    ensures { OnOk result (AddsHints findings.old.items findings.new.items) }
{
    let hints = text_hints(alloc, text, has_url)?;
    add_parts(alloc, page, hints.as_slice(), findings)
}

// Appends whether the marker of a requirement is never true, or always, unless it has warnings.
#[tactic(auto, using(crate::proofs::LineLaws::hints_none))]
fn add_marker_hints(
    alloc: Global,
    page: &Page<'_, '_>,
    text: &str,
    has_url: bool,
    marker: Option<MarkerTree>,
    findings: &mut Vec<Finding>,
) -> Result<(), AllocError>
    ensures { OnOk result (AddsHints findings.old.items findings.new.items) }
{
    match (marker_start(text, has_url), marker) {
        (Some(start), Some(tree)) => {
            let size = text.len().saturating_sub(start);
            add_truth(alloc, page, tree, start, size, findings)
        }
        _ => Ok(()),
    }
}

// Appends the hints on the text of a requirement, and on its marker.
#[tactic(auto, using(crate::proofs::LineLaws::hints_none))]
fn add_own_hints(
    alloc: Global,
    page: &Page<'_, '_>,
    subject: Subject<'_>,
    findings: &mut Vec<Finding>,
) -> Result<(), AllocError>
    ensures { OnOk result (AddsHints findings.old.items findings.new.items) }
{
    let Some(has_url) = has_url(subject.reading) else {
        return Ok(());
    };
    let marker = marker_of(subject.reading);
    add_text_hints(alloc, page, subject.text, has_url, findings)?;
    add_marker_hints(alloc, page, subject.text, has_url, marker, findings)?;
    Ok(())
}

// The name of a requirement that counts for those that come again.
fn counted_name<'a>(subject: &Subject<'a>) -> Option<&'a str> {
    let counts = !subject.is_constraint && subject.origin.is_none();
    match subject.reading {
        Reading::Named(requirement, _) if counts => { Some(requirement.name.as_str()) }
        _ => None,
    }
}

// A hint that an earlier requirement may hold together with this one.
fn repeated(alloc: Global, page: &Page<'_, '_>, repeat: Repeat) -> Result<Finding, AllocError>
    ensures { IfOk result (HasName RepeatedRequirement) }
{
    let name = FindingName::RepeatedRequirement;
    let message = String::from_str(alloc, hint_message(name))?;
    let part = page.whole();
    Ok(Finding {
        name,
        message,
        start: part.start,
        end: part.end,
        earlier: repeat.earlier,
    })
}

// Appends that the extra of a comparison is not provided.
#[tactic(auto, using(crate::proofs::LineLaws::hints_none))]
fn add_request(
    alloc: Global,
    page: &Page<'_, '_>,
    request: ExtraRequest<'_>,
    provided: &BTreeSet<ExtraName>,
    findings: &mut Vec<Finding>,
) -> Result<(), AllocError>
    ensures { OnOk result (AddsHints findings.old.items findings.new.items) }
{
    if is_provided(alloc, request.name, provided)? {
        return Ok(());
    }
    let name = FindingName::UnprovidedExtra;
    add_hint(alloc, page, name, request.start, request.size, findings)
}

// Whether a package with these extras provides the one of this name, in any spelling.
fn is_provided(
    alloc: Global,
    name: &str,
    provided: &BTreeSet<ExtraName>,
) -> Result<bool, AllocError> {
    match unless_fault(ExtraName::parse(alloc, name))? {
        Some(name) => Ok(provided.contains(&name)),
        // A warning reports an invalid name.
        None => Ok(true),
    }
}

// Appends each extra that is requested and not provided.
fn add_requests(
    alloc: Global,
    page: &Page<'_, '_>,
    requests: &[ExtraRequest<'_>],
    provided: &BTreeSet<ExtraName>,
    findings: &mut Vec<Finding>,
) -> Result<(), AllocError>
    ensures { OnOk result (AddsHints findings.old.items findings.new.items) }
{
    for index in 0..requests.len() {
        add_request(alloc, page, requests[index], provided, findings)?;
    }
    Ok(())
}

// Appends that a requirement of metadata has a URL.
#[tactic(auto, using(crate::proofs::LineLaws::hints_none))]
fn add_url(
    alloc: Global,
    page: &Page<'_, '_>,
    text: &str,
    has_url: bool,
    findings: &mut Vec<Finding>,
) -> Result<(), AllocError>
    ensures { OnOk result (AddsHints findings.old.items findings.new.items) }
{
    if !has_url {
        return Ok(());
    }
    let (url, rest) = url_of(text);
    let end = text.len().saturating_sub(rest.len());
    let start = end.saturating_sub(url.len());
    add_hint(
        alloc,
        page,
        FindingName::UrlRequirement,
        start,
        url.len(),
        findings,
    )
}

// Appends the hints on a requirement of metadata.
#[tactic(auto, using(crate::proofs::LineLaws::hints_none))]
fn add_package_hints(
    alloc: Global,
    page: &Page<'_, '_>,
    subject: Subject<'_>,
    findings: &mut Vec<Finding>,
) -> Result<(), AllocError>
    ensures { OnOk result (AddsHints findings.old.items findings.new.items) }
{
    let Some(Origin::Metadata(provided)) = subject.origin else {
        return Ok(());
    };
    let Some(has_url) = has_url(subject.reading) else {
        return Ok(());
    };
    let requests = extra_requests(alloc, subject.text, has_url)?;
    add_url(alloc, page, subject.text, has_url, findings)?;
    add_requests(alloc, page, requests.as_slice(), provided, findings)?;
    Ok(())
}

// Appends whether a requirement with a name may hold together with an earlier one. Constraints do
// not count.
#[tactic(auto, using(crate::proofs::LineLaws::hints_none))]
fn add_repeat(
    alloc: Global,
    page: &Page<'_, '_>,
    subject: Subject<'_>,
    surroundings: &Surroundings<'_>,
    earlier: &mut Earlier,
    findings: &mut Vec<Finding>,
) -> Result<(), AllocError>
    ensures { OnOk result (AddsHints findings.old.items findings.new.items) }
{
    let Some(name) = counted_name(&subject) else {
        return Ok(());
    };
    let (text, number) = (subject.text, subject.number);
    let Some(repeat) = earlier.meet(alloc, surroundings, name, text, number)? else {
        return Ok(());
    };
    let hint = repeated(alloc, page, repeat)?;
    findings.push(hint)?;
    Ok(())
}

// Appends all hints on a valid requirement.
pub(crate) fn add_hints(
    alloc: Global,
    page: &Page<'_, '_>,
    subject: Subject<'_>,
    surroundings: &Surroundings<'_>,
    earlier: &mut Earlier,
    findings: &mut Vec<Finding>,
) -> Result<(), AllocError>
    ensures { OnOk result (AddsHints findings.old.items findings.new.items) }
{
    add_own_hints(alloc, page, subject, findings)?;
    add_package_hints(alloc, page, subject, findings)?;
    add_repeat(alloc, page, subject, surroundings, earlier, findings)?;
    Ok(())
}
