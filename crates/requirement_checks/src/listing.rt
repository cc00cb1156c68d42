//! The list entry of a requirement.

ghost use Rattle.marker_graph.specs.Contents.{IsHeld};
ghost use Rattle.requirement_checks.specs.Findings.{HoldsMarker};

use crate::part::Page;
use crate::reading::Reading;
use crate::secrets::without_passwords;
use crate::url_and_marker::{marker_start, url_of};
use marker_graph::{Interner, MarkerTree};
use pep440_specifier::VersionSpecifiers;
use pep508_markers::MarkerText;
use pep508_names::ExtraName;
use pep508_requirements::{Requirement, UnnamedRequirement, VersionOrUrl};
use pep508_urls::VerbatimUrl;
use requirement_findings::Listed;
use requirement_lines::{Piece, Source, text_of};
use requirement_options::{Content, FileLine, LineOption, OptionKind};
use std::alloc::{AllocError, Global};
use std::string::ToString;

// A stretch of the text of a requirement.
#[derive(Clone, Copy)]
struct Stretch {
    start: usize,
    size: usize,
}

// The stretches of the text of a requirement: its front, with name and extras, its specifiers, its
// URL and its marker.
#[derive(Clone, Copy)]
struct Stretches {
    front: Stretch,
    specifiers: Stretch,
    url: Stretch,
    marker: Stretch,
}

// Whether a text is shown, and the part of the file for the text of a requirement.
#[derive(Clone, Copy)]
struct View<'v, 'p, 'f> {
    page: &'v Page<'p, 'f>,
    shows_values: bool,
}

impl View<'_, '_, '_> {
    // Whether a stretch of the text may be shown.
    fn shows(&self, stretch: Stretch) -> bool {
        self.shows_values
            || self
                .page
                .part(stretch.start, stretch.size)
                .variable
                .is_none()
    }

    // The text, if this stretch may be shown.
    fn text(
        &self,
        alloc: Global,
        stretch: Stretch,
        text: &str,
    ) -> Result<Option<String>, AllocError> {
        if self.shows(stretch) {
            Ok(Some(without_passwords(alloc, text)?))
        } else {
            Ok(None)
        }
    }

    // The URL as it is given; as in the file, if values are not shown.
    fn given(&self, alloc: Global, stretch: Stretch, given: &str) -> Result<String, AllocError> {
        if self.shows(stretch) {
            without_passwords(alloc, given)
        } else {
            without_passwords(alloc, self.page.as_written(stretch.start, stretch.size))
        }
    }
}

// A stretch from one byte to another.
fn between(start: usize, end: usize) -> Stretch {
    Stretch {
        start,
        size: end.saturating_sub(start),
    }
}

// Where the name and the extras of a requirement end.
fn front_end(text: &str) -> usize {
    if let Some((front, _)) = text.split_once(']') {
        if !front.contains([';', '@', '<', '>', '=', '~', '!', '('].as_slice()) {
            return front.len().saturating_add(1);
        }
    }
    let ends = |c: char| matches!(c, ';' | '@' | '<' | '>' | '=' | '~' | '!' | '(');
    text.find(ends).unwrap_or(text.len())
}

// The stretches of a requirement with a URL or without one.
fn stretches_of(text: &str, has_url: bool, has_name: bool) -> Stretches {
    let marker = marker_start(text, has_url).unwrap_or(text.len());
    let (url, rest) = if has_url { url_of(text) } else { ("", "") };
    let url_end = text.len().saturating_sub(rest.len());
    let url_start = url_end.saturating_sub(url.len());
    let front = if has_name { front_end(text) } else { 0 };
    Stretches {
        front: between(0, front),
        specifiers: between(front, marker),
        url: between(url_start, url_end),
        marker: between(marker, text.len()),
    }
}

// The extras, if they are shown.
fn extras_of(
    alloc: Global,
    extras: &[ExtraName],
    is_shown: bool,
) -> Result<Vec<String>, AllocError> {
    let mut texts = Vec::new(alloc);
    if is_shown {
        for index in 0..extras.len() {
            texts.push(String::from_str(alloc, extras[index].as_str())?)?;
        }
    }
    Ok(texts)
}

// The specifiers, if they are shown.
fn specifiers_of(
    alloc: Global,
    specifiers: &VersionSpecifiers,
    is_shown: bool,
) -> Result<Vec<String>, AllocError> {
    let mut texts = Vec::new(alloc);
    if is_shown {
        let list = specifiers.as_slice();
        for index in 0..list.len() {
            texts.push(list[index].to_string(alloc)?)?;
        }
    }
    Ok(texts)
}

// The arguments of the options `--hash`; as in the file, if values are not shown.
fn hashes_of(
    alloc: Global,
    file: &str,
    options: &[LineOption<'_>],
    shows_values: bool,
) -> Result<Vec<String>, AllocError> {
    let mut hashes = Vec::new(alloc);
    for index in 0..options.len() {
        let option = &options[index];
        if option.kind == OptionKind::Hash {
            if let Some(pieces) = &option.argument {
                hashes.push(argument_of(alloc, file, pieces.as_slice(), shows_values)?)?;
            }
        }
    }
    Ok(hashes)
}

// The text of an argument; as in the file, if values are not shown.
fn argument_of(
    alloc: Global,
    file: &str,
    pieces: &[Piece<'_>],
    shows_values: bool,
) -> Result<String, AllocError> {
    if shows_values
        || pieces
            .iter()
            .all(|piece| piece.place.source == Source::File)
    {
        return text_of(alloc, pieces);
    }
    let page = Page {
        file,
        pieces,
        size: text_of(alloc, pieces)?.len(),
    };
    String::from_str(alloc, page.as_written(0, page.size))
}

// The list entry of a line, except for the requirement itself.
fn rest_of(
    alloc: Global,
    file: &str,
    line: &FileLine<'_>,
    is_constraint: bool,
    shows_values: bool,
) -> Result<Listed, AllocError> {
    Ok(Listed {
        name: None,
        extras: Vec::new(alloc),
        specifiers: Vec::new(alloc),
        url: None,
        given_url: None,
        marker: None,
        text: None,
        hashes: hashes_of(alloc, file, line.options.as_slice(), shows_values)?,
        is_editable: matches!(line.content, Content::Editable(_)),
        is_constraint,
    })
}

// Lists the URL of a requirement.
fn list_url(
    alloc: Global,
    view: &View<'_, '_, '_>,
    stretch: Stretch,
    url: &VerbatimUrl,
    listed: &mut Listed,
) -> Result<(), AllocError> {
    let text = url.to_string(alloc)?;
    listed.url = view.text(alloc, stretch, text.as_str())?;
    if let Some(given) = url.given() {
        listed.given_url = Some(view.given(alloc, stretch, given)?);
    }
    Ok(())
}

// Lists the marker of a requirement.
fn list_marker(
    alloc: Global,
    view: &View<'_, '_, '_>,
    stretch: Stretch,
    marker: MarkerTree,
    interner: &Interner,
    listed: &mut Listed,
) -> Result<(), AllocError>
    requires { IsHeld interner.now marker }
{
    if let Some(text) = marker.try_to_string(interner)? {
        listed.marker = view.text(alloc, stretch, text.as_str())?;
    }
    Ok(())
}

// Lists a requirement with a name.
fn list_named(
    alloc: Global,
    view: &View<'_, '_, '_>,
    text: &str,
    requirement: &Requirement<VerbatimUrl>,
    interner: &Interner,
    listed: &mut Listed,
) -> Result<(), AllocError>
    requires { IsHeld interner.now requirement.now.marker }
{
    let has_url = matches!(requirement.version_or_url, Some(VersionOrUrl::Url(_)));
    let parts = stretches_of(text, has_url, true);
    listed.name = view.text(alloc, parts.front, requirement.name.as_str())?;
    listed.extras = extras_of(alloc, &requirement.extras, view.shows(parts.front))?;
    match &requirement.version_or_url {
        Some(VersionOrUrl::VersionSpecifier(specifiers)) => {
            listed.specifiers = specifiers_of(alloc, specifiers, view.shows(parts.specifiers))?;
        }
        Some(VersionOrUrl::Url(url)) => list_url(alloc, view, parts.url, url, listed)?,
        None => {}
    }
    list_marker(
        alloc,
        view,
        parts.marker,
        requirement.marker,
        interner,
        listed,
    )?;
    let normal = requirement.try_to_string(interner)?;
    listed.text = view.text(alloc, between(0, text.len()), normal.as_str())?;
    Ok(())
}

// Lists a requirement without a name.
fn list_unnamed(
    alloc: Global,
    view: &View<'_, '_, '_>,
    text: &str,
    requirement: &UnnamedRequirement<VerbatimUrl>,
    interner: &Interner,
    listed: &mut Listed,
) -> Result<(), AllocError>
    requires { IsHeld interner.now requirement.now.marker }
{
    let parts = stretches_of(text, true, false);
    listed.extras = extras_of(alloc, &requirement.extras, view.shows(parts.url))?;
    list_url(alloc, view, parts.url, &requirement.url, listed)?;
    list_marker(
        alloc,
        view,
        parts.marker,
        requirement.marker,
        interner,
        listed,
    )?;
    let normal = requirement.try_to_string(interner)?;
    listed.text = view.text(alloc, between(0, text.len()), normal.as_str())?;
    Ok(())
}

// Lists what was read of a requirement. Returns whether there is something to list: an invalid one
// has nothing.
fn list_reading(
    alloc: Global,
    view: &View<'_, '_, '_>,
    text: &str,
    reading: &Reading<VerbatimUrl>,
    interner: &Interner,
    listed: &mut Listed,
) -> Result<bool, AllocError>
    requires { HoldsMarker interner.now reading.now }
{
    match reading {
        Reading::Named(named, _) => list_named(alloc, view, text, named, interner, listed)?,
        Reading::Unnamed(unnamed, _) => list_unnamed(alloc, view, text, unnamed, interner, listed)?,
        Reading::Invalid(_) | Reading::NumberTooLarge => return Ok(false),
    }
    Ok(true)
}

// The list entry of a requirement; `None` for an invalid one.
pub(crate) fn listed_of(
    alloc: Global,
    page: &Page<'_, '_>,
    reading: &Reading<VerbatimUrl>,
    interner: &Interner,
    line: &FileLine<'_>,
    is_constraint: bool,
    shows_values: bool,
) -> Result<Option<Listed>, AllocError>
    requires { HoldsMarker interner.now reading.now }
{
    let text = text_of(alloc, page.pieces)?;
    let mut listed = rest_of(alloc, page.file, line, is_constraint, shows_values)?;
    let view = View { page, shows_values };
    let is_listed = list_reading(alloc, &view, text.as_str(), reading, interner, &mut listed)?;
    Ok(is_listed.then_some(listed))
}
