//! Requirements as they are written, and findings in them.

ghost use Rattle.std.specs.Prelude.{◌≡◌, IfOk};
ghost use Rattle.requirement_checks.specs.Lines.{requirement_in};
ghost use Rattle.requirement_options.specs.Content.{said_in};
ghost use Rattle.selection_commands.specs.Markers.{requirement_of};

use marker_walks::EnvironmentKey;
use pep508_program::visible;
use requirement_checks::{Finding, FindingName, marker_start, may_have_url};
use requirement_lines::{Piece, Place, Source, place_at, text_of};
use requirement_options::{Content, FileLine};
use std::alloc::{AllocError, Global};

/// A requirement of a file.
#[derive(Clone, Copy)]
pub(crate) struct Stretch<'a, 'f> {
    pub(crate) file: &'f str,
    pub(crate) pieces: &'a [Piece<'f>],
    /// Whether it is the argument of `-e`.
    pub(crate) is_editable: bool,
}

/// Returns the requirement of a line, if it has one.
pub(crate) fn stretch_of<'l, 'f>(file: &'f str, line: &'l FileLine<'f>) -> Option<Stretch<'l, 'f>>
    ensures { requirement_of result ≡ requirement_in (said_in line.now.content) }
{
    let (pieces, is_editable) = match &line.content {
        Content::Requirement(pieces) => (pieces.as_slice(), false),
        Content::Editable(pieces) => (pieces.as_slice(), true),
        _ => return None,
    };
    Some(Stretch {
        file,
        pieces,
        is_editable,
    })
}

// The text of a file from a place on.
fn rest_at(file: &str, place: Place) -> &str {
    let at = file.len().saturating_sub(place.to_end);
    file.split_at_checked(at).map_or("", |halves| halves.1)
}

// The variable at a place, such as `${NAME}`.
fn variable_at(file: &str, place: Place) -> &str {
    let rest = rest_at(file, place);
    let size = rest.find('}').map_or(0, |index| index.saturating_add(1));
    rest.split_at_checked(size).map_or("", |halves| halves.0)
}

// Appends the lines of a text, without the white space around them and with a space between them.
fn push_line(text: &mut String, lines: &str) -> Result<(), AllocError> {
    for (index, line) in lines.lines().enumerate() {
        if index > 0 {
            text.push(' ')?;
        }
        text.push_str(line.trim())?;
    }
    Ok(())
}

impl Stretch<'_, '_> {
    // The text in which a variable stands for its value, unless values are shown.
    fn raw(&self, alloc: Global, shows_values: bool) -> Result<String, AllocError> {
        let mut text = String::new(alloc);
        let mut variable = None;
        for piece in self.pieces {
            let place = piece.place;
            if shows_values || place.source == Source::File {
                text.push_str(piece.text)?;
                variable = None;
            } else if variable != Some(place.to_end) {
                text.push_str(variable_at(self.file, place))?;
                variable = Some(place.to_end);
            }
        }
        Ok(text)
    }

    /// Returns the requirement as it is written, on one line: with variables in place of their
    /// values unless these are shown, visible control characters, and passwords as `***`.
    pub(crate) fn written(&self, alloc: Global, shows_values: bool) -> Result<String, AllocError> {
        let raw = self.raw(alloc, shows_values)?;
        let mut line = String::new(alloc);
        push_line(&mut line, raw.as_str())?;
        visible(alloc, line.as_str())
    }

    // Where the requirement ends.
    fn end(&self, size: usize) -> Place {
        let last = place_at(self.pieces, size.saturating_sub(1));
        match last.source {
            Source::File => Place {
                to_end: last.to_end.saturating_sub(1),
                source: Source::File,
            },
            Source::Variable => last,
        }
    }

    // A finding about the marker, or about the whole requirement if it has none. `has_url` says
    // whether the requirement has a URL or is one, if that is known.
    fn finding(
        &self,
        alloc: Global,
        name: FindingName,
        message: String,
        has_url: Option<bool>,
    ) -> Result<Finding, AllocError>
        ensures { IfOk result (λ finding. finding.name ≡ name) }
    {
        let text = text_of(alloc, self.pieces)?;
        let has_url = has_url.unwrap_or(may_have_url(text.as_str()));
        let start = marker_start(text.as_str(), has_url).unwrap_or(0);
        Ok(Finding {
            name,
            message,
            start: place_at(self.pieces, start),
            end: self.end(text.len()),
            earlier: None,
        })
    }

    /// Returns the finding that the marker depends on values that are not given, with the keys that
    /// are known to be missing.
    pub(crate) fn unknown_value(
        &self,
        alloc: Global,
        keys: &[EnvironmentKey],
        has_url: bool,
    ) -> Result<Finding, AllocError>
        ensures { IfOk result (λ finding. finding.name ≡ FindingName.UnknownValue) }
    {
        let message = "The marker depends on values that are not given";
        let mut message = String::from_str(alloc, message)?;
        for (index, key) in keys.iter().enumerate() {
            message.push_str(if index == 0 { ": " } else { " " })?;
            message.push_str(key.name())?;
        }
        self.finding(alloc, FindingName::UnknownValue, message, Some(has_url))
    }

    /// Returns the finding that the marker needs more room than there is.
    pub(crate) fn too_complex(
        &self,
        alloc: Global,
        has_url: Option<bool>,
    ) -> Result<Finding, AllocError>
        ensures { IfOk result (λ finding. finding.name ≡ FindingName.TooComplex) }
    {
        let message = String::from_str(alloc, "The marker is too complex")?;
        self.finding(alloc, FindingName::TooComplex, message, has_url)
    }
}
