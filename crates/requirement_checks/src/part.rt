//! Parts of the requirement of a line, and where they are in the file.

use crate::secrets::{from_byte, up_to_byte};
use crate::url_and_marker::{marker_start, may_have_url};
use requirement_lines::{Piece, Place, Source, place_at};

// The requirement of a line of a file.
#[derive(Clone, Copy)]
pub(crate) struct Page<'a, 'f> {
    pub(crate) file: &'f str,
    pub(crate) pieces: &'a [Piece<'f>],
    // How many bytes the text of the requirement has.
    pub(crate) size: usize,
}

// A part of a requirement, in the file.
#[derive(Clone, Copy)]
pub(crate) struct Part<'f> {
    pub(crate) start: Place,
    pub(crate) end: Place,
    // The first variable whose value it has a character of, as `${NAME` in the file.
    pub(crate) variable: Option<&'f str>,
}

// The variable at this place of the file, without its `}`.
fn variable_at<'f>(file: &'f str, place: Place) -> &'f str {
    let rest = from_byte(file, file.len().saturating_sub(place.to_end));
    match rest.split_once('}') {
        Some((front, _)) => front,
        None => rest,
    }
}

// Where the character or variable at this place ends.
fn end_after(file: &str, place: Place) -> Place {
    let size = match place.source {
        Source::File => 1,
        Source::Variable => variable_at(file, place).len().saturating_add(1),
    };
    Place {
        to_end: place.to_end.saturating_sub(size),
        source: Source::File,
    }
}

impl<'f> Page<'_, 'f> {
    // The place of the first byte of the part that comes from the value of a variable.
    fn value_within(&self, start: usize, end: usize) -> Option<Place> {
        let mut before = 0usize;
        for index in 0..self.pieces.len() {
            let piece = self.pieces[index];
            let after = before.saturating_add(piece.text.len());
            if piece.place.source == Source::Variable && before < end && start < after {
                return Some(piece.place);
            }
            before = after;
        }
        None
    }

    // Whether a character of the requirement comes from the value of a variable.
    pub(crate) fn has_values(&self) -> bool {
        self.value_within(0, self.size).is_some()
    }

    // Where a byte of the text is, or the end of the text.
    fn place_of(&self, at: usize) -> Place {
        if at < self.size || self.size == 0 {
            place_at(self.pieces, at)
        } else {
            self.end_before(self.size)
        }
    }

    // Where the character ends that ends at this byte of the text.
    fn end_before(&self, at: usize) -> Place {
        end_after(self.file, place_at(self.pieces, at.saturating_sub(1)))
    }

    // A part of the text: its first byte, and how many it has.
    pub(crate) fn part(&self, start: usize, size: usize) -> Part<'f> {
        let end = start.saturating_add(size).min(self.size);
        let variable = match self.value_within(start, end) {
            Some(place) => Some(variable_at(self.file, place)),
            None => None,
        };
        let begins = self.place_of(start);
        Part {
            start: begins,
            end: if start < end {
                self.end_before(end)
            } else {
                begins
            },
            variable,
        }
    }

    // The whole text.
    pub(crate) fn whole(&self) -> Part<'f> {
        self.part(0, self.size)
    }

    // The marker of the text, or all of it.
    pub(crate) fn marker(&self, text: &str) -> Part<'f> {
        match marker_start(text, may_have_url(text)) {
            Some(start) => self.part(start, text.len().saturating_sub(start)),
            None => self.whole(),
        }
    }

    // The part of the file for a part of the text.
    pub(crate) fn as_written(&self, start: usize, size: usize) -> &'f str {
        let part = self.part(start, size);
        let length = part.start.to_end.saturating_sub(part.end.to_end);
        let rest = from_byte(self.file, self.file.len().saturating_sub(part.start.to_end));
        up_to_byte(rest, length)
    }
}
