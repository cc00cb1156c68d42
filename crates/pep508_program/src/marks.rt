//! The places of the findings of a line.

use crate::notices::Span;
use requirement_findings::Finding;
use requirement_lines::{Piece, Place, Position, Positions, Source, place_at, text_of};
use std::alloc::{AllocError, Global};

/// A part of a line, with its finding. The mark of an include has none.
#[derive(Clone, Copy)]
pub struct Mark<'f> {
    start: Place,
    end: Place,
    pub finding: Option<&'f Finding>,
    /// Where it is in the file.
    pub span: Span,
}

const NOWHERE: Span = Span {
    start: 0,
    end: 0,
    position: Position { line: 1, column: 1 },
};

// Where a part of the text ends; one in the value of a variable ends after that variable.
fn end_of(text: &str, end: Place) -> usize {
    let at = text.len().saturating_sub(end.to_end);
    match end.source {
        Source::File => at,
        Source::Variable => {
            let after = text.split_at_checked(at).map_or("", |halves| halves.1);
            let size = after.find('}').map_or(0, |index| index.saturating_add(1));
            at.saturating_add(size)
        }
    }
}

// The place after the last character of a line.
fn line_end(alloc: Global, line: &[Piece<'_>]) -> Result<Place, AllocError> {
    let size = text_of(alloc, line)?.len();
    let last = place_at(line, size.saturating_sub(1));
    let end = match last.source {
        Source::File => last.to_end.saturating_sub(1),
        Source::Variable => last.to_end,
    };
    Ok(Place {
        to_end: end,
        source: last.source,
    })
}

impl<'f> Mark<'f> {
    // A mark whose span is still to be found.
    fn new(start: Place, end: Place, finding: Option<&'f Finding>) -> Mark<'f> {
        Mark {
            start,
            end,
            finding,
            span: NOWHERE,
        }
    }

    // Finds the span.
    fn locate(&mut self, text: &str, positions: &mut Positions<'_>) {
        let start = text.len().saturating_sub(self.start.to_end);
        self.span = Span {
            start,
            end: end_of(text, self.end).max(start),
            position: positions.position_of(self.start.to_end),
        };
    }
}

/// Returns the marks of a line, in the order of their places: its findings, and its include.
pub fn marks_of<'f>(
    alloc: Global,
    text: &str,
    findings: &'f [Finding],
    included: Option<&[Piece<'_>]>,
    positions: &mut Positions<'_>,
) -> Result<Vec<Mark<'f>>, AllocError> {
    let mut marks = Vec::new(alloc);
    for finding in findings {
        marks.push(Mark::new(finding.start, finding.end, Some(finding)))?;
    }
    if let Some(line) = included {
        let mark = Mark::new(place_at(line, 0), line_end(alloc, line)?, None);
        marks.push(mark)?;
    }
    marks.sort_by(|one, other| other.start.to_end.cmp(&one.start.to_end))?;
    for mark in marks.iter_mut() {
        mark.locate(text, positions);
    }
    Ok(marks)
}
