//! The rest of a line that is read character by character.

ghost use Rattle.std.specs.Prelude.{◌≡◌, List, IfOk};
ghost use Rattle.requirement_lines.specs.Pieces.{line_of};
ghost use Rattle.requirement_lines.specs.Rest.{rest_of, IsNextCharacter};
ghost use Rattle.requirement_lines.specs.declared.pieces.Piece.{Piece};

use crate::pieces::Piece;
use std::alloc::{AllocError, Global};

/// The rest of a line that is read character by character.
#[derive(Clone, Copy)]
pub struct Rest<'a> {
    pub(crate) piece: Piece<'a>,
    pub(crate) next: usize,
}

/// Returns the whole line, before its first character is read.
pub fn whole_line<'a>() -> Rest<'a>
    ensures { (line : List Piece) → rest_of line result ≡ line_of line }
{
    Rest {
        piece: Piece::whole(""),
        next: 0,
    }
}

/// Returns the first character of the rest, also as a piece by itself, and the rest after it.
/// `None` at the end of the line.
pub fn next_character<'a>(line: &[Piece<'a>], rest: Rest<'a>) -> Option<(char, Piece<'a>, Rest<'a>)>
    ensures { IsNextCharacter line.now rest.entry result }
{
    if let Some((c, piece)) = rest.piece.first() {
        let after = Rest {
            piece,
            next: rest.next,
        };
        return Some((c, rest.piece.front(piece), after));
    }
    for index in rest.next..line.len() {
        let whole = line[index];
        if let Some((c, piece)) = whole.first() {
            let after = Rest {
                piece,
                next: index + 1,
            };
            return Some((c, whole.front(piece), after));
        }
    }
    None
}

/// Returns the rest of the line, as a line.
pub fn line_left<'a>(
    alloc: Global,
    line: &[Piece<'a>],
    rest: Rest<'a>,
) -> Result<Vec<Piece<'a>>, AllocError>
    ensures { IfOk result (λ left. line_of left.items ≡ rest_of line.now rest.entry) }
{
    let mut left = Vec::new(alloc);
    left.push(rest.piece)?;
    if rest.next < line.len() {
        left.extend_from_slice(&line[rest.next..])?;
    }
    Ok(left)
}
