//! Logical lines.

ghost use Rattle.std.specs.Prelude.{◌≡◌, ◌≢◌, [], ◌<◌, length, true, IfOk, OnOk, IfSome};
ghost use Rattle.pep508_text.specs.Suffix.{IsSuffix};
ghost use Rattle.requirement_lines.specs.Character.{characters};
ghost use Rattle.requirement_lines.specs.Pieces.{line_of};
ghost use Rattle.requirement_lines.specs.Ends.{skip, without_last, LosesSpace};
ghost use Rattle.requirement_lines.specs.Marks.{before, from_mark};
ghost use Rattle.requirement_lines.specs.Logical as spec;
ghost use Rattle.requirement_lines.specs.Logical.{HasJoinedLine};
ghost use Rattle.requirement_lines.specs.declared.sets.CharacterSet.TheVariants.{Space};
ghost use Rattle.requirement_lines.specs.declared.sets.Mark.TheVariants.{Options};

use crate::pieces::{Piece, split_line};
use crate::sets::{CharacterSet, Mark};
use pep508_text::first;
use std::alloc::{AllocError, Global};

// The parts of the physical lines of the first logical line, and the rest of the text. A logical
// line is a physical line and each one in which the one before is continued.
fn join<'a>(alloc: Global, text: &'a str) -> Result<(Vec<Piece<'a>>, &'a str), AllocError>
    ensures line { IfOk result (λ r. text.now ≢ [] → HasJoinedLine text.now r.0.items r.1.now) }
    ensures shorter { IfOk result (λ r. text.now ≢ [] → length r.1.now < length text.now) }
    ensures suffix { IfOk result (λ r. IsSuffix text.now r.1.now) }
{
    let mut parts = Vec::new(alloc);
    let mut rest = text;
    while !rest.is_empty() {
        let (line, after) = split_line(rest);
        parts.push(line.part())?;
        rest = after;
        if !line.is_continued() {
            return Ok((parts, rest));
        }
    }
    Ok((parts, rest))
}

/// Returns the part of the line before the first mark that counts: before the comment, or before
/// the options. The whole line if there is none.
pub fn cut_line<'a>(
    alloc: Global,
    pieces: &[Piece<'a>],
    mark: Mark,
) -> Result<Vec<Piece<'a>>, AllocError>
    ensures { IfOk result (λ v. line_of v.items ≡ before mark true (line_of pieces.now)) }
{
    let mut kept = Vec::new(alloc);
    let mut may = true;
    for index in 0..pieces.len() {
        let piece = pieces[index];
        let (front, follow) = piece.cut(mark, may);
        kept.push(front)?;
        match follow {
            None => return Ok(kept),
            Some(next) => may = next,
        }
    }
    Ok(kept)
}

/// Returns the options of the line: from the first `-` on that is at the front or after a space
/// (U+0020). Nothing if there is none.
pub fn options_of<'a>(alloc: Global, line: &[Piece<'a>]) -> Result<Vec<Piece<'a>>, AllocError>
    ensures { IfOk result (λ v. line_of v.items ≡ from_mark Options true (line_of line.now)) }
{
    let mut kept = Vec::new(alloc);
    let mut may = true;
    for index in 0..line.len() {
        let piece = line[index];
        match piece.cut(Mark::Options, may).1 {
            Some(next) => may = next,
            None => {
                kept.push(piece.from_mark(Mark::Options, may))?;
                kept.extend_from_slice(&line[index + 1..])?;
                return Ok(kept);
            }
        }
    }
    Ok(kept)
}

// The pieces without white space at the front.
fn skip_front<'a>(alloc: Global, pieces: &[Piece<'a>]) -> Result<Vec<Piece<'a>>, AllocError>
    ensures { IfOk result (λ v. line_of v.items ≡ skip Space (line_of pieces.now)) }
{
    let mut kept = Vec::new(alloc);
    for index in 0..pieces.len() {
        let piece = pieces[index];
        let front = piece.skip(CharacterSet::Space);
        if !front.is_empty() {
            kept.push(front)?;
            kept.extend_from_slice(&pieces[index + 1..])?;
            return Ok(kept);
        }
    }
    Ok(kept)
}

// Takes white space off the back.
fn skip_end(pieces: &mut Vec<Piece<'_>>) -> Result<(), AllocError>
    ensures line { OnOk result (LosesSpace (line_of pieces.old.items) (line_of pieces.new.items)) }
    ensures some { OnOk result (pieces.new.items ≢ [] → line_of pieces.new.items ≢ []) }
{
    while let Some(last) = pieces.pop() {
        let front = last.skip_back(CharacterSet::Space);
        if !front.is_empty() {
            pieces.push(front)?;
            return Ok(());
        }
    }
    Ok(())
}

/// Removes the last character of a line, if it has one.
pub fn drop_last(pieces: &mut Vec<Piece<'_>>) -> Result<(), AllocError>
    ensures { OnOk result (line_of pieces.new.items ≡ without_last (line_of pieces.old.items)) }
{
    while let Some(last) = pieces.pop() {
        if let Some((front, _)) = last.last() {
            pieces.push(front)?;
            return Ok(());
        }
    }
    Ok(())
}

// The pieces without the comment, and without white space at both ends.
fn trim<'a>(alloc: Global, pieces: &[Piece<'a>]) -> Result<Vec<Piece<'a>>, AllocError>
    ensures line { IfOk result (λ v. line_of v.items ≡ spec.trimmed (line_of pieces.now)) }
    ensures some { IfOk result (λ v. v.items ≢ [] → line_of v.items ≢ []) }
{
    let front = cut_line(alloc, pieces, Mark::Comment)?;
    let mut line = skip_front(alloc, front.as_slice())?;
    skip_end(&mut line)?;
    Ok(line)
}

/// Returns the first logical line of the text, in pieces, and the rest of the text, which has the
/// other logical lines. `None` if the text has no logical line.
///
/// A line has at least one character, and neither begins nor ends with white space.
pub fn next_line<'a>(
    alloc: Global,
    text: &'a str,
) -> Result<Option<(Vec<Piece<'a>>, &'a str)>, AllocError>
    ensures line { IfOk result (spec.IsNextLine text.now) }
    ensures shorter { IfOk result (λ r. IfSome r (λ x. length x.1.now < length text.now)) }
    ensures suffix { IfOk result (λ r. IfSome r (λ x. IsSuffix text.now x.1.now)) }
{
    let mut rest = text;
    while !rest.is_empty() {
        let (parts, after) = join(alloc, rest)?;
        rest = after;
        let line = trim(alloc, parts.as_slice())?;
        if !line.is_empty() {
            return Ok(Some((line, rest)));
        }
    }
    Ok(None)
}

/// Returns the text of a file without its byte order mark, if there is one.
pub fn without_mark(text: &str) -> &str
    ensures characters { characters result.now ≡ spec.without_mark (characters text.now) }
    ensures suffix { IsSuffix text.now result.now }
{
    match first(text) {
        Some(('\u{feff}', rest)) => rest,
        _ => text,
    }
}
