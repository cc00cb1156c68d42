//! Finding the edits of a file.

ghost use Rattle.std.specs.Prelude.{◌≡◌, ◌++◌, ℕ, List, Option, IfOk, string_bytes};
ghost use Rattle.pep508_text.specs.Suffix.{IsSuffix};
ghost use Rattle.formatting_commands.specs.Finding.{EditsFile, EditsPieces, AnswersWith};

use crate::applying::Edit;
use crate::lines::{LineText, is_line_alone};
use crate::texts::{before_end, split_around};
use requirement_lines::{Piece, next_line, place_at, without_mark};
use std::alloc::{AllocError, Global};

/// Says what replaces the texts of requirements.
pub trait Rewriter {
    /// In the first state this is the answer for the text, and the last state results.
    ghost answers: { Self → List ℕ → Option (List ℕ) → Self → Type 0 };

    /// Returns the text that replaces the requirement, which begins at the byte `start` of the
    /// file. `None` leaves it as it is.
    fn rewrite(
        &mut self,
        alloc: Global,
        requirement: &str,
        start: usize,
    ) -> Result<Option<String>, AllocError>
        ensures { IfOk result (λ new. AnswersWith answers self.old requirement.now new self.new) };
}

// The text with this front, this part and this back.
fn joined(alloc: Global, front: &str, part: &str, back: &str) -> Result<String, AllocError>
    ensures { IfOk result (λ text. string_bytes text
        ≡ front.now ++ (part.now ++ back.now)) }
{
    let mut text = String::from_str(alloc, front)?;
    text.push_str(part)?;
    text.push_str(back)?;
    Ok(text)
}

// The edit of the first line of a text, which the rest of the text follows. The file has `size`
// bytes, and the text is at its end.
fn edit_line<W: Rewriter>(
    alloc: Global,
    size: usize,
    text: &str,
    line: &[Piece<'_>],
    rest: &str,
    rewriter: &mut W,
) -> Result<Option<Edit>, AllocError>
    requires { IsSuffix text.now rest.now }
    ensures { IfOk result
        (EditsPieces W.answers size line.now text.now rest.now rewriter.old rewriter.new) }
{
    let old = LineText::new(alloc, line)?;
    let requirement = old.requirement.as_str();
    if requirement.is_empty() {
        return Ok(None);
    }
    let block = before_end(text, rest);
    let start = text.len().saturating_sub(place_at(line, 0).to_end);
    let Some((front, back)) = split_around(block, start, requirement) else {
        return Ok(None);
    };
    let first = size.saturating_sub(text.len() - front.len());
    let Some(new) = rewriter.rewrite(alloc, requirement, first)? else {
        return Ok(None);
    };
    let alone = joined(alloc, front, new.as_str(), back)?;
    if !is_line_alone(alloc, alone.as_str(), new.as_str(), &old)? {
        return Ok(None);
    }
    Ok(Some(Edit {
        start: first,
        end: size.saturating_sub(text.len() - front.len() - requirement.len()),
        text: new,
    }))
}

/// Returns the edits of a file, in order: the rewriter is asked about the requirement of each line,
/// if its text is in one piece. A requirement stays as it is if the rewriter says so, or if the
/// line with the new text reads as another line: if the text begins a comment or options.
pub fn find_edits<W: Rewriter>(
    alloc: Global,
    file: &str,
    rewriter: &mut W,
) -> Result<Vec<Edit>, AllocError>
    ensures { IfOk result (λ v. EditsFile W.answers file.now rewriter.old v.items rewriter.new) }
{
    let mut edits = Vec::new(alloc);
    let mut rest = without_mark(file);
    while let Some((line, after)) = next_line(alloc, rest)? {
        let found = edit_line(alloc, file.len(), rest, line.as_slice(), after, rewriter)?;
        if let Some(edit) = found {
            edits.push(edit)?;
        }
        rest = after;
    }
    Ok(edits)
}
