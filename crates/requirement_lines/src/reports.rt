//! Findings in the requirements of a file.

ghost use Rattle.std.specs.Prelude.{◌≡◌, ℕ, List, IfOk, IfNone, string_bytes};
ghost use Rattle.requirement_lines.specs.Character.{end_of_file};
ghost use Rattle.requirement_lines.specs.Pieces.{line_of};
ghost use Rattle.requirement_lines.specs.Reports as spec;
ghost use Rattle.requirement_lines.specs.Reports.{ReportsFile, ReportsPieces};

use crate::logical::{cut_line, next_line, without_mark};
use crate::pieces::Piece;
use crate::places::{Place, Source};
use crate::sets::Mark;
use crate::variables::replace_variables;
use std::alloc::{AllocError, Global};
use std::collections::BTreeMap;

/// Checks the texts of requirements.
pub trait Judge {
    /// A finding, such as an error or a warning.
    type Finding: Drop;

    /// In the first state these are the findings of the text, and the last state results.
    ghost finds: { Self → List ℕ → List Self.Finding → Self → Type 0 };

    /// Returns the findings of the text.
    fn judge(&mut self, alloc: Global, text: &str) -> Result<Vec<Self::Finding>, AllocError>
        ensures { IfOk result (λ findings. finds self.old text.now findings.items self.new) };
}

/// A requirement of a file, with its findings.
#[derive(Drop)]
pub struct LineReport<'a, F: Drop> {
    /// The requirement, in pieces.
    pub requirement: Vec<Piece<'a>>,
    /// The findings in it.
    pub findings: Vec<F>,
}

/// Returns the place of this byte of the line's text. After the last byte that is where the line
/// ends.
pub fn place_at(pieces: &[Piece<'_>], at: usize) -> Place
    ensures { result ≡ spec.place_at end_of_file (line_of pieces.now) at }
{
    let mut end = Place {
        to_end: 0,
        source: Source::File,
    };
    let mut skipped = at;
    for index in 0..pieces.len() {
        let piece = pieces[index];
        let size = piece.size();
        if skipped < size {
            return piece.place.after(skipped);
        }
        if size > 0 {
            end = piece.place.after(size);
        }
        skipped -= size;
    }
    end
}

/// Returns the text of the line.
pub fn text_of(alloc: Global, pieces: &[Piece<'_>]) -> Result<String, AllocError>
    ensures { IfOk result (λ text. string_bytes text ≡ spec.text_of (line_of pieces.now)) }
{
    let mut text = String::new(alloc);
    for index in 0..pieces.len() {
        let piece = pieces[index];
        text.push_str(piece.bytes())?;
    }
    Ok(text)
}

/// Returns the findings of the requirement of a line, whose variables are already replaced: of the
/// text before its options. `None` if the line has only options.
pub fn check_line<'a, J: Judge>(
    alloc: Global,
    line: &[Piece<'a>],
    judge: &mut J,
) -> Result<Option<LineReport<'a, J::Finding>>, AllocError>
    ensures none { IfOk result (λ r. IfNone r (judge.new ≡ judge.old)) }
    ensures reported { IfOk result (λ r. ReportsPieces J.finds judge.old line.now r judge.new) }
{
    let requirement = cut_line(alloc, line, Mark::Options)?;
    let owned = text_of(alloc, requirement.as_slice())?;
    let text = owned.as_str();
    if text.is_empty() {
        return Ok(None);
    }
    let findings = judge.judge(alloc, text)?;
    Ok(Some(LineReport {
        requirement,
        findings,
    }))
}

/// Returns the findings of each requirement of a file, in their order, with the values of a table
/// in place of variables ([`replace_variables`]).
pub fn check_text<'a, J: Judge>(
    alloc: Global,
    text: &'a str,
    variables: &'a BTreeMap<String, String>,
    judge: &mut J,
) -> Result<Vec<LineReport<'a, J::Finding>>, AllocError>
    ensures { IfOk result (ReportsFile J.finds judge.old judge.new variables.now text.now) }
{
    let mut reports = Vec::new(alloc);
    let mut rest = without_mark(text);
    while let Some((line, after)) = next_line(alloc, rest)? {
        rest = after;
        let replaced = replace_variables(alloc, line.as_slice(), variables)?;
        if let Some(report) = check_line(alloc, replaced.as_slice(), judge)? {
            reports.push(report)?;
        }
    }
    Ok(reports)
}
