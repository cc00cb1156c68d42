//! The requirements of lines, as texts.

ghost use Rattle.std.specs.Prelude.{◌≡◌, true, false, IfOk, string_bytes};
ghost use Rattle.formatting_commands.specs.Finding as spec;
ghost use Rattle.formatting_commands.specs.Finding.{IsAloneWith};

use crate::texts::bytes_from;
use requirement_lines::{Mark, Piece, cut_line, next_line, text_of};
use std::alloc::{AllocError, Global};

// The requirement of a line, and the whole line.
#[derive(Drop)]
pub(crate) struct LineText {
    pub(crate) requirement: String,
    whole: String,
}

impl LineText {
    // The texts of a line.
    pub(crate) fn new(alloc: Global, line: &[Piece<'_>]) -> Result<LineText, AllocError>
        ensures requirement { IfOk result (spec.HasRequirement line.now) }
        ensures whole { IfOk result (spec.HasWhole line.now) }
    {
        let front = cut_line(alloc, line, Mark::Options)?;
        let text = text_of(alloc, front.as_slice())?;
        Ok(LineText {
            requirement: String::from_str(alloc, text.as_str().trim_end())?,
            whole: text_of(alloc, line)?,
        })
    }

    // What follows the requirement.
    fn options(&self) -> &[u8]
        ensures { result.now ≡ spec.options_in self.now }
    {
        bytes_from(self.whole.as_str(), self.requirement.len())
    }

    // Whether the line has this requirement, and the options of the other line.
    fn is_like(&self, requirement: &str, other: &LineText) -> bool
        ensures requirement { result ≡ true
            → string_bytes self.now.requirement ≡ requirement.now }
        ensures options { result ≡ true → spec.options_in self.now ≡ spec.options_in other.now }
        ensures unlike { result ≡ false → spec.IsUnlike self.now requirement.now other.now }
    {
        self.requirement.as_str() == requirement && self.options() == other.options()
    }
}

// Whether the text has one line alone: this requirement, with the options of that line.
pub(crate) fn is_line_alone(
    alloc: Global,
    text: &str,
    requirement: &str,
    old: &LineText,
) -> Result<bool, AllocError>
    ensures alone { IfOk result (λ b. b ≡ true → IsAloneWith text.now requirement.now old.now) }
    ensures other { IfOk result (λ b. b ≡ false → ¬ IsAloneWith text.now requirement.now old.now) }
{
    let Some((line, rest)) = next_line(alloc, text)? else {
        return Ok(false);
    };
    if next_line(alloc, rest)?.is_some() {
        return Ok(false);
    }
    let new = LineText::new(alloc, line.as_slice())?;
    Ok(new.is_like(requirement, old))
}
