//! Edits of a text, and the text that they make.

ghost use Rattle.std.specs.Prelude.{IfOk, IfSome};
ghost use Rattle.formatting_commands.specs.Applying.{MakesFile};

use std::alloc::{AllocError, Global};

/// A part of a file that another text replaces.
#[derive(Drop)]
pub struct Edit {
    /// The first byte of the part, counted from the start of the file.
    pub start: usize,
    /// The byte after the part.
    pub end: usize,
    /// The text that replaces it.
    pub text: String,
}

/// Returns the bytes with the edits made: outside of the edited parts they are as they were.
/// `None` if a part is not in the bytes, or not after the one before.
pub fn apply_edits(
    alloc: Global,
    bytes: &[u8],
    edits: &[Edit],
) -> Result<Option<Vec<u8>>, AllocError>
    ensures { IfOk result (λ made. IfSome made (λ v. MakesFile bytes.now edits.now v.items)) }
{
    let mut new = Vec::new(alloc);
    let mut at = 0usize;
    for edit in edits {
        if edit.start < at || edit.end < edit.start || bytes.len() < edit.end {
            return Ok(None);
        }
        new.extend_from_slice(&bytes[at..edit.start])?;
        new.extend_from_slice(edit.text.as_bytes())?;
        at = edit.end;
    }
    new.extend_from_slice(&bytes[at..])?;
    Ok(Some(new))
}
