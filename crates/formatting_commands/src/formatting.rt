//! Formatting a requirements file.

ghost use Rattle.std.specs.Prelude.{IfOk, IfSome};
ghost use Rattle.formatting_commands.specs.Formatting.{IsFormatted};
ghost use Rattle.formatting_commands.specs.Applying.{MakesFile};

use crate::formatter::Formatter;
use crate::{Edit, apply_edits, find_edits};
use std::alloc::{AllocError, Global};

/// How requirements are formatted.
#[derive(Clone, Copy)]
pub struct FormatSettings<'s> {
    /// The folder that relative paths start from, and the value of `${PROJECT_ROOT}`.
    pub folder: &'s str,
    /// Two random words, the key by which nodes of markers are hashed.
    pub key: [u64; 2],
    /// How many pieces the nodes of a requirement's marker may have.
    pub room: usize,
}

/// A file that was formatted.
#[derive(Drop)]
pub struct Formatted {
    /// The requirements that changed, in order.
    pub edits: Vec<Edit>,
    /// The new bytes of the file.
    pub bytes: Vec<u8>,
}

/// Returns a requirements file with each requirement in its normal text. Everything else is kept
/// byte for byte, and so is a requirement that has no normal text, or with which the line would not
/// be read as before.
///
/// `text` is the text of the file: of as many bytes, with [`SUBSTITUTE`](crate::SUBSTITUTE) for
/// each that is not UTF-8. The requirements of a physical line with such a byte are kept. `None` if
/// the file has fewer bytes than the text.
pub fn format_file(
    alloc: Global,
    bytes: &[u8],
    text: &str,
    settings: FormatSettings<'_>,
) -> Result<Option<Formatted>, AllocError>
    ensures found { IfOk result (λ d. IfSome d (IsFormatted settings.entry text.now)) }
    ensures made { IfOk result
        (λ d. IfSome d (λ f. MakesFile bytes.now f.edits.items f.bytes.items)) }
{
    let mut formatter = Formatter {
        file: text,
        settings,
    };
    let edits = find_edits(alloc, text, &mut formatter)?;
    match apply_edits(alloc, bytes, edits.as_slice())? {
        Some(bytes) => Ok(Some(Formatted { edits, bytes })),
        None => Ok(None),
    }
}
