//! Extras of the command line.

ghost use Rattle.std.specs.Prelude.{IfOk};
ghost use Rattle.marker_commands.specs.Extras.{Names, bytes_of};

use pep508_names::{ExtraName, InvalidNameError};
use refusal::Refusal;
use std::alloc::Global;

/// Returns the extras with these names.
///
/// # Errors
/// - [`Refusal::Fault`] with the first word that is an invalid name.
/// - [`Refusal::OutOfMemory`] when memory runs out.
pub fn read_extras(
    alloc: Global,
    words: &[&str],
) -> Result<Vec<ExtraName>, Refusal<InvalidNameError>>
    ensures { IfOk result (λ names. Names (bytes_of words.now) names.items) }
{
    let mut names = Vec::new(alloc);
    for word in words {
        let name = ExtraName::parse(alloc, word)?;
        names.push(name)?;
    }
    Ok(names)
}
