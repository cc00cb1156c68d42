//! Replacing a file.

ghost use Rattle.std.specs.Prelude.{OnErr, OnOk};
ghost use Rattle.formatting_commands.specs.Replacing.{IsRenamed, Leaves, Replaces, Stops};

use crate::outputs::Outputs;
use std::alloc::Global;
use std::io;

// Fills the new file, and then gives it the path.
fn fill_and_rename<O: Outputs>(outputs: &mut O, path: &str, bytes: &[u8]) -> io::Result<()>
    ensures renamed { OnOk result (IsRenamed O.tries path.now bytes.now outputs.old outputs.new) }
    ensures stopped { OnErr result (Stops O.tries path.now bytes.now outputs.old outputs.new) }
{
    outputs.write(bytes)?;
    outputs.sync()?;
    outputs.rename(path)
}

/// Replaces the file at the path by one with these bytes. The file is as it was until all of the
/// bytes are on the disk.
///
/// # Errors
/// - Those of the steps. The file is then as it was, and the new one is removed.
pub fn replace_file<O: Outputs>(
    alloc: Global,
    outputs: &mut O,
    path: &str,
    bytes: &[u8],
) -> io::Result<()>
    ensures replaced { OnOk result (Replaces O.tries path.now bytes.now outputs.old outputs.new) }
    ensures left { OnErr result (Leaves O.tries path.now bytes.now outputs.old outputs.new) }
{
    outputs.create_beside(alloc, path)?;
    let filled = fill_and_rename(outputs, path, bytes);
    if filled.is_err() {
        let _removed = outputs.remove();
    }
    filled
}
