//! Where formatted files go.

ghost use Rattle.std.specs.Prelude.{Bool, List, ℕ, is_ok};
ghost use Rattle.formatting_commands.specs.Replacing.{Step, create, write, sync, rename, remove};

use std::alloc::Global;
use std::io;

/// Standard output, and a disk with files.
///
/// A file is replaced by steps: a new one is created beside it, written, given to the disk, and
/// renamed. There is one new file at a time.
pub trait Outputs {
    /// In the first state the step was tried, and whether it succeeded; the last state results.
    ghost tries: { Self → Step → Bool → Self → Type 0 };

    /// Writes all of the bytes to standard output.
    fn print(&mut self, bytes: &[u8]) -> io::Result<()>;

    /// Creates an empty file in the folder of the file at the path, with the permissions of that
    /// file. After an error there is no new file.
    fn create_beside(&mut self, alloc: Global, path: &str) -> io::Result<()>
        ensures { tries self.old (create path.now) (is_ok result) self.new };

    /// Writes all of the bytes to the new file.
    fn write(&mut self, bytes: &[u8]) -> io::Result<()>
        ensures { tries self.old (write bytes.now) (is_ok result) self.new };

    /// Waits until what was written to the new file is on the disk.
    fn sync(&mut self) -> io::Result<()>
        ensures { tries self.old sync (is_ok result) self.new };

    /// Gives the new file this path, in place of the file that has it.
    fn rename(&mut self, path: &str) -> io::Result<()>
        ensures { tries self.old (rename path.now) (is_ok result) self.new };

    /// Removes the new file.
    fn remove(&mut self) -> io::Result<()>
        ensures { tries self.old remove (is_ok result) self.new };
}
