//! The standard output and the disk of this process, where formatted files go.

ghost use Rattle.std.specs.Prelude.{⊤};

use formatting_commands::Outputs;
use std::alloc::{AllocError, Global};
use std::fs::File;
use std::io::Write;
use std::{fs, io};

// A new file.
#[derive(Drop)]
struct NewFile {
    path: String,
    file: File,
}

/// Standard output, and the disk.
#[derive(Drop)]
pub struct Storage<'r> {
    rt: &'r HostRuntime,
    new: Option<NewFile>,
}

// So many names are tried for a new file.
const MOST_NAMES: u32 = 1000;

// A path for a new file beside the file at this path.
fn path_beside(alloc: Global, path: &str, number: u32) -> Result<String, AllocError> {
    match path.rsplit_once('/') {
        Some((folder, name)) => format!(in alloc; "{folder}/.{name}.{number}.new"),
        None => format!(in alloc; ".{path}.{number}.new"),
    }
}

fn no_new_file() -> io::Error {
    io::Error::new(io::ErrorKind::NotFound, "there is no new file")
}

impl<'r> Storage<'r> {
    /// Returns the disk of this process, with no new file.
    pub fn new(rt: &'r HostRuntime) -> Storage<'r> {
        Storage { rt, new: None }
    }

    // Creates an empty file beside the file at this path, with a name that no file has.
    fn create(&self, alloc: Global, path: &str) -> io::Result<NewFile> {
        for number in 0..MOST_NAMES {
            let new = path_beside(alloc, path, number)?;
            match File::create_new(self.rt, new.as_str()) {
                Ok(file) => return Ok(NewFile { path: new, file }),
                Err(error) if error.kind() == io::ErrorKind::AlreadyExists => {}
                Err(error) => return Err(error),
            }
        }
        Err(io::Error::new(
            io::ErrorKind::AlreadyExists,
            "each name for a new file is taken",
        ))
    }
}

impl Outputs for Storage<'_> {
    ghost tries = { λ old step succeeds new. ⊤ };

    fn print(&mut self, bytes: &[u8]) -> io::Result<()> {
        self.rt.stdout().write_all(bytes)
    }

    fn create_beside(&mut self, alloc: Global, path: &str) -> io::Result<()> {
        let permissions = fs::metadata(self.rt, path)?.permissions();
        let new = self.create(alloc, path)?;
        // Before the first byte is written, so that nobody else can read it.
        match new.file.set_permissions(permissions) {
            Ok(()) => {
                self.new = Some(new);
                Ok(())
            }
            Err(error) => {
                let _removed = fs::remove_file(self.rt, new.path.as_str());
                Err(error)
            }
        }
    }

    fn write(&mut self, bytes: &[u8]) -> io::Result<()> {
        match &mut self.new {
            Some(new) => new.file.write_all(bytes),
            None => Err(no_new_file()),
        }
    }

    fn sync(&mut self) -> io::Result<()> {
        match &self.new {
            Some(new) => new.file.sync_all(),
            None => Err(no_new_file()),
        }
    }

    fn rename(&mut self, path: &str) -> io::Result<()> {
        match &self.new {
            Some(new) => fs::rename(self.rt, new.path.as_str(), path)?,
            None => return Err(no_new_file()),
        }
        self.new = None;
        Ok(())
    }

    fn remove(&mut self) -> io::Result<()> {
        match self.new.take() {
            Some(new) => fs::remove_file(self.rt, new.path.as_str()),
            None => Ok(()),
        }
    }
}
