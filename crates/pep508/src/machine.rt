//! The machine that the program runs on.

use pep508_program::{EntryKind, FolderEntries, FolderEntry, Host};
use std::alloc::{AllocError, Global};
use std::env::VarError;
use std::fs::DirEntry;
use std::io::{IsTerminal, Read, Write};
use std::time::Instant;
use std::{env, fs, io};

/// The files, the environment, the streams and the clock of this process.
#[derive(Drop)]
pub struct Machine<'r> {
    rt: &'r HostRuntime,
    start: Option<Instant>,
}

impl<'r> Machine<'r> {
    /// Returns the machine. The time of the command is counted from now.
    pub fn new(rt: &'r HostRuntime) -> Machine<'r> {
        Machine {
            rt,
            start: Instant::now(rt).ok(),
        }
    }
}

// The name of an entry of a folder, and what it is.
fn entry_of(alloc: Global, entry: io::Result<DirEntry<HostRuntime>>) -> io::Result<FolderEntry> {
    let entry = entry?;
    let file_type = entry.file_type()?;
    let kind = if file_type.is_dir() {
        EntryKind::Folder
    } else if file_type.is_file() {
        EntryKind::File
    } else {
        EntryKind::Other
    };
    Ok(FolderEntry {
        name: String::from_str(alloc, entry.file_name())?,
        kind,
    })
}

impl Host for Machine<'_> {
    fn read_file(&mut self, _alloc: Global, path: &str) -> io::Result<Vec<u8>> {
        fs::read(self.rt, path)
    }

    fn resolve(&mut self, _alloc: Global, path: &str) -> io::Result<String> {
        Ok(fs::canonicalize(self.rt, path)?.into_string())
    }

    fn is_folder(&mut self, path: &str) -> bool {
        match fs::metadata(self.rt, path) {
            Ok(metadata) => metadata.is_dir(),
            Err(_) => false,
        }
    }

    fn entries(&mut self, alloc: Global, folder: &str) -> io::Result<FolderEntries> {
        let mut entries = Vec::new(alloc);
        for entry in fs::read_dir(self.rt, folder)? {
            entries.push(entry_of(alloc, entry))?;
        }
        Ok(entries)
    }

    fn read_input(&mut self, alloc: Global) -> io::Result<Vec<u8>> {
        let mut bytes = Vec::new(alloc);
        self.rt.stdin().read_to_end(&mut bytes)?;
        Ok(bytes)
    }

    fn variable(&mut self, _alloc: Global, name: &str) -> Result<Option<String>, AllocError> {
        match env::var(self.rt, name) {
            Ok(value) => Ok(Some(value)),
            Err(VarError::OutOfMemory) => Err(AllocError),
            Err(VarError::NotPresent | VarError::NotUnicode) => Ok(None),
        }
    }

    fn current_folder(&mut self, _alloc: Global) -> io::Result<String> {
        Ok(env::current_dir(self.rt)?.into_string())
    }

    fn write_output(&mut self, text: &str) -> io::Result<()> {
        self.rt.stdout().write_all(text.as_bytes())
    }

    fn write_message(&mut self, text: &str) -> io::Result<()> {
        self.rt.stderr().write_all(text.as_bytes())
    }

    fn is_output_terminal(&mut self) -> bool {
        self.rt.stdout().is_terminal()
    }

    fn is_message_terminal(&mut self) -> bool {
        self.rt.stderr().is_terminal()
    }

    fn milliseconds(&mut self) -> u64 {
        let Some(start) = self.start else {
            return 0;
        };
        match start.elapsed(self.rt) {
            Ok(passed) => u64::try_from(passed.as_millis()).unwrap_or(u64::MAX),
            Err(_) => 0,
        }
    }
}
