//! The machine that a command runs on.

use std::alloc::{AllocError, Global};
use std::io;

/// What an entry of a folder is.
#[derive(Clone, Copy)]
pub enum EntryKind {
    File,
    Folder,
    /// A symbolic link, or anything else.
    Other,
}

/// An entry of a folder.
#[derive(Drop)]
pub struct FolderEntry {
    /// Its name, without the folder.
    pub name: String,
    pub kind: EntryKind,
}

/// The entries of a folder. One that cannot be read is an error.
pub type FolderEntries = Vec<io::Result<FolderEntry>>;

/// The files, the environment, the standard streams and the clock that a command sees.
pub trait Host {
    /// Returns all bytes of a file. Paths are relative to the current folder.
    fn read_file(&mut self, alloc: Global, path: &str) -> io::Result<Vec<u8>>;

    /// Returns the path of a file without links, `.` and `..`.
    fn resolve(&mut self, alloc: Global, path: &str) -> io::Result<String>;

    /// Returns whether the path is one of a folder, also by links.
    fn is_folder(&mut self, path: &str) -> bool;

    /// Returns the entries of a folder, in any order.
    fn entries(&mut self, alloc: Global, folder: &str) -> io::Result<FolderEntries>;

    /// Returns all bytes of standard input.
    fn read_input(&mut self, alloc: Global) -> io::Result<Vec<u8>>;

    /// Returns the value of an environment variable, if it is set and UTF-8.
    fn variable(&mut self, alloc: Global, name: &str) -> Result<Option<String>, AllocError>;

    /// Returns the path of the current folder.
    fn current_folder(&mut self, alloc: Global) -> io::Result<String>;

    /// Writes all of the text to standard output.
    fn write_output(&mut self, text: &str) -> io::Result<()>;

    /// Writes all of the text to standard error.
    fn write_message(&mut self, text: &str) -> io::Result<()>;

    /// Returns whether standard output is a terminal.
    fn is_output_terminal(&mut self) -> bool;

    /// Returns whether standard error is a terminal.
    fn is_message_terminal(&mut self) -> bool;

    /// Returns the time since the command began, in milliseconds.
    fn milliseconds(&mut self) -> u64;
}
