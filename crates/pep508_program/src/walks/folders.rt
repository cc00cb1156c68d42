//! Searching folders for files to read.

ghost use Rattle.pep508_program.specs.Reporting.{Grows};

use super::Walk;
use crate::failures::Failure;
use crate::hosts::{EntryKind, FolderEntry, Host};
use crate::kinds::{file_name, is_sought, kind_of_name};
use requirement_findings::CheckLines;
use std::alloc::{AllocError, Global};
use std::collections::BTreeMap;

// The path of an entry of a folder.
fn path_in(alloc: Global, folder: &str, name: &str) -> Result<String, AllocError> {
    if folder.ends_with('/') {
        return format!(in alloc; "{folder}{name}");
    }
    format!(in alloc; "{folder}/{name}")
}

// Takes an entry of a folder: a folder is searched later, and a file is read later.
fn take_entry(
    alloc: Global,
    folder: &str,
    entry: &FolderEntry,
    pending: &mut Vec<String>,
    found: &mut Vec<String>,
) -> Result<(), AllocError> {
    let name = entry.name.as_str();
    match entry.kind {
        EntryKind::Folder => pending.push(path_in(alloc, folder, name)?)?,
        EntryKind::File if is_sought(name) => found.push(path_in(alloc, folder, name)?)?,
        EntryKind::File | EntryKind::Other => {}
    }
    Ok(())
}

impl<H: Host, C: CheckLines> Walk<'_, H, C> {
    // Takes the entries of a folder.
    fn search_folder(
        &mut self,
        folder: &str,
        pending: &mut Vec<String>,
        found: &mut Vec<String>,
    ) -> Result<(), Failure>
        ensures { Grows self.old.report.tally self.new.report.tally }
    {
        let entries = match self.host.entries(self.alloc, folder) {
            Ok(entries) => entries,
            Err(error) => return self.report_unread(folder, &error),
        };
        for entry in entries.iter() {
            match entry {
                Ok(entry) => take_entry(self.alloc, folder, entry, pending, found)?,
                Err(error) => self.report_unread(folder, error)?,
            }
        }
        Ok(())
    }

    // The files to read in a folder and those below it, in the byte order of their paths.
    fn search(&mut self, folder: &str) -> Result<Vec<String>, Failure>
        ensures { Grows self.old.report.tally self.new.report.tally }
    {
        let mut found = Vec::new(self.alloc);
        let mut pending = Vec::new(self.alloc);
        pending.push(String::from_str(self.alloc, folder)?)?;
        for _ in 0..u64::MAX {
            let Some(folder) = pending.pop() else {
                break;
            };
            self.search_folder(folder.as_str(), &mut pending, &mut found)?;
        }
        found.sort()?;
        Ok(found)
    }

    // Reads a file, or the files in a folder and those below it.
    pub(super) fn walk_tree(
        &mut self,
        path: &str,
        variables: &mut BTreeMap<String, String>,
    ) -> Result<(), Failure>
        ensures { Grows self.old.report.tally self.new.report.tally }
    {
        if !self.host.is_folder(path) {
            return self.walk_named(path, variables);
        }
        for found in self.search(path)? {
            let kind = kind_of_name(file_name(found.as_str()));
            self.walk_path(found.as_str(), kind, variables)?;
        }
        Ok(())
    }
}
