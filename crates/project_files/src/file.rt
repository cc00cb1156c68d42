//! A `pyproject.toml`.

ghost use Rattle.std.specs.Prelude.{◌≡◌, Some, IfErr, IfOk};
ghost use Rattle.toml.specs.Parse.{parse_document};
ghost use Rattle.toml.specs.View.{table_view};
ghost use Rattle.project_files.specs.Reading.{IsTomlRefusal};

use crate::entry::ProjectEntry;
use crate::expansion::{ExpansionFault, MOST_STRINGS, expand};
use crate::judging::{ProjectFault, faults_of};
use crate::tables::entries_of;
use refusal::Refusal;
use std::alloc::{AllocError, Global};
use toml::Table;
use toml::de::Error;

/// The requirements of a `pyproject.toml`.
#[derive(Drop)]
pub struct ProjectFile {
    /// The entries in the sorted order of keys and in the order of each list: those of
    /// `build-system`, `dependency-groups` and `project`.
    pub entries: Vec<ProjectEntry>,
    /// What is wrong, in the order of the entries: at most one fault for each.
    pub faults: Vec<ProjectFault>,
}

fn table_of(alloc: Global, text: &str) -> Result<Table, Refusal<Error>>
    ensures read { IfOk result (λ table. parse_document text.now ≡ Some (table_view table)) }
    ensures refused { IfErr result (λ refusal. IsTomlRefusal text.now refusal) }
{
    match toml::table_from_str(alloc, text) {
        Ok(table) => Ok(table),
        Err(error) if error.is_memory() => Err(Refusal::OutOfMemory),
        Err(error) => Err(Refusal::Fault(error)),
    }
}

// Flags the entries that have a fault, of so many entries.
fn faulty_of(
    alloc: Global,
    faults: &[ProjectFault],
    count: usize,
) -> Result<Vec<bool>, AllocError> {
    let mut faulty = vec![in alloc; false; count]?;
    for fault in faults {
        if fault.entry < faulty.len() {
            faulty[fault.entry] = true;
        }
    }
    Ok(faulty)
}

impl ProjectFile {
    ghost use Rattle.std.specs.Prelude.{◌≤◌, IfErr, IfOk, vec_len};
    ghost use Rattle.project_files.specs.Expansion.{IsExpansion};
    ghost use Rattle.project_files.specs.Found.{entries_of, AreFaultsOf};
    ghost use Rattle.project_files.specs.Reading.{HasEntries, IsTomlRefusal};

    /// Reads a `pyproject.toml`. A byte order mark is allowed.
    ///
    /// # Errors
    /// - [`Refusal::Fault`] if the text is invalid TOML: `message()` says why, and `span()` where.
    /// - [`Refusal::OutOfMemory`] when memory runs out.
    pub fn read(alloc: Global, text: &str) -> Result<ProjectFile, Refusal<Error>>
        ensures entries { IfOk result (λ file. HasEntries text.now (entries_of file)) }
        ensures faults { IfOk result (λ file. AreFaultsOf file.entries.items file.faults.items) }
        ensures refused { IfErr result (λ refusal. IsTomlRefusal text.now refusal) }
    {
        let table = table_of(alloc, text)?;
        let entries = entries_of(alloc, &table)?;
        let faults = faults_of(alloc, &entries)?;
        Ok(ProjectFile { entries, faults })
    }

    /// Returns the strings of a group as numbers of entries, with those of the groups that it
    /// includes in their places. Names are compared in normal form (PEP 503).
    ///
    /// # Errors
    /// - [`Refusal::Fault`] if the group has no expansion.
    /// - [`Refusal::OutOfMemory`] when memory runs out.
    pub fn expand_group(
        &self,
        alloc: Global,
        name: &str,
    ) -> Result<Vec<usize>, Refusal<ExpansionFault>>
        ensures expands { IfOk result (λ v. IsExpansion (entries_of self.now) name.now v.items) }
        ensures within { IfOk result (λ strings. vec_len strings ≤ MOST_STRINGS) }
    {
        let faulty = faulty_of(alloc, &self.faults, self.entries.len())?;
        expand(alloc, &self.entries, &faulty, name)
    }
}
