//! What is wrong with entries.

ghost use Rattle.std.specs.Prelude.{◌≡◌, ◌++◌, IfOk};
ghost use Rattle.project_files.specs.Faults.{fault_at, repeat_at};
ghost use Rattle.project_files.specs.Firsts.{first_in};
ghost use Rattle.project_files.specs.Judging.{EntryIs, IncludeIs, NameIs};
ghost use Rattle.project_files.specs.Found.{entry_in, AreFaultsOf};
ghost use Rattle.project_files.specs.Links.{flag};

use crate::endings::ended_of;
use crate::entry::{Content, ProjectEntry, ProjectFaultKind};
use crate::groups::{name_of, normal_form};
use crate::includes::links_of;
use crate::key::Section;
use crate::names::{Firsts, firsts_of, place_of};
use std::alloc::{AllocError, Global};

/// What is wrong with an entry.
#[derive(Clone, Copy, PartialEq, Eq)]
pub struct ProjectFault {
    /// The number of the entry.
    pub entry: usize,
    /// What is wrong.
    pub kind: ProjectFaultKind,
}

// What is wrong with a name at a place, of which this is the first.
fn repeat_at(first: Option<usize>, place: usize) -> Option<ProjectFaultKind>
    ensures { result ≡ repeat_at first place }
{
    match first {
        Some(first) if first < place => Some(ProjectFaultKind::RepeatedName),
        _ => None,
    }
}

// What is wrong with the name of a group or extra.
fn judge_name(
    alloc: Global,
    firsts: &Firsts,
    place: usize,
    name: &str,
) -> Result<Option<ProjectFaultKind>, AllocError>
    ensures { IfOk result (NameIs (first_in firsts.now) place name.now) }
{
    match normal_form(alloc, name)? {
        Some(normal) => Ok(repeat_at(firsts.get(&normal).copied(), place)),
        None => Ok(Some(ProjectFaultKind::InvalidName)),
    }
}

// Whether there is a flag, and it is set.
pub(crate) fn has_flag(flags: &[bool], place: usize) -> bool
    ensures { result ≡ flag flags.now place }
{
    place < flags.len() && flags[place]
}

// What is wrong with an include.
fn judge_include(
    alloc: Global,
    groups: &Firsts,
    ended: &[bool],
    name: &str,
) -> Result<Option<ProjectFaultKind>, AllocError>
    ensures { IfOk result (IncludeIs (first_in groups.now) ended.now name.now) }
{
    match place_of(alloc, groups, name)? {
        Some(place) if has_flag(ended, place) => Ok(None),
        Some(_) => Ok(Some(ProjectFaultKind::EndlessGroup)),
        None => Ok(Some(ProjectFaultKind::NoSuchGroup)),
    }
}

// What is wrong with an entry. `ended` tells which groups end.
fn judge(
    alloc: Global,
    groups: &Firsts,
    extras: &Firsts,
    ended: &[bool],
    place: usize,
    entry: &ProjectEntry,
) -> Result<Option<ProjectFaultKind>, AllocError>
    ensures { IfOk result (EntryIs groups.now extras.now ended.now place (entry_in entry.now)) }
{
    match &entry.content {
        Content::Text(_) => Ok(None),
        Content::Wrong(kind) => Ok(Some(*kind)),
        Content::Include(name) => judge_include(alloc, groups, ended, name.as_str()),
        Content::Name => match entry.key.section {
            Section::Group => judge_name(alloc, groups, place, name_of(entry)),
            _ => judge_name(alloc, extras, place, name_of(entry)),
        },
    }
}

fn add_fault(
    faults: &mut Vec<ProjectFault>,
    entry: usize,
    fault: Option<ProjectFaultKind>,
) -> Result<(), AllocError>
    ensures { IfOk result (λ _. faults.new.items ≡ faults.old.items ++ fault_at entry fault) }
{
    if let Some(kind) = fault {
        faults.push(ProjectFault { entry, kind })?;
    }
    Ok(())
}

// The faults of all entries.
pub(crate) fn faults_of(
    alloc: Global,
    entries: &[ProjectEntry],
) -> Result<Vec<ProjectFault>, AllocError>
    ensures { IfOk result (λ faults. AreFaultsOf entries.now faults.items) }
{
    let groups = firsts_of(alloc, entries, Section::Group)?;
    let extras = firsts_of(alloc, entries, Section::Extra)?;
    let links = links_of(alloc, entries, &groups)?;
    let ended = ended_of(alloc, &links, entries.len())?;
    let mut faults = Vec::new(alloc);
    for place in 0..entries.len() {
        let fault = judge(alloc, &groups, &extras, &ended, place, &entries[place])?;
        add_fault(&mut faults, place, fault)?;
    }
    Ok(faults)
}
