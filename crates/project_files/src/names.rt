//! The first group or extra of each name.

ghost use Rattle.std.specs.Prelude.{IfOk};
ghost use Rattle.project_files.specs.Found.{entry_in, entries_in};
ghost use Rattle.project_files.specs.Groups.{IsNameIn};
ghost use Rattle.project_files.specs.Firsts.{first_in, Finds, KeepsFirst, KnowsFirsts};

use crate::entry::{Content, ProjectEntry};
use crate::groups::{name_of, normal_form};
use crate::key::Section;
use pep508_names::ExtraName;
use std::alloc::{AllocError, Global};
use std::collections::BTreeMap;

// Places of entries, by names in normal form.
pub(crate) type Firsts = BTreeMap<ExtraName, usize>;

// The normal form of the name, if the entry begins a group or extra of the section.
fn named(
    alloc: Global,
    entry: &ProjectEntry,
    section: Section,
) -> Result<Option<ExtraName>, AllocError>
    ensures { IfOk result (IsNameIn section (entry_in entry.now)) }
{
    match entry.content {
        Content::Name if entry.key.section == section => normal_form(alloc, name_of(entry)),
        _ => Ok(None),
    }
}

// Keeps a place of a name, unless it has one.
fn keep(firsts: &mut Firsts, name: ExtraName, place: usize) -> Result<(), AllocError>
    ensures { IfOk result (λ _. KeepsFirst name place firsts.old firsts.new) }
{
    if !firsts.contains_key(&name) {
        firsts.insert(name, place)?;
    }
    Ok(())
}

// The first group or extra of each name of a section.
pub(crate) fn firsts_of(
    alloc: Global,
    entries: &[ProjectEntry],
    section: Section,
) -> Result<Firsts, AllocError>
    ensures { IfOk result (λ v. KnowsFirsts (entries_in entries.now) section (first_in v)) }
{
    let mut firsts = BTreeMap::new(alloc);
    for place in 0..entries.len() {
        if let Some(name) = named(alloc, &entries[place], section)? {
            keep(&mut firsts, name, place)?;
        }
    }
    Ok(firsts)
}

// The place that a name has, in any spelling.
pub(crate) fn place_of(
    alloc: Global,
    firsts: &Firsts,
    name: &str,
) -> Result<Option<usize>, AllocError>
    ensures { IfOk result (Finds (first_in firsts.now) name.now) }
{
    match normal_form(alloc, name)? {
        Some(name) => Ok(firsts.get(&name).copied()),
        None => Ok(None),
    }
}
