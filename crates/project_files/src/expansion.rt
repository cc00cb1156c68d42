//! The expansion of a group.

ghost use Rattle.std.specs.Prelude.{◌≤◌, IfOk, IfSome, vec_len};
ghost use Rattle.project_files.specs.declared.key.Section.TheVariants.{Group};
ghost use Rattle.project_files.specs.Expansion.{Expands, IsExpansion};
ghost use Rattle.project_files.specs.Firsts.{first_in, KnowsFirsts};
ghost use Rattle.project_files.specs.Found.{entry_in, entries_in};
ghost use Rattle.project_files.specs.Steps.{IsStep, IsStepAt, IsListOf};

use crate::entry::{Content, ProjectEntry};
use crate::groups::{Role, role_of};
use crate::judging::has_flag;
use crate::key::Section;
use crate::names::{Firsts, firsts_of, place_of};
use refusal::Refusal;
use std::alloc::{AllocError, Global};
use thiserror::Error;

/// How many strings an expansion may have.
pub const MOST_STRINGS: usize = 100_000;

/// How many steps an expansion may take: one for each string, each include and the end of each
/// list.
pub const MOST_STEPS: usize = 400_000;

/// Why a group has no expansion.
#[derive(Clone, Copy, Debug, PartialEq, Eq, Error)]
pub enum ExpansionFault {
    /// There is no group of this name.
    #[error("There is no such group")]
    NoSuchGroup,
    /// The entry of this number, in its list or one that it includes, has a fault.
    #[error("A list has a fault")]
    FaultyEntry(usize),
    /// It has more than [`MOST_STRINGS`] strings, or takes more than [`MOST_STEPS`] steps.
    #[error("The group is too large with all that it includes")]
    TooLarge,
}

// What is next in a list.
#[derive(Clone, Copy)]
enum Step {
    // Nothing: the list ends.
    End,
    // A string.
    Text,
    // The list that begins at this place.
    Include(usize),
    // An entry that has no expansion.
    Faulty,
}

// The strings so far, and the places to go on at, the innermost last.
#[derive(Drop)]
struct Walk {
    found: Vec<usize>,
    places: Vec<usize>,
}

// Where the list of a group begins, if there is such a group.
fn list_of(alloc: Global, groups: &Firsts, name: &str) -> Result<Option<usize>, AllocError>
    ensures { IfOk result (λ place. IfSome place (IsListOf (first_in groups.now) name.now)) }
{
    match place_of(alloc, groups, name)? {
        Some(group) => Ok(group.checked_add(1)),
        None => Ok(None),
    }
}

fn step_of(alloc: Global, groups: &Firsts, entry: &ProjectEntry) -> Result<Step, AllocError>
    ensures { IfOk result (IsStep (first_in groups.now) (entry_in entry.now)) }
{
    match role_of(entry) {
        Role::Item => match &entry.content {
            Content::Text(_) => Ok(Step::Text),
            Content::Include(name) => match list_of(alloc, groups, name.as_str())? {
                Some(inner) => Ok(Step::Include(inner)),
                None => Ok(Step::Faulty),
            },
            Content::Name | Content::Wrong(_) => Ok(Step::Faulty),
        },
        Role::Head | Role::Other => Ok(Step::End),
    }
}

// What is next in a list at a place. `faulty` tells which entries have faults.
fn step_at(
    alloc: Global,
    entries: &[ProjectEntry],
    faulty: &[bool],
    groups: &Firsts,
    place: usize,
) -> Result<Step, AllocError>
    requires { KnowsFirsts (entries_in entries.now) Group (first_in groups.now) }
    ensures { IfOk result (IsStepAt (entries_in entries.now) place) }
{
    if has_flag(faulty, place) {
        return Ok(Step::Faulty);
    }
    if place < entries.len() {
        step_of(alloc, groups, &entries[place])
    } else {
        Ok(Step::End)
    }
}

impl Walk {
    ghost use Rattle.std.specs.Prelude.{true, ◌≡◌, IfOk};
    ghost use Rattle.project_files.specs.Steps.{Takes};

    // Takes a step. Returns whether the entry has an expansion.
    fn take(&mut self, place: usize, next: usize, step: Step) -> Result<bool, AllocError>
        ensures { IfOk result (λ more. more ≡ true → Takes self.old self.new place next step) }
    {
        match step {
            Step::End => {}
            Step::Text => {
                self.found.push(place)?;
                self.places.push(next)?;
            }
            Step::Include(inner) => {
                self.places.push(next)?;
                self.places.push(inner)?;
            }
            Step::Faulty => return Ok(false),
        }
        Ok(true)
    }
}

// The strings of the list that begins at a place.
fn expand_list(
    alloc: Global,
    entries: &[ProjectEntry],
    faulty: &[bool],
    groups: &Firsts,
    start: usize,
) -> Result<Vec<usize>, Refusal<ExpansionFault>>
    requires { KnowsFirsts (entries_in entries.now) Group (first_in groups.now) }
    ensures expands { IfOk result (λ found. Expands (entries_in entries.now) start found.items) }
    ensures within { IfOk result (λ found. vec_len found ≤ MOST_STRINGS) }
{
    let mut walk = Walk {
        found: Vec::new(alloc),
        places: vec![in alloc; start]?,
    };
    for _step in 0..=MOST_STEPS {
        let Some(place) = walk.places.pop() else {
            return Ok(walk.found);
        };
        let Some(next) = place.checked_add(1) else {
            return Err(Refusal::Fault(ExpansionFault::TooLarge));
        };
        let step = step_at(alloc, entries, faulty, groups, place)?;
        if !walk.take(place, next, step)? {
            return Err(Refusal::Fault(ExpansionFault::FaultyEntry(place)));
        }
        if walk.found.len() > MOST_STRINGS {
            return Err(Refusal::Fault(ExpansionFault::TooLarge));
        }
    }
    Err(Refusal::Fault(ExpansionFault::TooLarge))
}

// The strings of a group. `faulty` tells which entries have faults.
pub(crate) fn expand(
    alloc: Global,
    entries: &[ProjectEntry],
    faulty: &[bool],
    name: &str,
) -> Result<Vec<usize>, Refusal<ExpansionFault>>
    ensures expands { IfOk result (λ v. IsExpansion (entries_in entries.now) name.now v.items) }
    ensures within { IfOk result (λ found. vec_len found ≤ MOST_STRINGS) }
{
    let groups = firsts_of(alloc, entries, Section::Group)?;
    match list_of(alloc, &groups, name)? {
        Some(start) => expand_list(alloc, entries, faulty, &groups, start),
        None => Err(Refusal::Fault(ExpansionFault::NoSuchGroup)),
    }
}
