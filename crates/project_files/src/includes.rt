//! Which groups include which.

ghost use Rattle.std.specs.Prelude.{◌≡◌, ◌++◌, IfOk};
ghost use Rattle.project_files.specs.declared.key.Section.TheVariants.{Group};
ghost use Rattle.project_files.specs.Firsts.{first_in, KnowsFirsts};
ghost use Rattle.project_files.specs.Found.{entry_in, entries_in};
ghost use Rattle.project_files.specs.Groups.{role_of};
ghost use Rattle.project_files.specs.Links as spec;
ghost use Rattle.project_files.specs.Links.{Links};

use crate::entry::{Content, ProjectEntry};
use crate::groups::{Role, role_of};
use crate::names::{Firsts, place_of};
use std::alloc::{AllocError, Global};

// A group that includes another, by the places of their names among the entries.
#[derive(Clone, Copy)]
pub(crate) struct Link {
    pub(crate) from: usize,
    pub(crate) to: usize,
}

// The group that the entry begins or is in. `before` is that of the entry before.
fn home_of(before: Option<usize>, entry: &ProjectEntry, place: usize) -> Option<usize>
    ensures { result ≡ spec.home_of before (role_of (entry_in entry.now)) place }
{
    match role_of(entry) {
        Role::Head => Some(place),
        Role::Item => before,
        Role::Other => None,
    }
}

// The group that the entry includes.
fn target_of(
    alloc: Global,
    groups: &Firsts,
    entry: &ProjectEntry,
) -> Result<Option<usize>, AllocError>
    ensures { IfOk result (spec.Targets (first_in groups.now) (entry_in entry.now).content) }
{
    match &entry.content {
        Content::Include(name) => place_of(alloc, groups, name.as_str()),
        _ => Ok(None),
    }
}

// Adds the link between these groups.
fn add_link(
    links: &mut Vec<Link>,
    home: Option<usize>,
    target: Option<usize>,
) -> Result<(), AllocError>
    ensures { IfOk result (λ _. links.new.items ≡ links.old.items ++ spec.link_of home target) }
{
    if let (Some(from), Some(to)) = (home, target) {
        links.push(Link { from, to })?;
    }
    Ok(())
}

// The includes of all groups.
pub(crate) fn links_of(
    alloc: Global,
    entries: &[ProjectEntry],
    groups: &Firsts,
) -> Result<Vec<Link>, AllocError>
    requires { KnowsFirsts (entries_in entries.now) Group (first_in groups.now) }
    ensures { IfOk result (λ links. Links (entries_in entries.now) links.items) }
{
    let mut links = Vec::new(alloc);
    let mut home = None;
    for place in 0..entries.len() {
        let entry = &entries[place];
        home = home_of(home, entry, place);
        let target = target_of(alloc, groups, entry)?;
        add_link(&mut links, home, target)?;
    }
    Ok(links)
}
