//! Names of groups and extras, and what groups include.

ghost use Rattle.std.specs.Prelude.{◌≡◌, IfOk, MatchOption};
ghost use Rattle.pep508_names.specs.Name.{IsName, NormalizesTo};
ghost use Rattle.project_files.specs.Found.{entry_in};
ghost use Rattle.project_files.specs.Groups.{role_of, name_of};

use crate::entry::{Content, ProjectEntry};
use crate::key::Section;
use pep508_names::ExtraName;
use refusal::unless_fault;
use std::alloc::{AllocError, Global};

// The part of an entry in groups.
#[derive(Clone, Copy)]
pub(crate) enum Role {
    // It begins a group.
    Head,
    // It is in the list of a group.
    Item,
    // It belongs to no group.
    Other,
}

pub(crate) fn role_of(entry: &ProjectEntry) -> Role
    ensures { result ≡ role_of (entry_in entry.now) }
{
    match entry.key.section {
        Section::Group => match entry.content {
            Content::Name => Role::Head,
            _ => Role::Item,
        },
        _ => Role::Other,
    }
}

// The name of the entry's group or extra.
pub(crate) fn name_of(entry: &ProjectEntry) -> &str
    ensures { result.now ≡ name_of (entry_in entry.now) }
{
    match &entry.key.name {
        Some(name) => name.as_str(),
        None => "",
    }
}

// The normal form of a name.
pub(crate) fn normal_form(alloc: Global, text: &str) -> Result<Option<ExtraName>, AllocError>
    ensures { IfOk result (λ n. MatchOption n (¬ IsName text.now) (NormalizesTo text.now)) }
{
    unless_fault(ExtraName::parse(alloc, text))
}
