//! Parts of a file in which keys and values are written.

use project_files::{ProjectKey, Section};
use std::alloc::{AllocError, Global};
use std::collections::BTreeMap;

/// A part of a file, in bytes from the first of the file.
#[derive(Clone, Copy)]
pub struct Part {
    /// The first byte.
    pub start: usize,
    /// The byte after the last one.
    pub end: usize,
}

// Where a key and its value are.
#[derive(Drop)]
pub(crate) struct Written {
    // The last name of the key.
    pub(crate) key: Part,
    // The value. Of a list or a table only its bracket.
    pub(crate) value: Part,
    // The items of a list. Of a table that includes a group, the name of that.
    pub(crate) items: Vec<Part>,
}

// What is written, by names of keys.
pub(crate) type Parts = BTreeMap<String, Written>;

// The name of a key without the place in its list: that of the section, and of the group or extra.
pub(crate) fn name_of(
    alloc: Global,
    section: Section,
    name: Option<&str>,
) -> Result<String, AllocError> {
    let section = section.as_str();
    match name {
        Some(name) => format!(in alloc; "{section}.{name}"),
        None => String::from_str(alloc, section),
    }
}

// The name of an entry's key.
pub(crate) fn name_of_key(alloc: Global, key: &ProjectKey) -> Result<String, AllocError> {
    name_of(alloc, key.section, key.name.as_deref())
}

// The name of the key at a path, if the project has entries there.
pub(crate) fn name_of_path(alloc: Global, path: &[String]) -> Result<Option<String>, AllocError> {
    let (section, name) = match path {
        [first] => (top_section(first.as_str()), None),
        [first, second] => inner_section(first.as_str(), second.as_str()),
        [first, second, third]
            if first.as_str() == "project" && second.as_str() == "optional-dependencies" => {
            (Some(Section::Extra), Some(third.as_str()))
        }
        _ => (None, None),
    };
    match section {
        Some(section) => Ok(Some(name_of(alloc, section, name)?)),
        None => Ok(None),
    }
}

fn top_section(name: &str) -> Option<Section> {
    match name {
        "build-system" => Some(Section::BuildSystem),
        "dependency-groups" => Some(Section::Groups),
        "project" => Some(Section::Project),
        _ => None,
    }
}

// The section of a key in a table, and the name of the group that the key is.
fn inner_section<'p>(table: &str, key: &'p str) -> (Option<Section>, Option<&'p str>) {
    match (table, key) {
        ("build-system", "requires") => (Some(Section::BuildRequires), None),
        ("dependency-groups", name) => (Some(Section::Group), Some(name)),
        ("project", "dependencies") => (Some(Section::Dependencies), None),
        ("project", "dynamic") => (Some(Section::Dynamic), None),
        ("project", "optional-dependencies") => (Some(Section::Extras), None),
        ("project", "requires-python") => (Some(Section::RequiresPython), None),
        _ => (None, None),
    }
}
