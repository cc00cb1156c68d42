//! Keys of a `pyproject.toml`.

use std::fmt;

/// A table or key of a `pyproject.toml`, or several of one kind.
#[derive(Clone, Copy, PartialEq, Eq)]
pub enum Section {
    /// The table `build-system`.
    BuildSystem,
    /// `build-system.requires`.
    BuildRequires,
    /// The table `dependency-groups`.
    Groups,
    /// `dependency-groups.NAME`.
    Group,
    /// The table `project`.
    Project,
    /// `project.dependencies`.
    Dependencies,
    /// `project.dynamic`.
    Dynamic,
    /// The table `project.optional-dependencies`.
    Extras,
    /// `project.optional-dependencies.NAME`.
    Extra,
    /// `project.requires-python`.
    RequiresPython,
}

/// A key of a `pyproject.toml`, or a place in its list. It prints as `project.dependencies[3]`, and
/// a name with other characters than ASCII letters, digits, `-` and `_` in quotes.
#[derive(Drop)]
pub struct ProjectKey {
    /// The key, up to the name of a group or extra.
    pub section: Section,
    /// The name of a group or extra as it is in the file, in [`Section::Group`] and
    /// [`Section::Extra`].
    pub name: Option<String>,
    /// The place in the list, counted from 0.
    pub index: Option<usize>,
}

impl Section {
    /// Returns the key as in the file, without the name of a group or extra.
    pub fn as_str(self) -> &'static str {
        match self {
            Section::BuildSystem => "build-system",
            Section::BuildRequires => "build-system.requires",
            Section::Groups | Section::Group => "dependency-groups",
            Section::Project => "project",
            Section::Dependencies => "project.dependencies",
            Section::Dynamic => "project.dynamic",
            Section::Extras | Section::Extra => "project.optional-dependencies",
            Section::RequiresPython => "project.requires-python",
        }
    }
}

// Whether the key needs no quotes.
fn is_bare(key: &str) -> bool {
    let is_plain = |byte: &u8| byte.is_ascii_alphanumeric() || *byte == b'-' || *byte == b'_';
    !key.is_empty() && key.as_bytes().iter().all(is_plain)
}

impl fmt::Display for ProjectKey {
    fn fmt<W: fmt::Write>(&self, f: &mut fmt::Formatter<W>) -> fmt::Result {
        f.write_str(self.section.as_str())?;
        if let Some(name) = &self.name {
            if is_bare(name.as_str()) {
                write!(f, ".{name}")?;
            } else {
                write!(f, ".{name:?}")?;
            }
        }
        match self.index {
            Some(index) => write!(f, "[{index}]"),
            None => Ok(()),
        }
    }
}
