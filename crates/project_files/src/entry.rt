//! Entries of a `pyproject.toml`.

use crate::key::ProjectKey;
use thiserror::Error;

/// What is wrong at a key.
#[derive(Clone, Copy, Debug, PartialEq, Eq, Error)]
pub enum ProjectFaultKind {
    /// The value must be a table.
    #[error("Expected a table")]
    NotATable,
    /// The value must be a list.
    #[error("Expected a list of strings")]
    NotAList,
    /// The value must be a string.
    #[error("Expected a string")]
    NotAString,
    /// The value must be a string or a table with the one key `include-group` and a string.
    #[error("Expected a string or `{{include-group = \"NAME\"}}`")]
    NotAGroupItem,
    /// `build-system` has no `requires`.
    #[error("Expected the key `requires`")]
    NoRequires,
    /// The string of `project.dynamic` is a key of `project`.
    #[error("A dynamic key has a value in `project`")]
    NotDynamic,
    /// The name of the group or extra is invalid (PEP 508).
    #[error("Expected a name of ASCII letters, digits, `-`, `_` and `.`, with a letter or digit at each end")]
    InvalidName,
    /// An earlier group or extra has this name in normal form (PEP 503).
    #[error("An earlier key has this name in normal form")]
    RepeatedName,
    /// There is no group of this name.
    #[error("There is no such group")]
    NoSuchGroup,
    /// Including the group never ends.
    #[error("The group includes itself, by this or further on")]
    EndlessGroup,
}

/// What is at a key.
#[derive(Drop)]
pub enum Content {
    /// A string: specifiers at `project.requires-python`, a requirement elsewhere.
    Text(String),
    /// The name of a group, whose list replaces the entry.
    Include(String),
    /// A group or extra. The entries of its list follow.
    Name,
    /// A value of the wrong type, or one that contradicts another.
    Wrong(ProjectFaultKind),
}

/// A key and what is there.
#[derive(Drop)]
pub struct ProjectEntry {
    /// The key.
    pub key: ProjectKey,
    /// What is there.
    pub content: Content,
}
