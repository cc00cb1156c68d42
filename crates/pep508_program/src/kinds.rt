//! Kinds of files, by their names.

ghost use Rattle.std.specs.Prelude.{◌≡◌};
ghost use Rattle.pep508_program.specs.Kinds as spec;

/// How a file is read.
#[derive(Clone, Copy, PartialEq, Eq)]
pub enum FileKind {
    /// As a requirements file.
    Requirements,
    /// As metadata of a package.
    Metadata,
    /// As a `pyproject.toml`.
    Project,
}

/// Returns the part of a path after its last `/`.
pub fn file_name(path: &str) -> &str {
    match path.rsplit_once('/') {
        Some((_, name)) => name,
        None => path,
    }
}

/// Returns the kind of the files of this name.
pub fn kind_of_name(name: &str) -> FileKind
    ensures { result ≡ spec.kind_of name.now }
{
    match name {
        "METADATA" | "PKG-INFO" => FileKind::Metadata,
        "pyproject.toml" => FileKind::Project,
        _ => FileKind::Requirements,
    }
}

/// Returns whether a folder that is searched is searched for files of this name.
pub fn is_sought(name: &str) -> bool {
    let is_text = name.ends_with(".txt");
    kind_of_name(name) != FileKind::Requirements
        || name.starts_with("requirements") && (is_text || name.ends_with(".in"))
        || name.starts_with("constraints") && is_text
}
