//! Fields of metadata.

ghost use Rattle.metadata_files.specs.Fields.{IsKind};

use requirement_lines::Piece;

/// What a field says.
#[derive(Clone, Copy, Debug, PartialEq, Eq)]
pub enum FieldKind {
    /// `Name`: the name of the package.
    Name,
    /// `Requires-Python`: the versions of Python that it supports.
    RequiresPython,
    /// `Requires-Dist`: a requirement.
    RequiresDist,
    /// `Provides-Extra`: the name of an extra.
    ProvidesExtra,
    /// Any other field.
    Other,
}

/// A field of metadata.
#[derive(Clone, Copy)]
pub struct Field<'a> {
    pub kind: FieldKind,
    /// The name, as it is written.
    pub name: Piece<'a>,
    /// The value, without white space at its ends. The value of a continued header has its line
    /// breaks.
    pub value: Piece<'a>,
}

// The kind of the fields of this name.
pub(crate) fn kind_of(name: &str) -> FieldKind
    ensures { IsKind name.now result }
{
    if name.eq_ignore_ascii_case("name") {
        FieldKind::Name
    } else if name.eq_ignore_ascii_case("requires-python") {
        FieldKind::RequiresPython
    } else if name.eq_ignore_ascii_case("requires-dist") {
        FieldKind::RequiresDist
    } else if name.eq_ignore_ascii_case("provides-extra") {
        FieldKind::ProvidesExtra
    } else {
        FieldKind::Other
    }
}
