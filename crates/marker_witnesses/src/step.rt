//! The steps of a path in a decision diagram.

ghost use Rattle.std.specs.Prelude.{◌↔◌, IsTrue};
ghost use Rattle.marker_witnesses.specs.Path.{HasVersion};

use marker_graph::{ContainsMarkerTree, ExtraMarkerTree, InMarkerTree};
use marker_words::{TextVariable, VersionVariable};
use pep440_version::Version;
use std::ops::Bound;
use version_ranges::Piece;

/// A version key between two bounds.
#[derive(Clone, Copy)]
pub struct VersionStep<'i> {
    pub variable: VersionVariable,
    pub lower: Bound<&'i Version>,
    pub upper: Bound<&'i Version>,
}

impl VersionStep<'_> {
    /// Returns whether a version is between the bounds.
    pub fn has(&self, version: &Version) -> bool
        ensures { IsTrue result ↔ HasVersion self.now version.now }
    {
        let piece = Piece {
            lower: self.lower,
            upper: self.upper,
            value: &(),
        };
        piece.contains(version)
    }
}

/// A text key between two bounds.
#[derive(Clone, Copy)]
pub struct TextStep<'i> {
    pub variable: TextVariable,
    pub lower: Bound<&'i String>,
    pub upper: Bound<&'i String>,
}

impl TextStep<'_> {
    /// Returns whether a text is between the bounds.
    pub fn has(&self, text: &str) -> bool {
        let is_from = match self.lower {
            Bound::Included(least) => least.as_str() <= text,
            Bound::Excluded(below) => below.as_str() < text,
            Bound::Unbounded => true,
        };
        let is_until = match self.upper {
            Bound::Included(most) => text <= most.as_str(),
            Bound::Excluded(above) => text < above.as_str(),
            Bound::Unbounded => true,
        };
        is_from && is_until
    }
}

/// A step of a path: a variable of the marker, and the values with which the path goes on.
#[derive(Clone, Copy)]
pub enum Step<'i> {
    /// A version key, between two bounds.
    Version(VersionStep<'i>),
    /// A text key, between two bounds.
    Text(TextStep<'i>),
    /// A substring test `key in 'text'`, and its answer.
    In(InMarkerTree<'i>, bool),
    /// A substring test `'text' in key`, and its answer.
    Contains(ContainsMarkerTree<'i>, bool),
    /// An extra, and whether it is requested.
    Extra(ExtraMarkerTree<'i>, bool),
}
