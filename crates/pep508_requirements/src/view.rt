//! Requirements with a name, with the interners of their markers.

ghost use Rattle.std.specs.Prelude.{◌≡◌, IfOk, None};
ghost use Rattle.std.specs.Fmt.{DisplaysOnOk, DisplaysStyledOnOk};
ghost use Rattle.marker_graph.specs.Contents.{IsHeld};
ghost use Rattle.pep508_markers.specs.Text.{TellsTree};
ghost use Rattle.pep508_requirements.specs.View.{Shows};
ghost use Rattle.pep508_requirements.specs.Whole.{WithRequirementText};

use crate::origin::RequirementOrigin;
use crate::requirement::Requirement;
use crate::text::RequirementText;
use crate::version_or_url::VersionOrUrl;
use marker_graph::Interner;
use marker_view::MarkerTreeView;
use pep508_errors::Pep508Url;
use pep508_markers::MarkerText;
use pep508_names::{ExtraName, PackageName};
use std::alloc::AllocError;
use std::fmt;
use std::fmt::Display;

/// A requirement with the interner of its marker. It can be compared and printed.
///
/// Views are compared by name, extras, version or URL, marker and origin, and markers as
/// [`MarkerTreeView`] says, even across interners. A view prints as the text of its requirement;
/// printing returns an error when memory for the marker's text runs out.
#[derive(PartialEq, Eq, PartialOrd, Ord)]
pub struct RequirementView<'a, T: Pep508Url> {
    name: &'a PackageName,
    extras: &'a [ExtraName],
    version_or_url: &'a Option<VersionOrUrl<T>>,
    marker: MarkerTreeView<'a>,
    origin: &'a Option<RequirementOrigin>,
}

impl<T: Pep508Url> Clone for RequirementView<'_, T> {
    ghost is_clone = { λ view copy. copy ≡ view };

    fn clone(&self) -> Result<Self, AllocError> {
        Ok(*self)
    }
}

impl<T: Pep508Url> Copy for RequirementView<'_, T> {}

impl<T: Pep508Url> Requirement<T> {
    /// Returns the requirement with the interner of its marker.
    pub fn view<'a>(&'a self, interner: &'a Interner) -> RequirementView<'a, T>
        requires { IsHeld interner.now self.now.marker }
        ensures name { result.name.now ≡ self.now.name }
        ensures extras { result.extras.now ≡ self.now.extras.items }
        ensures wanted { result.version_or_url.now ≡ self.now.version_or_url }
        ensures marker { Shows interner.now self.now.marker result.marker }
        ensures origin { result.origin.now ≡ self.now.origin }
    {
        RequirementView {
            name: &self.name,
            extras: &self.extras,
            version_or_url: &self.version_or_url,
            marker: self.marker.view(interner),
            origin: &self.origin,
        }
    }
}

// The text of a marker, or an error when memory runs out.
pub(crate) fn marker_text(marker: &MarkerTreeView<'_>) -> Result<Option<String>, fmt::Error>
    ensures { IfOk result (TellsTree marker.now.interner.now marker.now.tree) }
{
    match marker.tree().try_to_string(marker.interner()) {
        Ok(text) => Ok(text),
        Err(_) => Err(fmt::Error),
    }
}

impl<T: Pep508Url> Display for RequirementView<'_, T> {
    // The text is not a function of the view: the clause `told` of `fmt` states it as a relation.
    ghost output = { λ _. None };

    fn fmt<W: fmt::Write>(&self, f: &mut fmt::Formatter<W>) -> fmt::Result
        ensures writes { DisplaysOnOk W.write_str_gives f.old result None f.new }
        ensures styled { DisplaysStyledOnOk W.write_str_gives f.old result None f.new }

        // Writes the text of the requirement, where the text of the URL is known.
        ensures told { IfOk result (λ _. WithRequirementText T.output self.now
            (λ text. DisplaysOnOk W.write_str_gives f.old result text f.new)) }
    {
        let marker = marker_text(&self.marker)?;
        let text = RequirementText {
            name: self.name,
            extras: self.extras,
            version_or_url: self.version_or_url,
            marker: &marker,
        };
        write!(f, "{text}")
    }
}
