//! Requirements without a name, with the interners of their markers.

ghost use Rattle.std.specs.Prelude.{◌≡◌, IfOk, None};
ghost use Rattle.std.specs.Fmt.{DisplaysOnOk, DisplaysStyledOnOk};
ghost use Rattle.marker_graph.specs.Contents.{IsHeld};
ghost use Rattle.pep508_requirements.specs.View.{Shows};
ghost use Rattle.pep508_requirements.specs.Whole.{WithUnnamedText};

use crate::origin::RequirementOrigin;
use crate::unnamed::UnnamedRequirement;
use crate::unnamed_text::UnnamedText;
use crate::view::marker_text;
use marker_graph::Interner;
use marker_view::MarkerTreeView;
use pep508_markers::MarkerText;
use pep508_names::ExtraName;
use pep508_urls::UnnamedRequirementUrl;
use std::alloc::AllocError;
use std::fmt;
use std::fmt::Display;

/// A requirement without a name, with the interner of its marker. It can be compared and printed.
///
/// Views are compared by URL, extras, marker and origin, and markers as [`MarkerTreeView`] says,
/// even across interners. A view prints as the text of its requirement; printing returns an error
/// when memory for the marker's text runs out.
#[derive(PartialEq, Eq, PartialOrd, Ord)]
pub struct UnnamedRequirementView<'a, Url: UnnamedRequirementUrl> {
    url: &'a Url,
    extras: &'a [ExtraName],
    marker: MarkerTreeView<'a>,
    origin: &'a Option<RequirementOrigin>,
}

impl<Url: UnnamedRequirementUrl> Clone for UnnamedRequirementView<'_, Url> {
    ghost is_clone = { λ view copy. copy ≡ view };

    fn clone(&self) -> Result<Self, AllocError> {
        Ok(*self)
    }
}

impl<Url: UnnamedRequirementUrl> Copy for UnnamedRequirementView<'_, Url> {}

impl<Url: UnnamedRequirementUrl> UnnamedRequirement<Url> {
    /// Returns the requirement with the interner of its marker.
    pub fn view<'a>(&'a self, interner: &'a Interner) -> UnnamedRequirementView<'a, Url>
        requires { IsHeld interner.now self.now.marker }
        ensures url { result.url.now ≡ self.now.url }
        ensures extras { result.extras.now ≡ self.now.extras.items }
        ensures marker { Shows interner.now self.now.marker result.marker }
        ensures origin { result.origin.now ≡ self.now.origin }
    {
        UnnamedRequirementView {
            url: &self.url,
            extras: &self.extras,
            marker: self.marker.view(interner),
            origin: &self.origin,
        }
    }
}

impl<Url: UnnamedRequirementUrl> Display for UnnamedRequirementView<'_, Url> {
    // The text is not a function of the view: the clause `told` of `fmt` states it as a relation.
    ghost output = { λ _. None };

    fn fmt<W: fmt::Write>(&self, f: &mut fmt::Formatter<W>) -> fmt::Result
        ensures writes { DisplaysOnOk W.write_str_gives f.old result None f.new }
        ensures styled { DisplaysStyledOnOk W.write_str_gives f.old result None f.new }

        // Writes the text of the requirement, where the text of the URL is known.
        ensures told { IfOk result (λ _. WithUnnamedText Url.output self.now
            (λ text. DisplaysOnOk W.write_str_gives f.old result text f.new)) }
    {
        let marker = marker_text(&self.marker)?;
        let text = UnnamedText {
            url: self.url,
            extras: self.extras,
            marker: &marker,
        };
        write!(f, "{text}")
    }
}
