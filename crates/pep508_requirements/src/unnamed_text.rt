//! The texts of requirements without a name.

ghost use Rattle.std.specs.Prelude.{IfOk, string_bytes};
ghost use Rattle.std.specs.Option.{option_map};
ghost use Rattle.marker_graph.specs.Contents.{IsHeld};
ghost use Rattle.pep508_requirements.specs.Text.{unnamed_text};
ghost use Rattle.pep508_requirements.specs.Whole.{PrintsUnnamed};

use crate::text::write_marker;
use crate::unnamed::UnnamedRequirement;
use marker_graph::Interner;
use pep508_markers::MarkerText;
use pep508_names::ExtraName;
use pep508_urls::UnnamedRequirementUrl;
use requirement_words::write_extras;
use std::alloc::AllocError;
use std::fmt;
use std::fmt::Display;

// The parts of a requirement without a name, with the text of its marker.
#[derive(Drop)]
pub(crate) struct UnnamedText<'a, Url: UnnamedRequirementUrl> {
    pub(crate) url: &'a Url,
    pub(crate) extras: &'a [ExtraName],
    pub(crate) marker: &'a Option<String>,
}

impl<Url: UnnamedRequirementUrl> Display for UnnamedText<'_, Url> {
    ghost output = { λ text. unnamed_text (Url.output text.url.now) text.extras.now
        (option_map string_bytes text.marker.now) };

    fn fmt<W: fmt::Write>(&self, f: &mut fmt::Formatter<W>) -> fmt::Result {
        write!(f, "{}", self.url)?;
        write_extras(self.extras, f)?;
        write_marker(self.marker.as_deref(), f)
    }
}

impl<Url: UnnamedRequirementUrl> UnnamedRequirement<Url> {
    /// Returns the text of the requirement: its URL, its extras in brackets, and ` ; ` and its
    /// marker as [`MarkerText::try_to_string`] prints it. A marker that is `TRUE` is left out.
    pub fn try_to_string(&self, interner: &Interner) -> Result<String, AllocError>
        requires { IsHeld interner.now self.now.marker }
        ensures { IfOk result (λ text.
            PrintsUnnamed Url.output interner.now self.now (string_bytes text)) }
    {
        let marker = self.marker.try_to_string(interner)?;
        let text = UnnamedText {
            url: &self.url,
            extras: &self.extras,
            marker: &marker,
        };
        text.to_string(interner.allocator())
    }
}
