//! The texts of requirements with a name.

ghost use Rattle.std.specs.Prelude.{Some, IfOk, IfSome, string_bytes};
ghost use Rattle.std.specs.Str.{IsUtf8};
ghost use Rattle.std.specs.Fmt.{DisplaysOnOk};
ghost use Rattle.std.specs.List.{AllByRecursion};
ghost use Rattle.std.specs.Option.{option_map};
ghost use Rattle.marker_graph.specs.Contents.{IsHeld};
ghost use Rattle.requirement_words.specs.Text.{IsNormal};
ghost use Rattle.pep508_requirements.specs.Text.{marker_part, AreSets, requirement_text, IsJsonOf};
ghost use Rattle.pep508_requirements.specs.Whole.{IfReadable, ParsesBack, Prints};

use crate::requirement::Requirement;
use crate::version_or_url::VersionOrUrl;
use marker_graph::Interner;
use pep508_errors::Pep508Url;
use pep508_markers::MarkerText;
use pep508_markers::internal::write_string;
use pep508_names::{ExtraName, PackageName};
use requirement_words::{write_extras, write_specifiers};
use std::alloc::AllocError;
use std::fmt;
use std::fmt::Display;

// Writes ` ; ` and the text of a marker, or nothing without one.
pub(crate) fn write_marker<W: fmt::Write>(
    marker: Option<&str>,
    f: &mut fmt::Formatter<W>,
) -> fmt::Result
    ensures { DisplaysOnOk W.write_str_gives f.old result
        (Some (marker_part (option_map (λ m. m.now) marker.entry))) f.new }
{
    match marker {
        Some(marker) => write!(f, " ; {marker}"),
        None => Ok(()),
    }
}

// The parts of a requirement, with the text of its marker.
#[derive(Drop)]
pub(crate) struct RequirementText<'a, T: Pep508Url> {
    pub(crate) name: &'a PackageName,
    pub(crate) extras: &'a [ExtraName],
    pub(crate) version_or_url: &'a Option<VersionOrUrl<T>>,
    pub(crate) marker: &'a Option<String>,
}

impl<T: Pep508Url> Display for RequirementText<'_, T> {
    ghost output = { λ text. requirement_text T.output text.name.now text.extras.now
        text.version_or_url.now (option_map string_bytes text.marker.now) };

    fn fmt<W: fmt::Write>(&self, f: &mut fmt::Formatter<W>) -> fmt::Result {
        write!(f, "{}", self.name)?;
        write_extras(self.extras, f)?;
        match self.version_or_url {
            Some(VersionOrUrl::VersionSpecifier(set)) => write_specifiers(set, f)?,
            Some(VersionOrUrl::Url(url)) => write!(f, " @ {url}")?,
            None => {}
        }
        write_marker(self.marker.as_deref(), f)
    }
}

// The text of a marker is UTF-8, which reading it shows.
fn look_at_text(marker: &Option<String>)
    ensures { IfSome marker.now (λ text. IsUtf8 (string_bytes text)) }
{
    if let Some(text) = marker {
        let _ = text.as_str();
    }
}

// Names are in their normal form, which reading each shows.
fn look_at_names(names: &[ExtraName])
    ensures { AllByRecursion IsNormal names.entry.now }
{
    let mut names = names;
    while let [first, others @ ..] = names {
        let _ = first.as_str();
        names = others;
    }
}

// Specifiers keep the invariant of their set, which reading them shows.
fn look_at_specifiers<T: Pep508Url>(asked: &Option<VersionOrUrl<T>>)
    ensures { AreSets asked.now }
{
    if let Some(VersionOrUrl::VersionSpecifier(set)) = asked {
        let _ = set.as_slice();
    }
}

impl<T: Pep508Url> Requirement<T> {
    /// Returns the text of the requirement: its name, its extras in brackets, its specifiers
    /// separated by commas or ` @ ` and its URL, and ` ; ` and its marker as
    /// [`MarkerText::try_to_string`] prints it. A marker that is `TRUE` is left out.
    ///
    /// The text parses back to the same name, extras and specifiers and an equivalent marker under
    /// two conditions. There is no URL and no empty list of specifiers; and the marker is `TRUE`,
    /// or readable and not `FALSE`.
    pub fn try_to_string(&self, interner: &Interner) -> Result<String, AllocError>
        requires { IsHeld interner.now self.now.marker }
        ensures text { IfOk result (λ s. Prints T.output interner.now self.now (string_bytes s)) }
        ensures read_back { IfOk result (λ text. IfReadable interner.now self.now
            (ParsesBack T.names interner.now self.now (string_bytes text))) }
    {
        let _ = self.name.as_str();
        look_at_names(&self.extras);
        look_at_specifiers(&self.version_or_url);
        let marker = self.marker.try_to_string(interner)?;
        look_at_text(&marker);
        let text = RequirementText {
            name: &self.name,
            extras: &self.extras,
            version_or_url: &self.version_or_url,
            marker: &marker,
        };
        text.to_string(interner.allocator())
    }

    /// Returns the text of the requirement, as [`Requirement::try_to_string`] does, as a JSON
    /// string.
    pub fn to_json(&self, interner: &Interner) -> Result<String, AllocError>
        requires { IsHeld interner.now self.now.marker }
        ensures text { IfOk result (λ json.
            IsJsonOf (Prints T.output interner.now self.now) (string_bytes json)) }
        ensures read_back { IfOk result (λ json. IfReadable interner.now self.now
            (IsJsonOf (ParsesBack T.names interner.now self.now) (string_bytes json))) }
    {
        let text = self.try_to_string(interner)?;
        write_string(interner.allocator(), text)
    }
}
