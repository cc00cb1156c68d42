//! Reading the markers of requirements.

ghost use Rattle.std.specs.Prelude.{◌≡◌, IfOk, IfSome};
ghost use Rattle.marker_graph.specs.Contents.{IsHeld};
ghost use Rattle.requirement_checks.specs.Findings.{HoldsMarker};
ghost use Rattle.selection_commands.specs.Markers.{FindsMarker, FindsMarkerOf, IsReadBy};

use marker_graph::{Interner, Mark, MarkerTree};
use pep508_errors::Surroundings;
use pep508_requirements::VersionOrUrl;
use pep508_urls::VerbatimUrl;
use requirement_checks::{CheckSettings, Reading, read_requirement, read_unnamed};
use std::alloc::{AllocError, Global};
use std::collections::BTreeMap;

// An interner with more pieces is not kept for the next requirement.
const MOST_KEPT: usize = 4096;

/// The marker of a requirement.
#[derive(Clone, Copy, Debug)]
pub(crate) struct FoundMarker {
    pub(crate) tree: MarkerTree,
    /// Whether the requirement has a URL or is one.
    pub(crate) has_url: bool,
}

/// The marker of a requirement in an interner.
#[derive(Drop)]
pub(crate) struct HeldMarker {
    pub(crate) interner: Interner,
    /// How far the interner had grown before.
    mark: Mark,
    pub(crate) marker: FoundMarker,
}

/// Reads markers, one after another.
#[derive(Drop)]
pub(crate) struct MarkerReader<'s> {
    settings: CheckSettings<'s>,
    // For the nodes of a marker. It is empty.
    interner: Option<Interner>,
}

// The text of a requirement, read by the library.
fn read_text(
    text: &str,
    is_editable: bool,
    surroundings: &Surroundings<'_>,
    interner: &mut Interner,
) -> Result<Reading<VerbatimUrl>, AllocError>
    ensures held { IfOk result (HoldsMarker interner.new) }
    ensures read { IfOk result (IsReadBy surroundings.now is_editable interner.new text.now) }
{
    if is_editable {
        read_unnamed(text, surroundings, interner)
    } else {
        read_requirement(text, surroundings, interner)
    }
}

// The marker of the text of a requirement; `None` if it is invalid, or the interner has no room.
fn read_marker(
    text: &str,
    is_editable: bool,
    surroundings: &Surroundings<'_>,
    interner: &mut Interner,
) -> Result<Option<FoundMarker>, AllocError>
    ensures held { IfOk result
        (λ found. IfSome found (λ marker. IsHeld interner.new marker.tree)) }
    ensures read { IfOk result (FindsMarker surroundings.now is_editable interner.new text.now) }
{
    match read_text(text, is_editable, surroundings, interner) {
        Ok(Reading::Named(requirement, _)) => Ok(Some(FoundMarker {
            tree: requirement.marker,
            has_url: matches!(requirement.version_or_url, Some(VersionOrUrl::Url(_))),
        })),
        Ok(Reading::Unnamed(requirement, _)) => Ok(Some(FoundMarker {
            tree: requirement.marker,
            has_url: true,
        })),
        Ok(_) => Ok(None),
        Err(_) if interner.has_met_room() => Ok(None),
        Err(error) => Err(error),
    }
}

impl<'s> MarkerReader<'s> {
    /// Returns a reader that has read nothing.
    pub(crate) fn new(settings: CheckSettings<'s>) -> MarkerReader<'s>
        ensures { result.settings ≡ settings.entry }
    {
        MarkerReader {
            settings,
            interner: None,
        }
    }

    /// Returns how many pieces the nodes of a marker may have.
    pub(crate) fn room(&self) -> usize {
        self.settings.room
    }

    // An interner without nodes.
    fn take_interner(&mut self, alloc: Global) -> Interner
        ensures { self.new.settings ≡ self.old.settings }
    {
        match self.interner.take() {
            Some(interner) => interner,
            None => { Interner::with_key_and_room(alloc, self.settings.key, self.settings.room) }
        }
    }

    /// Returns the marker of the text of a requirement; `None` if it is invalid, or needs more room
    /// than there is.
    pub(crate) fn read(
        &mut self,
        alloc: Global,
        text: &str,
        is_editable: bool,
    ) -> Result<Option<HeldMarker>, AllocError>
        ensures settings { self.new.settings ≡ self.old.settings }
        ensures held { IfOk result (λ f. IfSome f (λ h. IsHeld h.interner h.marker.tree)) }
        ensures read { IfOk result (FindsMarkerOf self.old is_editable text.now) }
    {
        let none = BTreeMap::new(alloc);
        let surroundings = Surroundings {
            vars: &none,
            project_root: self.settings.folder,
            working_dir: Some(self.settings.folder),
        };
        let mut interner = self.take_interner(alloc);
        let mark = interner.mark();
        match read_marker(text, is_editable, &surroundings, &mut interner)? {
            Some(marker) => Ok(Some(HeldMarker {
                interner,
                mark,
                marker,
            })),
            None => Ok(None),
        }
    }

    /// Keeps the interner of a marker for the next one, without its nodes.
    pub(crate) fn put_back(&mut self, held: HeldMarker)
        ensures { self.new.settings ≡ self.old.settings }
    {
        let mut interner = held.interner;
        if interner.pieces() <= MOST_KEPT && !interner.has_met_room() {
            interner.release(held.mark);
            self.interner = Some(interner);
        }
    }
}
