//! The markers of texts that were parsed, for the crates that parse texts.

ghost use Rattle.std.specs.Prelude.{◌≡◌, IfSome};
ghost use Rattle.marker_graph.specs.Texts.{IsMarkerOfText};

use crate::interner::Interner;
use crate::tree::MarkerTree;
use std::alloc::AllocError;

impl Interner {
    /// Returns the marker of a text without warnings, if it was remembered. For the crates that
    /// parse texts.
    pub fn known_text(&self, text: &str) -> Option<MarkerTree>
        ensures { IfSome result (IsMarkerOfText self.now text.now) }
    {
        let id = self.texts.find(text)?;
        Some(MarkerTree { id })
    }

    /// Remembers the marker of a text without warnings, so that the text need not be parsed again.
    /// Only the newest texts of at most 128 bytes are remembered. For the crates that parse texts.
    pub fn remember_text(&mut self, text: &str, tree: MarkerTree) -> Result<(), AllocError>
        requires { IsMarkerOfText self.old text.now tree }
        ensures { self.new ≡ self.old }
    {
        self.texts.add(text, tree.id)
    }
}
