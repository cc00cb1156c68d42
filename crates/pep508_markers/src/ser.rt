//! Markers in JSON, where a marker that is always true is left out.

ghost use Rattle.std.specs.Prelude.{◌≡◌, ◌↔◌, IfErr, IfOk, IsTrue};
ghost use Rattle.marker_graph.specs.Contents.{IsHeld};
ghost use Rattle.pep508_markers.specs.Json.{IsJsonOfTree, IsUnwritten};

use crate::json::write_string;
use crate::marker_text::MarkerText;
use marker_graph::{Interner, MarkerTree};
use refusal::Refusal;
use thiserror::Error;

/// The error of serializing `TRUE`, which has no text.
#[derive(Clone, Copy, Debug, Drop, PartialEq, Eq, Error)]
#[error("a marker that is true everywhere has no contents")]
pub struct NoContents;

/// Returns whether the marker is `TRUE`, which is left out when it is written.
pub fn is_empty(tree: &MarkerTree) -> bool
    ensures { IsTrue result ↔ (tree.now ≡ MarkerTree.TRUE) }
{
    tree.is_true()
}

/// Returns the text of the marker, as [`MarkerText::try_to_string`] does, as a JSON string.
///
/// # Errors
/// - [`Refusal::Fault`] with [`NoContents`] if the marker is `TRUE`.
/// - [`Refusal::OutOfMemory`] when memory runs out.
pub fn serialize(tree: &MarkerTree, interner: &Interner) -> Result<String, Refusal<NoContents>>
    requires { IsHeld interner.now tree.now }
    ensures json { IfOk result (IsJsonOfTree interner.now tree.now) }
    ensures err { IfErr result (IsUnwritten tree.now) }
{
    // A marker without a text is true everywhere, so it is `TRUE`.
    interner.keeps_the_rules();
    match tree.try_to_string(interner)? {
        Some(text) => Ok(write_string(interner.allocator(), text)?),
        None => Err(Refusal::Fault(NoContents)),
    }
}
