//! The text of a marker.

ghost use Rattle.std.specs.Prelude.{IfOk, option_map, string_bytes};
ghost use Rattle.marker_graph.specs.Contents.{IsHeld, truth};
ghost use Rattle.marker_view.specs.Text.{TellsText};

use crate::dnf::to_dnf;
use marker_grammar::Clauses;
use marker_graph::{Interner, MarkerTree};
use std::alloc::AllocError;

/// A text begins with room for so many bytes, as many as three comparisons mostly have.
const ROOM: usize = 128;

/// Returns the text of the marker: its clauses joined by `or`, and the comparisons of each joined
/// by `and`. `None` for `TRUE`. `FALSE` is printed as `python_version < '0'`, which parses to
/// another marker.
///
/// The text of a readable marker parses back to a formula of the same truth, and no comparison of
/// it overflows. A marker is readable if it means a formula whose lists have only release numbers,
/// whose texts lack one of the two quotes, and whose arbitrary extras are invalid names.
pub fn try_to_string(interner: &Interner, tree: MarkerTree) -> Result<Option<String>, AllocError>
    requires { IsHeld interner.now tree }
    ensures { IfOk result
        (λ text. TellsText (truth interner.now tree) (option_map string_bytes text)) }
{
    interner.keeps_the_rules();
    if tree.is_true() {
        return Ok(None);
    }
    let alloc = interner.allocator();
    if tree.is_false() {
        let nowhere = String::from_str(alloc, "python_version < '0'")?;
        return Ok(Some(nowhere));
    }
    let clauses = to_dnf(interner, tree)?;
    let mut text = String::with_capacity(alloc, ROOM)?;
    text.write(Clauses(&clauses))?;
    Ok(Some(text))
}
