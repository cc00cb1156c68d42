//! The keys on which an open truth depends.

ghost use Rattle.std.specs.Prelude.{IfOk};
ghost use Rattle.marker_graph.specs.Contents.{IsHeld, IsKept, truth};
ghost use Rattle.selection_commands.specs.Keys.{AreOpen};

use crate::target::Target;
use marker_answers::{Evaluation, evaluate};
use marker_graph::{Interner, MarkerTree};
use marker_walks::EnvironmentKey;
use refusal::Refusal;
use std::alloc::AllocError;

/// Returns the keys on which the truth of a marker still depends in a target, in the order of their
/// names. There are none if it is not open, or if the interner or `most` subtrees do not suffice to
/// find them.
///
/// # Errors
/// `AllocError` when memory runs out.
pub fn open_keys(
    interner: &mut Interner,
    marker: MarkerTree,
    target: &Target,
    most: usize,
) -> Result<Vec<EnvironmentKey>, AllocError>
    requires { IsHeld interner.old marker }
    ensures kept { IsKept interner.old interner.new }
    ensures keys { IfOk result
        (λ keys. AreOpen target.now (truth interner.new marker) keys.items) }
{
    let alloc = interner.allocator();
    match evaluate(interner, marker, &target.known, &target.extras, most) {
        Ok(Evaluation::Depends(keys)) => Ok(keys),
        Err(Refusal::OutOfMemory) if !interner.has_met_room() => Err(AllocError),
        _ => Ok(Vec::new(alloc)),
    }
}
