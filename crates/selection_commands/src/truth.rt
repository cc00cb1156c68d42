//! The truth of a marker in a target.

ghost use Rattle.std.specs.Prelude.{◌≡◌, IfOk, IfSome};
ghost use Rattle.marker_graph.specs.Contents.{IsHeld, truth};
ghost use Rattle.selection_commands.specs.Truth.{AreTruths, IsTruth, cell_text, truth_of};

use crate::reached::{reached, settled};
use crate::target::Target;
use marker_graph::{Interner, MarkerTree};
use marker_nodes::NodeId;
use std::alloc::AllocError;

/// What a marker is in a target.
#[derive(Clone, Copy, Debug, PartialEq, Eq)]
pub enum Truth {
    /// True in each environment of the target.
    Yes,
    /// True in no environment of the target.
    No,
    /// True in some environments of the target, and false in others.
    Open,
}

impl Truth {
    /// Returns the cell of a table for it: `yes`, `no` or `?`.
    pub fn cell(self) -> &'static str
        ensures { result.now ≡ cell_text self }
    {
        match self {
            Truth::Yes => "yes",
            Truth::No => "no",
            Truth::Open => "?",
        }
    }
}

// The truth that may be true or not, and false or not.
fn truth_of(may_hold: bool, may_fail: bool) -> Truth
    ensures { result ≡ truth_of may_hold may_fail }
{
    match (may_hold, may_fail) {
        (true, true) => Truth::Open,
        (true, false) => Truth::Yes,
        (false, _) => Truth::No,
    }
}

/// Returns what a marker is in a target. `None` if the target leads to more than `most` of its
/// subtrees.
///
/// # Errors
/// `AllocError` when memory runs out.
pub fn truth_in(
    interner: &Interner,
    marker: MarkerTree,
    target: &Target,
    most: usize,
) -> Result<Option<Truth>, AllocError>
    requires { IsHeld interner.now marker }
    ensures { IfOk result (λ found. IfSome found
        (IsTruth target.now (truth interner.now marker))) }
{
    let table = interner.table();
    let id = settled(table, marker.id(), target);
    let Some(ids) = reached(table, id, target, most)? else {
        return Ok(None);
    };
    let may_hold = ids.contains(&NodeId::TRUE);
    let may_fail = ids.contains(&NodeId::FALSE);
    Ok(Some(truth_of(may_hold, may_fail)))
}

/// Returns what a marker is in each of several targets, in their order. `None` if one of them leads
/// to more than `most` of its subtrees.
///
/// # Errors
/// `AllocError` when memory runs out.
pub fn truths_in(
    interner: &Interner,
    marker: MarkerTree,
    targets: &[Target],
    most: usize,
) -> Result<Option<Vec<Truth>>, AllocError>
    requires { IsHeld interner.now marker }
    ensures { IfOk result (λ found. IfSome found
        (λ truths. AreTruths (truth interner.now marker) targets.now truths.items)) }
{
    let mut truths = Vec::new(interner.allocator());
    for index in 0..targets.len() {
        let Some(truth) = truth_in(interner, marker, &targets[index], most)? else {
            return Ok(None);
        };
        truths.push(truth)?;
    }
    Ok(Some(truths))
}
