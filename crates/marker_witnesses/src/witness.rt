//! Witnesses of markers.

ghost use Rattle.std.specs.Prelude.{IfOk, IfSome};
ghost use Rattle.marker_graph.specs.Contents.{IsHeld, truth};
ghost use Rattle.marker_witnesses.specs.Witness.{IsWitnessOf, Satisfies};

use crate::choice::Preference;
use crate::example::{Example, example_of};
use crate::path::path_to_true;
use crate::step::Step;
use marker_graph::{Interner, MarkerTree};
use std::alloc::AllocError;

/// What satisfies a marker.
#[derive(Drop)]
pub enum Witness<'i> {
    /// An environment and extras.
    Example(Example),
    /// The values of the variables, of which no environment was found.
    Path(Vec<Step<'i>>),
}

// An environment that follows a path to `TRUE`, if one was found. It satisfies the marker.
fn example_for(
    interner: &Interner,
    tree: MarkerTree,
    preference: Preference,
) -> Result<Option<Example>, AllocError>
    requires { IsHeld interner.now tree }
    ensures { IfOk result (λ found. IfSome found (Satisfies (truth interner.now tree))) }
{
    let Some(path) = path_to_true(interner, tree, preference)? else {
        return Ok(None);
    };
    let Some(example) = example_of(interner.allocator(), &path)? else {
        return Ok(None);
    };
    if tree.evaluate(interner, &example.environment, &example.extras) {
        Ok(Some(example))
    } else {
        Ok(None)
    }
}

/// Returns what satisfies a marker, or `None` if the marker is `FALSE`.
pub fn witness_of<'i>(
    interner: &'i Interner,
    tree: MarkerTree,
) -> Result<Option<Witness<'i>>, AllocError>
    requires { IsHeld interner.now tree }
    ensures { IfOk result (IsWitnessOf interner.now tree) }
{
    let Some(path) = path_to_true(interner, tree, Preference::Best)? else {
        return Ok(None);
    };
    for preference in [Preference::Best, Preference::Last, Preference::First] {
        if let Some(example) = example_for(interner, tree, preference)? {
            return Ok(Some(Witness::Example(example)));
        }
    }
    Ok(Some(Witness::Path(path)))
}
