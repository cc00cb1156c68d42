//! Trees that are sets of the values of one variable, joined as sets: the steps make no nodes.

ghost use Rattle.std.specs.Prelude.{◌∷◌, IfOk};
ghost use Rattle.pep508_markers.specs.Trees.{AreHeld, FindsSetOfTwo, FindsSetUnder};

use crate::run::Connective;
use marker_graph::{Interner, MarkerTree};
use marker_simplifications::ValueSet;
use std::alloc::{AllocError, Global};

// The set of two sets under a connective, or `None` for sets of two variables.
fn join_two_sets(
    alloc: Global,
    connective: Connective,
    left: &ValueSet,
    right: &ValueSet,
) -> Result<Option<ValueSet>, AllocError>
    ensures { IfOk result (FindsSetOfTwo connective left.now right.now) }
{
    match connective {
        Connective::And => left.intersection(alloc, right),
        Connective::Or => left.union(alloc, right),
    }
}

// The set of trees under a connective, or `None` if there is no tree, one is no set, or they are
// sets of two variables. It calls itself for each half, so its depth is the logarithm of how many
// trees there are.
fn joined_set(
    interner: &Interner,
    connective: Connective,
    trees: &[MarkerTree],
) -> Result<Option<ValueSet>, AllocError>
    requires { AreHeld interner.now trees.now }
    ensures { IfOk result (FindsSetUnder interner.now connective trees.now) }
{
    let middle = trees.len() / 2;
    if middle == 0 {
        return match trees.first() {
            Some(tree) => tree.value_set(interner),
            None => Ok(None),
        };
    }
    let (left, right) = trees.split_at(middle);
    let Some(left) = joined_set(interner, connective, left)? else {
        return Ok(None);
    };
    let Some(right) = joined_set(interner, connective, right)? else {
        return Ok(None);
    };
    join_two_sets(interner.allocator(), connective, &left, &right)
}

// The same of a tree and others, at least one.
pub(crate) fn joined_set_of(
    interner: &Interner,
    connective: Connective,
    first: MarkerTree,
    others: &[MarkerTree],
) -> Result<Option<ValueSet>, AllocError>
    requires { AreHeld interner.now (first ∷ others.now) }
    ensures { IfOk result (FindsSetUnder interner.now connective (first ∷ others.now)) }
{
    let Some(left) = first.value_set(interner)? else {
        return Ok(None);
    };
    let Some(right) = joined_set(interner, connective, others)? else {
        return Ok(None);
    };
    join_two_sets(interner.allocator(), connective, &left, &right)
}
