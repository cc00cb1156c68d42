//! Pairs of the values of two lists.

ghost use Rattle.std.specs.Prelude.{◌≡◌, ◌++◌, IfOk, OnOk};
ghost use Rattle.selection_commands.specs.Products.{pairs_of, pairs_with};

use std::alloc::{AllocError, Global};

// Adds a value with each value of a list.
fn add_pairs<A: Copy, B: Copy>(
    pairs: &mut Vec<(A, B)>,
    one: A,
    second: &[B],
) -> Result<(), AllocError>
    ensures { OnOk result (pairs.new.items ≡ pairs.old.items ++ pairs_with one second.now) }
{
    for other in second {
        pairs.push((one, *other))?;
    }
    Ok(())
}

/// Returns each value of the first list with each of the second one: the first value of the first
/// list with all of the second one come first.
pub fn product<A: Copy, B: Copy>(
    alloc: Global,
    first: &[A],
    second: &[B],
) -> Result<Vec<(A, B)>, AllocError>
    ensures { IfOk result (λ pairs. pairs.items ≡ pairs_of first.now second.now) }
{
    let mut pairs = Vec::new(alloc);
    for one in first {
        add_pairs(&mut pairs, *one, second)?;
    }
    Ok(pairs)
}
