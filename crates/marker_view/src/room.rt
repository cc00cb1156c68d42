//! How many terms the clauses of a marker have before redundant ones are left out.

ghost use Rattle.marker_graph.specs.Contents.{IsHeld};

use crate::branch::branches;
use indexmap::IndexMap;
use marker_graph::{Interner, MarkerTree};
use std::alloc::AllocError;

// The paths from a marker to `TRUE`: how many there are, and how many terms all have together.
#[derive(Clone, Copy)]
struct Paths {
    count: usize,
    terms: usize,
}

impl Paths {
    const NONE: Paths = Paths { count: 0, terms: 0 };

    // The path of `TRUE`.
    const EMPTY: Paths = Paths { count: 1, terms: 0 };

    // These paths, and others that each begin with so many terms.
    fn and(self, len: usize, others: Paths) -> Paths {
        let first = others.count.saturating_mul(len);
        Paths {
            count: self.count.saturating_add(others.count),
            terms: self
                .terms
                .saturating_add(others.terms)
                .saturating_add(first),
        }
    }
}

// The paths of a marker. Those of its subtrees are counted once.
fn paths_of(
    interner: &Interner,
    tree: MarkerTree,
    known: &mut IndexMap<MarkerTree, Paths>,
) -> Result<Paths, AllocError>
    requires { IsHeld interner.now tree }
{
    if tree.is_true() {
        return Ok(Paths::EMPTY);
    }
    if let Some(paths) = known.get(&tree) {
        return Ok(*paths);
    }
    let mut paths = Paths::NONE;
    let found = branches(interner, tree)?;
    for branch in found {
        let below = paths_of(interner, branch.child, known)?;
        for clause in &branch.clauses {
            paths = paths.and(clause.len(), below);
        }
    }
    known.insert(tree, paths)?;
    Ok(paths)
}

/// Returns whether the interner has room for as many pieces of nodes as the clauses of the marker
/// have terms, redundant ones included. If not, [`to_dnf`](crate::to_dnf) and
/// [`try_to_string`](crate::try_to_string) fail as when memory runs out. This takes time and memory
/// for each node of the marker, and not for each clause.
pub fn has_room_for_text(interner: &Interner, tree: MarkerTree) -> Result<bool, AllocError>
    requires { IsHeld interner.now tree }
{
    let mut known = IndexMap::new(interner.allocator());
    let paths = paths_of(interner, tree, &mut known)?;
    Ok(paths.terms <= interner.room())
}
