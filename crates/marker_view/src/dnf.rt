//! A marker as a disjunction of conjunctions.

ghost use Rattle.std.specs.Prelude.{◌≡◌, IfOk};
ghost use Rattle.marker_terms.specs.Clauses.{clauses_of};
ghost use Rattle.marker_graph.specs.Contents.{IsHeld};
ghost use Rattle.marker_view.specs.Dnf.{AreClausesOf, TellsExtra};

use crate::walk::collect;
use marker_graph::{Interner, MarkerTree};
use marker_parts::MarkerExpression;
use marker_terms::{common_extra, reduce};
use marker_words::ExtraOperator;
use std::alloc::AllocError;

/// Returns the marker as a disjunction of conjunctions: a list of clauses, each a list of
/// comparisons. The list is empty for `TRUE` and for `FALSE`.
///
/// The clauses mean the marker, unless it is `TRUE`, if its bounds of versions are only release
/// numbers. Those of a readable marker other than `TRUE` and `FALSE` can be printed, and parse
/// back: there is at least one, each has a term, and no text has both quotes.
///
/// They are the paths of the marker in the order of its edges, without redundant terms and clauses.
/// There may be as many clauses as the marker has paths. All paths together may have as many terms
/// as the interner has room for pieces of nodes; beyond that the call fails as when memory runs
/// out, and [`has_room_for_text`](crate::has_room_for_text) returns `false`.
pub fn to_dnf(
    interner: &Interner,
    tree: MarkerTree,
) -> Result<Vec<Vec<MarkerExpression>>, AllocError>
    requires { IsHeld interner.now tree }
    ensures { IfOk result (λ clauses. AreClausesOf interner.now tree (clauses_of clauses.items)) }
{
    if tree.is_true() {
        return Ok(Vec::new(interner.allocator()));
    }
    if tree.is_false() {
        return Ok(Vec::new(interner.allocator()));
    }
    let mut clauses = Vec::new(interner.allocator());
    let mut path = Vec::new(interner.allocator());
    let mut room = interner.room();
    collect(interner, tree, &mut path, &mut room, &mut clauses)?;
    let left = reduce(interner.allocator(), clauses)?;
    // Without clauses the marker would be `FALSE`, and without terms in one `TRUE`.
    interner.keeps_the_rules();
    Ok(left)
}

/// Returns the first `extra == '..'` of each clause, if there is a clause and all have the same.
pub fn top_level_extra(
    clauses: &[Vec<MarkerExpression>],
) -> Result<Option<MarkerExpression>, AllocError>
    ensures { IfOk result (TellsExtra (clauses_of clauses.now)) }
{
    match common_extra(clauses) {
        Some(name) => Ok(Some(MarkerExpression::Extra {
            operator: ExtraOperator::Equal,
            name: name.clone()?,
        })),
        None => Ok(None),
    }
}
