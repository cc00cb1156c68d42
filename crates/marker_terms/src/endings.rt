//! Which clauses end with a term.

ghost use Rattle.std.specs.Prelude.{◌≡◌, Some, IfOk, OnOk, Contains};
ghost use Rattle.marker_terms.specs.Endings.{AreEndingsOf, AreNear, Lists, places_of, KeepsListed, ListsIfThere};

use crate::numbered::NumberedTerm;
use std::alloc::{AllocError, Global};

/// The places of clauses by the numbers of their last terms. A clause without terms, or whose last
/// term has no list, is always compared.
#[derive(Drop)]
pub(crate) struct Endings {
    always: Vec<usize>,
    lists: Vec<Vec<usize>>,
}

/// Returns the endings of clauses, with lists for the terms below a number.
pub(crate) fn endings_of(
    alloc: Global,
    clauses: &[Option<Vec<NumberedTerm>>],
    count: usize,
) -> Result<Endings, AllocError>
    ensures { IfOk result (λ e. AreEndingsOf e clauses.now) }
{
    let mut endings = no_endings(alloc, count)?;
    for (place, clause) in clauses.iter().enumerate() {
        list_place(&mut endings, clause, place)?;
    }
    Ok(endings)
}

// Lists the clause at a place, if there is one.
fn list_place(
    endings: &mut Endings,
    clause: &Option<Vec<NumberedTerm>>,
    place: usize,
) -> Result<(), AllocError>
    ensures listed { OnOk result (ListsIfThere endings.new clause.now place) }
    ensures kept { OnOk result (KeepsListed endings.old endings.new) }
{
    if let Some(clause) = clause {
        list_clause(endings, clause, place)?;
    }
    Ok(())
}

// No clauses, with lists for the terms below a number.
fn no_endings(alloc: Global, count: usize) -> Result<Endings, AllocError> {
    let mut lists = Vec::with_capacity(alloc, count)?;
    for _ in 0..count {
        lists.push(Vec::new(alloc))?;
    }
    Ok(Endings {
        always: Vec::new(alloc),
        lists,
    })
}

/// Lists a clause at a place.
pub(crate) fn list_clause(
    endings: &mut Endings,
    clause: &[NumberedTerm],
    place: usize,
) -> Result<(), AllocError>
    ensures listed { OnOk result (Lists endings.new clause.now place) }
    ensures kept { OnOk result (KeepsListed endings.old endings.new) }
{
    let Some(term) = clause.last() else {
        return list_always(endings, place);
    };
    match endings.lists.get_mut(term.number) {
        Some(list) => {
            list.push(place)?;
            Ok(())
        }
        None => list_always(endings, place),
    }
}

// Lists a place for all terms.
fn list_always(endings: &mut Endings, place: usize) -> Result<(), AllocError>
    ensures listed { OnOk result (Contains endings.new.always.items place) }
    ensures kept { OnOk result (KeepsListed endings.old endings.new) }
{
    if !endings.always.contains(&place) {
        endings.always.push(place)?;
    }
    Ok(())
}

/// Returns the places of the clauses that end with a term of this number.
pub(crate) fn ending_with(endings: &Endings, number: usize) -> &[usize]
    ensures { result.now ≡ places_of endings.now number }
{
    match endings.lists.get(number) {
        Some(list) => list,
        None => &[],
    }
}

/// The places of the clauses that are always looked at.
pub(crate) fn always_listed(endings: &Endings) -> &[usize]
    ensures { result.now ≡ endings.now.always.items }
{
    &endings.always
}

/// The places of the clauses that end with a term of the clause.
pub(crate) fn near_places(
    alloc: Global,
    endings: &Endings,
    clause: &[NumberedTerm],
) -> Result<Vec<usize>, AllocError>
    ensures { IfOk result (λ near. AreNear endings.now clause.now near.items) }
{
    let mut near = Vec::new(alloc);
    for term in clause {
        near.extend_from_slice(ending_with(endings, term.number))?;
    }
    Ok(near)
}
