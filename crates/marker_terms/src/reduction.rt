//! Redundant terms and clauses of a disjunction.

ghost use Rattle.std.specs.Prelude.{◌≡◌, ◌≤◌, ◌<◌, true, false, length, vec_len, Some, OnOk, IfOk};
ghost use Rattle.marker_terms.specs.Clauses.{MeansTheSameAs};
ghost use Rattle.marker_terms.specs.Numbering.{IsReducedFrom};
ghost use Rattle.marker_terms.specs.Numbered.{FailAt, left_of, number_of, terms_left};
ghost use Rattle.marker_terms.specs.Endings.{AreEndingsOf, AreNear};
ghost use Rattle.marker_terms.specs.Reduction.{has_all, is_redundant, is_spare, reduced, stands_for};
ghost use Rattle.marker_terms.specs.Redundant.{AreReduced, IsKeptIfNeeded, IsRedundant, IsShortened, NoneStandsAt, TellsRedundant, passes_there, stands_beside, without_redundant};

use crate::endings::{Endings, always_listed, ending_with, endings_of, list_clause, near_places};
use crate::numbered::{NumberedTerm, has_all, negation, stands_for};
use crate::numbering::{clauses_left, count, no_numbers, numbered_clauses};
use marker_parts::MarkerExpression;
use std::alloc::{AllocError, Global};

/// Of fewer clauses all are compared, because finding the relevant ones takes longer.
const FEW: usize = 8;

/// Returns the clauses without redundant terms, and then without redundant clauses. The disjunction
/// means the same, and each term that is left was in its clause.
///
/// Terms are checked in turn: one is removed if another clause lacks it, and each term of that
/// clause is its negation or another term still in its clause. Then a clause is removed if it has
/// all terms of another one that is still there.
pub fn reduce(
    alloc: Global,
    clauses: Vec<Vec<MarkerExpression>>,
) -> Result<Vec<Vec<MarkerExpression>>, AllocError>
    ensures reduced { IfOk result (IsReducedFrom clauses) }
    ensures means { IfOk result (MeansTheSameAs clauses) }
{
    if clauses.len() < 2 {
        return Ok(clauses);
    }
    let mut numbering = no_numbers(alloc);
    let mut numbered = numbered_clauses(alloc, &mut numbering, clauses)?;
    let count = if numbered.len() < FEW {
        0
    } else {
        count(&numbering)
    };
    let mut endings = endings_of(alloc, &numbered, count)?;
    reduce_listed(alloc, &mut numbered, &mut endings)?;
    clauses_left(alloc, numbered)
}

// Whether there is a clause at a place that makes the term redundant.
fn stands_at(
    clauses: &[Option<Vec<NumberedTerm>>],
    place: usize,
    term: &NumberedTerm,
    kept: &[NumberedTerm],
    rest: &[NumberedTerm],
) -> bool
    ensures { result ≡ passes_there clauses.now place (stands_beside term.now kept.now rest.now) }
{
    match clauses.get(place) {
        Some(Some(other)) => stands_for(other, term, kept, rest),
        _ => false,
    }
}

// Whether a clause at one of the places makes the term redundant.
fn is_made_up_for(
    clauses: &[Option<Vec<NumberedTerm>>],
    places: &[usize],
    term: &NumberedTerm,
    kept: &[NumberedTerm],
    rest: &[NumberedTerm],
) -> bool
    ensures found { result ≡ true → IsRedundant clauses.now term.now kept.now rest.now }
    ensures none { result ≡ false → NoneStandsAt clauses.now places.now term.now kept.now rest.now }
{
    for place in places {
        if stands_at(clauses, *place, term, kept, rest) {
            return true;
        }
    }
    false
}

// Whether one of the clauses makes the term at an index of a clause redundant. Of the terms before
// the index, the first `kept` are left.
fn is_redundant(
    clauses: &[Option<Vec<NumberedTerm>>],
    endings: &Endings,
    near: &[usize],
    clause: &[NumberedTerm],
    kept: usize,
    index: usize,
) -> bool
    requires within { index < length clause.now }
    requires order { kept ≤ index }
    requires listed { AreEndingsOf endings.now clauses.now }
    requires near { AreNear endings.now (terms_left kept index clause.now) near.now }
    ensures { TellsRedundant clauses.now clause.now kept index result }
{
    let term = &clause[index];
    let before = &clause[..kept];
    let rest = &clause[index..];
    if is_made_up_for(clauses, always_listed(endings), term, before, rest) {
        return true;
    }
    if is_made_up_for(clauses, near, term, before, rest) {
        return true;
    }
    let opposite = ending_with(endings, negation(term.number));
    is_made_up_for(clauses, opposite, term, before, rest)
}

// Removes the terms of a clause that the others make redundant.
fn drop_terms(
    alloc: Global,
    clause: &mut Vec<NumberedTerm>,
    others: &[Option<Vec<NumberedTerm>>],
    endings: &Endings,
) -> Result<(), AllocError>
    requires { AreEndingsOf endings.now others.now }
    ensures { OnOk result (clause.new.items ≡ without_redundant others.now clause.old.items) }
{
    let near = near_places(alloc, endings, clause)?;
    let mut kept = 0;
    for index in 0..clause.len() {
        if !is_redundant(others, endings, &near, clause, kept, index) {
            clause.swap(kept, index);
            kept += 1;
        }
    }
    clause.truncate(kept);
    Ok(())
}

// Removes the redundant terms of the clause at a place.
fn shorten(
    alloc: Global,
    clauses: &mut Vec<Option<Vec<NumberedTerm>>>,
    place: usize,
    endings: &mut Endings,
) -> Result<(), AllocError>
    requires within { place < vec_len clauses.old }
    requires listed { AreEndingsOf endings.old clauses.old.items }
    ensures judged { OnOk result (IsShortened clauses.old.items clauses.new.items place) }
    ensures listed { OnOk result (AreEndingsOf endings.new clauses.new.items) }
{
    let Some(mut clause) = clauses[place].take() else {
        return Ok(());
    };
    drop_terms(alloc, &mut clause, clauses, endings)?;
    list_clause(endings, &clause, place)?;
    clauses[place] = Some(clause);
    Ok(())
}

// Whether there is a clause at a place all of whose terms a clause has.
fn has_all_at(clauses: &[Option<Vec<NumberedTerm>>], place: usize, clause: &[NumberedTerm]) -> bool
    ensures { result ≡ passes_there clauses.now place (has_all number_of clause.now) }
{
    match clauses.get(place) {
        Some(Some(other)) => has_all(clause, other),
        _ => false,
    }
}

// Whether a clause has all terms of one of those at the places.
fn has_all_of_one(
    clauses: &[Option<Vec<NumberedTerm>>],
    places: &[usize],
    clause: &[NumberedTerm],
) -> bool
    ensures found { result ≡ true → is_spare number_of (left_of clauses.now) clause.now ≡ true }
    ensures none { result ≡ false → FailAt (has_all number_of clause.now) clauses.now places.now }
{
    for place in places {
        if has_all_at(clauses, *place, clause) {
            return true;
        }
    }
    false
}

// Whether a clause has all terms of one of the others.
fn is_spare(
    alloc: Global,
    clause: &[NumberedTerm],
    others: &[Option<Vec<NumberedTerm>>],
    endings: &Endings,
) -> Result<bool, AllocError>
    requires { AreEndingsOf endings.now others.now }
    ensures { IfOk result (λ b. b ≡ is_spare number_of (left_of others.now) clause.now) }
{
    if has_all_of_one(others, always_listed(endings), clause) {
        return Ok(true);
    }
    let near = near_places(alloc, endings, clause)?;
    Ok(has_all_of_one(others, &near, clause))
}

// Removes the clause at a place if it is redundant.
fn drop_spare(
    alloc: Global,
    clauses: &mut Vec<Option<Vec<NumberedTerm>>>,
    place: usize,
    endings: &Endings,
) -> Result<(), AllocError>
    requires within { place < vec_len clauses.old }
    requires listed { AreEndingsOf endings.now clauses.old.items }
    ensures judged { OnOk result (IsKeptIfNeeded clauses.old.items clauses.new.items place) }
    ensures listed { OnOk result (AreEndingsOf endings.now clauses.new.items) }
{
    let Some(clause) = clauses[place].take() else {
        return Ok(());
    };
    if !is_spare(alloc, &clause, clauses, endings)? {
        clauses[place] = Some(clause);
    }
    Ok(())
}

// Removes redundant terms, and then redundant clauses.
fn reduce_listed(
    alloc: Global,
    clauses: &mut Vec<Option<Vec<NumberedTerm>>>,
    endings: &mut Endings,
) -> Result<(), AllocError>
    requires { AreEndingsOf endings.old clauses.old.items }
    ensures { OnOk result (AreReduced clauses.old.items clauses.new.items) }
{
    for place in 0..clauses.len() {
        shorten(alloc, clauses, place, endings)?;
    }
    for place in 0..clauses.len() {
        drop_spare(alloc, clauses, place, endings)?;
    }
    Ok(())
}
