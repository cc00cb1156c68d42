//! Numbers for comparisons.

ghost use Rattle.std.specs.Prelude.{◌≡◌, ◌≤◌, map, vec_len, IfOk, IfSome, OnOk};
ghost use Rattle.marker_terms.specs.Clauses.{clauses_of};
ghost use Rattle.marker_terms.specs.Numbering.{AreNumbered, Extends, IsNumbered, IsNumberingOf, expression_of, expressions_of};
ghost use Rattle.marker_terms.specs.Numbered.{left_of};

use crate::numbered::NumberedTerm;
use crate::term::{is_before, is_negation, is_same, push_large};
use marker_parts::MarkerExpression;
use std::alloc::{AllocError, Global};

/// One comparison of each pair of a comparison and its negation, by the number of the pair, and
/// these numbers in an order that finds them.
#[derive(Drop)]
pub(crate) struct Numbering {
    names: Vec<MarkerExpression>,
    order: Vec<usize>,
}

/// Returns a numbering of no comparisons.
pub(crate) fn no_numbers(alloc: Global) -> Numbering {
    Numbering {
        names: Vec::new(alloc),
        order: Vec::new(alloc),
    }
}

// The place of a comparison or its negation in the order, or the place where it would be.
fn place_of(numbering: &Numbering, term: &MarkerExpression) -> usize
    ensures { result ≤ vec_len numbering.now.order }
{
    let names = &numbering.names;
    numbering.order.partition_point(|pair| match names.get(*pair) {
        Some(name) => is_before(name, term),
        None => false,
    })
}

// The number of the comparison at a place of the order, if it is this comparison or its negation.
fn known_number(numbering: &Numbering, place: usize, term: &MarkerExpression) -> Option<usize>
    ensures { IfSome result (λ n. IsNumbered numbering.now.names.items n term.now) }
{
    let pair = *numbering.order.get(place)?;
    let name = numbering.names.get(pair)?;
    if is_same(term, name) {
        Some(2 * pair)
    } else if is_negation(term, name) {
        Some(2 * pair + 1)
    } else {
        None
    }
}

// A number for a comparison that has none.
fn new_number(
    numbering: &mut Numbering,
    place: usize,
    term: &MarkerExpression,
) -> Result<usize, AllocError>
    requires { place ≤ vec_len numbering.old.order }
    ensures numbered { IfOk result (λ n. IsNumbered numbering.new.names.items n term.now) }
    ensures kept { OnOk result (Extends numbering.old.names.items numbering.new.names.items) }
{
    let pair = numbering.names.len();
    let name = term.clone()?;
    numbering.order.insert(place, pair)?;
    push_large(&mut numbering.names, name)?;
    Ok(2 * pair)
}

// The number of a comparison.
fn number(numbering: &mut Numbering, term: &MarkerExpression) -> Result<usize, AllocError>
    ensures numbered { IfOk result (λ n. IsNumbered numbering.new.names.items n term.now) }
    ensures kept { OnOk result (Extends numbering.old.names.items numbering.new.names.items) }
{
    let place = place_of(numbering, term);
    match known_number(numbering, place, term) {
        Some(number) => Ok(number),
        None => new_number(numbering, place, term),
    }
}

// A clause with the numbers of its terms.
fn numbered_clause(
    alloc: Global,
    numbering: &mut Numbering,
    clause: Vec<MarkerExpression>,
) -> Result<Vec<NumberedTerm>, AllocError>
    ensures terms { IfOk result (λ c. map expression_of c.items ≡ clause.items) }
    ensures numbered { IfOk result (λ c. AreNumbered numbering.new.names.items c.items) }
    ensures kept { OnOk result (Extends numbering.old.names.items numbering.new.names.items) }
{
    let mut terms = Vec::with_capacity(alloc, clause.len())?;
    for expression in clause {
        let number = number(numbering, &expression)?;
        push_large(&mut terms, NumberedTerm { number, expression })?;
    }
    Ok(terms)
}

/// Returns how many numbers there are.
pub(crate) fn count(numbering: &Numbering) -> usize {
    2 * numbering.names.len()
}

/// Returns clauses with the numbers of their terms.
pub(crate) fn numbered_clauses(
    alloc: Global,
    numbering: &mut Numbering,
    clauses: Vec<Vec<MarkerExpression>>,
) -> Result<Vec<Option<Vec<NumberedTerm>>>, AllocError>
    ensures { IfOk result (λ n. IsNumberingOf (clauses_of clauses.items) (left_of n.items)) }
{
    let mut numbered = Vec::with_capacity(alloc, clauses.len())?;
    for clause in clauses {
        let terms = numbered_clause(alloc, numbering, clause)?;
        numbered.push(Some(terms))?;
    }
    Ok(numbered)
}

// The comparisons of a clause.
fn expressions(
    alloc: Global,
    clause: Vec<NumberedTerm>,
) -> Result<Vec<MarkerExpression>, AllocError>
    ensures { IfOk result (λ c. c.items ≡ map expression_of clause.items) }
{
    let mut terms = Vec::with_capacity(alloc, clause.len())?;
    for term in clause {
        push_large(&mut terms, term.expression)?;
    }
    Ok(terms)
}

/// Returns the clauses that are left.
pub(crate) fn clauses_left(
    alloc: Global,
    clauses: Vec<Option<Vec<NumberedTerm>>>,
) -> Result<Vec<Vec<MarkerExpression>>, AllocError>
    ensures { IfOk result (λ c. clauses_of c.items ≡ expressions_of (left_of clauses.items)) }
{
    let mut left = Vec::new(alloc);
    for place in clauses {
        if let Some(clause) = place {
            left.push(expressions(alloc, clause)?)?;
        }
    }
    Ok(left)
}
