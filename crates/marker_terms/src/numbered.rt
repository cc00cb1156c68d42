//! Comparisons with numbers.

ghost use Rattle.std.specs.Prelude.{◌≡◌, ◌++◌, bit_xor};
ghost use Rattle.marker_terms.specs.Reduction.{has_all, has_number, is_covered, stands_for};
ghost use Rattle.marker_terms.specs.Numbered.{number_of};

use marker_parts::MarkerExpression;

/// A comparison with its number.
#[derive(Drop)]
pub(crate) struct NumberedTerm {
    pub(crate) number: usize,
    pub(crate) expression: MarkerExpression,
}

/// Returns the number of the negation of the term with this number.
pub(crate) fn negation(number: usize) -> usize
    ensures { result ≡ bit_xor number 1 }
{
    number ^ 1
}

fn has_number(clause: &[NumberedTerm], number: usize) -> bool
    ensures { result ≡ has_number number_of number clause.now }
{
    clause.iter().any(|term| term.number == number)
}

// Whether a term is the negation of another one of the clause, or a different term of the clause.
// The clause is the terms that are kept and those that are still to come.
fn is_covered(
    own: &NumberedTerm,
    term: &NumberedTerm,
    kept: &[NumberedTerm],
    rest: &[NumberedTerm],
) -> bool
    ensures { result ≡ is_covered number_of term.now (kept.now ++ rest.now) own.now }
{
    if own.number == negation(term.number) {
        return true;
    }
    own.number != term.number && (has_number(kept, own.number) || has_number(rest, own.number))
}

/// Returns whether each term of the other clause is the negation of the term, or another term of
/// its clause. That clause is the terms that are kept and those that are still to come.
pub(crate) fn stands_for(
    other: &[NumberedTerm],
    term: &NumberedTerm,
    kept: &[NumberedTerm],
    rest: &[NumberedTerm],
) -> bool
    ensures { result ≡ stands_for number_of term.now (kept.now ++ rest.now) other.now }
{
    other.iter().all(|own| is_covered(own, term, kept, rest))
}

/// Returns whether a clause has all terms of the other clause.
pub(crate) fn has_all(clause: &[NumberedTerm], other: &[NumberedTerm]) -> bool
    ensures { result ≡ has_all number_of clause.now other.now }
{
    other.iter().all(|own| has_number(clause, own.number))
}
