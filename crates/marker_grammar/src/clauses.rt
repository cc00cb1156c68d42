//! How clauses are printed.

ghost use Rattle.std.specs.Prelude.{◌≡◌, Some};
ghost use Rattle.std.specs.Fmt.{DisplaysOnOk};
ghost use Rattle.std.specs.List.{flat_map};
ghost use Rattle.marker_grammar.specs.Meaning.{clauses_of};
ghost use Rattle.marker_grammar.specs.Text.{clause_text, clauses_text, next_clause_text, next_term_text, part_text};

use marker_parts::MarkerExpression;
use std::fmt;
use std::fmt::Display;

/// Clauses, whose disjunction prints as a marker. The terms of a clause are joined by `and`,
/// clauses by `or`; of several clauses, one with several terms is in parentheses.
#[derive(Clone, Copy)]
pub struct Clauses<'a>(pub &'a [Vec<MarkerExpression>]);

impl Display for Clauses<'_> {
    ghost output = { λ clauses. Some (clauses_text (clauses_of clauses.0.now)) };

    fn fmt<W: fmt::Write>(&self, f: &mut fmt::Formatter<W>) -> fmt::Result {
        match self.0 {
            [] => Ok(()),
            [clause] => write_terms(clause, f),
            [first, others @ ..] => {
                write_part(first, f)?;
                write_other_clauses(others, f)
            }
        }
    }
}

// Clauses after another one.
fn write_other_clauses<W: fmt::Write>(
    clauses: &[Vec<MarkerExpression>],
    f: &mut fmt::Formatter<W>,
) -> fmt::Result
    ensures { DisplaysOnOk W.write_str_gives f.old result
        (Some (flat_map (λ terms. next_clause_text terms.items) clauses.now)) f.new }
{
    for terms in clauses {
        f.write_str(" or ")?;
        write_part(terms, f)?;
    }
    Ok(())
}

// A clause among others.
fn write_part<W: fmt::Write>(terms: &[MarkerExpression], f: &mut fmt::Formatter<W>) -> fmt::Result
    ensures { DisplaysOnOk W.write_str_gives f.old result (Some (part_text terms.now)) f.new }
{
    match terms {
        [term] => write!(f, "{term}"),
        _ => {
            f.write_str("(")?;
            write_terms(terms, f)?;
            f.write_str(")")
        }
    }
}

// The terms of a clause.
fn write_terms<W: fmt::Write>(terms: &[MarkerExpression], f: &mut fmt::Formatter<W>) -> fmt::Result
    ensures { DisplaysOnOk W.write_str_gives f.old result (Some (clause_text terms.now)) f.new }
{
    match terms {
        [first, others @ ..] => {
            write!(f, "{first}")?;
            write_other_terms(others, f)
        }
        [] => Ok(()),
    }
}

// Terms after another one.
fn write_other_terms<W: fmt::Write>(
    terms: &[MarkerExpression],
    f: &mut fmt::Formatter<W>,
) -> fmt::Result
    ensures { DisplaysOnOk W.write_str_gives f.old result
        (Some (flat_map next_term_text terms.now)) f.new }
{
    for term in terms {
        write!(f, " and {term}")?;
    }
    Ok(())
}
