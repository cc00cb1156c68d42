//! The tree of a formula.

ghost use Rattle.std.specs.Prelude.{◌≡◌, true, IfOk, IfErr, OnErr, OnOk};
ghost use Rattle.marker_parts.specs.Expression.{Overflows, holds, test_of};
ghost use Rattle.marker_graph.specs.Contents.{HoldsTheSame, IsHeld};
ghost use Rattle.marker_graph.specs.Meaning.{IsTrueWhere};
ghost use Rattle.marker_grammar.specs.Flat.{formula_of};
ghost use Rattle.marker_grammar.specs.Postfix.{symbol_of};
ghost use Rattle.marker_grammar.specs.Valid.{is_valid, is_valid_symbol};
ghost use Rattle.pep508_markers.specs.FormulaTree.{IsRefusal, Means};
ghost use Rattle.marker_grammar.specs.HasTest.{IsSymbol, Says};
ghost use Rattle.pep508_markers.specs.Text.{OnlyGrows};
ghost use Rattle.pep508_markers.specs.Trees.{Applies, AreRuns};

use crate::run::{Connective, Run, connect, join_all, run_of};
use marker_grammar::{FlatFormula, Token};
use marker_graph::{Interner, MarkerTree};
use marker_parts::MarkerExpression;
use refusal::Refusal;
use std::convert::Infallible;

/// Returns the tree of a formula. `TRUE` if all comparisons were dropped.
///
/// # Errors
/// - `SegmentAtEnd` if the set of versions of a comparison has a bound above 2^64 - 1.
/// - `OutOfMemory` when memory runs out.
///
/// After an error the interner holds what it held before.
pub fn tree_of(
    interner: &mut Interner,
    formula: FlatFormula,
) -> Result<MarkerTree, Refusal<Infallible>>
    ensures kept { OnlyGrows interner.old interner.new }
    ensures held { IfOk result (IsHeld interner.new) }
    ensures means { IfOk result (Means interner.new (formula_of formula)) }

    // There is no set only if a bound would be above 2^64 - 1.
    ensures no_overflow { OnOk result (¬ Says Overflows (formula_of formula)) }
    ensures err { IfErr result (IsRefusal (Says Overflows (formula_of formula))) }
    ensures released { OnErr result (HoldsTheSame interner.old interner.new) }
{
    let mark = interner.mark();
    match join_tokens(interner, formula) {
        Ok(tree) => Ok(tree),
        Err(refusal) => {
            interner.release(mark);
            Err(refusal)
        }
    }
}

// The tree of a formula. After an error the nodes made so far are left in the interner.
fn join_tokens(
    interner: &mut Interner,
    formula: FlatFormula,
) -> Result<MarkerTree, Refusal<Infallible>>
    ensures kept { OnlyGrows interner.old interner.new }
    ensures held { IfOk result (IsHeld interner.new) }
    ensures means { IfOk result (Means interner.new (formula_of formula)) }
    ensures no_overflow { OnOk result (¬ Says Overflows (formula_of formula)) }
    ensures err { IfErr result (IsRefusal (Says Overflows (formula_of formula))) }
{
    let mut tokens = formula.into_tokens().into_iter();
    let mut runs = Vec::new(interner.allocator());
    while let Some(token) = tokens.next() {
        apply(interner, &mut runs, token)?;
    }
    // (The list of tokens is as large as the nodes of their trees.)
    drop(tokens);
    match runs.pop() {
        Some(run) => {
            let tree = join_all(interner, run)?;
            Ok(tree)
        }
        None => Ok(MarkerTree::TRUE),
    }
}

// Applies a token to the runs of the formulas before it.
fn apply(
    interner: &mut Interner,
    runs: &mut Vec<Run>,
    token: Token,
) -> Result<(), Refusal<Infallible>>
    requires runs { AreRuns interner.old runs.old.items }
    requires valid { is_valid_symbol (symbol_of token) ≡ true }
    ensures kept { OnlyGrows interner.old interner.new }
    ensures runs { OnOk result (Applies token interner.old runs.old interner.new runs.new) }
    ensures no_overflow { OnOk result (¬ IsSymbol Overflows (symbol_of token)) }
    ensures err { IfErr result (IsRefusal (IsSymbol Overflows (symbol_of token))) }
{
    match token {
        Token::Expression(expression) => {
            let tree = tree_of_valid(interner, expression)?;
            let run = run_of(interner.allocator(), Connective::And, tree);
            runs.push(run)?;
        }
        Token::And => connect(interner, runs, Connective::And)?,
        Token::Or => connect(interner, runs, Connective::Or)?,
    }
    Ok(())
}

// The tree of a comparison that is not a text compared by `~=`.
fn tree_of_valid(
    interner: &mut Interner,
    expression: MarkerExpression,
) -> Result<MarkerTree, Refusal<Infallible>>
    requires { is_valid (test_of expression) ≡ true }
    ensures kept { OnlyGrows interner.old interner.new }
    ensures held { IfOk result (IsHeld interner.new) }
    ensures means { IfOk result (IsTrueWhere interner.new (holds (test_of expression))) }
    ensures no_overflow { OnOk result (¬ Overflows (test_of expression)) }
    ensures err { IfErr result (IsRefusal (Overflows (test_of expression))) }
{
    match MarkerTree::expression(interner, expression) {
        Ok(tree) => Ok(tree),
        Err(Refusal::OutOfMemory) => Err(Refusal::OutOfMemory),
        Err(Refusal::SegmentAtEnd) => Err(Refusal::SegmentAtEnd),
        Err(Refusal::Fault(_)) => unreachable!(),
    }
}
