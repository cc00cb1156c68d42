//! The tree of a text that was parsed.

ghost use Rattle.std.specs.Prelude.{IfOk, IfErr, OnErr};
ghost use Rattle.marker_parts.specs.Expression.{Overflows};
ghost use Rattle.marker_graph.specs.Contents.{HoldsTheSame};
ghost use Rattle.marker_grammar.specs.Flat.{formula_of};
ghost use Rattle.marker_grammar.specs.Grammar.{Reads};
ghost use Rattle.marker_grammar.specs.HasTest.{Says};
ghost use Rattle.pep508_markers.specs.FormulaTree.{IsRefusal};
ghost use Rattle.pep508_markers.specs.Text.{HoldsTreeOf, OnlyGrows};

use crate::formula_tree::tree_of;
use marker_grammar::Reading;
use marker_graph::{Interner, MarkerTree};
use pep508_errors::MarkerWarningKind;
use refusal::Refusal;
use std::convert::Infallible;

// The tree of a text that was parsed, with the kinds of its warnings. The interner remembers the
// tree of a text without warnings. The errors are those of `tree_of`; after one the interner holds
// what it held before.
pub(crate) fn tree_of_reading(
    interner: &mut Interner,
    text: &str,
    reading: Reading,
) -> Result<(MarkerTree, Vec<MarkerWarningKind>), Refusal<Infallible>>
    requires { Reads text.now (formula_of reading.formula) reading.kinds.items }
    ensures kept { OnlyGrows interner.old interner.new }
    ensures means { IfOk result (λ r. HoldsTreeOf interner.new text.now r.0 r.1.items) }
    ensures err { IfErr result (IsRefusal (Says Overflows (formula_of reading.formula))) }
    ensures released { OnErr result (HoldsTheSame interner.old interner.new) }
{
    let mark = interner.mark();
    let tree = tree_of(interner, reading.formula)?;
    if !reading.kinds.is_empty() {
        return Ok((tree, reading.kinds));
    }
    match interner.remember_text(text, tree) {
        Ok(()) => Ok((tree, reading.kinds)),
        Err(error) => {
            interner.release(mark);
            Err(error.into())
        }
    }
}
