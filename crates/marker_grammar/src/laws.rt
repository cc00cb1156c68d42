//! Laws of marker texts, parsed and printed. Each is a function that does nothing, whose contract
//! is the law.

ghost use Rattle.std.specs.Prelude.{ℕ, List};
ghost use Rattle.marker_parts.specs.declared.expression.MarkerExpression.{MarkerExpression};
ghost use Rattle.marker_terms.specs.Plain.{ArePrintable};
ghost use Rattle.marker_grammar.specs.Grammar.{SaysOneFormula};
ghost use Rattle.marker_grammar.specs.Meaning.{IsReadAs};
ghost use Rattle.marker_grammar.specs.Text.{clauses_text};

/// A text denotes at most one formula, which may be empty, with one list of warnings.
pub fn text_says_one_formula()
    ensures { (text : List ℕ) → SaysOneFormula text }
{}

/// The text of clauses parses to a marker that is true exactly if one of the clauses is, and no
/// comparison of it overflows.
pub fn clauses_read_back()
    ensures { (clauses : List (List MarkerExpression)) → ArePrintable clauses
        → IsReadAs clauses (clauses_text clauses) }
{}
