//! A formula as one flat list, so that neither dropping it nor walking over it is recursive.

ghost use Rattle.std.specs.Prelude.{◌≡◌, ◌≤◌, ◌&&◌, ◌||◌, length, IfOk, OnOk};
ghost use Rattle.marker_grammar.specs.Postfix.{stack_of, IsPostfix, IsWhole};
ghost use Rattle.marker_grammar.specs.Stack.{count, AddsIf, AppendsExpression};
ghost use Rattle.marker_grammar.specs.Valid.{IsValid, StaysValidWith};

use marker_parts::MarkerExpression;
use std::alloc::AllocError;

/// One step of a formula in postfix order.
#[derive(Debug, Drop)]
pub enum Token {
    /// An expression.
    Expression(MarkerExpression),
    /// Both of the two formulas before it.
    And,
    /// One of the two formulas before it, or both.
    Or,
}

/// A formula in postfix order. It is empty if all comparisons were dropped. None of its comparisons
/// is one of texts by `~=`: the parser drops those.
#[derive(Debug, Drop)]
pub struct FlatFormula {
    pub(crate) tokens: Vec<Token>,
    ghost whole: { IsWhole tokens.items },
    ghost valid: { IsValid tokens.items },
}

impl FlatFormula {
    /// Returns the tokens in postfix order: each connective joins the two formulas before it, and
    /// at most one formula is left.
    pub fn into_tokens(self) -> Vec<Token>
        ensures tokens { result ≡ self.tokens }
        ensures whole { IsWhole result.items }

        // None of them compares texts by `~=`.
        ensures valid { IsValid result.items }
    {
        self.tokens
    }
}

// Joins the last two formulas of a list by `and` if both exist. Returns whether one exists then.
pub(crate) fn join_and(
    tokens: &mut Vec<Token>,
    first: bool,
    second: bool,
) -> Result<bool, AllocError>
    ensures tokens { IfOk result (λ _. AddsIf (first && second) Token.And tokens.old tokens.new) }
    ensures any { IfOk result (λ any. any ≡ (first || second)) }
{
    if first && second {
        tokens.push(Token::And)?;
    }
    Ok(first || second)
}

// Joins the last two formulas of a list by `or` if both exist. Returns whether one exists then.
pub(crate) fn join_or(
    tokens: &mut Vec<Token>,
    first: bool,
    second: bool,
) -> Result<bool, AllocError>
    ensures tokens { IfOk result (λ _. AddsIf (first && second) Token.Or tokens.old tokens.new) }
    ensures any { IfOk result (λ any. any ≡ (first || second)) }
{
    if first && second {
        tokens.push(Token::Or)?;
    }
    Ok(first || second)
}

// Adds an expression to an `and` that may be empty so far, unless the comparison was dropped.
// Returns whether the `and` has a formula then.
pub(crate) fn append(
    tokens: &mut Vec<Token>,
    has_and: bool,
    expression: Option<MarkerExpression>,
) -> Result<bool, AllocError>
    requires { count has_and ≤ length (stack_of tokens.old.items) }
    ensures stack { IfOk result (AppendsExpression has_and expression tokens.old tokens.new) }
    ensures postfix { OnOk result (IsPostfix tokens.old.items → IsPostfix tokens.new.items) }
    ensures valid { OnOk result (StaysValidWith expression tokens.old tokens.new) }
{
    match expression {
        None => Ok(has_and),
        Some(expression) => {
            tokens.push(Token::Expression(expression))?;
            let any = join_and(tokens, has_and, true)?;
            Ok(any)
        }
    }
}
