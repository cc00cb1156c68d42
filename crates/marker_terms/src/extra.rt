//! The extra that all clauses have in common.

ghost use Rattle.std.specs.Prelude.{◌≡◌, ◌↔◌, IfNone, IfSome, IsTrue};
ghost use Rattle.std.specs.Option.{option_map};
ghost use Rattle.marker_parts.specs.Expression.{Extra, extra_of};
ghost use Rattle.marker_terms.specs.Clauses.{clauses_of};
ghost use Rattle.marker_terms.specs.Extra.{asked_extra, first_extra, HasCommonExtra, HaveInCommon};

use marker_parts::{MarkerExpression, MarkerValueExtra};
use marker_words::ExtraOperator;

/// Returns the extra of the first `extra ==` of each clause, if there is a clause and all are the
/// same.
pub fn common_extra(clauses: &[Vec<MarkerExpression>]) -> Option<&MarkerValueExtra>
    ensures found { IfSome result (λ extra. HaveInCommon clauses.now extra.now) }
    ensures none { IfNone result ((x : Extra) → ¬ HasCommonExtra (clauses_of clauses.now) x) }
{
    let (clause, others) = clauses.split_first()?;
    let extra = first_extra(clause)?;
    for other in others {
        let Some(found) = first_extra(other) else {
            return None;
        };
        if !is_same_extra(found, extra) {
            return None;
        }
    }
    Some(extra)
}

fn is_same_extra(extra: &MarkerValueExtra, other: &MarkerValueExtra) -> bool
    ensures { IsTrue result ↔ (extra_of extra.now ≡ extra_of other.now) }
{
    match (extra, other) {
        (MarkerValueExtra::Extra(name), MarkerValueExtra::Extra(other)) => name == other,
        (MarkerValueExtra::Arbitrary(text), MarkerValueExtra::Arbitrary(other)) => text == other,
        _ => false,
    }
}

// The extra of the first `extra ==` of a clause.
fn first_extra(clause: &[MarkerExpression]) -> Option<&MarkerValueExtra>
    ensures { option_map (λ extra. extra_of extra.now) result ≡ first_extra clause.now }
{
    for term in clause {
        if let Some(extra) = asked_extra(term) {
            return Some(extra);
        }
    }
    None
}

// The extra of an `extra ==`.
fn asked_extra(term: &MarkerExpression) -> Option<&MarkerValueExtra>
    ensures { option_map (λ extra. extra_of extra.now) result ≡ asked_extra term.now }
{
    match term {
        MarkerExpression::Extra { operator, name } => match operator {
            ExtraOperator::Equal => Some(name),
            ExtraOperator::NotEqual => None,
        },
        _ => None,
    }
}
