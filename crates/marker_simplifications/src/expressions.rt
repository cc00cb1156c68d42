//! Comparisons as ids.

ghost use Rattle.std.specs.Prelude.{◌≡◌, IfErr, IfNone, IfOk, None, OnOk, Some};
ghost use Rattle.std.specs.Set.{ClonesAreEqual};
ghost use Rattle.version_ranges.specs.Ranges.{IsSet};
ghost use Rattle.pep440_rs.specs.Intervals.{HasTrimmedBounds};
ghost use Rattle.marker_words.specs.Compare.{beside, holds_beside};
ghost use Rattle.marker_environment.specs.Valuation.{Valuation};
ghost use Rattle.marker_parts.specs.Expression.{Overflows, asked_version, extra, extra_of, holds, holds_extra, test_of};
ghost use Rattle.marker_nodes.specs.Variable.{answer};
ghost use Rattle.marker_diagrams.specs.Diagram.{IsStore, Keeps};
ghost use Rattle.marker_nodes.specs.Node.{markers};
ghost use Rattle.marker_simplifications.specs.Expression.{IsInvalid, IsTruthOf, IsUnmade, text_test};
ghost use Rattle.marker_simplifications.specs.Found.{IfFound, IsRangeOf};

use crate::questions::{asks, asks_text, asks_version};
use marker_nodes::{NodeId, NodeTable, TruthVariable};
use marker_parts::{
    ExtraOperator, MarkerExpression, MarkerOperator, MarkerValueExtra, MarkerValueString,
    VersionVariable,
};
use pep440_version::Version;
use refusal::Refusal;
use std::alloc::{AllocError, Global};
use thiserror::Error;
use version_ranges::Ranges;

/// The error of a comparison that has no marker: a text key with `~=`.
#[derive(Clone, Copy, Debug, Drop, PartialEq, Eq, Error)]
#[error("`~=` compares versions, and does not compare texts")]
pub struct InvalidExpression;

/// Returns the id of a comparison. A deprecated key is the modern one, and `python_version` is
/// compared through `python_full_version`.
///
/// # Errors
/// - [`Refusal::Fault`] if the comparison compares texts by `~=`.
/// - [`Refusal::SegmentAtEnd`] if its set of versions has a bound above 2^64 - 1.
/// - [`Refusal::OutOfMemory`] when memory runs out.
pub fn expression(
    nodes: &mut NodeTable,
    expression: MarkerExpression,
) -> Result<NodeId, Refusal<InvalidExpression>>
    ensures kept { Keeps markers nodes.old nodes.new }
    ensures rules { IsStore markers nodes.old → IsStore markers nodes.new }
    ensures asks { IfOk result (IsTruthOf nodes.new (holds (test_of expression))) }
    ensures no_overflow { OnOk result (¬ Overflows (test_of expression)) }
    ensures not_invalid { OnOk result (¬ IsInvalid (test_of expression)) }
    ensures err { IfErr result (IsUnmade (test_of expression)) }
{
    if let Some((variable, range)) = version_range(nodes.allocator(), &expression)? {
        return Ok(asks_version(nodes, variable, range)?);
    }
    match expression {
        MarkerExpression::Version {
            key: _key,
            specifier: _specifier,
        } => unreachable!(),
        MarkerExpression::VersionIn {
            key: _key,
            versions: _versions,
            negated: _negated,
        } => unreachable!(),
        MarkerExpression::String {
            key,
            operator,
            value,
        } => compares_text(nodes, key, operator, value),
        MarkerExpression::Extra { operator, name } => Ok(compares_extra(nodes, operator, name)?),
    }
}

// The id of a comparison of a key's text with a value.
fn compares_text(
    nodes: &mut NodeTable,
    key: MarkerValueString,
    operator: MarkerOperator,
    value: String,
) -> Result<NodeId, Refusal<InvalidExpression>>
    ensures kept { Keeps markers nodes.old nodes.new }
    ensures rules { IsStore markers nodes.old → IsStore markers nodes.new }
    ensures asks { IfOk result (IsTruthOf nodes.new (holds (text_test key operator value))) }
    ensures not_invalid { OnOk result (¬ IsInvalid (text_test key operator value)) }
    ensures err { IfErr result (IsUnmade (text_test key operator value)) }
{
    let variable = key.variable();
    match operator {
        MarkerOperator::Equal
        | MarkerOperator::GreaterThan
        | MarkerOperator::GreaterEqual
        | MarkerOperator::LessThan
        | MarkerOperator::LessEqual => {
            let range = range_beside(nodes.allocator(), operator, value)?;
            Ok(asks_text(nodes, variable, range)?)
        }
        // To negate an id costs nothing; a complement would copy the value.
        MarkerOperator::NotEqual => {
            let range = range_beside(nodes.allocator(), MarkerOperator::Equal, value)?;
            Ok(asks_text(nodes, variable, range)?.not())
        }
        MarkerOperator::TildeEqual => Err(Refusal::Fault(InvalidExpression)),
        MarkerOperator::In => Ok(asks(nodes, TruthVariable::In(variable, value))?),
        MarkerOperator::NotIn => Ok(asks(nodes, TruthVariable::In(variable, value))?.not()),
        MarkerOperator::Contains => Ok(asks(nodes, TruthVariable::Contains(variable, value))?),
        MarkerOperator::NotContains => {
            Ok(asks(nodes, TruthVariable::Contains(variable, value))?.not())
        }
    }
}

// The id that is true if the extra is active, or if it is not.
fn compares_extra(
    nodes: &mut NodeTable,
    operator: ExtraOperator,
    name: MarkerValueExtra,
) -> Result<NodeId, AllocError>
    ensures kept { Keeps markers nodes.old nodes.new }
    ensures rules { IsStore markers nodes.old → IsStore markers nodes.new }
    ensures asks { IfOk result (IsTruthOf nodes.new (holds (extra operator (extra_of name)))) }
{
    let id = asks(nodes, extra_variable(name))?;
    match operator {
        ExtraOperator::Equal => Ok(id),
        ExtraOperator::NotEqual => Ok(id.not()),
    }
}

// The variable of a comparison with versions, and the set of its values that satisfy it.
fn version_range(
    alloc: Global,
    expression: &MarkerExpression,
) -> Result<Option<(VersionVariable, Ranges<Version>)>, Refusal<InvalidExpression>>
    ensures variable { IfFound result (λ r. asked_version (test_of expression.now) ≡ Some r.0) }
    ensures set { IfFound result (IsRangeOf (test_of expression.now)) }
    ensures bounds { IfFound result (λ r. HasTrimmedBounds r.1) }
    ensures none { IfOk result (λ r. IfNone r (asked_version (test_of expression.now) ≡ None)) }
    ensures no_overflow { OnOk result (¬ Overflows (test_of expression.now)) }
    ensures err { IfErr result (IsUnmade (test_of expression.now)) }
{
    match expression.version_range(alloc) {
        Ok(range) => Ok(range),
        Err(Refusal::OutOfMemory) => Err(Refusal::OutOfMemory),
        Err(Refusal::SegmentAtEnd) => Err(Refusal::SegmentAtEnd),
    }
}

// The values that compare so with the value; none for an operator that is not about order.
fn range_beside<T: Ord + Clone>(
    alloc: Global,
    operator: MarkerOperator,
    value: T,
) -> Result<Ranges<T>, AllocError>
    requires clones { ClonesAreEqual T.eq T.is_clone }
    ensures { IfOk result (λ r. IsSet T.cmp r (λ p. holds_beside operator (beside T.cmp p value))) }
{
    match operator {
        MarkerOperator::Equal => Ranges::singleton(alloc, value),
        MarkerOperator::NotEqual => Ranges::singleton(alloc, value)?.complement(alloc),
        MarkerOperator::GreaterThan => Ranges::strictly_higher_than(alloc, value),
        MarkerOperator::GreaterEqual => Ranges::higher_than(alloc, value),
        MarkerOperator::LessThan => Ranges::strictly_lower_than(alloc, value),
        MarkerOperator::LessEqual => Ranges::lower_than(alloc, value),
        MarkerOperator::TildeEqual
        | MarkerOperator::In
        | MarkerOperator::NotIn
        | MarkerOperator::Contains
        | MarkerOperator::NotContains => Ok(Ranges::empty(alloc)),
    }
}

// The variable of an extra.
fn extra_variable(name: MarkerValueExtra) -> TruthVariable
    ensures { (v : Valuation) → answer result v ≡ holds_extra (extra_of name) v }
{
    match name {
        MarkerValueExtra::Extra(name) => TruthVariable::Extra(name),
        MarkerValueExtra::Arbitrary(text) => TruthVariable::Arbitrary(text),
    }
}
