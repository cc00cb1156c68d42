//! Comparisons that are equal, or each other's negation.

ghost use Rattle.std.specs.Prelude.{◌≡◌, ◌++◌, ◌∷◌, [], IfOk, IfSome, OnOk, Some, true};
ghost use Rattle.std.specs.Ordering.{eq_by_cmp};
ghost use Rattle.pep440_version.specs.Order.{version_cmp};
ghost use Rattle.pep440_specifier.specs.Operator.{negated};
ghost use Rattle.marker_terms.specs.Clauses.{clause_holds, AreNegations, HoldAlike};
ghost use Rattle.marker_terms.specs.Meanings.{AreOpposite};
ghost use Rattle.marker_terms.specs.Plain.{AllPrintable};
ghost use Rattle.marker_terms.specs.Outcomes.{AreCountedAlike, ArePrintableIf, ClausesHoldWhere, TakeTheOthers, TakeTheSame};

use marker_parts::MarkerExpression;
use marker_words::MarkerOperator;
use pep440_rs::{Operator, VersionSpecifier};
use pep440_version::laws::normal_text_reads_back;
use std::alloc::{AllocError, Global};
use std::cmp::Ordering;

/// Returns whether two terms are the same comparison. A comparison with a list of versions, which
/// the clauses of a tree never have, is the same as no other.
pub(crate) fn is_same(term: &MarkerExpression, other: &MarkerExpression) -> bool
    ensures { result ≡ true → HoldAlike term.now other.now }
{
    match (term, other) {
        (
            MarkerExpression::Version { key, specifier },
            MarkerExpression::Version {
                key: other_key,
                specifier: other_specifier,
            },
        ) => key == other_key && is_same_specifier(specifier, other_specifier),
        (
            MarkerExpression::String {
                key,
                operator,
                value,
            },
            MarkerExpression::String {
                key: other_key,
                operator: other_operator,
                value: other_value,
            },
        ) => key == other_key && operator == other_operator && value == other_value,
        (
            MarkerExpression::Extra { operator, name },
            MarkerExpression::Extra {
                operator: other_operator,
                name: other_name,
            },
        ) => operator == other_operator && name == other_name,
        _ => false,
    }
}

/// Returns whether a term is written as the negation of another one: with the same key and value,
/// as many numbers for stars, and the negated operator.
pub(crate) fn is_negation(term: &MarkerExpression, other: &MarkerExpression) -> bool
    ensures { result ≡ true → AreNegations term.now other.now }
{
    match (term, other) {
        (
            MarkerExpression::Version { key, specifier },
            MarkerExpression::Version {
                key: other_key,
                specifier: other_specifier,
            },
        ) => key == other_key && is_negated_specifier(specifier, other_specifier),
        (
            MarkerExpression::String {
                key,
                operator,
                value,
            },
            MarkerExpression::String {
                key: other_key,
                operator: other_operator,
                value: other_value,
            },
        ) => {
            key == other_key
                && is_negated_operator(*operator, *other_operator)
                && value == other_value
        }
        (
            MarkerExpression::Extra { operator, name },
            MarkerExpression::Extra {
                operator: other_operator,
                name: other_name,
            },
        ) => operator != other_operator && name == other_name,
        _ => false,
    }
}

/// Returns whether a term comes before another one, in an order in which only the same comparison
/// and its negation have the same place: by kinds, keys, operators without their sign, and values.
pub(crate) fn is_before(term: &MarkerExpression, other: &MarkerExpression) -> bool {
    pair_cmp(term, other).is_lt()
}

fn pair_cmp(term: &MarkerExpression, other: &MarkerExpression) -> Ordering {
    match (term, other) {
        (
            MarkerExpression::Version { key, specifier },
            MarkerExpression::Version {
                key: other_key,
                specifier: other_specifier,
            },
        ) => key
            .cmp(other_key)
            .then_with(|| specifier_pair_cmp(specifier, other_specifier)),
        (
            MarkerExpression::String {
                key,
                operator,
                value,
            },
            MarkerExpression::String {
                key: other_key,
                operator: other_operator,
                value: other_value,
            },
        ) => key
            .cmp(other_key)
            .then_with(|| text_sign(*operator).cmp(&text_sign(*other_operator)))
            .then_with(|| value.cmp(other_value)),
        (
            MarkerExpression::Extra { operator: _, name },
            MarkerExpression::Extra {
                operator: _,
                name: other_name,
            },
        ) => name.cmp(other_name),
        _ => kind(term).cmp(&kind(other)),
    }
}

fn kind(term: &MarkerExpression) -> u8 {
    match term {
        MarkerExpression::Version { .. } => 0,
        MarkerExpression::VersionIn { .. } => 1,
        MarkerExpression::String { .. } => 2,
        MarkerExpression::Extra { .. } => 3,
    }
}

// The number of release numbers counts for stars.
fn specifier_pair_cmp(specifier: &VersionSpecifier, other: &VersionSpecifier) -> Ordering {
    let operator = specifier.operator();
    let by_version = version_sign(operator)
        .cmp(&version_sign(other.operator()))
        .then_with(|| specifier.version().cmp(other.version()));
    if operator.is_star() {
        let count = specifier.version().release().len();
        by_version.then_with(|| count.cmp(&other.version().release().len()))
    } else {
        by_version
    }
}

// One number for an operator and its negation.
fn version_sign(operator: Operator) -> u8 {
    match operator {
        Operator::Equal | Operator::NotEqual => 0,
        Operator::EqualStar | Operator::NotEqualStar => 1,
        Operator::LessThan | Operator::GreaterThanEqual => 2,
        Operator::LessThanEqual | Operator::GreaterThan => 3,
        Operator::TildeEqual => 4,
        Operator::ExactEqual => 5,
    }
}

fn text_sign(operator: MarkerOperator) -> u8 {
    match operator {
        MarkerOperator::Equal | MarkerOperator::NotEqual => 0,
        MarkerOperator::LessThan | MarkerOperator::GreaterEqual => 1,
        MarkerOperator::LessEqual | MarkerOperator::GreaterThan => 2,
        MarkerOperator::In | MarkerOperator::NotIn => 3,
        MarkerOperator::Contains | MarkerOperator::NotContains => 4,
        MarkerOperator::TildeEqual => 5,
    }
}

// Equal specifiers have the same set.
fn is_same_specifier(specifier: &VersionSpecifier, other: &VersionSpecifier) -> bool
    ensures { result ≡ true → TakeTheSame specifier.now other.now }
{
    normal_text_reads_back(specifier.version());
    normal_text_reads_back(other.version());
    specifier == other
}

// Specifiers with negated operators and equal versions.
fn is_negated_specifier(specifier: &VersionSpecifier, other: &VersionSpecifier) -> bool
    ensures { result ≡ true → TakeTheOthers specifier.now other.now }
{
    normal_text_reads_back(specifier.version());
    normal_text_reads_back(other.version());
    if !has_negated_operator(specifier, other) {
        return false;
    }
    if !counts_alike(specifier, other) {
        return false;
    }
    has_equal_version(specifier, other)
}

fn has_negated_operator(specifier: &VersionSpecifier, other: &VersionSpecifier) -> bool
    ensures { result ≡ true → negated specifier.now.operator ≡ Some other.now.operator }
{
    match specifier.operator().negate() {
        Some(negated) => negated == other.operator(),
        None => false,
    }
}

// For a star the number of release numbers counts.
fn counts_alike(specifier: &VersionSpecifier, other: &VersionSpecifier) -> bool
    ensures { result ≡ true → AreCountedAlike specifier.now other.now }
{
    !specifier.operator().is_star()
        || specifier.version().release().len() == other.version().release().len()
}

fn has_equal_version(specifier: &VersionSpecifier, other: &VersionSpecifier) -> bool
    ensures { result ≡ eq_by_cmp version_cmp specifier.now.version other.now.version }
{
    specifier.version() == other.version()
}

fn is_negated_operator(operator: MarkerOperator, other: MarkerOperator) -> bool
    ensures { result ≡ true → AreOpposite operator other }
{
    opposite(operator) == Some(other)
}

// The operator that is true where this one is false. `None` for `~=`.
fn opposite(operator: MarkerOperator) -> Option<MarkerOperator>
    ensures { IfSome result (AreOpposite operator) }
{
    match operator {
        MarkerOperator::Equal => Some(MarkerOperator::NotEqual),
        MarkerOperator::NotEqual => Some(MarkerOperator::Equal),
        MarkerOperator::GreaterThan => Some(MarkerOperator::LessEqual),
        MarkerOperator::GreaterEqual => Some(MarkerOperator::LessThan),
        MarkerOperator::LessThan => Some(MarkerOperator::GreaterEqual),
        MarkerOperator::LessEqual => Some(MarkerOperator::GreaterThan),
        MarkerOperator::TildeEqual => None,
        MarkerOperator::In => Some(MarkerOperator::NotIn),
        MarkerOperator::NotIn => Some(MarkerOperator::In),
        MarkerOperator::Contains => Some(MarkerOperator::NotContains),
        MarkerOperator::NotContains => Some(MarkerOperator::Contains),
    }
}

/// One clause alone. Only memory can run out.
pub fn one_clause(
    alloc: Global,
    terms: Vec<MarkerExpression>,
) -> Result<Vec<Vec<MarkerExpression>>, AllocError>
    ensures means { IfOk result (ClausesHoldWhere (clause_holds terms.items)) }
    ensures printable { IfOk result (ArePrintableIf (AllPrintable terms.items)) }
{
    let mut clauses = Vec::with_capacity(alloc, 1)?;
    clauses.push(terms)?;
    Ok(clauses)
}

/// Adds a large value to the end of a list, and drops it if there is no memory. (`Vec::push` would
/// return it, and so copies each value four times.)
#[inline(always)]
pub fn push_large<T: Drop>(list: &mut Vec<T>, value: T) -> Result<(), AllocError>
    ensures items { OnOk result (list.new.items ≡ list.old.items ++ (value ∷ [])) }
{
    list.reserve(1)?;
    list.push_reserved(value);
    Ok(())
}
