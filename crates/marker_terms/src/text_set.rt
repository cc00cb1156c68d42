//! The clauses of a set of texts.

ghost use Rattle.std.specs.Prelude.{◌≡◌, IfOk, IfSome, not, string_bytes, true};
ghost use Rattle.marker_parts.specs.Expression as asked;
ghost use Rattle.marker_parts.specs.Expression.{test_of};
ghost use Rattle.marker_terms.specs.Meanings.{HasPlainTexts, in_text_range, in_texts};
ghost use Rattle.marker_terms.specs.Outcomes.{ArePrintableBetween, ArePrintableIf, ArePrintableIfPlain, ClausesHoldWhere, ExcludesTextsOf, HoldOutside, HoldWhere, IsOnlyTextOf, IsPlainIfAt, IsPrintableIfPlain};

use crate::term::{one_clause, push_large};
use marker_parts::MarkerExpression;
use marker_words::{MarkerOperator, MarkerValueString};
use std::alloc::{AllocError, Global};
use std::ops::Bound;
use version_ranges::Ranges;

/// Returns the clauses that are true where the key's text is in a set.
///
/// A set of all but single texts is one clause, with a `!=` for each of them. Of another set each
/// interval is a clause: `==`, or the comparisons of its bounds. Each term parses back from its
/// text if no text at a bound has both quotes.
pub fn text_clauses(
    alloc: Global,
    key: MarkerValueString,
    set: &Ranges<String>,
) -> Result<Vec<Vec<MarkerExpression>>, AllocError>
    ensures means { IfOk result (ClausesHoldWhere (in_texts key set.now)) }
    ensures printable { IfOk result (ArePrintableIf (HasPlainTexts set.now)) }
{
    if !is_unbounded(set) {
        return interval_clauses(alloc, key, set);
    }
    let outside = set.complement(alloc)?;
    match exclusions(alloc, key, &outside)? {
        Some(terms) => one_clause(alloc, terms),
        None => interval_clauses(alloc, key, set),
    }
}

// Whether a set has no end in either direction, as sets of all but single values.
fn is_unbounded(set: &Ranges<String>) -> bool {
    matches!(
        set.bounding_range(),
        Some((Bound::Unbounded, Bound::Unbounded))
    )
}

// A clause for each interval.
fn interval_clauses(
    alloc: Global,
    key: MarkerValueString,
    set: &Ranges<String>,
) -> Result<Vec<Vec<MarkerExpression>>, AllocError>
    ensures means { IfOk result (ClausesHoldWhere (in_texts key set.now)) }
    ensures printable { IfOk result (ArePrintableIf (HasPlainTexts set.now)) }
{
    let mut clauses = Vec::new(alloc);
    for bounds in set.iter() {
        let terms = text_range_terms(alloc, key, bounds)?;
        clauses.push(terms)?;
    }
    Ok(clauses)
}

// The terms of the texts that are not in a set, if these are single texts.
fn exclusions(
    alloc: Global,
    key: MarkerValueString,
    outside: &Ranges<String>,
) -> Result<Option<Vec<MarkerExpression>>, AllocError>
    ensures means { IfOk result (λ found. IfSome found (HoldOutside (in_texts key outside.now))) }
    ensures printable { IfOk result (λ found. IfSome found (ArePrintableIfPlain outside.now)) }
{
    let mut terms = Vec::new(alloc);
    for bounds in outside.iter() {
        let Some(text) = single_text(bounds) else {
            return Ok(None);
        };
        push_large(&mut terms, comparison(key, MarkerOperator::NotEqual, text)?)?;
    }
    Ok(Some(terms))
}

/// Returns the comparison that is true outside of a range of a single text, or nothing for another
/// range. It parses back from its text if the text does not have both quotes.
pub fn text_exclusion(
    alloc: Global,
    key: MarkerValueString,
    bounds: (Bound<&String>, Bound<&String>),
) -> Result<Option<MarkerExpression>, AllocError>
    ensures means { IfOk result (λ found. IfSome found (ExcludesTextsOf key bounds.entry)) }
    ensures printable { IfOk result (λ found. IfSome found (IsPrintableIfPlain bounds.entry.0)) }
{
    match single_text(bounds) {
        Some(text) => Ok(Some(comparison(key, MarkerOperator::NotEqual, text)?)),
        None => Ok(None),
    }
}

// The text of a range of one text.
fn single_text<'a>(bounds: (Bound<&'a String>, Bound<&'a String>)) -> Option<&'a String>
    ensures single { IfSome result (IsOnlyTextOf bounds.entry) }
    ensures plain { IfSome result (IsPlainIfAt bounds.entry.0) }
{
    let mut pairs = MarkerOperator::from_bounds(bounds);
    let (operator, text) = pairs.next()?;
    if operator == MarkerOperator::Equal && pairs.next().is_none() {
        Some(text)
    } else {
        None
    }
}

/// The terms that hold where the key's text lies in a range. They are read back as they are printed
/// where no text at a bound has both quotes. Only memory can run out.
pub fn text_range_terms(
    alloc: Global,
    key: MarkerValueString,
    bounds: (Bound<&String>, Bound<&String>),
) -> Result<Vec<MarkerExpression>, AllocError>
    ensures means { IfOk result (HoldWhere (in_text_range bounds.entry.0 bounds.entry.1 key)) }
    ensures printable { IfOk result (ArePrintableBetween bounds.entry) }
{
    let mut terms = Vec::new(alloc);
    for (operator, text) in MarkerOperator::from_bounds(bounds) {
        push_large(&mut terms, comparison(key, operator, text)?)?;
    }
    Ok(terms)
}

// The comparison of a key with a text.
fn comparison(
    key: MarkerValueString,
    operator: MarkerOperator,
    text: &String,
) -> Result<MarkerExpression, AllocError>
    ensures { IfOk result (λ term. test_of term ≡ asked.text key operator (string_bytes text.now)) }
{
    let value = text.clone()?;
    Ok(MarkerExpression::String {
        key,
        operator,
        value,
    })
}
