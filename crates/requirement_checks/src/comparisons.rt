//! The comparisons of a marker, and what is suspicious about each.

use marker_words::{
    ComparisonRef, MarkerOperator, MarkerValueRef, MarkerValueVersion, keyword, sides,
};
use pep440_version::Version;
use pep508_text::{skip_space, strip};
use std::alloc::{AllocError, Global};

// A comparison of a marker: the text from it on, and the text after it.
#[derive(Clone, Copy)]
pub(crate) struct Found<'a> {
    pub(crate) comparison: ComparisonRef<'a>,
    pub(crate) before: &'a str,
    pub(crate) after: &'a str,
}

// The text without white space and parentheses of this kind at the front.
fn skip_parentheses(text: &str, parenthesis: char) -> &str {
    let mut rest = skip_space(text);
    for _ in 0..text.len() {
        match strip(rest, parenthesis) {
            Some(after) => rest = skip_space(after),
            None => break,
        }
    }
    rest
}

// The comparison at the front of the text, after parentheses.
pub(crate) fn first_comparison(text: &str) -> Option<Found<'_>> {
    let before = skip_parentheses(text, '(');
    match sides(before) {
        Ok((comparison, after)) => Some(Found {
            comparison,
            before,
            after,
        }),
        Err(_) => None,
    }
}

// The text after the `and` or `or` that follows a comparison.
pub(crate) fn after_keyword(text: &str) -> &str {
    keyword(skip_parentheses(text, ')')).1
}

// The version key and the quoted text of a comparison, on either side.
fn version_key_and_text<'a>(found: &ComparisonRef<'a>) -> Option<(MarkerValueVersion, &'a str)> {
    match (found.left, found.right) {
        (MarkerValueRef::MarkerEnvVersion(key), MarkerValueRef::QuotedString(text)) => {
            Some((key, text))
        }
        (MarkerValueRef::QuotedString(text), MarkerValueRef::MarkerEnvVersion(key)) => {
            Some((key, text))
        }
        _ => None,
    }
}

// The quoted text that a comparison has with a text key.
fn text_beside_text_key<'a>(found: &ComparisonRef<'a>) -> Option<&'a str> {
    match (found.left, found.right) {
        (MarkerValueRef::MarkerEnvString(_), MarkerValueRef::QuotedString(text)) => Some(text),
        (MarkerValueRef::QuotedString(text), MarkerValueRef::MarkerEnvString(_)) => Some(text),
        _ => None,
    }
}

// The extra that a comparison requests, as it is written.
pub(crate) fn requested_extra<'a>(found: &ComparisonRef<'a>) -> Option<&'a str> {
    match (found.left, found.operator, found.right) {
        (MarkerValueRef::Extra, MarkerOperator::Equal, MarkerValueRef::QuotedString(name)) => {
            Some(name)
        }
        (MarkerValueRef::QuotedString(name), MarkerOperator::Equal, MarkerValueRef::Extra) => {
            Some(name)
        }
        _ => None,
    }
}

// Whether the operator compares by order.
fn is_ordering(operator: MarkerOperator) -> bool {
    matches!(
        operator,
        MarkerOperator::LessThan
            | MarkerOperator::LessEqual
            | MarkerOperator::GreaterThan
            | MarkerOperator::GreaterEqual
    )
}

// Whether a version key is looked up in a list with commas.
pub(crate) fn has_commas(found: &ComparisonRef<'_>) -> bool {
    match (found.left, found.operator, found.right) {
        (
            MarkerValueRef::MarkerEnvVersion(_),
            MarkerOperator::In | MarkerOperator::NotIn,
            MarkerValueRef::QuotedString(list),
        ) => list.contains(','),
        _ => false,
    }
}

// Whether a text key is compared by order with a version.
pub(crate) fn is_version_as_text(
    alloc: Global,
    found: &ComparisonRef<'_>,
) -> Result<bool, AllocError> {
    match text_beside_text_key(found) {
        Some(text) if is_ordering(found.operator) => Ok(Version::read(alloc, text)?.is_some()),
        _ => Ok(false),
    }
}

// The version without its `v` and its epoch.
fn release_on(version: &str) -> &str {
    let rest = version.trim_start_matches(|c| c == 'v' || c == 'V');
    match rest.split_once('!') {
        Some((_, release)) => release,
        None => rest,
    }
}

// How many numbers the release of a version has.
fn release_numbers(version: &str) -> usize {
    let mut count = 0usize;
    for part in release_on(version).split('.') {
        if !part.starts_with(|c: char| c.is_ascii_digit()) {
            return count;
        }
        count = count.saturating_add(1);
        if !part.bytes().all(|b| b.is_ascii_digit()) {
            return count;
        }
    }
    count
}

// Whether `python_version` is compared with a version of three or more numbers.
pub(crate) fn has_three_numbers(found: &ComparisonRef<'_>) -> bool {
    match version_key_and_text(found) {
        Some((MarkerValueVersion::PythonVersion, text)) => text
            .split_whitespace()
            .any(|version| release_numbers(version) >= 3),
        _ => false,
    }
}
