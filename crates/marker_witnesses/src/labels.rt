//! The texts of nodes, edges and steps.

use crate::step::Step;
use marker_graph::{MarkerTreeKind, MarkerValueExtraRef};
use marker_words::Quoted;
use pep440_version::Version;
use std::alloc::{AllocError, Global};
use std::fmt::{Display, Write};
use std::ops::Bound;

/// Returns the variable on which a marker branches, as markers write it.
pub fn variable_label(alloc: Global, kind: &MarkerTreeKind<'_>) -> Result<String, AllocError> {
    match kind {
        MarkerTreeKind::True => String::from_str(alloc, "true"),
        MarkerTreeKind::False => String::from_str(alloc, "false"),
        MarkerTreeKind::Version(view) => format!(in alloc; "{}", view.key()),
        MarkerTreeKind::String(view) => format!(in alloc; "{}", view.key()),
        MarkerTreeKind::In(view) => {
            let text = Quoted(view.value());
            format!(in alloc; "{} in {text}", view.key())
        }
        MarkerTreeKind::Contains(view) => {
            let text = Quoted(view.value());
            format!(in alloc; "{text} in {}", view.key())
        }
        MarkerTreeKind::Extra(view) => extra_label(alloc, view.name()),
    }
}

fn extra_label(alloc: Global, name: MarkerValueExtraRef<'_>) -> Result<String, AllocError> {
    match name {
        MarkerValueExtraRef::Extra(name) => format!(in alloc; "extra == '{name}'"),
        MarkerValueExtraRef::Arbitrary(text) => {
            let text = Quoted(text.as_str());
            format!(in alloc; "extra == {text}")
        }
    }
}

/// Returns the word for the answer of a substring test, or for whether an extra is requested.
pub fn answer_word(answer: bool) -> &'static str {
    if answer { "yes" } else { "no" }
}

/// Returns the comparisons of the versions between two bounds.
pub fn version_label(
    alloc: Global,
    lower: Bound<&Version>,
    upper: Bound<&Version>,
) -> Result<String, AllocError> {
    range_label(alloc, lower, upper)
}

/// Returns the comparisons of the texts between two bounds.
pub fn text_label(
    alloc: Global,
    lower: Bound<&String>,
    upper: Bound<&String>,
) -> Result<String, AllocError> {
    range_label(alloc, lower, upper)
}

// Appends an operator and a value in quotes.
fn add_comparison<T: Display>(
    alloc: Global,
    label: &mut String,
    operator: &str,
    value: &T,
) -> Result<(), AllocError> {
    let text = format!(in alloc; "{value}")?;
    if !label.is_empty() {
        label.push_str(" and ")?;
    }
    write!(label, "{operator} {}", Quoted(text.as_str()))
}

// The comparisons of the values between two bounds.
fn range_label<T: Display + PartialEq>(
    alloc: Global,
    lower: Bound<&T>,
    upper: Bound<&T>,
) -> Result<String, AllocError> {
    let mut label = String::new(alloc);
    match (lower, upper) {
        (Bound::Included(first), Bound::Included(last)) if *first == *last => {
            add_comparison(alloc, &mut label, "==", first)?;
            return Ok(label);
        }
        (Bound::Included(value), _) => add_comparison(alloc, &mut label, ">=", value)?,
        (Bound::Excluded(value), _) => add_comparison(alloc, &mut label, ">", value)?,
        (Bound::Unbounded, _) => {}
    }
    match upper {
        Bound::Included(value) => add_comparison(alloc, &mut label, "<=", value)?,
        Bound::Excluded(value) => add_comparison(alloc, &mut label, "<", value)?,
        Bound::Unbounded => {}
    }
    Ok(label)
}

// The variable on which a marker branches, and the answer with which a path goes on.
fn answered_label(
    alloc: Global,
    kind: &MarkerTreeKind<'_>,
    answer: bool,
) -> Result<String, AllocError> {
    let mut label = variable_label(alloc, kind)?;
    label.push_str(": ")?;
    label.push_str(answer_word(answer))?;
    Ok(label)
}

impl Step<'_> {
    /// Returns the variable of the step and the values with which it goes on, as drawings label
    /// nodes and edges.
    pub fn label(&self, alloc: Global) -> Result<String, AllocError> {
        match *self {
            Step::Version(step) => {
                let range = version_label(alloc, step.lower, step.upper)?;
                format!(in alloc; "{} {range}", step.variable)
            }
            Step::Text(step) => {
                let range = text_label(alloc, step.lower, step.upper)?;
                format!(in alloc; "{} {range}", step.variable)
            }
            Step::In(test, answer) => answered_label(alloc, &MarkerTreeKind::In(test), answer),
            Step::Contains(test, answer) => {
                answered_label(alloc, &MarkerTreeKind::Contains(test), answer)
            }
            Step::Extra(extra, answer) => {
                answered_label(alloc, &MarkerTreeKind::Extra(extra), answer)
            }
        }
    }
}
