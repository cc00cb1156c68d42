//! The variables in lines.

use crate::hosts::Host;
use requirement_lines::{Piece, text_of};
use std::alloc::{AllocError, Global};
use std::collections::BTreeMap;

/// The sources of values of variables.
#[derive(Clone, Copy)]
pub struct Values<'s> {
    /// Variables of the command line, as `NAME=VALUE`.
    pub given: &'s [&'s str],
    /// The current folder, which is the value of `PROJECT_ROOT` if that is not set.
    pub folder: &'s str,
}

/// Returns whether the text is the name of a variable: one or more of `A` to `Z`, `0` to `9` and
/// `_`.
pub fn is_variable_name(name: &str) -> bool {
    !name.is_empty()
        && name.bytes().all(|b| b.is_ascii_uppercase() || b.is_ascii_digit() || b == b'_')
}

// The value from the command line: the last one.
fn given_value<'s>(given: &'s [&'s str], name: &str) -> Option<&'s str> {
    for index in (0..given.len()).rev() {
        if let Some((key, value)) = given[index].split_once('=') {
            if key == name {
                return Some(value);
            }
        }
    }
    None
}

// The value of a variable, if it is set.
fn value_of<H: Host>(
    alloc: Global,
    host: &mut H,
    values: Values<'_>,
    name: &str,
) -> Result<Option<String>, AllocError> {
    if let Some(value) = given_value(values.given, name) {
        return Ok(Some(String::from_str(alloc, value)?));
    }
    match host.variable(alloc, name)? {
        Some(value) => Ok(Some(value)),
        None if name == "PROJECT_ROOT" => Ok(Some(String::from_str(alloc, values.folder)?)),
        None => Ok(None),
    }
}

// Adds the variable to the table, if it is set.
fn learn_name<H: Host>(
    alloc: Global,
    host: &mut H,
    values: Values<'_>,
    name: &str,
    variables: &mut BTreeMap<String, String>,
) -> Result<(), AllocError> {
    if !is_variable_name(name) || variables.contains_key(name) {
        return Ok(());
    }
    if let Some(value) = value_of(alloc, host, values, name)? {
        let key = String::from_str(alloc, name)?;
        let _before = variables.insert(key, value)?;
    }
    Ok(())
}

// Whether a variable may be in the line.
fn has_dollar(line: &[Piece<'_>]) -> bool {
    line.iter().any(|piece| piece.text.contains('$'))
}

/// Adds each variable of the line that is set to the table.
pub fn learn_variables<H: Host>(
    alloc: Global,
    host: &mut H,
    values: Values<'_>,
    line: &[Piece<'_>],
    variables: &mut BTreeMap<String, String>,
) -> Result<(), AllocError> {
    if !has_dollar(line) {
        return Ok(());
    }
    let text = text_of(alloc, line)?;
    for after in text.as_str().split("${") {
        if let Some((name, _)) = after.split_once('}') {
            learn_name(alloc, host, values, name, variables)?;
        }
    }
    Ok(())
}
