//! Values, the sides of comparisons, and how they are printed.

ghost use Rattle.std.specs.Prelude.{◌≡◌, Some};
ghost use Rattle.marker_words.specs.Print.{owned_value, quoted_text, value_text};

use crate::key::{MarkerValueString, MarkerValueVersion};
use crate::lexical::value_of_name;
use crate::parts::MarkerValueRef;
use std::alloc::AllocError;
use std::fmt;
use std::fmt::Display;

/// A text that prints in `'`, or in `"` if it contains a `'`.
#[derive(Clone, Copy, Debug, PartialEq, Eq)]
pub struct Quoted<'a>(pub &'a str);

impl Display for Quoted<'_> {
    ghost output = { λ quoted. Some (quoted_text quoted.0.now) };

    fn fmt<W: fmt::Write>(&self, f: &mut fmt::Formatter<W>) -> fmt::Result {
        let text = self.0;
        if text.as_bytes().contains(&b'\'') {
            write!(f, "\"{text}\"")
        } else {
            write!(f, "'{text}'")
        }
    }
}

/// One side of a comparison. It prints as it is written, a key by its modern name.
#[derive(Debug, PartialEq, Eq, PartialOrd, Ord, Hash, Drop)]
pub enum MarkerValue {
    /// A key whose value is a version, such as `python_version`
    MarkerEnvVersion(MarkerValueVersion),
    /// A key whose value is a text, such as `os_name`
    MarkerEnvString(MarkerValueString),
    /// `extra`
    Extra,
    /// The text between two quotes
    QuotedString(String),
}

impl MarkerValue {
    ghost use Rattle.std.specs.Prelude.{IfSome, IfNone};
    ghost use Rattle.marker_words.specs.Lexical.{Value};
    ghost use Rattle.marker_words.specs.Part.{IsNamed};

    /// Returns the value of a name: a key, by its modern or a deprecated spelling, or `extra`.
    /// `None` for any other text, including a quoted one.
    pub fn parse(name: &str) -> Option<MarkerValue>
        ensures found { IfSome result (λ value. IsNamed (owned_value value) name.now) }
        ensures none { IfNone result ((value : Value) → IsNamed value name.now → ⊥) }
    {
        match value_of_name(name)? {
            MarkerValueRef::MarkerEnvVersion(key) => Some(MarkerValue::MarkerEnvVersion(key)),
            MarkerValueRef::MarkerEnvString(key) => Some(MarkerValue::MarkerEnvString(key)),
            MarkerValueRef::Extra => Some(MarkerValue::Extra),
            // No name denotes a quoted text.
            MarkerValueRef::QuotedString(_) => None,
        }
    }
}

impl Clone for MarkerValue {
    ghost is_clone = { λ value clone. owned_value clone ≡ owned_value value };

    fn clone(&self) -> Result<MarkerValue, AllocError> {
        match self {
            MarkerValue::MarkerEnvVersion(key) => Ok(MarkerValue::MarkerEnvVersion(*key)),
            MarkerValue::MarkerEnvString(key) => Ok(MarkerValue::MarkerEnvString(*key)),
            MarkerValue::Extra => Ok(MarkerValue::Extra),
            MarkerValue::QuotedString(text) => Ok(MarkerValue::QuotedString(text.clone()?)),
        }
    }
}

impl Display for MarkerValue {
    ghost output = { λ value. Some (value_text (owned_value value)) };

    fn fmt<W: fmt::Write>(&self, f: &mut fmt::Formatter<W>) -> fmt::Result {
        match self {
            MarkerValue::MarkerEnvVersion(key) => write!(f, "{key}"),
            MarkerValue::MarkerEnvString(key) => write!(f, "{key}"),
            MarkerValue::Extra => f.write_str("extra"),
            MarkerValue::QuotedString(text) => write!(f, "{}", Quoted(text)),
        }
    }
}
