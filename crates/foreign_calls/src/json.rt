//! The parts of a requirement as JSON.

ghost use Rattle.std.specs.Prelude.{◌≡◌, IfOk, map, string_bytes};
ghost use Rattle.std.specs.Option.{option_map};
ghost use Rattle.pep440_specifier.specs.Text.{specifier_text};
ghost use Rattle.serde_json.specs.View.{view};
ghost use Rattle.foreign_calls.specs.Json.{data_of, text_of, text_or_null, texts_data};

use pep440_specifier::VersionSpecifier;
use pep508_names::ExtraName;
use serde_json::{Value, json};
use std::alloc::{AllocError, Global};
use std::string::ToString;

/// The parts of a requirement, borrowed.
#[derive(Clone, Copy)]
pub(crate) struct Parts<'a> {
    /// The name in its normal form.
    pub(crate) name: &'a str,
    pub(crate) extras: &'a [ExtraName],
    pub(crate) specifiers: &'a [VersionSpecifier],
    pub(crate) url: Option<&'a str>,
    /// The text of the marker, or nothing if it is true everywhere.
    pub(crate) marker: Option<&'a str>,
}

// A text, or null.
fn text_or_null(alloc: Global, text: Option<&str>) -> Result<Value, AllocError>
    ensures { IfOk result
        (λ v. view v ≡ text_or_null (option_map (λ t. t.now) text.entry)) }
{
    match text {
        Some(text) => Value::try_from_str(alloc, text),
        None => Ok(Value::Null),
    }
}

// A list of the names.
fn list_of_names(alloc: Global, names: &[ExtraName]) -> Result<Value, AllocError>
    ensures { IfOk result (λ value. view value ≡ texts_data names.now) }
{
    let mut values = Vec::new(alloc);
    for name in names {
        values.push(Value::try_from_str(alloc, name.as_str())?)?;
    }
    Ok(Value::Array(values))
}

// A list of the texts of the specifiers.
fn list_of_specifiers(alloc: Global, set: &[VersionSpecifier]) -> Result<Value, AllocError>
    ensures { IfOk result (λ value. view value ≡ texts_data (map specifier_text set.now)) }
{
    let mut values = Vec::new(alloc);
    for specifier in set {
        values.push(Value::String(specifier.to_string(alloc)?))?;
    }
    Ok(Value::Array(values))
}

impl Parts<'_> {
    // The parts as an object.
    fn value(&self, alloc: Global) -> Result<Value, AllocError>
        ensures { IfOk result (λ value. view value ≡ data_of self.now) }
    {
        let extras = list_of_names(alloc, self.extras)?;
        let marker = text_or_null(alloc, self.marker)?;
        let specifiers = list_of_specifiers(alloc, self.specifiers)?;
        let url = text_or_null(alloc, self.url)?;
        json!(in alloc; {
            "extras": extras,
            "marker": marker,
            "name": (self.name),
            "specifiers": specifiers,
            "url": url
        })
    }

    /// Returns the text of the parts as an object of JSON without spaces.
    pub(crate) fn to_json(&self, alloc: Global) -> Result<String, AllocError>
        ensures { IfOk result (λ text. string_bytes text ≡ text_of self.now) }
    {
        let value = self.value(alloc)?;
        value.to_string(alloc)
    }
}
