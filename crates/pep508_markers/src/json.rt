//! JSON strings, from which markers and requirements are parsed and to which they are written.

ghost use Rattle.std.specs.Prelude.{◌≡◌, IfOk, string_bytes};
ghost use Rattle.pep508_markers.specs.Json.{string_of, span_of, IsNoString, IsStringOf, IsUnread, TellsNoString, TellsString};

use pep508_errors::{Pep508Error, Pep508ErrorSource, Pep508Url};
use refusal::Refusal;
use serde_json::Value;
use std::alloc::{AllocError, Global};

/// Returns the text of a JSON string, or `None` if the JSON is not a string.
pub fn read_string(alloc: Global, json: &str) -> Result<Option<String>, AllocError>
    ensures { IfOk result (TellsString json.now) }
{
    match Value::from_str(alloc, json) {
        Ok(Value::String(text)) => Ok(Some(text)),
        Ok(_) => Ok(None),
        Err(error) => {
            if error.is_memory() {
                return Err(AllocError);
            }
            Ok(None)
        }
    }
}

/// Returns the text as a JSON string.
pub fn write_string(alloc: Global, text: String) -> Result<String, AllocError>
    ensures written { IfOk result (λ json. string_bytes json ≡ string_of (string_bytes text)) }
    ensures read_back { IfOk result (λ json. IsStringOf (string_bytes json) (string_bytes text)) }
{
    Value::String(text).to_string(alloc)
}

/// Returns the refusal of JSON that is not a string, with its place and a copy of the JSON.
/// `OutOfMemory` if there is no memory for them.
pub fn no_string<T: Pep508Url>(alloc: Global, json: &str) -> Refusal<Pep508Error<T>>
    requires { IsNoString json.now }
    ensures { IsUnread json.now result }
{
    match no_string_error(alloc, json) {
        Ok(error) => Refusal::Fault(error),
        Err(AllocError) => Refusal::OutOfMemory,
    }
}

fn no_string_error<T: Pep508Url>(alloc: Global, json: &str) -> Result<Pep508Error<T>, AllocError>
    requires { IsNoString json.now }
    ensures { IfOk result (TellsNoString json.now) }
{
    let message = String::from_str(alloc, "Expected a JSON string")?;
    Ok(Pep508Error {
        message: Pep508ErrorSource::String(message),
        start: 0,
        len: no_string_len(json),
        input: String::from_str(alloc, json)?,
    })
}

// The length of the place of the fault: 1 if the JSON is empty, otherwise 0.
fn no_string_len(json: &str) -> usize
    ensures { result ≡ span_of json.now }
{
    if json.is_empty() { 1 } else { 0 }
}
