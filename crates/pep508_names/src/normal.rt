//! Validating a name, and computing its normal form.

ghost use Rattle.std.specs.Prelude.{◌≡◌, ◌↔◌, ◌≤◌, ◌==◌, length, take, IsTrue, IfOk, IfErr, string_bytes, List, ℕ};
ghost use Rattle.std.specs.List.{list_all};
ghost use Rattle.serde.specs.Event.{text};
ghost use Rattle.serde.specs.Steps.{Gives};
ghost use Rattle.pep508_text.specs.Class.{is_name_character, is_separator};
ghost use Rattle.pep508_names.specs.Name.{IsIdentifier, IsName, NormalizesTo};

use crate::invalid_name::InvalidNameError;
use serde::{Deserializer, Format};
use std::alloc::Global;
use std::string::ToString;

fn is_separator(byte: u8) -> bool
    ensures { result ≡ is_separator byte }
{
    matches!(byte, b'-' | b'_' | b'.')
}

fn are_name_characters(bytes: &[u8]) -> bool
    ensures { result ≡ list_all is_name_character bytes.now }
{
    bytes
        .iter()
        .all(|byte| byte.is_ascii_alphanumeric() || is_separator(*byte))
}

// A name begins and ends with a letter or digit, and contains only letters, digits and separators.
fn is_name(text: &str) -> bool
    ensures { IsTrue result ↔ IsIdentifier text.now }
{
    let bytes = text.as_bytes();
    let (Some(first), Some(last)) = (bytes.first(), bytes.last()) else {
        return false;
    };
    first.is_ascii_alphanumeric() && last.is_ascii_alphanumeric() && are_name_characters(bytes)
}

// Whether the text is a name in normal form, which most names are: words of lowercase letters and
// digits, with one dash between two of them.
fn is_normal(text: &[u8]) -> bool
    ensures { IsTrue result → NormalizesTo text.now text.now }
{
    let mut awaits_word = true;
    for i in 0..text.len() {
        let byte = text[i];
        if byte.is_ascii_lowercase() || byte.is_ascii_digit() {
            awaits_word = false;
        } else if byte == b'-' && !awaits_word {
            awaits_word = true;
        } else {
            return false;
        }
    }
    !awaits_word
}

// Writes the normal form of a name over its front, and returns its length in bytes.
fn normalize(name: &mut [u8]) -> usize
    ensures fits { result ≤ length name.old }
    ensures normal { (n : List ℕ) → NormalizesTo name.old n → take result name.new ≡ n }
{
    let mut len = 0;
    let mut follows_separator = false;
    for i in 0..name.len() {
        let byte = name[i];
        let separates = is_separator(byte);
        if !separates {
            name[len] = byte.to_ascii_lowercase();
            len += 1;
        } else if !follows_separator {
            name[len] = b'-';
            len += 1;
        }
        follows_separator = separates;
    }
    len
}

// The normal form of a name, in the memory of the text.
fn into_normal_form(name: String) -> String
    requires { IsName (string_bytes name) }
    ensures { NormalizesTo (string_bytes name) (string_bytes result) }
{
    let mut bytes = name.into_bytes();
    let len = normalize(&mut bytes);
    bytes.truncate(len);
    String::from_utf8(bytes).unwrap()
}

// The normal form of a name, in the memory of the text. The error is an invalid name itself.
pub(crate) fn normal_form(text: String) -> Result<String, InvalidNameError>
    ensures read { IfOk result (λ name. NormalizesTo (string_bytes text) (string_bytes name)) }
    ensures normal { IfOk result (λ name. NormalizesTo (string_bytes name) (string_bytes name)) }
    ensures refused { IfErr result (λ error.
        (error ≡ string_bytes text) × ¬ IsName (string_bytes text)) }
{
    if is_normal(text.as_bytes()) {
        Ok(text)
    } else if is_name(&text) {
        Ok(into_normal_form(text))
    } else {
        Err(InvalidNameError::new(text))
    }
}

// Deserializes a text and returns its normal form, or the format's own error if it is an invalid
// name.
pub(crate) fn next_name<F: Format>(
    alloc: Global,
    from: &mut Deserializer<'_, '_, F>,
) -> Result<String, F::Error>
    ensures read { IfOk result (λ name. (t : List ℕ)
        × NormalizesTo t (string_bytes name) × Gives F.gives from.old (text t) from.new) }
    ensures normal { IfOk result (λ name. NormalizesTo (string_bytes name) (string_bytes name)) }
{
    match normal_form(from.string(alloc)?) {
        Ok(name) => Ok(name),
        Err(error) => match error.to_string(alloc) {
            Ok(message) => Err(from.custom(&message)),
            Err(_) => Err(from.no_memory()),
        },
    }
}
