//! Variables in a text.

ghost use Rattle.std.specs.Prelude.{◌≡◌, ◌≢◌, ◌<◌, ◌++◌, ◌∷◌, List, ℕ, All, IfNone, IfOk, IfSome, IsOkAnd, OnErr, OnOk, length, string_bytes, take, drop};
ghost use Rattle.std.specs.Cow.{cow_str_bytes};
ghost use Rattle.std.specs.List.{prefix_len};
ghost use Rattle.percent_encoding.specs.Cow.{IsBorrowedStr};
ghost use Rattle.pep508_urls.specs.Variables.{Expands, IsVariableName, is_name_byte, value_of};

use pep508_errors::Surroundings;
use std::alloc::{AllocError, Global};
use std::borrow::CowStr;

/// Replaces each `${NAME}` in a text, from left to right, by the variable of that name, or by the
/// project root for `PROJECT_ROOT` if there is no such variable. A name is one or more of `A` to
/// `Z`, `0` to `9` and `_`; a reference to an unknown name is left as it is. A replacement is not
/// expanded again.
///
/// The text is borrowed if nothing changes. A text without `$` costs no allocation.
pub fn expand_env_vars<'a>(
    alloc: Global,
    text: &'a str,
    surroundings: &Surroundings<'_>,
) -> Result<CowStr<'a>, AllocError>
    ensures value { IfOk result (λ expanded.
        Expands (value_of surroundings.now) text.now (cow_str_bytes expanded)) }
    ensures unchanged { IfOk result (λ expanded.
        cow_str_bytes expanded ≡ text.now → IsBorrowedStr expanded) }
    ensures no_memory { All (λ b. b ≢ 36) text.now → IsOkAnd result IsBorrowedStr }
{
    if !text.contains('$') {
        return Ok(CowStr::Borrowed(text));
    }
    let expanded = expanded_text(alloc, text, surroundings)?;
    if expanded.as_str() == text {
        return Ok(CowStr::Borrowed(text));
    }
    Ok(CowStr::Owned(expanded))
}

// The text with each of its variables replaced.
fn expanded_text(
    alloc: Global,
    text: &str,
    surroundings: &Surroundings<'_>,
) -> Result<String, AllocError>
    ensures { IfOk result (λ expanded.
        Expands (value_of surroundings.now) text.now (string_bytes expanded)) }
{
    let mut expanded = String::new(alloc);
    let mut rest = text;
    while let Some((before, after)) = rest.split_once('$') {
        expanded.push_str(before)?;
        match braced_name(after) {
            Some((name, behind)) => {
                push_value(&mut expanded, name, surroundings)?;
                rest = behind;
            }
            None => {
                expanded.push('$')?;
                rest = after;
            }
        }
    }
    expanded.push_str(rest)?;
    Ok(expanded)
}

// The name in the `{NAME}` that the text begins with, and what follows it.
fn braced_name(text: &str) -> Option<(&str, &str)>
    ensures found { IfSome result (λ parts. text.now ≡ 123 ∷ (parts.0.now ++ (125 ∷ parts.1.now))) }
    ensures name { IfSome result (λ parts. IsVariableName parts.0.now) }
    ensures none { IfNone result ((name rest : List ℕ) → IsVariableName name
        → text.now ≢ 123 ∷ (name ++ (125 ∷ rest))) }
    ensures shorter { IfSome result (λ parts. length parts.1.now < length text.now) }
{
    let Some(inside) = text.strip_prefix('{') else {
        return None;
    };
    let (name, rest) = split_name(inside);
    let Some(behind) = rest.strip_prefix('}') else {
        return None;
    };
    if name.is_empty() {
        return None;
    }
    Some((name, behind))
}

// The longest run of characters of a name at the front of the text, and what follows it.
fn split_name(text: &str) -> (&str, &str)
    ensures name { result.0.now ≡ take (prefix_len is_name_byte text.now) text.now }
    ensures rest { result.1.now ≡ drop (prefix_len is_name_byte text.now) text.now }
{
    let len = text
        .as_bytes()
        .iter()
        .take_while(|&&b| is_name_byte(b))
        .count();
    text.split_at(len)
}

fn is_name_byte(b: u8) -> bool
    ensures { result ≡ is_name_byte b }
{
    b.is_ascii_uppercase() || b.is_ascii_digit() || b == b'_'
}

// Appends the value of a name. When memory runs out, a beginning of it may have been appended.
fn push_value(
    expanded: &mut String,
    name: &str,
    surroundings: &Surroundings<'_>,
) -> Result<(), AllocError>
    ensures { OnOk result (string_bytes expanded.new
        ≡ string_bytes expanded.old ++ value_of surroundings.now name.now) }
{
    if let Some(value) = surroundings.vars.get(name) {
        return expanded.push_str(value.as_str());
    }
    if name == "PROJECT_ROOT" {
        return expanded.push_str(surroundings.project_root);
    }
    expanded.push_str("${")?;
    expanded.push_str(name)?;
    expanded.push('}')
}
