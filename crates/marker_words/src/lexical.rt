//! The parsers of the words of a comparison. Each returns what it parsed at the front of the text
//! and the rest, or the fault if the text does not begin with such a word.

ghost use Rattle.std.specs.Prelude.{◌≡◌, ◌↔◌, ◌<◌, ◌≤◌, ◌≢◌, ◌∷◌, ℕ, List, IsTrue, IfSome, IfNone, IfOk, IfErr, OnErr, Some, length};
ghost use Rattle.std.specs.Str.{chars};
ghost use Rattle.pep508_text.specs.Suffix.{IsSuffix};
ghost use Rattle.marker_words.specs.Key.{version_key_name, key_name};
ghost use Rattle.marker_words.specs.Lexical.{Value, IsQuote, IsValue, symbol_text, IsOperator, Sides};
ghost use Rattle.marker_words.specs.Part.{value_of, IsNamed, IsBehindNot};
ghost use Rattle.marker_words.specs.Keyword.{IsKeyword};
ghost use Rattle.marker_words.specs.Fault.{HasNoOperator, HasNoSides, HasNoValue, IsWordFault, IsLetterOfIn, begins_word};

use crate::fault::{Fault, FaultKind};
use crate::key::{MarkerValueString, MarkerValueVersion};
use crate::operator::MarkerOperator;
use crate::parts::{ComparisonRef, Keyword, MarkerValueRef};
use pep508_text::{Class, Place, first, skip_space, split_before_quote, split_run, strip};

// The value at the front of the text: a quoted text, a key or `extra`. There is none at the end of
// the text, at a quote that is not closed, and at any other run of characters.
fn value(text: &str) -> Result<(MarkerValueRef<'_>, &str), Fault<'_>>
    ensures found { IfOk result (λ x. IsValue (chars text.now) (chars x.1.now) (value_of x.0)) }
    ensures none { OnErr result (HasNoValue text.now) }
    ensures fault { IfErr result (IsWordFault text.now) }
    ensures suffix { IfOk result (λ x. IsSuffix text.now x.1.now) }
    ensures shorter { IfOk result (λ x. length x.1.now < length text.now) }
{
    let Some((c, after)) = first(text) else {
        return Err(FaultKind::ValueAtEnd.at(Place::at_end()));
    };
    if is_quote(c) {
        let (quoted, end) = split_before_quote(after, c);
        match first(end) {
            Some((_, rest)) => Ok((MarkerValueRef::QuotedString(quoted), rest)),
            None => Err(FaultKind::Unclosed(c).at(Place::before(text, after))),
        }
    } else {
        let (run, rest) = split_run(text, Class::KeyPart);
        match value_of_name(run) {
            Some(value) => Ok((value, rest)),
            None => Err(FaultKind::NoValue.at(Place::at_run(run, text))),
        }
    }
}

fn is_quote(c: char) -> bool
    ensures { IsTrue result ↔ IsQuote c }
{
    c == '\'' || c == '"'
}

// The value with this name, which is compared only with the names of its length.
pub(crate) fn value_of_name(name: &str) -> Option<MarkerValueRef<'_>>
    ensures found { IfSome result (λ value. IsNamed (value_of value) name.now) }
    ensures none { IfNone result ((value : Value) → IsNamed value name.now → ⊥) }
{
    if let Some(key) = text_key(name) {
        return Some(MarkerValueRef::MarkerEnvString(key));
    }
    if let Some(key) = version_key(name) {
        return Some(MarkerValueRef::MarkerEnvVersion(key));
    }
    if name == "extra" {
        Some(MarkerValueRef::Extra)
    } else {
        None
    }
}

fn version_key(name: &str) -> Option<MarkerValueVersion>
    ensures found { IfSome result (λ key. name.now ≡ version_key_name key) }
    ensures none { IfNone result (
        (key : MarkerValueVersion) → name.now ≡ version_key_name key → ⊥) }
{
    match name.len() {
        14 if name == "python_version" => Some(MarkerValueVersion::PythonVersion),
        19 if name == "python_full_version" => Some(MarkerValueVersion::PythonFullVersion),
        22 if name == "implementation_version" => Some(MarkerValueVersion::ImplementationVersion),
        _ => None,
    }
}

fn text_key(name: &str) -> Option<MarkerValueString>
    ensures found { IfSome result (λ key. name.now ≡ key_name key) }
    ensures none { IfNone result ((key : MarkerValueString) → name.now ≡ key_name key → ⊥) }
{
    match name.len() {
        7 => match name {
            "os_name" => Some(MarkerValueString::OsName),
            "os.name" => Some(MarkerValueString::OsNameDeprecated),
            _ => None,
        },
        12 => match name {
            "sys_platform" => Some(MarkerValueString::SysPlatform),
            "sys.platform" => Some(MarkerValueString::SysPlatformDeprecated),
            _ => None,
        },
        15 if name == "platform_system" => Some(MarkerValueString::PlatformSystem),
        16 => match name {
            "platform_machine" => Some(MarkerValueString::PlatformMachine),
            "platform_release" => Some(MarkerValueString::PlatformRelease),
            "platform_version" => Some(MarkerValueString::PlatformVersion),
            "platform.machine" => Some(MarkerValueString::PlatformMachineDeprecated),
            "platform.version" => Some(MarkerValueString::PlatformVersionDeprecated),
            _ => None,
        },
        19 if name == "implementation_name" => Some(MarkerValueString::ImplementationName),
        21 if name == "python_implementation" => {
            Some(MarkerValueString::PythonImplementationDeprecated)
        }
        30 => match name {
            "platform_python_implementation" => {
                Some(MarkerValueString::PlatformPythonImplementation)
            }
            "platform.python_implementation" => {
                Some(MarkerValueString::PlatformPythonImplementationDeprecated)
            }
            _ => None,
        },
        _ => None,
    }
}

// The operator at the front of the text. If the text begins with an alphabetic character
// (Unicode's), it is a word: `in`, or `not`, white space and `in`. Otherwise it consists of the
// characters `<`, `=`, `>`, `~` and `!`.
pub(crate) fn comparison_operator(text: &str) -> Result<(MarkerOperator, &str), Fault<'_>>
    ensures found { IfOk result (λ x. IsOperator (chars text.now) (chars x.1.now) x.0) }
    ensures none { OnErr result (HasNoOperator text.now) }
    ensures fault { IfErr result (IsWordFault text.now) }
    ensures suffix { IfOk result (λ x. IsSuffix text.now x.1.now) }
    ensures no_longer { IfOk result (λ x. length x.1.now ≤ length text.now) }
{
    if begins_word(text) {
        let (run, rest) = split_run(text, Class::WordPart);
        match run {
            "in" => Ok((MarkerOperator::In, rest)),
            "not" => match behind_not(rest) {
                Ok(rest) => Ok((MarkerOperator::NotIn, rest)),
                Err(fault) => Err(fault),
            },
            _ => Err(FaultKind::NoOperator.at(Place::at_run(run, text))),
        }
    } else {
        let (run, rest) = split_run(text, Class::Comparison);
        match symbol(run) {
            Some(operator) => Ok((operator, rest)),
            None => Err(FaultKind::NoOperator.at(Place::at_run(run, text))),
        }
    }
}

fn begins_word(text: &str) -> bool
    ensures { result ≡ begins_word (chars text.now) }
{
    match first(text) {
        Some((c, _)) => Class::Alphabetic.holds(c),
        None => false,
    }
}

// The operator with this text, if that is not a word.
fn symbol(run: &str) -> Option<MarkerOperator>
    ensures found { IfSome result (λ operator. symbol_text operator ≡ Some run.now) }
    ensures none { IfNone result (
        (operator : MarkerOperator) → symbol_text operator ≢ Some run.now) }
{
    match run.as_bytes() {
        [b'=', b'='] => Some(MarkerOperator::Equal),
        [b'!', b'='] => Some(MarkerOperator::NotEqual),
        [b'>'] => Some(MarkerOperator::GreaterThan),
        [b'>', b'='] => Some(MarkerOperator::GreaterEqual),
        [b'<'] => Some(MarkerOperator::LessThan),
        [b'<', b'='] => Some(MarkerOperator::LessEqual),
        [b'~', b'='] => Some(MarkerOperator::TildeEqual),
        _ => None,
    }
}

// The text after the white space and the letters `in` that follow a `not`.
fn behind_not(text: &str) -> Result<&str, Fault<'_>>
    ensures found { IfOk result (λ rest. IsBehindNot (chars text.now) (chars rest.now)) }
    ensures none { OnErr result ((output : List ℕ) → IsBehindNot (chars text.now) output → ⊥) }
    ensures fault { IfErr result (IsWordFault text.now) }
    ensures suffix { IfOk result (λ rest. IsSuffix text.now rest.now) }
    ensures no_longer { IfOk result (λ rest. length rest.now ≤ length text.now) }
{
    let Some((c, after)) = first(text) else {
        return Err(FaultKind::NotAtEnd.at(Place::at_end()));
    };
    if !Class::Space.holds(c) {
        return Err(FaultKind::NoSpaceAfterNot.at(Place::before(text, after)));
    }
    let rest = expect(skip_space(after), 'i')?;
    let end = expect(rest, 'n')?;
    Ok(end)
}

// The text after its first character, which must be this one.
fn expect(text: &str, awaited: char) -> Result<&str, Fault<'_>>
    ensures found { IfOk result (λ rest. chars text.now ≡ awaited ∷ chars rest.now) }
    ensures none { OnErr result ((rest : List ℕ) → chars text.now ≢ awaited ∷ rest) }
    ensures fault { IfErr result (λ fault. IsLetterOfIn awaited → IsWordFault text.now fault) }
    ensures suffix { IfOk result (λ rest. IsSuffix text.now rest.now) }
    ensures no_longer { IfOk result (λ rest. length rest.now ≤ length text.now) }
{
    let Some((c, rest)) = first(text) else {
        return Err(FaultKind::MissingAtEnd(awaited).at(Place::at_end()));
    };
    if c != awaited {
        return Err(FaultKind::Missing(awaited).at(Place::before(text, rest)));
    }
    Ok(rest)
}

/// Parses the comparison at the front of the text: a value, an operator and a value, each after any
/// white space. The fault is that of the first of them that is missing.
pub fn sides(text: &str) -> Result<(ComparisonRef<'_>, &str), Fault<'_>>
    ensures found { IfOk result (λ x. Sides (chars text.now) (chars x.1.now)
        (value_of x.0.left) x.0.operator (value_of x.0.right)) }
    ensures none { OnErr result (HasNoSides (chars text.now)) }
    ensures fault { IfErr result (IsWordFault text.now) }
    ensures suffix { IfOk result (λ x. IsSuffix text.now x.1.now) }
    ensures shorter { IfOk result (λ x. length x.1.now < length text.now) }
{
    let (left, rest) = value(skip_space(text))?;
    let (operator, rest) = comparison_operator(skip_space(rest))?;
    let (right, rest) = value(skip_space(rest))?;
    let comparison = ComparisonRef {
        left,
        operator,
        right,
    };
    Ok((comparison, rest))
}

/// Returns the keyword that the text begins with, and the rest. A keyword is the whole run of
/// characters other than white space, so `and(` is not one.
pub fn keyword(text: &str) -> (Keyword, &str)
    ensures which { IsKeyword result.0 (chars text.now) (chars result.1.now) }
    ensures suffix { IsSuffix text.now result.1.now }
    ensures shorter { result.0 ≢ Keyword.Other → length result.1.now < length text.now }
{
    // A text may close many parentheses in one run, which is not visited once for each of them.
    if strip(text, ')').is_some() {
        return (Keyword::Other, text);
    }
    let (run, rest) = split_run(text, Class::NotSpace);
    match run {
        "and" => (Keyword::And, rest),
        "or" => (Keyword::Or, rest),
        _ => (Keyword::Other, rest),
    }
}
