//! The headers of a metadata file.

ghost use Rattle.std.specs.Prelude.{◌≡◌, ◌≢◌, ◌<◌, [], length, IfOk};
ghost use Rattle.requirement_lines.specs.Pieces.{characters_of};
ghost use Rattle.requirement_lines.specs.Reports.{text_of};
ghost use Rattle.pep508_text.specs.Suffix.{IsSuffix};
ghost use Rattle.requirement_lines.specs.Ends as ends;
ghost use Rattle.metadata_files.specs.Fields.{IsKind};
ghost use Rattle.metadata_files.specs.Lines.{ends_folded, HasFoldedLine};
ghost use Rattle.metadata_files.specs.Headers as spec;

use crate::field::{Field, kind_of};
use crate::pieces::{first_of, front_of, text_in, trim};
use pep508_text::first;
use requirement_lines::Piece;
use std::alloc::{AllocError, Global};

/// The headers of a metadata file.
#[derive(Drop)]
pub struct Headers<'a> {
    /// The fields, in order.
    pub fields: Vec<Field<'a>>,
    /// The line that ended the headers, if it is not empty: neither a header nor the continuation
    /// of one.
    pub stray: Option<Piece<'a>>,
}

// Whether the text begins with this character.
fn begins_with(text: Piece<'_>, c: char) -> bool
    ensures { result ≡ ends.begins_with c (characters_of text.entry) }
{
    match first_of(text) {
        None => false,
        Some((found, _)) => found == c,
    }
}

// Whether the character ends a header, which the rest of the file follows.
fn ends_folded(c: char, rest: Piece<'_>) -> bool
    ensures { result ≡ ends_folded c (characters_of rest.entry) }
{
    let ends_line = c == '\n' || c == '\r' && !begins_with(rest, '\n');
    ends_line && !(begins_with(rest, ' ') || begins_with(rest, '\t'))
}

// The first folded line of a text, with its line breaks, and the text after it.
fn split_folded(text: &str) -> (Piece<'_>, &str)
    ensures lines { text.now ≢ [] → HasFoldedLine text.now (characters_of result.0) result.1.now }
    ensures shorter { text.now ≢ [] → length result.1.now < length text.now }
    ensures suffix { IsSuffix text.now result.1.now }
{
    let whole = Piece::whole(text);
    let mut rest = whole;
    while let Some((c, after)) = first_of(rest) {
        if ends_folded(c, after) {
            return (front_of(whole, after), after.text);
        }
        rest = after;
    }
    (whole, "")
}

// Whether the line is empty.
fn is_empty(line: Piece<'_>) -> bool
    ensures { result ≡ spec.is_empty (characters_of line.entry) }
{
    begins_with(line, '\n') || begins_with(line, '\r')
}

fn is_name_character(c: char) -> bool
    ensures { result ≡ spec.is_name_character c }
{
    '!' <= c && c <= '~' && c != ':'
}

// The name of a header, and what follows its `:`.
fn split_name<'a>(line: Piece<'a>) -> Option<(Piece<'a>, Piece<'a>)>
    ensures { spec.SplitsName (characters_of line.entry) result }
{
    let mut rest = line;
    while let Some((c, after)) = first_of(rest) {
        if c == ':' {
            return Some((front_of(line, rest), after));
        }
        if !is_name_character(c) {
            return None;
        }
        rest = after;
    }
    None
}

// The field of a header.
fn field_of<'a>(name: Piece<'a>, text: Piece<'a>) -> Field<'a>
    ensures kind { IsKind (text_of (characters_of name.entry)) result.kind }
    ensures name { result.name ≡ name.entry }
    ensures value { characters_of result.value ≡ spec.trimmed (characters_of text.entry) }
{
    Field {
        kind: kind_of(text_in(name)),
        name,
        value: trim(text),
    }
}

/// Returns the headers of a metadata file. They end at an empty line, or at one that neither is a
/// header nor begins with a space or a tab. Names and values are parts of the file's text.
pub fn read_headers<'a>(alloc: Global, text: &'a str) -> Result<Headers<'a>, AllocError>
    ensures { IfOk result (spec.HeadersIn text.now) }
{
    let mut fields = Vec::new(alloc);
    let mut rest = text;
    while !rest.is_empty() {
        let (line, after) = split_folded(rest);
        if is_empty(line) {
            return Ok(Headers {
                fields,
                stray: None,
            });
        }
        let Some((name, value)) = split_name(line) else {
            return Ok(Headers {
                fields,
                stray: Some(line),
            });
        };
        fields.push(field_of(name, value))?;
        rest = after;
    }
    Ok(Headers {
        fields,
        stray: None,
    })
}
