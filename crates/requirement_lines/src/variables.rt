//! Variables of a line.

ghost use Rattle.std.specs.Prelude.{◌≡◌, option_map, IfOk};
ghost use Rattle.requirement_lines.specs.Pieces.{characters_of, line_of};
ghost use Rattle.requirement_lines.specs.Variables as spec;
ghost use Rattle.requirement_lines.specs.Variables.{FillsIn, IsValueAfter, with_values};
ghost use Rattle.requirement_lines.specs.Rest.{rest_of};

use crate::pieces::Piece;
use crate::places::{Place, Source};
use crate::rest::{Rest, next_character};
use std::alloc::{AllocError, Global};
use std::collections::BTreeMap;

fn is_name_character(c: char) -> bool
    ensures { result ≡ spec.is_name_character c }
{
    c.is_ascii_uppercase() || c.is_ascii_digit() || c == '_'
}

// The name in the `{NAME}` that the rest of the line begins with.
fn braced_name<'a>(
    alloc: Global,
    line: &[Piece<'a>],
    rest: Rest<'a>,
) -> Result<Option<String>, AllocError>
    ensures { IfOk result (spec.IsBracedName (rest_of line.now rest.entry)) }
{
    let Some(('{', _, mut inside)) = next_character(line, rest) else {
        return Ok(None);
    };
    let mut name = String::new(alloc);
    while let Some((c, _, after)) = next_character(line, inside) {
        if c == '}' {
            return Ok(if name.is_empty() { None } else { Some(name) });
        }
        if !is_name_character(c) {
            return Ok(None);
        }
        name.push(c)?;
        inside = after;
    }
    Ok(None)
}

// The value of the variable of this name, unless it is unset or empty.
fn value_of<'a>(variables: &'a BTreeMap<String, String>, name: &str) -> Option<&'a str>
    ensures { option_map (λ value. value.now) result ≡ spec.value_of variables.now name.now }
{
    let value = variables.get(name)?.as_str();
    if value.is_empty() {
        return None;
    }
    Some(value)
}

// The value of the variable that begins with this character, which is followed by the rest of the
// line.
fn value_after<'a>(
    alloc: Global,
    c: char,
    after: Piece<'a>,
    others: &[Piece<'a>],
    variables: &'a BTreeMap<String, String>,
) -> Result<Option<&'a str>, AllocError>
    ensures { IfOk result (IsValueAfter variables.now c after.entry others.now) }
{
    if c != '$' {
        return Ok(None);
    }
    let rest = Rest {
        piece: after,
        next: 0,
    };
    match braced_name(alloc, others, rest)? {
        Some(name) => Ok(value_of(variables, name.as_str())),
        None => Ok(None),
    }
}

// The value of the variable at a place.
fn value_piece(text: &str, place: Place) -> Piece<'_>
    ensures { characters_of result ≡ spec.value_characters place text.now }
{
    Piece {
        text,
        place: Place {
            to_end: place.to_end,
            source: Source::Variable,
        },
    }
}

// Appends the piece with the values of its variables. `inside` says that the piece begins within a
// variable that was already replaced; the result says the same of what follows.
fn replace_piece<'a>(
    alloc: Global,
    kept: &mut Vec<Piece<'a>>,
    piece: Piece<'a>,
    others: &[Piece<'a>],
    inside: bool,
    variables: &'a BTreeMap<String, String>,
) -> Result<bool, AllocError>
    ensures { IfOk result (FillsIn variables.now inside piece.entry others.now kept.old kept.new) }
{
    let mut start = piece;
    let mut rest = piece;
    let mut within = inside;
    while let Some((c, after)) = rest.first() {
        if within {
            within = c != '}';
            start = after;
        } else if let Some(value) = value_after(alloc, c, after, others, variables)? {
            kept.push(start.front(rest))?;
            kept.push(value_piece(value, rest.place))?;
            within = true;
            start = after;
        }
        rest = after;
    }
    kept.push(start.front(rest))?;
    Ok(within)
}

/// Returns the line with the values of its variables, as pip replaces them. A variable is
/// `${NAME}`, where the name is one or more of `A` to `Z`, `0` to `9` and `_`. One that the table
/// does not have, or has with the empty text, is left as it is. A value is not expanded again, and
/// has the place of its variable.
///
/// Call this before the line's options are split off: a value may contain options.
pub fn replace_variables<'a>(
    alloc: Global,
    line: &[Piece<'a>],
    variables: &'a BTreeMap<String, String>,
) -> Result<Vec<Piece<'a>>, AllocError>
    ensures { IfOk result (λ r. line_of r.items ≡ with_values variables.now (line_of line.now)) }
{
    let mut kept = Vec::new(alloc);
    let mut inside = false;
    for index in 0..line.len() {
        let piece = line[index];
        inside = replace_piece(
            alloc,
            &mut kept,
            piece,
            &line[index + 1..],
            inside,
            variables,
        )?;
    }
    Ok(kept)
}
