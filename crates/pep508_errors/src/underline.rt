//! The line of carets under the part of a text that is wrong.

ghost use Rattle.std.specs.Prelude.{◌≡◌, ◌≤◌, Some, replicate};
ghost use Rattle.std.specs.Str.{chars};
ghost use Rattle.std.specs.Fmt.{DisplaysOnOk};
ghost use Rattle.pep508_errors.specs.Underline as spec;

use pep508_text::first;
use std::fmt;
use unicode_width::UnicodeWidthChar;

// How many columns a character takes: its width in a terminal, 0 if it has none.
fn column_width(c: char) -> usize
    ensures value { result ≡ spec.column_width c }
    ensures bound { result ≤ 3 }
{
    c.width().unwrap_or(0)
}

/// Returns how many columns the characters take that end within the first `place` bytes of the
/// text. Each takes its width in a terminal; a character without a width, such as a tab, takes
/// none.
pub fn columns_before(text: &str, place: usize) -> usize
    ensures { result ≡ spec.columns_before text.now place }
{
    let (mut rest, mut left, mut columns) = (text, place, 0);
    while let Some((c, after)) = first(rest) {
        let size = c.len_utf8();
        if size > left {
            break;
        }
        left -= size;
        columns += column_width(c);
        rest = after;
    }
    columns
}

// How many carets show the span.
fn carets(text: &str, start: usize, len: usize) -> usize
    ensures { result ≡ spec.carets text.now start len }
{
    if start >= text.len() {
        return 1;
    }
    columns_before(text, start.saturating_add(len)).saturating_sub(columns_before(text, start))
}

fn write_spaces<W: fmt::Write>(count: usize, f: &mut fmt::Formatter<W>) -> fmt::Result
    ensures { DisplaysOnOk W.write_str_gives f.old result (Some (replicate count 32)) f.new }
{
    for _i in 0..count {
        f.write_str(" ")?;
    }
    Ok(())
}

fn write_carets<W: fmt::Write>(count: usize, f: &mut fmt::Formatter<W>) -> fmt::Result
    ensures { DisplaysOnOk W.write_str_gives f.old result (Some (replicate count 94)) f.new }
{
    for _i in 0..count {
        f.write_str("^")?;
    }
    Ok(())
}

// Writes the line under the text: spaces up to the span, and a caret for each of its columns.
pub(crate) fn write_underline<W: fmt::Write>(
    text: &str,
    start: usize,
    len: usize,
    f: &mut fmt::Formatter<W>,
) -> fmt::Result
    ensures { DisplaysOnOk W.write_str_gives f.old result
        (Some (spec.underline text.now start len)) f.new }
{
    write_spaces(columns_before(text, start), f)?;
    write_carets(carets(text, start, len), f)
}
