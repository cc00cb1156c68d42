//! The form of a word of options, by its first characters.

ghost use Rattle.std.specs.Prelude.{IfOk};
ghost use Rattle.requirement_lines.specs.Pieces.{line_of};
ghost use Rattle.requirement_lines.specs.Rest.{rest_of};
ghost use Rattle.requirement_options.specs.Forms as spec;
ghost use Rattle.requirement_options.specs.Forms.{IsForm, dash_form};

use requirement_lines::{Piece, Rest, line_left, next_character, whole_line};
use std::alloc::{AllocError, Global};

// The form of a word of options.
#[derive(Drop)]
pub(crate) enum Form<'a> {
    // Not an option.
    Plain,
    // The end of the options: `--`.
    Ending,
    // `-` and a letter, and the text after it in the word.
    Short(char, Option<Vec<Piece<'a>>>),
    // A name, with its `--`, and the text after a `=`.
    Long(String, Option<Vec<Piece<'a>>>),
}

// The form of a word that begins with `--`, from its start.
fn long_form<'a>(alloc: Global, word: &[Piece<'a>], start: Rest<'a>) -> Result<Form<'a>, AllocError>
    ensures { IfOk result (spec.IsForm (spec.long_form (rest_of word.now start.entry))) }
{
    let mut name = String::new(alloc);
    let mut rest = start;
    while let Some((c, _, after)) = next_character(word, rest) {
        if c == '=' {
            let argument = line_left(alloc, word, after)?;
            return Ok(Form::Long(name, Some(argument)));
        }
        name.push(c)?;
        rest = after;
    }
    Ok(Form::Long(name, None))
}

// The rest of a word, if it has a character.
fn argument_left<'a>(
    alloc: Global,
    word: &[Piece<'a>],
    rest: Rest<'a>,
) -> Result<Option<Vec<Piece<'a>>>, AllocError>
    ensures { IfOk result (spec.IsArgument (spec.not_empty (rest_of word.now rest.entry))) }
{
    match next_character(word, rest) {
        None => Ok(None),
        Some(_) => Ok(Some(line_left(alloc, word, rest)?)),
    }
}

// The form of a word that begins with `-`, before this rest.
fn dash_form<'a>(alloc: Global, word: &[Piece<'a>], rest: Rest<'a>) -> Result<Form<'a>, AllocError>
    ensures { IfOk result
        (IsForm (dash_form (line_of word.now) (rest_of word.now rest.entry))) }
{
    match next_character(word, rest) {
        None => Ok(Form::Plain),
        Some(('-', _, after)) => match next_character(word, after) {
            None => Ok(Form::Ending),
            Some(_) => long_form(alloc, word, whole_line()),
        },
        Some((c, _, after)) => Ok(Form::Short(c, argument_left(alloc, word, after)?)),
    }
}

// The form of a word.
pub(crate) fn form_of<'a>(alloc: Global, word: &[Piece<'a>]) -> Result<Form<'a>, AllocError>
    ensures { IfOk result (spec.IsForm (spec.form_of (line_of word.now))) }
{
    match next_character(word, whole_line()) {
        Some(('-', _, after)) => dash_form(alloc, word, after),
        _ => Ok(Form::Plain),
    }
}
