//! How a text is split into words: what each character does, depending on the quotes around it.

ghost use Rattle.std.specs.Prelude.{◌≡◌};
ghost use Rattle.requirement_lines.specs.Words as spec;

use crate::places::Place;

// The quotes around a character.
#[derive(Clone, Copy)]
pub(crate) enum Quoting {
    // None: the character is between words.
    Between,
    // None: the character is in a word.
    Bare,
    // A backslash before the character, outside of quotes.
    Escaped,
    // Single quotes.
    Single,
    // Double quotes.
    Double,
    // A backslash before the character, in double quotes, that escapes it.
    DoubleEscaped,
}

// What a character does to the words.
#[derive(Clone, Copy)]
pub(crate) enum Step {
    // Nothing: it is between them.
    Pass,
    // A word begins with it.
    Begin,
    // It is part of the current word.
    GoOn,
    // A word ends before it.
    End,
}

fn parts_words(c: char) -> bool
    ensures { result ≡ spec.parts_words c }
{
    matches!(c, ' ' | '\t' | '\n' | '\r')
}

fn after_bare(c: char) -> Quoting
    ensures { result ≡ spec.after_bare c }
{
    if parts_words(c) {
        Quoting::Between
    } else if c == '\'' {
        Quoting::Single
    } else if c == '"' {
        Quoting::Double
    } else if c == '\\' {
        Quoting::Escaped
    } else {
        Quoting::Bare
    }
}

fn is_bare(c: char) -> bool
    ensures { result ≡ spec.is_bare c }
{
    !(parts_words(c) || c == '\'' || c == '"' || c == '\\')
}

// The quotes around the next character.
pub(crate) fn next_quoting(quoting: Quoting, c: char, taken: bool) -> Quoting
    ensures { result ≡ spec.next_quoting quoting c taken }
{
    match quoting {
        Quoting::Between => after_bare(c),
        Quoting::Bare => after_bare(c),
        Quoting::Escaped => Quoting::Bare,
        Quoting::Single => {
            if c == '\'' {
                Quoting::Bare
            } else {
                Quoting::Single
            }
        }
        Quoting::Double => {
            if c == '"' {
                Quoting::Bare
            } else if c == '\\' && taken {
                Quoting::DoubleEscaped
            } else {
                Quoting::Double
            }
        }
        Quoting::DoubleEscaped => Quoting::Double,
    }
}

// What a character does to the words.
pub(crate) fn step_at(quoting: Quoting, c: char) -> Step
    ensures { result ≡ spec.step_at quoting c }
{
    match quoting {
        Quoting::Between if parts_words(c) => Step::Pass,
        Quoting::Between => Step::Begin,
        Quoting::Bare if parts_words(c) => Step::End,
        _ => Step::GoOn,
    }
}

// Whether a character is part of the text of a word.
pub(crate) fn is_kept(quoting: Quoting, c: char, taken: bool) -> bool
    ensures { result ≡ spec.is_kept quoting c taken }
{
    match quoting {
        Quoting::Between => is_bare(c),
        Quoting::Bare => is_bare(c),
        Quoting::Escaped => true,
        Quoting::Single => c != '\'',
        Quoting::Double => !(c == '"' || c == '\\' && taken),
        Quoting::DoubleEscaped => true,
    }
}

// Where the quotes or the backslash around the next character are.
pub(crate) fn opened_at(quoting: Quoting, place: Place, opened: Place) -> Place
    ensures { result ≡ spec.opened_at quoting place opened }
{
    match quoting {
        Quoting::Between => place,
        Quoting::Bare => place,
        _ => opened,
    }
}
