//! Where the URL of a requirement ends.

ghost use Rattle.std.specs.Prelude.{◌≡◌, ◌<◌, ◌++◌, encode_utf8_all};
ghost use Rattle.std.specs.Str.{chars};
ghost use Rattle.pep508_text.specs.Run.{after_space};
ghost use Rattle.pep508_text.specs.Suffix.{IsSuffix};
ghost use Rattle.requirement_words.specs.Url.{after_url, closes, is_url_stop, may_end_before, open_behind, url_of};

use pep508_text::{Class, first, is_line_break, skip_space, split_run};

/// Where a URL is in a requirement.
#[derive(Clone, Copy, Debug, PartialEq, Eq)]
pub enum UrlPlace {
    /// After a name and `@`.
    BehindName,
    /// Instead of a name. White space, `;` and `#` do not end such a URL inside of brackets.
    Alone,
}

impl UrlPlace {
    // How many brackets are open after the character, if `brackets` were open before it.
    fn open_behind(self, c: char, brackets: usize) -> usize
        requires { brackets < 18446744073709551615 }
        ensures { result ≡ open_behind self c brackets }
    {
        match (self, c) {
            (UrlPlace::Alone, '[') => brackets + 1,
            (UrlPlace::Alone, ']') => brackets.saturating_sub(1),
            _ => brackets,
        }
    }
}

// Whether a URL that is followed by white space ends there.
fn is_url_stop(text: &str) -> bool
    ensures { result ≡ is_url_stop (chars text.now) }
{
    match first(text) {
        None => true,
        Some((c, _)) => c == ';' || c == '#',
    }
}

// Whether a URL with `brackets` open brackets may end before this character, which is white space.
fn may_end_before(brackets: usize, c: char) -> bool
    ensures { result ≡ may_end_before brackets c }
{
    brackets == 0 && c.is_whitespace()
}

// Whether a URL with `brackets` open brackets ends after this character.
fn closes(brackets: usize, c: char, after: &str) -> bool
    ensures { result ≡ closes brackets c (chars after.now) }
{
    if brackets != 0 || !(c == ';' || c == '#') {
        return false;
    }
    match first(after) {
        None => false,
        Some((next, _)) => next.is_whitespace(),
    }
}

/// Returns the URL at the front of the text, and the rest. Either may be empty.
///
/// It ends at a line break; before white space that is followed by the end, `;` or `#`; after a `;`
/// or `#` that is followed by white space; or else at the end. Each run of white space is scanned
/// once.
pub fn split_url(text: &str, place: UrlPlace) -> (&str, &str)
    ensures joined { text.now ≡ result.0.now ++ result.1.now }
    ensures bytes { result.0.now ≡ encode_utf8_all (url_of place 0 (chars text.now)) }
    ensures url { chars result.0.now ≡ url_of place 0 (chars text.now) }
    ensures rest { chars result.1.now ≡ after_url place 0 (chars text.now) }
    ensures suffix { IsSuffix text.now result.1.now }
{
    let mut rest = text;
    let mut brackets = 0;
    while let Some((c, after)) = first(rest) {
        if is_line_break(c) {
            break;
        }
        if may_end_before(brackets, c) {
            if is_url_stop(skip_space(after)) {
                break;
            }
            rest = split_run(after, Class::LineSpace).1;
            continue;
        }
        let ends = closes(brackets, c, after);
        brackets = place.open_behind(c, brackets);
        rest = after;
        if ends {
            break;
        }
    }
    text.split_at(text.len() - rest.len())
}
