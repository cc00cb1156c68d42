ghost use Rattle.std.specs.Prelude.{◌≡◌, ◌++◌, ◌∷◌, [], ◌<◌, ◌≤◌, ◌≢◌, ℕ, List, length, IfNone, IfSome, MatchOption, encode_utf8, encode_utf8_all, not};
ghost use Rattle.std.specs.Str.{chars};
ghost use Rattle.pep508_text.specs.Class.{holds};
ghost use Rattle.pep508_text.specs.Run.{run_of, after_run, after_space};
ghost use Rattle.pep508_text.specs.Suffix.{IsSuffix};
ghost use Rattle.pep508_text.specs.declared.classes.Class.TheVariants.{NotQuote, SpecifierPart};

use crate::classes::Class;

/// Returns the first character of the text and the rest, or `None` for the empty text.
pub fn first(text: &str) -> Option<(char, &str)>
    ensures bytes { MatchOption result (text.now ≡ [])
        (λ x. text.now ≡ encode_utf8 x.0 ++ x.1.now) }
    ensures characters { MatchOption result (chars text.now ≡ [])
        (λ x. chars text.now ≡ x.0 ∷ chars x.1.now) }
    ensures shorter { IfSome result (λ x. length x.1.now < length text.now) }
    ensures suffix { IfSome result (λ x. IsSuffix text.now x.1.now) }
{
    let mut characters = text.chars();
    let c = characters.next()?;
    Some((c, characters.as_str()))
}

/// Returns the text before its last character, and that character, or `None` for the empty text.
pub fn last(text: &str) -> Option<(&str, char)>
    ensures bytes { MatchOption result (text.now ≡ [])
        (λ x. text.now ≡ x.0.now ++ encode_utf8 x.1) }
    ensures characters { MatchOption result (chars text.now ≡ [])
        (λ x. chars text.now ≡ chars x.0.now ++ x.1 ∷ []) }
    ensures shorter { IfSome result (λ x. length x.0.now < length text.now) }
{
    let mut characters = text.chars();
    let c = characters.next_back()?;
    Some((characters.as_str(), c))
}

/// Returns the text after the character if it begins with it, otherwise `None`.
pub fn strip(text: &str, c: char) -> Option<&str>
    ensures found { IfSome result (λ rest. chars text.now ≡ c ∷ chars rest.now) }
    ensures bytes { IfSome result (λ rest. text.now ≡ encode_utf8 c ++ rest.now) }
    ensures none { IfNone result ((rest : List ℕ) → chars text.now ≢ c ∷ rest) }
    ensures shorter { IfSome result (λ rest. length rest.now < length text.now) }
    ensures suffix { IfSome result (λ rest. IsSuffix text.now rest.now) }
{
    match first(text) {
        Some((found, rest)) if found == c => Some(rest),
        _ => None,
    }
}

/// Returns the longest run of the class at the front of the text, and the rest. Either may be
/// empty.
pub fn split_run(text: &str, class: Class) -> (&str, &str)
    ensures joined { text.now ≡ result.0.now ++ result.1.now }
    ensures run { chars result.0.now ≡ run_of class (chars text.now) }
    ensures rest { chars result.1.now ≡ after_run class (chars text.now) }

    // The bytes of the run, for a word that is recognized by them.
    ensures bytes { result.0.now ≡ encode_utf8_all (run_of class (chars text.now)) }

    ensures no_longer { length result.1.now ≤ length text.now }
    ensures suffix { IsSuffix text.now result.1.now }
{
    // Most runs are ASCII up to the character after them, and need no decoding.
    let bytes = text.as_bytes();
    let mut len = 0;
    'bytes: while len < bytes.len() {
        let byte = bytes[len];
        if !byte.is_ascii() {
            return split_decoded_run(text, class);
        }
        if !class.holds(byte as char) {
            break;
        }
        len += 1;
    }
    text.split_at(len)
}

// The run and the rest, by characters that are decoded one after another. It is a call of its own,
// so that its callers hold only the loop over bytes, made for their class.
#[inline(never)]
fn split_decoded_run(text: &str, class: Class) -> (&str, &str)
    ensures joined { text.now ≡ result.0.now ++ result.1.now }
    ensures run { chars result.0.now ≡ run_of class (chars text.now) }
    ensures rest { chars result.1.now ≡ after_run class (chars text.now) }
    ensures bytes { result.0.now ≡ encode_utf8_all (run_of class (chars text.now)) }
    ensures no_longer { length result.1.now ≤ length text.now }
    ensures suffix { IsSuffix text.now result.1.now }
{
    let mut rest = text;
    while let Some((c, after)) = first(rest) {
        if !class.holds(c) {
            break;
        }
        rest = after;
    }
    text.split_at(text.len() - rest.len())
}

/// Returns the text before the first such quote, and the rest from there on. It is the run of
/// [`Class::NotQuote`], and the whole text if there is no such quote.
pub fn split_before_quote(text: &str, quote: char) -> (&str, &str)
    ensures joined { text.now ≡ result.0.now ++ result.1.now }
    ensures run { chars result.0.now ≡ run_of (NotQuote quote) (chars text.now) }
    ensures rest { chars result.1.now ≡ after_run (NotQuote quote) (chars text.now) }
    ensures bytes { result.0.now ≡ encode_utf8_all (run_of (NotQuote quote) (chars text.now)) }
    ensures no_longer { length result.1.now ≤ length text.now }
    ensures suffix { IsSuffix text.now result.1.now }
{
    // As in `split_run`, without a choice of the class at each byte.
    let bytes = text.as_bytes();
    let mut len = 0;
    'bytes: while len < bytes.len() {
        let byte = bytes[len];
        if !byte.is_ascii() {
            return split_decoded_run(text, Class::NotQuote(quote));
        }
        if byte as char == quote {
            break;
        }
        len += 1;
    }
    text.split_at(len)
}

fn ends_specifier(c: char, end: char) -> bool
    ensures { result ≡ not (holds (SpecifierPart end) c) }
{
    c == ',' || c == end
}

/// Returns the text before the first comma or `end`, and the rest from there on. It is the run of
/// [`Class::SpecifierPart`], and the whole text if it has neither.
pub fn split_before_comma(text: &str, end: char) -> (&str, &str)
    ensures joined { text.now ≡ result.0.now ++ result.1.now }
    ensures run { chars result.0.now ≡ run_of (SpecifierPart end) (chars text.now) }
    ensures rest { chars result.1.now ≡ after_run (SpecifierPart end) (chars text.now) }
    ensures bytes { result.0.now ≡ encode_utf8_all (run_of (SpecifierPart end) (chars text.now)) }
    ensures no_longer { length result.1.now ≤ length text.now }
    ensures suffix { IsSuffix text.now result.1.now }
{
    // As in `split_run`, without a choice of the class at each byte.
    let bytes = text.as_bytes();
    let mut len = 0;
    'bytes: while len < bytes.len() {
        let byte = bytes[len];
        if !byte.is_ascii() {
            return split_decoded_run(text, Class::SpecifierPart(end));
        }
        if ends_specifier(byte as char, end) {
            break;
        }
        len += 1;
    }
    text.split_at(len)
}

/// Returns the text without the white space at its front.
pub fn skip_space(text: &str) -> &str
    ensures rest { chars result.now ≡ after_space (chars text.now) }
    ensures no_longer { length result.now ≤ length text.now }
    ensures suffix { IsSuffix text.now result.now }
{
    split_run(text, Class::Space).1
}
