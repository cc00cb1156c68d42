//! The URL and the marker of a requirement, in its text.

use pep508_text::{skip_space, strip};
use requirement_words::{UrlPlace, split_url};

// Whether the character may be in a name or in extras, or between them.
fn is_part_of_name(c: char) -> bool {
    c.is_ascii_alphanumeric() || c.is_whitespace() || matches!(c, '-' | '_' | '.' | '[' | ']' | ',')
}

/// Returns the URL of a requirement that has one or is one, and the text after it.
pub fn url_of(text: &str) -> (&str, &str) {
    match text.split_once('@') {
        Some((front, behind)) if front.chars().all(|c| is_part_of_name(c)) => {
            split_url(skip_space(behind), UrlPlace::BehindName)
        }
        _ => split_url(skip_space(text), UrlPlace::Alone),
    }
}

// The text after the `;` of a requirement, without white space at the front.
pub(crate) fn marker_of(text: &str, has_url: bool) -> &str {
    if has_url {
        let rest = skip_space(url_of(text).1);
        return match strip(rest, ';') {
            Some(marker) => skip_space(marker),
            None => "",
        };
    }
    match text.split_once(';') {
        Some((_, marker)) => skip_space(marker),
        None => "",
    }
}

/// Returns whether a requirement that is not parsed may have a URL or be one: a character before
/// the first `;` is one of URLs and paths, and not of specifiers.
pub fn may_have_url(text: &str) -> bool {
    let front = text.split_once(';').map_or(text, |halves| halves.0);
    front.chars().any(|c| matches!(c, '@' | '/' | '\\' | ':'))
}

/// Returns the byte at which the marker of a requirement begins, if it has one. `has_url` says that
/// the requirement has a URL or is one.
pub fn marker_start(text: &str, has_url: bool) -> Option<usize> {
    let marker = marker_of(text, has_url);
    if marker.is_empty() {
        return None;
    }
    Some(text.len().saturating_sub(marker.len()))
}
