//! A place in a text.

ghost use Rattle.std.specs.Prelude.{◌≡◌, drop, string_bytes};
ghost use Rattle.std.specs.Str.{IsCharBoundary};
ghost use Rattle.pep440_version.specs.Message.{found_in, place_text};

use std::fmt;

// A text, and the start of a character in it.
#[derive(Debug, Drop, PartialEq, Eq)]
pub(crate) struct Place {
    pub(crate) text: String,
    pub(crate) offset: usize,
    pub(crate) ghost in_text: { IsCharBoundary (string_bytes text) offset },
}

impl Place {
    // The character there, or `None` if only white space follows.
    fn character(&self) -> Option<char>
        ensures { result ≡ found_in (drop self.now.offset (string_bytes self.now.text)) }
    {
        let rest = &self.text.as_str()[self.offset..];
        if rest.trim().is_empty() {
            return None;
        }
        rest.chars().next()
    }
}

impl fmt::Display for Place {
    ghost output = { λ place. place_text (string_bytes place.text) place.offset };

    fn fmt<W: fmt::Write>(&self, f: &mut fmt::Formatter<W>) -> fmt::Result {
        let (text, offset) = (self.text.as_str(), self.offset);
        match self.character() {
            Some(found) => write!(f, "{found:?} at byte {offset} of {text:?}"),
            None => write!(f, "the end of {text:?}"),
        }
    }
}
