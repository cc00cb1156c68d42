//! Errors of requirements and markers.

ghost use Rattle.pep508_errors.specs.Error.{error_text, source_text};

use crate::pep508_url::Pep508Url;
use crate::underline::write_underline;
use std::error::Error;
use std::fmt;

/// What is wrong with a text.
#[derive(Debug, Drop)]
pub enum Pep508ErrorSource<T: Pep508Url> {
    /// The text is an invalid requirement or marker, as the message says.
    String(String),
    /// A URL in the text was rejected.
    UrlError(T::Err),
    /// The text is a path or a URL without a name, which a requirement must have.
    UnsupportedRequirement(String),
}

impl<T: Pep508Url> fmt::Display for Pep508ErrorSource<T> {
    ghost output = { λ source. source_text T.Err.output source };

    fn fmt<W: fmt::Write>(&self, f: &mut fmt::Formatter<W>) -> fmt::Result {
        match self {
            Pep508ErrorSource::String(message) => f.write_str(message.as_str()),
            Pep508ErrorSource::UrlError(fault) => fault.fmt(f),
            Pep508ErrorSource::UnsupportedRequirement(message) => f.write_str(message.as_str()),
        }
    }
}

/// What is wrong with a text, and where.
///
/// A span at the end of the text starts at its length and is 1 long. Any other begins and ends
/// between two characters.
///
/// It prints as three lines: what is wrong, the text, and a caret under each column of the span, or
/// one at the end of the text. An invalid span prints too: a start past the end as the end, and a
/// place within a character as the place before it.
#[derive(Debug, Drop)]
pub struct Pep508Error<T: Pep508Url> {
    /// What is wrong.
    pub message: Pep508ErrorSource<T>,
    /// Where the span begins, in bytes from the start of the text.
    pub start: usize,
    /// How many bytes the span has.
    pub len: usize,
    /// The text that was read.
    pub input: String,
}

impl<T: Pep508Url> fmt::Display for Pep508Error<T> {
    ghost output = { λ error. error_text T.Err.output error };

    fn fmt<W: fmt::Write>(&self, f: &mut fmt::Formatter<W>) -> fmt::Result {
        let (message, input) = (&self.message, self.input.as_str());
        write!(f, "{message}\n{input}\n")?;
        write_underline(input, self.start, self.len, f)
    }
}

impl<T: Pep508Url> Error for Pep508Error<T> {}
