//! Faults in requirements, and their places.

ghost use Rattle.std.specs.Prelude.{◌≡◌};
ghost use Rattle.requirement_words.specs.Message.{is_unsupported, message_of};

use pep440_specifier::VersionSpecifierError;
use pep508_text::Place;
use std::fmt;
use std::fmt::Display;

/// What is wrong with a requirement.
#[derive(Debug, Drop, PartialEq, Eq)]
pub enum FaultKind {
    /// The text is empty or only white space.
    Blank,
    /// There is this character instead of a name.
    NoName,
    /// The name ends with this character.
    NameEnd,
    /// This character follows the name and its extras.
    NoBody,
    /// There is a comma instead of the first extra or the bracket.
    LeadingComma,
    /// There is this character instead of a comma or the bracket.
    NoSeparator,
    /// There is this character instead of the name of an extra.
    NoExtra,
    /// This character directly follows the name of an extra.
    InvalidExtra,
    /// The name of an extra ends with this character.
    ExtraEnd,
    /// This bracket is never closed.
    UnclosedBracket,
    /// This parenthesis is never closed.
    UnclosedParenthesis,
    /// There is an invalid version specifier.
    Specifier(VersionSpecifierError),
    /// There is no URL.
    NoUrl,
    /// The URL ends with this character and no marker follows, but the text goes on.
    AmbiguousEnd,
    /// There is this character instead of the end or a marker.
    Trailing,
    /// There is a path or URL instead of a name, and no name begins with its first character.
    PathWithoutName,
    /// There is a path or URL instead of a name.
    UrlWithoutName,
    /// The name is that of an archive, and neither a version nor a URL follows.
    ArchiveWithoutName,
}

impl FaultKind {
    // The fault at a place of the text.
    pub(crate) fn at(self, place: Place<'_>) -> Fault<'_>
        ensures kind { result.kind ≡ self }
        ensures place { result.place ≡ place.entry }
    {
        Fault { kind: self, place }
    }

    /// Returns whether the fault is a path, a URL or an archive without a name, which a requirement
    /// must have.
    pub fn is_unsupported(&self) -> bool
        ensures { result ≡ is_unsupported self.now }
    {
        matches!(
            self,
            FaultKind::PathWithoutName | FaultKind::UrlWithoutName | FaultKind::ArchiveWithoutName
        )
    }
}

/// What is wrong with a requirement, and where. It prints as its message.
#[derive(Debug, Drop, PartialEq, Eq)]
pub struct Fault<'a> {
    /// What is wrong.
    pub kind: FaultKind,
    /// Where it is wrong.
    pub place: Place<'a>,
}

impl Display for Fault<'_> {
    ghost output = { λ fault. message_of fault.kind fault.place.piece.now };

    fn fmt<W: fmt::Write>(&self, f: &mut fmt::Formatter<W>) -> fmt::Result {
        let piece = self.place.piece;
        match &self.kind {
            FaultKind::Blank => f.write_str("Empty field is not allowed for PEP508"),
            FaultKind::NoName => write!(
                f,
                "Expected package name starting with an alphanumeric character, found `{piece}`"
            ),
            FaultKind::NameEnd => write!(
                f,
                "Package name must end with an alphanumeric character, not '{piece}'"
            ),
            FaultKind::NoBody => write!(
                f,
                "Expected one of `@`, `(`, `<`, `=`, `>`, `~`, `!`, `;`, found `{piece}`"
            ),
            FaultKind::LeadingComma => write!(
                f,
                "Expected either alphanumerical character (starting the extra name) or `]` (ending the extras section), found `{piece}`"
            ),
            FaultKind::NoSeparator => write!(
                f,
                "Expected either `,` (separating extras) or `]` (ending the extras section), found `{piece}`"
            ),
            FaultKind::NoExtra => write!(
                f,
                "Expected an alphanumeric character starting the extra name, found `{piece}`"
            ),
            FaultKind::InvalidExtra => write!(
                f,
                "Invalid character in extras name, expected an alphanumeric character, `-`, `_`, `.`, `,` or `]`, found `{piece}`"
            ),
            FaultKind::ExtraEnd => write!(
                f,
                "Extra name must end with an alphanumeric character, not '{piece}'"
            ),
            FaultKind::UnclosedBracket => f.write_str(
                "Missing closing bracket (expected ']', found end of dependency specification)",
            ),
            FaultKind::UnclosedParenthesis => f.write_str(
                "Missing closing parenthesis (expected ')', found end of dependency specification)",
            ),
            FaultKind::Specifier(error) => error.fmt(f),
            FaultKind::NoUrl => f.write_str("Expected URL"),
            FaultKind::AmbiguousEnd => write!(
                f,
                "Missing space before '{piece}', the end of the URL is ambiguous"
            ),
            FaultKind::Trailing => write!(f, "Expected end of input or `;`, found `{piece}`"),
            FaultKind::PathWithoutName => f.write_str(
                "URL requirement must be preceded by a package name. Add the name of the package before the URL (e.g., `package_name @ /path/to/file`).",
            ),
            FaultKind::UrlWithoutName | FaultKind::ArchiveWithoutName => f.write_str(
                "URL requirement must be preceded by a package name. Add the name of the package before the URL (e.g., `package_name @ https://...`).",
            ),
        }
    }
}
