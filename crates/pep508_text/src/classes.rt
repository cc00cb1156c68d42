ghost use Rattle.std.specs.Prelude.{◌≡◌};
ghost use Rattle.pep508_text.specs.Class.{is_comparison, is_line_break, is_name_character};

use unicode::properties::is_alphabetic;

/// A class of characters.
#[derive(Clone, Copy, Debug, PartialEq, Eq)]
pub enum Class {
    /// White space: Unicode's White_Space.
    Space,
    /// Any character but white space: the characters of a keyword.
    NotSpace,
    /// Any character but white space and `<`, `=`, `>`, `~`, `!` and `)`: the characters of a key.
    KeyPart,
    /// One of `<`, `=`, `>`, `~` and `!`: the characters of an operator that is not a word.
    Comparison,
    /// Any character but white space and quotes: the characters of an operator that is a word.
    WordPart,
    /// Any character but this one: the characters between two of these quotes.
    NotQuote(char),
    /// Unicode's Alphabetic: an operator that begins with such a character is a word.
    Alphabetic,
    /// ASCII letters and digits, `-`, `_` and `.`: the characters of a name.
    NamePart,
    /// Any character but a comma and this one, which ends a list of specifiers: the characters of a
    /// specifier.
    SpecifierPart(char),
    /// White space within a line: all but carriage return and line feed.
    LineSpace,
}

impl Class {
    ghost use Rattle.pep508_text.specs.Class.{holds};

    /// Returns whether the character is in the class.
    pub fn holds(self, c: char) -> bool
        ensures { result ≡ holds self c }
    {
        match self {
            Class::Space => c.is_whitespace(),
            Class::NotSpace => !c.is_whitespace(),
            Class::KeyPart => !(c.is_whitespace() || is_comparison(c) || c == ')'),
            Class::Comparison => is_comparison(c),
            Class::WordPart => !(c.is_whitespace() || c == '\'' || c == '"'),
            Class::NotQuote(quote) => c != quote,
            Class::Alphabetic => is_alphabetic(c),
            Class::NamePart => is_name_character(c),
            Class::SpecifierPart(end) => !(c == ',' || c == end),
            Class::LineSpace => c.is_whitespace() && !is_line_break(c),
        }
    }
}

fn is_comparison(c: char) -> bool
    ensures { result ≡ is_comparison c }
{
    matches!(c, '<' | '=' | '>' | '~' | '!')
}

fn is_name_character(c: char) -> bool
    ensures { result ≡ is_name_character c }
{
    c.is_ascii_alphanumeric() || matches!(c, '-' | '_' | '.')
}

/// Returns whether the character ends a line: a carriage return or a line feed.
pub fn is_line_break(c: char) -> bool
    ensures { result ≡ is_line_break c }
{
    c == '\r' || c == '\n'
}
