//! Sets of characters for reading lines.

ghost use Rattle.std.specs.Prelude.{◌≡◌, ◌&&◌};
ghost use Rattle.requirement_lines.specs.Physical.{is_break};

// Characters that are cut off at the ends of a line.
#[derive(Clone, Copy)]
pub(crate) enum CharacterSet {
    // White space: Unicode's White_Space.
    Space,
    // The backslash.
    Backslash,
}

impl CharacterSet {
    ghost use Rattle.requirement_lines.specs.Ends.{holds};

    // Whether the set has the character.
    pub(crate) fn holds(self, c: char) -> bool
        ensures { result ≡ holds self c }
    {
        match self {
            CharacterSet::Space => c.is_whitespace(),
            CharacterSet::Backslash => c == '\\',
        }
    }
}

/// A character that ends the text before it, at the front of a line or after certain characters.
#[derive(Clone, Copy, PartialEq, Eq)]
pub enum Mark {
    /// `#`, which begins a comment at the front or after white space.
    Comment,
    /// `-`, which begins options at the front or after a space (U+0020).
    Options,
}

impl Mark {
    ghost use Rattle.requirement_lines.specs.Marks.{is_mark, opens};

    // Whether the character is this mark.
    pub(crate) fn is_mark(self, c: char) -> bool
        ensures { result ≡ is_mark self c }
    {
        match self {
            Mark::Comment => c == '#',
            Mark::Options => c == '-',
        }
    }

    // Whether the character is this mark, if a mark may be here.
    pub(crate) fn counts(self, may: bool, c: char) -> bool
        ensures { result ≡ (may && is_mark self c) }
    {
        may && self.is_mark(c)
    }

    // Whether the mark counts after the character.
    pub(crate) fn opens(self, c: char) -> bool
        ensures { result ≡ opens self c }
    {
        match self {
            Mark::Comment => c.is_whitespace(),
            Mark::Options => c == ' ',
        }
    }
}

/// Returns whether the character ends a line.
pub fn is_break(c: char) -> bool
    ensures { result ≡ is_break c }
{
    matches!(
        c,
        '\n' | '\u{b}'
            | '\u{c}'
            | '\r'
            | '\u{1c}'
            | '\u{1d}'
            | '\u{1e}'
            | '\u{85}'
            | '\u{2028}'
            | '\u{2029}'
    )
}
