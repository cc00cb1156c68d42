//! Laws of the words of requirements. Each is a function that does nothing, whose contract is the
//! law.

ghost use Rattle.requirement_words.specs.Extras.{ExtrasAreUnique};
ghost use Rattle.requirement_words.specs.Head.{HeadIsUnique};
ghost use Rattle.requirement_words.specs.Specifiers.{SpecifiersAreUnique};
ghost use Rattle.requirement_words.specs.Tail.{TailIsUnique};
ghost use Rattle.requirement_words.specs.Text.{HeadTextIsAscii, HeadTextReadsBack};
ghost use Rattle.requirement_words.specs.Unnamed.{UnnamedHeadIsUnique};

/// A text is parsed as extras in one way: their names, and where they end.
pub fn extras_are_unique()
    ensures { ExtrasAreUnique }
{}

/// A text is parsed as specifiers up to a character in one way: their set, and where they end.
pub fn specifiers_are_unique()
    ensures { SpecifiersAreUnique }
{}

/// A text is parsed as a requirement up to its marker in one way: name, extras, versions or URL,
/// and where the marker begins.
pub fn head_is_unique()
    ensures { HeadIsUnique }
{}

/// A text is parsed as a requirement without a name up to its marker in one way: the URL as it is
/// written, the URL without its extras, the extras, and where the marker begins.
pub fn unnamed_head_is_unique()
    ensures { UnnamedHeadIsUnique }
{}

/// After either there is one marker, or none.
pub fn tail_is_unique()
    ensures { TailIsUnique }
{}

/// The text of a requirement up to its marker parses back to its name, extras and specifiers,
/// whatever marker follows.
pub fn head_text_reads_back()
    ensures { HeadTextReadsBack }
{}

/// That text is ASCII, so its bytes are its characters.
pub fn head_text_is_ascii()
    ensures { HeadTextIsAscii }
{}
