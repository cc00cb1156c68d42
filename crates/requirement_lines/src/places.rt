//! Places in a file.

ghost use Rattle.std.specs.Prelude.{◌≡◌};

/// Where the characters of a line come from.
#[derive(Clone, Copy, PartialEq, Eq)]
pub enum Source {
    /// From the text of the file.
    File,
    /// From the value of a variable in the file.
    Variable,
}

/// A place in a file.
#[derive(Clone, Copy, PartialEq, Eq)]
pub struct Place {
    /// The number of bytes from here to the end of the file.
    pub to_end: usize,
    /// Where the character at this place comes from. The characters of a variable's value are all
    /// at the place of the variable.
    pub source: Source,
}

impl Place {
    ghost use Rattle.requirement_lines.specs.Character.{after};

    // The place `size` bytes later; within the value of a variable it is the same one.
    pub(crate) fn after(self, size: usize) -> Place
        ensures { result ≡ after self size }
    {
        let to_end = match self.source {
            Source::File => self.to_end.saturating_sub(size),
            Source::Variable => self.to_end,
        };
        Place {
            to_end,
            source: self.source,
        }
    }
}
