//! Places in a text.

ghost use Rattle.std.specs.Prelude.{◌≡◌, ◌++◌, ◌∷◌, ◌-◌, ◌<◌, ℕ, List, [], drop, length};
ghost use Rattle.pep508_text.specs.Suffix.{IsPlaceIn, IsSpan, IsSuffix, StandsAt, span_len};

/// A place in a text: the piece of the text there, and its distance from the end. A place in the
/// rest of a text is a place in the text.
#[derive(Clone, Copy, Debug, PartialEq, Eq)]
pub struct Place<'a> {
    /// The piece of the text at the place.
    pub piece: &'a str,
    /// How many bytes there are from the place to the end of the text.
    pub left: usize,
}

impl<'a> Place<'a> {
    /// Returns the end of a text.
    pub fn at_end() -> Place<'a>
        ensures piece { result.piece.now ≡ [] }
        ensures left { result.left ≡ 0 }
    {
        Place { piece: "", left: 0 }
    }

    /// Returns the front of a text, up to `rest`.
    pub fn before(text: &'a str, rest: &str) -> Place<'a>
        requires { IsSuffix text.now rest.now }
        ensures piece { text.now ≡ result.piece.now ++ rest.now }
        ensures left { result.left ≡ length text.now }
    {
        Place {
            piece: text.split_at(text.len() - rest.len()).0,
            left: text.len(),
        }
    }

    /// Returns the front of a text that is this run.
    pub fn at_run(run: &'a str, text: &str) -> Place<'a>
        ensures piece { result.piece.now ≡ run.now }
        ensures left { result.left ≡ length text.now }
    {
        Place {
            piece: run,
            left: text.len(),
        }
    }

    /// Returns the last character of a run, an ASCII character, before `rest`.
    pub fn at_last(run: &'a str, rest: &str) -> Place<'a>
        requires { (front : List ℕ) × (c : ℕ) × (run.now ≡ front ++ c ∷ []) × (c < 128) }
        ensures piece { result.piece.now ≡ drop (length run.now - 1) run.now }
        ensures left { result.left ≡ length (result.piece.now ++ rest.now) }
    {
        let piece = run.split_at(run.len() - 1).1;
        Place {
            piece,
            left: piece.len() + rest.len(),
        }
    }

    /// Returns where the place begins, in bytes from the start of its text.
    pub fn start(self, text: &str) -> usize
        ensures value { result ≡ length text.now - self.entry.left }

        // The piece is there in the text, and the place has a span of it.
        ensures place { IsPlaceIn text.now self.entry
            → StandsAt text.now self.entry.piece.now result }
        ensures span { IsPlaceIn text.now self.entry
            → IsSpan text.now result (span_len self.entry) }
    {
        text.len().saturating_sub(self.left)
    }

    /// Returns how many bytes the place spans, or 1 at the end of the text.
    pub fn len(self) -> usize
        ensures { result ≡ span_len self.entry }
    {
        if self.left == 0 { 1 } else { self.piece.len() }
    }
}
