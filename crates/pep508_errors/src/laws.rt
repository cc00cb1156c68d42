//! Laws of underlines. Each is a function with an empty body whose contract is the law.

ghost use Rattle.std.specs.Prelude.{◌≡◌, ◌∷◌, ◌++◌, ◌≤◌, ℕ, List, [], IsUtf8, length, replicate};
ghost use Rattle.std.specs.Str.{chars};
ghost use Rattle.pep508_errors.specs.Underline.{columns, IsWholeSpan, span_underline, underline};

/// A span of whole characters has a caret for each of its columns, after a space for each column of
/// the text before it.
pub fn underline_of_a_span()
    ensures { (text : List ℕ) (start len : ℕ) → IsUtf8 text → IsWholeSpan text start len
        → underline text start len ≡ span_underline text start len }
{}

/// At or past the end of a text there is one caret, after a space for each column of the text.
pub fn underline_at_the_end()
    ensures { (text : List ℕ) (start len : ℕ) → IsUtf8 text → length text ≤ start
        → underline text start len ≡ replicate (columns (chars text)) 32 ++ 94 ∷ [] }
{}
