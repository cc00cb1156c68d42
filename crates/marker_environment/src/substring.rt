//! Substrings.

ghost use Rattle.std.specs.Prelude.{◌≡◌};
ghost use Rattle.marker_environment.specs.Substring.{is_part_of};

/// Returns whether the first text is a substring of the second. The empty text is one of every
/// text.
#[tactic(auto, using(crate::proofs::SubstringLaws::contains_is_part_of))]
pub fn is_part_of(part: &str, text: &str) -> bool
    ensures { result ≡ is_part_of part.now text.now }
{
    text.contains(part)
}
