//! Laws of names and their normal forms. Each is a function that does nothing, whose contract is
//! the law.

ghost use Rattle.std.specs.Prelude.{◌≡◌, ◌↔◌, List, ℕ};
ghost use Rattle.pep508_names.specs.Name.{IsIdentifier, IsName, NormalizesTo};

/// Names are the identifiers of PEP 508: letters, digits, `-`, `_` and `.`, with a letter or digit
/// at each end.
pub fn names_are_identifiers()
    ensures { (t : List ℕ) → IsName t ↔ IsIdentifier t }
{}

/// A name has one normal form.
pub fn normal_form_is_unique()
    ensures { (t m n : List ℕ) → NormalizesTo t m → NormalizesTo t n → m ≡ n }
{}

/// Normalizing twice is normalizing once: a normal form is a name, and its own normal form.
pub fn normalizing_twice_is_once()
    ensures { (t n : List ℕ) → NormalizesTo t n → NormalizesTo n n }
{}
