//! Laws of comparisons. Each is a function that does nothing, whose contract is the law.

ghost use Rattle.std.specs.Prelude.{◌≡◌, List, ℕ};
ghost use Rattle.marker_parts.specs.Comparison.{Meaning, BeginsWithOne};
ghost use Rattle.marker_parts.specs.Whole.{IsComparison};

/// A text begins with at most one comparison, which has one meaning.
pub fn comparison_is_unique()
    ensures { (input : List ℕ) → BeginsWithOne input }
{}

/// A whole text is one comparison at most, and it has one meaning.
pub fn whole_comparison_is_unique()
    ensures { (text : List ℕ) (m n : Meaning) → IsComparison text m → IsComparison text n → m ≡ n }
{}
