//! Laws of the words of comparisons. Each is a function that does nothing, whose contract is the
//! law.

ghost use Rattle.std.specs.Prelude.{◌≡◌, ℕ, List};
ghost use Rattle.std.specs.declared.ops.Bound.{Bound};
ghost use Rattle.version_ranges.specs.Point.{Point, is_in_bounds};
ghost use Rattle.marker_words.specs.declared.operator.MarkerOperator.{MarkerOperator as Operator};
ghost use Rattle.marker_words.specs.Compare.{pairs_of, satisfies_all};
ghost use Rattle.marker_words.specs.Lexical.{Value};
ghost use Rattle.marker_words.specs.Operator.{IsSpelling};
ghost use Rattle.marker_words.specs.Part.{IsNamed};

/// In every order, a point is between two bounds exactly if it satisfies the comparisons of the
/// bounds.
pub fn range_is_its_comparisons<T: Ord>()
    ensures { (lower upper : Bound T) (p : Point T) →
        satisfies_all T.cmp (pairs_of T.eq lower upper) p ≡ is_in_bounds T.cmp lower upper p }
{}

/// A text is a spelling of at most one operator.
pub fn spelling_is_unique()
    ensures { (text : List ℕ) (a b : Operator) → IsSpelling text a → IsSpelling text b → a ≡ b }
{}

/// A name denotes at most one value.
pub fn name_is_unique()
    ensures { (name : List ℕ) (a b : Value) → IsNamed a name → IsNamed b name → a ≡ b }
{}
