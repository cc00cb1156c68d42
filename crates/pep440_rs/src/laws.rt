//! Laws of the sets. Each is a function that does nothing, whose contract is the law.

ghost use Rattle.std.specs.Prelude.{◌≡◌, ◌<◌, ◌↔◌, ℕ, List, true};
ghost use Rattle.std.specs.Borrow.{Bor};
ghost use Rattle.std.specs.List.{list_all};
ghost use Rattle.std.specs.Set.{ClonesAreEqual};
ghost use Rattle.std.specs.declared.cmp.Ordering.TheVariants.{Equal};
ghost use Rattle.std.specs.declared.ops.Bound.{Bound};
ghost use Rattle.version_ranges.specs.Bounds.{passes_at_both};
ghost use Rattle.version_ranges.specs.Intervals.{intervals_of};
ghost use Rattle.pep440_specifier.specs.Order.{specifier_cmp};
ghost use Rattle.pep440_specifier.specs.Specifier.{Specifier};
ghost use Rattle.pep440_specifier.specs.declared.operator.Operator.{Operator};
ghost use Rattle.pep440_version.specs.Order.{trimmed_parts, version_cmp};
ghost use Rattle.pep440_version.specs.Parts.{Parts};
ghost use Rattle.pep440_rs.specs.Bounds.{IsAtValid, IsRelease, is_release};
ghost use Rattle.pep440_rs.specs.Ends.{ends_of, python_ends_of};
ghost use Rattle.pep440_rs.specs.Intervals.{HasTrimmedBounds, is_in, is_trimmed};
ghost use Rattle.pep440_rs.specs.Laws.{ChangesAtEnds, NegationIsComplement, StandAlike, AreTrimmedAlike, ComparePythonAlike, EndsAtReleases, IsRange, RaisesNothing};
ghost use Rattle.pep440_rs.specs.PythonVersion.{python_is_in};

use pep440_version::Version;
use version_ranges::Ranges;

/// A negated operator matches the versions that the operator does not match.
pub fn negated_operator_is_complement()
    ensures release { NegationIsComplement is_in }
    ensures python_version { NegationIsComplement python_is_in }
{}

/// A clone of a version is equal to it, as sets of versions require.
pub fn version_clones_are_equal()
    ensures { ClonesAreEqual ⟦<Version as PartialEq>⟧.eq ⟦<Version as Clone>⟧.is_clone }
{}

/// A point is between two bounds that are releases exactly if it is in the set of each specifier of
/// the range.
pub fn range_is_its_specifiers()
    ensures { (lower upper : Bound (Bor Parts)) → IsRange lower upper }
{}

/// Equal versions with only release numbers are the same without the zeros at the end of their
/// releases.
pub fn tied_versions_are_trimmed_alike()
    ensures { (v w : Parts) → AreTrimmedAlike v w }
{}

/// If the bounds of a set have no zeros at the end of their releases, neither have the bounds of
/// the intervals that `iter` returns.
pub fn trimmed_bounds_have_no_zeros(set: &Ranges<Version>)
    requires { HasTrimmedBounds set.now }
    ensures intervals { list_all (passes_at_both is_trimmed) (intervals_of set.now) ≡ true }
    ensures bounds { (v : Parts) → (is_trimmed v ≡ true) ↔ (trimmed_parts v ≡ v) }
{
    set.iter();
}

/// Equal specifiers have the same set, and so do their comparisons of `python_version`.
pub fn equal_specifiers_stand_for_one_set()
    ensures release { (s t : Specifier) → specifier_cmp s t ≡ Equal → StandAlike is_in s t }
    ensures python_version { (s t : Specifier) → ComparePythonAlike s t }
{}

/// The specifiers of a range have no bound above 2^64 - 1: the upper bound of a star is the end of
/// the range.
pub fn range_specifiers_raise_nothing()
    ensures { (lower upper : Bound (Bor Parts)) → IsAtValid upper → RaisesNothing lower upper }
{}

/// A version that is equal to a release has only release numbers.
pub fn versions_tied_with_releases_are_releases()
    ensures tied { (v w : Parts) → version_cmp v w ≡ Equal → IsRelease v → IsRelease w }
    ensures test { (v : Parts) → (is_release v ≡ true) ↔ IsRelease v }
{}

/// Membership in the set of a specifier changes only at its ends, which are at releases: of two
/// points that are before the same ends, both are in the set or neither is.
pub fn sets_change_at_their_ends()
    ensures release { ChangesAtEnds is_in ends_of }
    ensures python_version { ChangesAtEnds python_is_in python_ends_of }
    ensures ends { (o : Operator) (r : List ℕ) → EndsAtReleases o r }
{}
