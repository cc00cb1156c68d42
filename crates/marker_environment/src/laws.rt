//! Laws of environments. Each is a function that does nothing, whose contract is the law.

ghost use Rattle.std.specs.Prelude.{◌≡◌, ◌↔◌, ℕ, List, true};
ghost use Rattle.std.specs.Str.Iter.{HasSubslice};
ghost use Rattle.marker_environment.specs.Written.{Written, AreEqualIf, AreWrittenAlike};
ghost use Rattle.marker_environment.specs.Substring.{is_part_of};
ghost use Rattle.marker_environment.specs.Environment.{Values, HasSameValues, LeavesValuations, HaveSameValues};
ghost use Rattle.marker_environment.specs.declared.environment.MarkerEnvironment.{MarkerEnvironment};
ghost use Rattle.marker_environment.specs.declared.string_version.StringVersion.{StringVersion};

use crate::environment::MarkerEnvironment;
use crate::string_version::StringVersion;

/// A text is a substring of another exactly if that is the text between a front and a back.
pub fn a_part_stands_between_a_front_and_a_back()
    ensures { (part text : List ℕ) → (is_part_of part text ≡ true) ↔ HasSubslice text part }
{}

/// What a marker sees of an environment does not depend on the value of `python_version`.
pub fn python_version_is_not_read()
    ensures { (old new : Values) (value : Written) → LeavesValuations old new value }
{}

/// Values that are equal key by key are equal.
pub fn values_are_what_the_keys_show()
    ensures { (v w : Values) → HasSameValues v w → v ≡ w }
{}

/// Versions with the same text and equal parts are equal.
pub fn same_written_versions_are_equal()
    ensures { AreEqualIf AreWrittenAlike ⟦<StringVersion as PartialEq>⟧.eq }
{}

/// Environments whose values are equal key by key are equal.
pub fn same_values_make_equal_environments()
    ensures { AreEqualIf HaveSameValues ⟦<MarkerEnvironment as PartialEq>⟧.eq }
{}
