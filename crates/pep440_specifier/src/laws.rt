//! Laws of specifiers. Each is a function that does nothing, whose contract is the law.

ghost use Rattle.std.specs.Prelude.{◌≡◌, ◌↔◌, ℕ, List, true};
ghost use Rattle.std.specs.Cmp.{IsTotalOrder};
ghost use Rattle.std.specs.Hash.{Alike};
ghost use Rattle.std.specs.List.{list_all};
ghost use Rattle.std.specs.Ordering.{eq_by_cmp};
ghost use Rattle.std.specs.declared.cmp.Ordering.TheVariants.{Equal};
ghost use Rattle.pep440_version.specs.Plain.{IsPlainByte};
ghost use Rattle.pep440_specifier.specs.Grammar.{IsSpecifierText};
ghost use Rattle.pep440_specifier.specs.HashInput.{specifier_writes};
ghost use Rattle.pep440_specifier.specs.Order.{IsSameSpecifier, specifier_cmp};
ghost use Rattle.pep440_specifier.specs.Specifier.{IsWellFormed, Specifier};
ghost use Rattle.pep440_specifier.specs.Text.{is_specifier_byte, specifier_text};

use crate::specifier::VersionSpecifier;
use pep440_version::laws::normal_text_reads_back;

/// The order of specifiers is total.
pub fn order_is_total()
    ensures { IsTotalOrder specifier_cmp }
{}

/// Two specifiers are equal in the order exactly if their operators and versions are, and for a
/// star and `~=` the number of release numbers.
pub fn order_ties_the_same_specifier()
    ensures { (s t : Specifier) → specifier_cmp s t ≡ Equal ↔ IsSameSpecifier s t }
{}

/// Equal specifiers have the same hash.
pub fn equal_specifiers_hash_alike()
    ensures { Alike (eq_by_cmp specifier_cmp) specifier_writes }
{}

/// A text denotes at most one specifier.
pub fn text_says_one_specifier()
    ensures { (text : List ℕ) (s t : Specifier)
        → IsSpecifierText text s → IsSpecifierText text t → s ≡ t }
{}

/// The operator of each specifier accepts its version, whose parts are valid.
pub fn specifiers_are_well_formed(specifier: &VersionSpecifier)
    ensures { IsWellFormed specifier.now }
{
    normal_text_reads_back(specifier.version());
}

/// The text of a specifier parses back to that specifier, with as many release numbers, including
/// stars and `~=`.
pub fn specifier_text_reads_back()
    ensures { (s : Specifier) → IsWellFormed s → IsSpecifierText (specifier_text s) s }
{}

/// The text of a specifier has only the characters of versions and operators, and `*`: no white
/// space, capital, comma, semicolon or quote.
pub fn specifier_text_is_plain()
    ensures bytes { (s : Specifier) → IsWellFormed s
        → list_all is_specifier_byte (specifier_text s) ≡ true }
    ensures plain { (b : ℕ) → is_specifier_byte b ≡ true → IsPlainByte b }
{}
