//! Laws of versions. Each is a function that does nothing, whose contract is the law.

ghost use Rattle.std.specs.Prelude.{◌≡◌, ◌↔◌, ℕ, List, true};
ghost use Rattle.std.specs.Cmp.{IsTotalOrder};
ghost use Rattle.std.specs.Hash.{Alike};
ghost use Rattle.std.specs.List.{list_all};
ghost use Rattle.std.specs.Ordering.{eq_by_cmp};
ghost use Rattle.std.specs.declared.cmp.Ordering.TheVariants.{Equal};
ghost use Rattle.pep440_version.specs.Grammar.{IsVersionText};
ghost use Rattle.pep440_version.specs.Order.{IsSameVersion, version_cmp};
ghost use Rattle.pep440_version.specs.HashInput.{version_writes};
ghost use Rattle.pep440_version.specs.Parts.{Parts};
ghost use Rattle.pep440_version.specs.Plain.{IsPlainByte, is_version_byte};
ghost use Rattle.pep440_version.specs.Text.{version_text};
ghost use Rattle.pep440_version.specs.Valid.{IsValid};
ghost use Rattle.pep440_version.specs.Laws.{SaysOnePattern, StarredTextReadsBack};

use crate::version::Version;

/// The order of versions is total.
pub fn order_is_total()
    ensures { IsTotalOrder version_cmp }
{}

/// Two versions are equal in the order exactly if they differ only in zeros at the end of their
/// releases.
pub fn order_ties_the_same_version()
    ensures { (v w : Parts) → version_cmp v w ≡ Equal ↔ IsSameVersion v w }
{}

/// Equal versions have the same hash.
pub fn equal_versions_hash_alike()
    ensures { Alike (eq_by_cmp version_cmp) version_writes }
{}

/// A text denotes at most one version.
pub fn text_says_one_version()
    ensures { (text : List ℕ) (v w : Parts) → IsVersionText text v → IsVersionText text w → v ≡ w }
{}

/// A text denotes at most one pattern: no version ends in `.*`.
pub fn text_says_one_pattern()
    ensures { (text : List ℕ) → SaysOnePattern text }
{}

/// The parts of a version are valid, and its normal text parses back to that version, with as many
/// release numbers.
pub fn normal_text_reads_back(version: &Version)
    ensures valid { IsValid version.now }
    ensures reads_back { IsVersionText (version_text version.now) version.now }
{
    // Reading a part shows the invariant of versions.
    let _ = &version.epoch;
}

/// The normal text of a version has only lower-case letters, digits, `!`, `+` and `.`: no white
/// space, capital, comma, semicolon or quote.
pub fn normal_text_is_plain()
    ensures bytes { (v : Parts) → IsValid v → list_all is_version_byte (version_text v) ≡ true }
    ensures plain { (b : ℕ) → is_version_byte b ≡ true → IsPlainByte b }
{}

/// The normal text of a release, with or without an epoch, followed by `.*` parses back to that
/// release with a star.
pub fn starred_text_reads_back()
    ensures { (epoch : ℕ) (release : List ℕ) → StarredTextReadsBack epoch release }
{}
