//! Types that the URL of a requirement without a name is parsed into.

ghost use Rattle.std.specs.Prelude.{◌≡◌, ◌≢◌, ℕ, List, Option, Some, None, IfErr, IfOk, option_copied, string_bytes};
ghost use Rattle.refusal.specs.declared.Refusal.TheVariants.{SegmentAtEnd};
ghost use Rattle.pep508_errors.specs.Url.{OnOtherFault, OnSizeFault};
ghost use Rattle.pep508_urls.specs.Meaning.{is_path, is_url};
ghost use Rattle.pep508_urls.specs.Unnamed.{EachMayOverflow, MakesNamed, NamesNone};

use pep508_errors::Pep508Url;
use refusal::Refusal;
use std::alloc::Global;

/// A type that the URL of a requirement without a name is parsed into. It has a parser for paths,
/// one for URLs, and keeps the text that it was given as.
///
/// Each parser returns a value that the type names for every text that denotes the path or URL. It
/// returns a fault only if those texts have no value, or a fault of size if each of them may be too
/// large.
pub trait UnnamedRequirementUrl: Pep508Url + PartialEq {
    /// The value may become this one when it is given as the text.
    ghost gives: { Self → List ℕ → Self → Type 0 };

    /// The text that a value was given as, if there is one.
    ghost given_text: { Self → Option (List ℕ) };

    /// Parses a path. A relative path starts from the folder.
    fn parse_path(alloc: Global, path: &str, working_dir: &str) -> Result<Self, Refusal<Self::Err>>
        ensures value { IfOk result
            (MakesNamed Self.names gives (Some working_dir.now) (is_path path.now)) }
        ensures fault { OnOtherFault Self.tells_size result
            (NamesNone Self.names (Some working_dir.now) (is_path path.now)) }
        ensures size { OnSizeFault Self.tells_size result
            (EachMayOverflow Self.may_overflow (Some working_dir.now) (is_path path.now)) }
        ensures no_end { IfErr result (λ refusal. refusal ≢ SegmentAtEnd) };

    /// Parses a path, without a folder to start from.
    fn parse_absolute_path(alloc: Global, path: &str) -> Result<Self, Refusal<Self::Err>>
        ensures value { IfOk result (MakesNamed Self.names gives None (is_path path.now)) }
        ensures fault { OnOtherFault Self.tells_size result
            (NamesNone Self.names None (is_path path.now)) }
        ensures size { OnSizeFault Self.tells_size result
            (EachMayOverflow Self.may_overflow None (is_path path.now)) }
        ensures no_end { IfErr result (λ refusal. refusal ≢ SegmentAtEnd) };

    /// Parses a URL as it is written.
    fn parse_unnamed_url(alloc: Global, text: &str) -> Result<Self, Refusal<Self::Err>>
        ensures value { IfOk result (λ url. (folder : Option (List ℕ))
            → MakesNamed Self.names gives folder (is_url text.now) url) }
        ensures fault { OnOtherFault Self.tells_size result ((folder : Option (List ℕ))
            → NamesNone Self.names folder (is_url text.now)) }
        ensures size { OnSizeFault Self.tells_size result ((folder : Option (List ℕ))
            → EachMayOverflow Self.may_overflow folder (is_url text.now)) }
        ensures no_end { IfErr result (λ refusal. refusal ≢ SegmentAtEnd) };

    /// Returns the value given as a text. It prints as before, and is equal to the value.
    fn with_given(self, given: String) -> Self
        ensures gives { gives self (string_bytes given) result }
        ensures given { given_text result ≡ Some (string_bytes given) }
        ensures text { Self.output result ≡ Self.output self }
        ensures equality { (other : Self) → Self.eq result other ≡ Self.eq self other };

    /// Returns the text that a value was given as, if there is one.
    fn given(&self) -> Option<&str>
        ensures { option_copied result ≡ given_text self.now };
}
