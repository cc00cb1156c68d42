//! Patterns of version specifiers: a version, or a release with `.*` after it.

ghost use Rattle.std.specs.Prelude.{◌≡◌, ◌≢◌, IfErr, IfNone, IfOk, IfSome, string_bytes};
ghost use Rattle.refusal.specs.declared.Refusal.TheVariants.{SegmentAtEnd};

use crate::error::VersionParseError;
use crate::version::Version;
use crate::{fault, read};
use refusal::Refusal;
use std::alloc::{AllocError, Global};

/// The version of a specifier: a version, or a release with `.*` after it, such as `3.9.*`.
#[derive(Debug, Drop)]
pub struct VersionPattern {
    pub(crate) version: Version,
    pub(crate) wildcard: bool,
}

impl VersionPattern {
    ghost use Rattle.pep440_version.specs.Grammar.{IsPatternText};
    ghost use Rattle.refusal.specs.Refused.{FaultIs};
    ghost use Rattle.pep440_version.specs.Parse.{Denotes, DenotesNone, GivesUnlessMemory};

    /// Parses a pattern as [`VersionPattern::parse`] does, and returns `None` for an invalid one,
    /// without making an error.
    pub fn read(alloc: Global, text: &str) -> Result<Option<VersionPattern>, AllocError>
        ensures found { IfOk result (λ found. IfSome found (Denotes text.now)) }
        ensures none { IfOk result (λ found. IfNone found (DenotesNone text.now)) }
    {
        read::pattern(alloc, text.trim().as_bytes())
    }

    /// Parses a version, or an optional `v`, an optional epoch and a release directly followed by
    /// `.*`. Letters may have any ASCII case, and white space around the pattern is ignored.
    ///
    /// # Errors
    /// - [`Refusal::Fault`] if the text is an invalid pattern: what was expected at which byte.
    /// - [`Refusal::OutOfMemory`] when memory runs out.
    pub fn parse(alloc: Global, text: &str) -> Result<VersionPattern, Refusal<VersionParseError>>
        // What is returned is what the text denotes.
        ensures found { IfOk result (λ p. IsPatternText text.now p.version p.wildcard) }

        // A valid text is parsed, unless memory runs out.
        ensures only { GivesUnlessMemory text.now result }
        ensures at_end { IfErr result (λ e. e ≢ SegmentAtEnd) }
        ensures fault { FaultIs result (λ fault. string_bytes fault.text ≡ text.now) }
    {
        match VersionPattern::read(alloc, text)? {
            Some(pattern) => Ok(pattern),
            None => Err(Refusal::Fault(fault::of_pattern(alloc, text)?)),
        }
    }

    /// Returns the version, or the release before `.*`.
    pub fn version(&self) -> &Version
        ensures { result.now ≡ self.now.version }
    {
        &self.version
    }

    /// Returns whether `.*` follows the release.
    pub fn is_wildcard(&self) -> bool
        ensures { result ≡ self.now.wildcard }
    {
        self.wildcard
    }

    /// Returns the version, and whether `.*` follows it.
    pub fn into_parts(self) -> (Version, bool)
        ensures { result ≡ (self.version, self.wildcard) }
    {
        let VersionPattern { version, wildcard } = self;
        (version, wildcard)
    }
}
