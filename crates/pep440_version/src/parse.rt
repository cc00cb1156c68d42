//! Parsing versions.

ghost use Rattle.std.specs.Prelude.{◌≡◌, ◌≢◌, IfErr, IfNone, IfOk, IfSome, string_bytes};
ghost use Rattle.refusal.specs.declared.Refusal.TheVariants.{SegmentAtEnd};
ghost use Rattle.pep440_version.specs.Grammar.{IsVersionText, IsNoVersionText};
ghost use Rattle.refusal.specs.Refused.{FaultIs};
ghost use Rattle.pep440_version.specs.Parse.{IsGivenUnlessMemory};
ghost use Rattle.pep440_version.specs.Parts.{Parts};

use crate::error::VersionParseError;
use crate::version::Version;
use crate::{fault, read};
use refusal::Refusal;
use std::alloc::{AllocError, Global};

impl Version {
    /// Parses a version as [`Version::parse`] does, and returns `None` for an invalid one, without
    /// making an error.
    pub fn read(alloc: Global, text: &str) -> Result<Option<Version>, AllocError>
        ensures found { IfOk result (λ found. IfSome found (IsVersionText text.now)) }
        ensures none { IfOk result (λ found. IfNone found (IsNoVersionText text.now)) }
    {
        read::version(alloc, text.trim().as_bytes())
    }

    /// Parses a version: `v`, an epoch, a release, a pre-release, a post release, a development
    /// release and a local part, of which only the release is required (PEP 440, appendix B).
    /// Letters may have any ASCII case, and white space around the version is ignored.
    ///
    /// # Errors
    /// - [`Refusal::Fault`] if the text is an invalid version: what was expected at which byte.
    /// - [`Refusal::OutOfMemory`] when memory runs out.
    pub fn parse(alloc: Global, text: &str) -> Result<Version, Refusal<VersionParseError>>
        // What is returned is what the text denotes.
        ensures found { IfOk result (λ v. IsVersionText text.now v) }

        // A valid text is parsed, unless memory runs out.
        ensures only { (v : Parts) → IsVersionText text.now v → IsGivenUnlessMemory result v }
        ensures at_end { IfErr result (λ e. e ≢ SegmentAtEnd) }
        ensures fault { FaultIs result (λ fault. string_bytes fault.text ≡ text.now) }
    {
        match Version::read(alloc, text)? {
            Some(version) => Ok(version),
            None => Err(Refusal::Fault(fault::of_version(alloc, text)?)),
        }
    }
}
