//! Versions with their texts.

ghost use Rattle.std.specs.Prelude.{◌≡◌, ◌≢◌, Some, IfErr, IfOk, string_bytes};
ghost use Rattle.refusal.specs.declared.Refusal.TheVariants.{SegmentAtEnd};
ghost use Rattle.serde.specs.Event.{Logs, text};
ghost use Rattle.refusal.specs.Refused.{FaultIs};
ghost use Rattle.marker_environment.specs.Written.{written, normal, SaysUnlessMemory, SaysVersion};
ghost use Rattle.marker_environment.specs.Deserialized.{IsReadFrom};

use pep440_version::{Version, VersionParseError};
use refusal::Refusal;
use serde::{
    Described, Deserialize, DeserializeOwned, Deserializer, Format, Serialize, Serializer,
};
use std::alloc::{AllocError, Global};
use std::fmt;
use std::fmt::Display;

/// A version and the text that it was parsed from, which it prints as.
#[derive(Debug, PartialEq, Eq, Hash, Drop)]
pub struct StringVersion {
    /// The text as it was given.
    pub string: String,
    /// The version of the text.
    pub version: Version,
}

impl StringVersion {
    /// Parses a version as [`Version::parse`] does, and keeps the text as it is.
    ///
    /// # Errors
    /// - [`Refusal::Fault`] if the text is an invalid version: what was expected at which byte.
    /// - [`Refusal::OutOfMemory`] when memory runs out.
    pub fn parse(alloc: Global, text: &str) -> Result<StringVersion, Refusal<VersionParseError>>
        // The text is kept, and the version is what it denotes.
        ensures found { IfOk result (SaysVersion text.now) }

        // A valid text is parsed, unless memory runs out.
        ensures only { SaysUnlessMemory text.now result }
        ensures at_end { IfErr result (λ e. e ≢ SegmentAtEnd) }
        ensures fault { FaultIs result (λ fault. string_bytes fault.text ≡ text.now) }
    {
        let version = Version::parse(alloc, text)?;
        let string = String::from_str(alloc, text)?;
        Ok(StringVersion { string, version })
    }

    /// Returns the version with its normal text.
    pub fn from_version(alloc: Global, version: Version) -> Result<StringVersion, AllocError>
        ensures { IfOk result (λ made. written made ≡ normal version) }
    {
        let string = version.to_string(alloc)?;
        Ok(StringVersion { string, version })
    }
}

impl Display for StringVersion {
    ghost output = { λ version. Some (string_bytes version.string) };

    fn fmt<W: fmt::Write>(&self, f: &mut fmt::Formatter<W>) -> fmt::Result {
        f.pad(self.string.as_str())
    }
}

/// A clone has the text and the version of its source.
impl Clone for StringVersion {
    ghost is_clone = { λ version clone. written clone ≡ written version };

    fn clone(&self) -> Result<StringVersion, AllocError> {
        Ok(StringVersion {
            string: self.string.clone()?,
            version: self.version.clone()?,
        })
    }
}

impl Described for StringVersion {
    ghost writes = { λ version old new. Logs old new (text (string_bytes version.string)) };
}

/// Writes the text.
impl Serialize for StringVersion {
    fn serialize<S: Serializer>(&self, out: &mut S) -> Result<(), S::Error> {
        out.str(self.string.as_str())
    }
}

/// Parses a text as [`StringVersion::parse`] does. The error is an allocation failure, or what was
/// expected and where.
impl DeserializeOwned for StringVersion {
    fn deserialize_owned<F: Format>(
        alloc: Global,
        from: &mut Deserializer<'_, '_, F>,
    ) -> Result<StringVersion, F::Error>
        ensures { IfOk result (IsReadFrom F.gives from.old from.new) }
    {
        let text = from.string(alloc)?;
        match StringVersion::parse(alloc, text.as_str()) {
            Ok(version) => Ok(version),
            Err(Refusal::OutOfMemory) => Err(from.no_memory()),
            Err(refusal) => match refusal.to_string(alloc) {
                Ok(message) => Err(from.custom(message.as_str())),
                Err(_) => Err(from.no_memory()),
            },
        }
    }
}

impl<'de> Deserialize<'de> for StringVersion {
    fn deserialize<F: Format>(
        alloc: Global,
        from: &mut Deserializer<'de, '_, F>,
    ) -> Result<StringVersion, F::Error>
        ensures { IfOk result (IsReadFrom F.gives from.old from.new) }
    {
        StringVersion::deserialize_owned(alloc, from)
    }
}
