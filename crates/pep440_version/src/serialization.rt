//! Versions in `serde`'s formats: the normal text, which `parse` parses back.

ghost use Rattle.std.specs.Prelude.{IfOk};
ghost use Rattle.serde.specs.Event.{Logs, text};
ghost use Rattle.pep440_version.specs.Text.{version_text};
ghost use Rattle.pep440_version.specs.Deserialized.{IsReadFrom};

use crate::version::Version;
use refusal::Refusal;
use serde::{
    Described, Deserialize, DeserializeOwned, Deserializer, Format, Serialize, Serializer,
};
use std::alloc::Global;

impl Described for Version {
    ghost writes = { λ v old new. Logs old new (text (version_text v)) };
}

/// Writes the normal text. The error is an allocation failure or the format's own.
impl Serialize for Version {
    fn serialize<S: Serializer>(&self, out: &mut S) -> Result<(), S::Error> {
        match self.to_string(*self.release.allocator()) {
            Ok(text) => out.str(text.as_str()),
            Err(_) => Err(out.custom("Out of memory")),
        }
    }
}

/// Parses a text as [`Version::parse`] does. The error is an allocation failure, or what was
/// expected and where.
impl DeserializeOwned for Version {
    fn deserialize_owned<F: Format>(
        alloc: Global,
        from: &mut Deserializer<'_, '_, F>,
    ) -> Result<Version, F::Error>
        ensures { IfOk result (IsReadFrom F.gives from.old from.new) }
    {
        let text = from.string(alloc)?;
        match Version::parse(alloc, text.as_str()) {
            Ok(version) => Ok(version),
            Err(Refusal::OutOfMemory) => Err(from.no_memory()),
            Err(refusal) => match refusal.to_string(alloc) {
                Ok(message) => Err(from.custom(message.as_str())),
                Err(_) => Err(from.no_memory()),
            },
        }
    }
}

impl<'de> Deserialize<'de> for Version {
    fn deserialize<F: Format>(
        alloc: Global,
        from: &mut Deserializer<'de, '_, F>,
    ) -> Result<Version, F::Error>
        ensures { IfOk result (IsReadFrom F.gives from.old from.new) }
    {
        Version::deserialize_owned(alloc, from)
    }
}
