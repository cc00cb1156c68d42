//! Serde: a URL is a string, its text.

ghost use Rattle.std.specs.Prelude.{◌≡◌, List, ℕ, None, Ok, IfOk};
ghost use Rattle.serde.specs.Event.{Logs, text};
ghost use Rattle.serde.specs.Steps.{Gives};
ghost use Rattle.url.specs.Parser.{parse_url};
ghost use Rattle.url.specs.Parts.{serialize};

use crate::verbatim_url::VerbatimUrl;
use refusal::Refusal;
use serde::{
    Described, Deserialize, DeserializeOwned, Deserializer, Format, Serialize, Serializer,
};
use std::alloc::Global;

impl Described for VerbatimUrl {
    ghost writes = { λ v old new. Logs old new (text (serialize v.url)) };
}

impl Serialize for VerbatimUrl {
    fn serialize<S: Serializer>(&self, out: &mut S) -> Result<(), S::Error> {
        out.str(self.raw().as_str())
    }
}

impl<'de> Deserialize<'de> for VerbatimUrl {
    fn deserialize<F: Format>(
        alloc: Global,
        from: &mut Deserializer<'de, '_, F>,
    ) -> Result<VerbatimUrl, F::Error>
        ensures { IfOk result (λ v. (t : List ℕ) × (parse_url None t ≡ Ok v.url)
            × Gives F.gives from.old (text t) from.new) }
    {
        DeserializeOwned::deserialize_owned(alloc, from)
    }
}

impl DeserializeOwned for VerbatimUrl {
    fn deserialize_owned<F: Format>(
        alloc: Global,
        from: &mut Deserializer<'_, '_, F>,
    ) -> Result<VerbatimUrl, F::Error>
        ensures { IfOk result (λ v. (t : List ℕ) × (parse_url None t ≡ Ok v.url)
            × Gives F.gives from.old (text t) from.new) }
    {
        let text = from.string(alloc)?;
        match VerbatimUrl::parse_url(alloc, text.as_str()) {
            Ok(url) => Ok(url),
            Err(Refusal::OutOfMemory) => Err(from.no_memory()),
            Err(refusal) => match refusal.to_string(alloc) {
                Ok(message) => Err(from.custom(&message)),
                Err(_) => Err(from.no_memory()),
            },
        }
    }
}
