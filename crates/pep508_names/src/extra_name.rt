//! Names of extras.

ghost use Rattle.std.specs.Prelude.{◌≡◌, List, ℕ, IfErr, IfOk, string_bytes};
ghost use Rattle.pep508_names.specs.Fault.{IsNameRefusal};
ghost use Rattle.pep508_names.specs.Name.{IsName, NormalizesTo};

use crate::invalid_name::InvalidNameError;
use crate::normal::{next_name, normal_form};
use refusal::Refusal;
use serde::{
    Described, Deserialize, DeserializeOwned, Deserializer, Format, Serialize, Serializer,
};
use std::alloc::{AllocError, Global};
use std::cmp::Ordering;
use std::fmt;
use std::hash::{Hash, Hasher};
use std::marker::Model;

/// The name of an extra, in the normal form of PEP 503: lowercase, with each run of `-`, `_` and
/// `.` as one `-`.
///
/// Names are compared, ordered and hashed by the bytes of their normal forms.
///
/// ```
/// let dev = [ExtraName::parse(rt.alloc(), "dev")?];
/// let marker = MarkerTree::parse_str::<VerbatimUrl>(TEXT, interner)?;
/// let left = marker.simplify_extras(interner, &dev)?;
/// println!(rt; "with dev: {}", left.view(interner))?;
/// ```
#[derive(Debug, Drop)]
pub struct ExtraName(String);

impl Model for ExtraName {
    ghost use Rattle.std.specs.Prelude.{List, ℕ, string_bytes};
    ghost use Rattle.pep508_names.specs.Name.{NormalizesTo};

    ghost Value = { List ℕ };

    ghost view = { λ name. string_bytes name.0 };

    ghost invariant = { λ name. NormalizesTo (string_bytes name.0) (string_bytes name.0) };
}

impl ExtraName {
    /// Parses a name in the memory of its text. A text in normal form is kept as it is; nothing is
    /// allocated.
    ///
    /// # Errors
    /// - [`Refusal::Fault`] with the text if it is an invalid name (PEP 508).
    pub fn new(text: String) -> Result<ExtraName, Refusal<InvalidNameError>>
        ensures read { IfOk result (λ name. NormalizesTo (string_bytes text) name) }
        ensures refused { IfErr result (λ refusal.
            (refusal ≡ Refusal.Fault (string_bytes text)) × ¬ IsName (string_bytes text)) }
    {
        match normal_form(text) {
            Ok(name) => Ok(ExtraName(name)),
            Err(error) => Err(Refusal::Fault(error)),
        }
    }

    /// Parses a name from a copy of the text.
    ///
    /// # Errors
    /// - [`Refusal::Fault`] with the text if it is an invalid name (PEP 508).
    /// - [`Refusal::OutOfMemory`] when memory runs out.
    pub fn parse(alloc: Global, text: &str) -> Result<ExtraName, Refusal<InvalidNameError>>
        ensures read { IfOk result (λ name. NormalizesTo text.now name) }
        ensures refused { IfErr result (λ refusal. IsNameRefusal text.now refusal) }
    {
        ExtraName::new(String::from_str(alloc, text)?)
    }

    /// Returns the normal form, which parses to the same name.
    pub fn as_str(&self) -> &str
        ensures text { result.now ≡ self.now }
        ensures normal { NormalizesTo result.now result.now }
    {
        &self.0
    }
}

impl fmt::Display for ExtraName {
    ghost use Rattle.std.specs.Prelude.{Some};

    ghost output = { λ name. Some name };

    fn fmt<W: fmt::Write>(&self, f: &mut fmt::Formatter<W>) -> fmt::Result {
        f.pad(self.as_str())
    }
}

impl Clone for ExtraName {
    ghost is_clone = { λ name copy. copy ≡ name };

    fn clone(&self) -> Result<ExtraName, AllocError> {
        Ok(ExtraName(self.0.clone()?))
    }
}

impl PartialEq for ExtraName {
    ghost use Rattle.std.specs.Prelude.{nat_eq, IsTrue, ◌↔◌};
    ghost use Rattle.std.specs.Cmp;
    ghost use Rattle.std.specs.Cmp.Lexicographic.{nat_list_eq_equiv, pointwise};

    ghost eq = { pointwise nat_eq };

    ghost laws = { Cmp.partial_equiv_from_equiv nat_list_eq_equiv };

    fn eq(&self, other: &ExtraName) -> bool
        ensures value { result ≡ pointwise nat_eq self.now other.now }
        ensures same { IsTrue result ↔ (self.now ≡ other.now) }
    {
        self.as_str() == other.as_str()
    }
}

impl Eq for ExtraName {
    ghost use Rattle.std.specs.Cmp.Lexicographic.{nat_list_eq_equiv};

    ghost laws = { nat_list_eq_equiv };
}

impl PartialOrd for ExtraName {
    ghost use Rattle.std.specs.Prelude.{Some};
    ghost use Rattle.std.specs.Ordering.{nat_cmp};
    ghost use Rattle.std.specs.Cmp.Lexicographic.{slice_cmp, texts_po};

    ghost partial_cmp = { λ a b. Some (slice_cmp nat_cmp a b) };

    ghost laws = { texts_po };

    fn partial_cmp(&self, other: &ExtraName) -> Option<Ordering> {
        Some(self.cmp(other))
    }
}

impl Ord for ExtraName {
    ghost use Rattle.std.specs.Prelude.{refl};
    ghost use Rattle.std.specs.Ordering.{nat_cmp};
    ghost use Rattle.std.specs.Cmp.Lexicographic.{nat_list_cmp_total, slice_cmp, texts_ties};

    ghost cmp = { slice_cmp nat_cmp };

    ghost total = { nat_list_cmp_total };

    ghost matches_partial_cmp = { λ a b. refl };

    ghost matches_eq = { texts_ties };

    fn cmp(&self, other: &ExtraName) -> Ordering {
        self.as_str().cmp(other.as_str())
    }
}

impl Hash for ExtraName {
    ghost use Rattle.std.specs.Hash as fed;
    ghost use Rattle.std.proofs.Common.{rules};
    ghost use Rattle.std.specs.Cmp.Rules.{hashing};

    ghost hash_input = { fed.str };

    ghost respects_eq = { Prim.search (hashing, rules) };

    fn hash<H: Hasher>(&self, state: &mut H) {
        self.as_str().hash(state);
    }
}

impl Described for ExtraName {
    ghost use Rattle.serde.specs.Event.{Logs, text};

    ghost writes = { λ name old new. Logs old new (text name) };
}

impl Serialize for ExtraName {
    fn serialize<S: Serializer>(&self, out: &mut S) -> Result<(), S::Error> {
        out.str(self.as_str())
    }
}

impl<'de> Deserialize<'de> for ExtraName {
    ghost use Rattle.serde.specs.Event.{text};
    ghost use Rattle.serde.specs.Steps.{Gives};

    fn deserialize<F: Format>(
        alloc: Global,
        from: &mut Deserializer<'de, '_, F>,
    ) -> Result<ExtraName, F::Error>
        ensures { IfOk result (λ name. (t : List ℕ)
            × NormalizesTo t name × Gives F.gives from.old (text t) from.new) }
    {
        DeserializeOwned::deserialize_owned(alloc, from)
    }
}

impl DeserializeOwned for ExtraName {
    ghost use Rattle.serde.specs.Event.{text};
    ghost use Rattle.serde.specs.Steps.{Gives};

    fn deserialize_owned<F: Format>(
        alloc: Global,
        from: &mut Deserializer<'_, '_, F>,
    ) -> Result<ExtraName, F::Error>
        ensures { IfOk result (λ name. (t : List ℕ)
            × NormalizesTo t name × Gives F.gives from.old (text t) from.new) }
    {
        Ok(ExtraName(next_name(alloc, from)?))
    }
}
