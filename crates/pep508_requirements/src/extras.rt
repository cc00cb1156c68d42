//! Lists of extras.

ghost use Rattle.std.specs.Prelude.{◌≡◌, IfErr, IfOk, List, ℕ};
ghost use Rattle.std.specs.Str.{chars};
ghost use Rattle.requirement_words.specs.Extras.{HasNoExtras, IsExtras};
ghost use Rattle.requirement_words.specs.Fault.{FindsInExtras};
ghost use Rattle.pep508_requirements.specs.Refused.{IsRefusedBy};

use crate::error::refusal_of_fault;
use pep508_errors::{Pep508Error, Pep508Url};
use pep508_names::ExtraName;
use refusal::Refusal;
use requirement_words::read_extras;
use std::alloc::Global;

/// Extras of a package.
#[derive(Clone, Debug, PartialEq, Eq, Hash, Drop)]
pub struct Extras {
    names: Vec<ExtraName>,
}

impl Extras {
    /// Parses the extras in brackets at the front of a text, and ignores what follows them. Without
    /// an opening bracket there are none.
    ///
    /// # Errors
    /// - [`Refusal::Fault`] if the text begins with a bracket and an invalid list, with what is
    ///   wrong and where.
    pub fn parse<T: Pep508Url>(alloc: Global, text: &str) -> Result<Extras, Refusal<Pep508Error<T>>>
        ensures found { IfOk result (λ extras.
            (rest : List ℕ) × IsExtras (chars text.now) rest extras.names.items) }
        ensures refused { IfErr result
            (IsRefusedBy (FindsInExtras (chars text.now)) (HasNoExtras (chars text.now)) text.now) }
    {
        match read_extras(alloc, text) {
            Ok((names, _)) => Ok(Extras { names }),
            Err(Refusal::Fault(fault)) => Err(refusal_of_fault(alloc, text, fault)),
            Err(_) => Err(Refusal::OutOfMemory),
        }
    }

    /// Returns the names, in the order of the text.
    pub fn as_slice(&self) -> &[ExtraName]
        ensures { result.now ≡ self.now.names.items }
    {
        self.names.as_slice()
    }
}
