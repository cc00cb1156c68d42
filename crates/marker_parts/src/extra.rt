//! The text that `extra` is compared with.

ghost use Rattle.std.specs.Prelude.{◌≡◌};

use pep508_names::ExtraName;
use std::alloc::AllocError;
use std::fmt;
use std::fmt::Display;

/// The text that `extra` is compared with.
#[derive(Debug, PartialEq, Eq, PartialOrd, Ord, Hash, Drop)]
pub enum MarkerValueExtra {
    /// A name of an extra.
    Extra(ExtraName),
    /// A text that is an invalid name, which no list of extras contains.
    Arbitrary(String),
}

impl Display for MarkerValueExtra {
    ghost use Rattle.std.specs.Prelude.{Some};
    ghost use Rattle.marker_parts.specs.Print.{extra_text};

    ghost output = { λ value. Some (extra_text value) };

    fn fmt<W: fmt::Write>(&self, f: &mut fmt::Formatter<W>) -> fmt::Result {
        f.pad(self.text())
    }
}

impl Clone for MarkerValueExtra {
    ghost use Rattle.marker_parts.specs.Expression.{extra_of};

    ghost is_clone = { λ value clone. extra_of clone ≡ extra_of value };

    fn clone(&self) -> Result<MarkerValueExtra, AllocError> {
        match self {
            MarkerValueExtra::Extra(name) => Ok(MarkerValueExtra::Extra(name.clone()?)),
            MarkerValueExtra::Arbitrary(text) => Ok(MarkerValueExtra::Arbitrary(text.clone()?)),
        }
    }
}

impl MarkerValueExtra {
    ghost use Rattle.marker_parts.specs.Print.{extra_text};

    pub(crate) fn text(&self) -> &str
        ensures { result.now ≡ extra_text self.now }
    {
        match self {
            MarkerValueExtra::Extra(name) => name.as_str(),
            MarkerValueExtra::Arbitrary(text) => text.as_str(),
        }
    }
}
