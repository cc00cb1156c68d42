//! The error of an invalid name.

ghost use Rattle.std.specs.Prelude.{◌≡◌, string_bytes};

use std::error::Error;
use std::fmt;
use std::marker::Model;

/// An invalid name of a package or an extra.
#[derive(Debug, Drop)]
pub struct InvalidNameError(String);

impl Model for InvalidNameError {
    ghost use Rattle.std.specs.Prelude.{List, ℕ, string_bytes};

    ghost Value = { List ℕ };

    ghost view = { λ error. string_bytes error.0 };
}

impl InvalidNameError {
    pub(crate) fn new(text: String) -> InvalidNameError
        ensures { result ≡ string_bytes text }
    {
        InvalidNameError(text)
    }

    /// Returns the refused text.
    pub fn as_str(&self) -> &str
        ensures { result.now ≡ self.now }
    {
        &self.0
    }
}

impl fmt::Display for InvalidNameError {
    ghost use Rattle.std.specs.Prelude.{Some};
    ghost use Rattle.pep508_names.specs.Fault.{invalid_name_text};

    ghost output = { λ error. Some (invalid_name_text error) };

    fn fmt<W: fmt::Write>(&self, f: &mut fmt::Formatter<W>) -> fmt::Result {
        let text = self.as_str();
        write!(
            f,
            "Not a valid package or extra name: \"{text}\". Names must start and end with a letter or digit and may only contain -, _, ., and alphanumeric characters."
        )
    }
}

impl Error for InvalidNameError {}

impl PartialEq for InvalidNameError {
    ghost use Rattle.std.specs.Prelude.{nat_eq, IsTrue, ◌↔◌};
    ghost use Rattle.std.specs.Cmp;
    ghost use Rattle.std.specs.Cmp.Lexicographic.{nat_list_eq_equiv, pointwise};

    ghost eq = { pointwise nat_eq };

    ghost laws = { Cmp.partial_equiv_from_equiv nat_list_eq_equiv };

    fn eq(&self, other: &InvalidNameError) -> bool
        ensures value { result ≡ pointwise nat_eq self.now other.now }
        ensures same { IsTrue result ↔ (self.now ≡ other.now) }
    {
        self.as_str() == other.as_str()
    }
}

impl Eq for InvalidNameError {
    ghost use Rattle.std.specs.Cmp.Lexicographic.{nat_list_eq_equiv};

    ghost laws = { nat_list_eq_equiv };
}
