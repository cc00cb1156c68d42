//! The text of a specifier.

ghost use Rattle.std.specs.Prelude.{Some};
ghost use Rattle.pep440_specifier.specs.Text.{specifier_text};

use crate::specifier::VersionSpecifier;
use std::fmt;

/// Writes the operator, the normal text of the version, and `.*` for a star: `==3.9.*`.
impl fmt::Display for VersionSpecifier {
    ghost output = { λ s. Some (specifier_text s) };

    fn fmt<W: fmt::Write>(&self, f: &mut fmt::Formatter<W>) -> fmt::Result {
        let (operator, version) = (self.operator, &self.version);
        write!(f, "{operator}{version}")?;
        if operator.is_star() {
            f.write_str(".*")?;
        }
        Ok(())
    }
}
