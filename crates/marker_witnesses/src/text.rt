//! How examples are written.

ghost use Rattle.std.specs.Prelude.{◌≡◌, OnOk, string_bytes};
ghost use Rattle.marker_witnesses.specs.Text.{and_then, comparison};

use crate::example::Example;
use marker_walks::EnvironmentKey;
use marker_words::Quoted;
use std::alloc::{AllocError, Global};
use std::fmt::Write;

// Appends a comparison of a marker.
fn add_comparison(
    output: &mut String,
    key: &str,
    operator: &str,
    value: &str,
) -> Result<(), AllocError>
    ensures { OnOk result (string_bytes output.new
        ≡ and_then (string_bytes output.old) (comparison key.now operator.now value.now)) }
{
    if !output.is_empty() {
        output.push_str(" and ")?;
    }
    write!(output, "{key} {operator} {}", Quoted(value))
}

impl Example {
    ghost use Rattle.std.specs.Prelude.{◌≡◌, IfOk, string_bytes};
    ghost use Rattle.marker_witnesses.specs.Text.{example_text, value_of};

    // The value of a key.
    fn value(&self, key: EnvironmentKey) -> &str
        ensures { result.now ≡ value_of self.now key }
    {
        match key {
            EnvironmentKey::Version(variable) => {
                &self.environment.string_version(variable.key()).string
            }
            EnvironmentKey::Text(variable) => self.environment.text(variable),
        }
    }

    /// Returns the example as a marker: `KEY == 'VALUE'` for each key whose value was chosen, and
    /// `extra == 'NAME'` or `extra != 'NAME'` for each extra that must or must not be requested.
    /// The text is empty if the marker depends on nothing.
    pub fn marker_text(&self, alloc: Global) -> Result<String, AllocError>
        ensures { IfOk result (λ text. string_bytes text ≡ example_text self.now) }
    {
        let mut output = String::new(alloc);
        for key in &self.keys {
            add_comparison(&mut output, key.name(), "==", self.value(*key))?;
        }
        for extra in &self.extras {
            add_comparison(&mut output, "extra", "==", extra.as_str())?;
        }
        for name in &self.without {
            add_comparison(&mut output, "extra", "!=", name.as_str())?;
        }
        Ok(output)
    }
}
