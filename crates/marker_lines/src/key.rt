//! The keys that a line can set.

ghost use Rattle.std.specs.Prelude.{◌≡◌, MatchOption};
ghost use Rattle.marker_lines.specs.Key.{key_name, IsNoKey};

use marker_words::{MarkerValue, MarkerValueVersion, TextVariable};

// A key of an environment, without the deprecated ones.
#[derive(Clone, Copy)]
pub(crate) enum EnvironmentKey {
    Text(TextVariable),
    Version(MarkerValueVersion),
}

impl EnvironmentKey {
    // The key with this modern name.
    pub(crate) fn parse(name: &str) -> Option<EnvironmentKey>
        ensures { MatchOption result (IsNoKey name.now) (λ key. name.now ≡ key_name key) }
    {
        let Some(value) = MarkerValue::parse(name) else {
            return None;
        };
        match value {
            MarkerValue::MarkerEnvVersion(key) => Some(EnvironmentKey::Version(key)),
            MarkerValue::MarkerEnvString(key) if key.variable().name() == name => {
                Some(EnvironmentKey::Text(key.variable()))
            }
            MarkerValue::MarkerEnvString(_) | MarkerValue::Extra | MarkerValue::QuotedString(_) => {
                None
            }
        }
    }
}
