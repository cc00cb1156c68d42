//! The keys whose values can be given.

ghost use Rattle.std.specs.Prelude.{◌≡◌};

use marker_walks::EnvironmentKey;
use marker_words::VersionVariable;

/// A key whose value can be given.
#[derive(Clone, Copy, Debug, PartialEq, Eq)]
pub enum GivenKey {
    /// A key that markers branch on.
    Key(EnvironmentKey),
    /// `python_version`, whose comparisons are those of `python_full_version`.
    PythonVersion,
}

impl GivenKey {
    /// The key that markers branch on.
    pub fn key(self) -> EnvironmentKey {
        match self {
            GivenKey::Key(key) => key,
            GivenKey::PythonVersion => EnvironmentKey::Version(VersionVariable::PythonFullVersion),
        }
    }
}

/// Returns the key of this name, or `None` if there is none.
pub fn key_named(name: &str) -> Option<GivenKey> {
    if name == "python_version" {
        return Some(GivenKey::PythonVersion);
    }
    for key in EnvironmentKey::ALL {
        if key.name() == name {
            return Some(GivenKey::Key(key));
        }
    }
    None
}
