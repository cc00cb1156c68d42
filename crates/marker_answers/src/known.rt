//! Values of an environment, of which some are known.

use marker_words::{TextVariable, VersionVariable};
use pep440_version::Version;

/// The values of the keys that are known. `python_version` is none of them: its comparisons are
/// those of `python_full_version`.
#[derive(Debug, Drop)]
pub struct KnownValues {
    pub implementation_name: Option<String>,
    pub implementation_version: Option<Version>,
    pub os_name: Option<String>,
    pub platform_machine: Option<String>,
    pub platform_python_implementation: Option<String>,
    pub platform_release: Option<String>,
    pub platform_system: Option<String>,
    pub platform_version: Option<String>,
    pub python_full_version: Option<Version>,
    pub sys_platform: Option<String>,
}

impl KnownValues {
    ghost use Rattle.std.specs.Prelude.{◌≡◌, None, Some, option_map, string_bytes};
    ghost use Rattle.marker_answers.specs.Known.{known_text, known_version};

    /// No value is known.
    pub const NONE: KnownValues = KnownValues {
        implementation_name: None,
        implementation_version: None,
        os_name: None,
        platform_machine: None,
        platform_python_implementation: None,
        platform_release: None,
        platform_system: None,
        platform_version: None,
        python_full_version: None,
        sys_platform: None,
    };

    /// The value of a text key, if it is known.
    pub fn text(&self, variable: TextVariable) -> Option<&String>
        ensures { option_map (λ text. string_bytes text.now) result
            ≡ known_text self.now variable }
    {
        match variable {
            TextVariable::ImplementationName => self.implementation_name.as_ref(),
            TextVariable::OsName => self.os_name.as_ref(),
            TextVariable::PlatformMachine => self.platform_machine.as_ref(),
            TextVariable::PlatformPythonImplementation => {
                self.platform_python_implementation.as_ref()
            }
            TextVariable::PlatformRelease => self.platform_release.as_ref(),
            TextVariable::PlatformSystem => self.platform_system.as_ref(),
            TextVariable::PlatformVersion => self.platform_version.as_ref(),
            TextVariable::SysPlatform => self.sys_platform.as_ref(),
        }
    }

    /// The value of a version key, if it is known.
    pub fn version(&self, variable: VersionVariable) -> Option<&Version>
        ensures { option_map (λ version. version.now) result ≡ known_version self.now variable }
    {
        match variable {
            VersionVariable::ImplementationVersion => self.implementation_version.as_ref(),
            VersionVariable::PythonFullVersion => self.python_full_version.as_ref(),
        }
    }
}
