//! The keys of environments (PEP 508, "Environment Markers").

ghost use Rattle.std.specs.Prelude.{◌≡◌, Some};
ghost use Rattle.marker_words.specs.Key.{variable_of, variable_name, version_key_name, version_variable_key, version_variable_name};

use std::fmt;
use std::fmt::Display;

/// A key whose value is a version, such as `python_version`.
#[derive(Clone, Copy, Debug, PartialEq, Eq, PartialOrd, Ord, Hash)]
pub enum MarkerValueVersion {
    /// `implementation_version`
    ImplementationVersion,
    /// `python_full_version`
    PythonFullVersion,
    /// `python_version`
    PythonVersion,
}

impl Display for MarkerValueVersion {
    ghost output = { λ key. Some (version_key_name key) };

    fn fmt<W: fmt::Write>(&self, f: &mut fmt::Formatter<W>) -> fmt::Result {
        f.write_str(match self {
            MarkerValueVersion::ImplementationVersion => "implementation_version",
            MarkerValueVersion::PythonFullVersion => "python_full_version",
            MarkerValueVersion::PythonVersion => "python_version",
        })
    }
}

/// A key whose value is a text, such as `sys_platform`. A deprecated key (PEP 345, and
/// `python_implementation`) is another spelling of a modern one and prints by the modern name.
#[derive(Clone, Copy, Debug, PartialEq, Eq, PartialOrd, Ord, Hash)]
pub enum MarkerValueString {
    /// `implementation_name`
    ImplementationName,
    /// `os_name`
    OsName,
    /// The deprecated `os.name`
    OsNameDeprecated,
    /// `platform_machine`
    PlatformMachine,
    /// The deprecated `platform.machine`
    PlatformMachineDeprecated,
    /// `platform_python_implementation`
    PlatformPythonImplementation,
    /// The deprecated `platform.python_implementation`
    PlatformPythonImplementationDeprecated,
    /// The deprecated `python_implementation`
    PythonImplementationDeprecated,
    /// `platform_release`
    PlatformRelease,
    /// `platform_system`
    PlatformSystem,
    /// `platform_version`
    PlatformVersion,
    /// The deprecated `platform.version`
    PlatformVersionDeprecated,
    /// `sys_platform`
    SysPlatform,
    /// The deprecated `sys.platform`
    SysPlatformDeprecated,
}

/// A text variable, named like its modern key. Each deprecated spelling reads the variable of its
/// modern key.
#[derive(Clone, Copy, Debug, PartialEq, Eq, PartialOrd, Ord, Hash)]
pub enum TextVariable {
    /// The variable of `implementation_name`
    ImplementationName,
    /// The variable of `os_name`
    OsName,
    /// The variable of `platform_machine`
    PlatformMachine,
    /// The variable of `platform_python_implementation`
    PlatformPythonImplementation,
    /// The variable of `platform_release`
    PlatformRelease,
    /// The variable of `platform_system`
    PlatformSystem,
    /// The variable of `platform_version`
    PlatformVersion,
    /// The variable of `sys_platform`
    SysPlatform,
}

/// A version variable. `python_version` has none: its comparisons become comparisons of
/// `python_full_version`.
#[derive(Clone, Copy, Debug, PartialEq, Eq, PartialOrd, Ord, Hash)]
pub enum VersionVariable {
    /// The variable of `implementation_version`
    ImplementationVersion,
    /// The variable of `python_full_version`, and of `python_version` by its first two numbers
    PythonFullVersion,
}

impl MarkerValueString {
    /// Returns the variable of the key.
    pub fn variable(self) -> TextVariable
        ensures { result ≡ variable_of self }
    {
        match self {
            MarkerValueString::ImplementationName => TextVariable::ImplementationName,
            MarkerValueString::OsName | MarkerValueString::OsNameDeprecated => TextVariable::OsName,
            MarkerValueString::PlatformMachine | MarkerValueString::PlatformMachineDeprecated => {
                TextVariable::PlatformMachine
            }
            MarkerValueString::PlatformPythonImplementation
            | MarkerValueString::PlatformPythonImplementationDeprecated
            | MarkerValueString::PythonImplementationDeprecated => {
                TextVariable::PlatformPythonImplementation
            }
            MarkerValueString::PlatformRelease => TextVariable::PlatformRelease,
            MarkerValueString::PlatformSystem => TextVariable::PlatformSystem,
            MarkerValueString::PlatformVersion | MarkerValueString::PlatformVersionDeprecated => {
                TextVariable::PlatformVersion
            }
            MarkerValueString::SysPlatform | MarkerValueString::SysPlatformDeprecated => {
                TextVariable::SysPlatform
            }
        }
    }
}

impl TextVariable {
    /// Returns the modern key as a text.
    pub fn name(self) -> &'static str
        ensures { result.now ≡ variable_name self }
    {
        match self {
            TextVariable::ImplementationName => "implementation_name",
            TextVariable::OsName => "os_name",
            TextVariable::PlatformMachine => "platform_machine",
            TextVariable::PlatformPythonImplementation => "platform_python_implementation",
            TextVariable::PlatformRelease => "platform_release",
            TextVariable::PlatformSystem => "platform_system",
            TextVariable::PlatformVersion => "platform_version",
            TextVariable::SysPlatform => "sys_platform",
        }
    }
}

impl Display for TextVariable {
    ghost output = { λ variable. Some (variable_name variable) };

    fn fmt<W: fmt::Write>(&self, f: &mut fmt::Formatter<W>) -> fmt::Result {
        f.write_str(self.name())
    }
}

impl VersionVariable {
    /// Returns the key of the variable.
    pub fn key(self) -> MarkerValueVersion
        ensures { result ≡ version_variable_key self }
    {
        match self {
            VersionVariable::ImplementationVersion => MarkerValueVersion::ImplementationVersion,
            VersionVariable::PythonFullVersion => MarkerValueVersion::PythonFullVersion,
        }
    }

    /// Returns the name of its key.
    pub fn name(self) -> &'static str
        ensures { result.now ≡ version_variable_name self }
    {
        match self {
            VersionVariable::ImplementationVersion => "implementation_version",
            VersionVariable::PythonFullVersion => "python_full_version",
        }
    }
}

impl Display for VersionVariable {
    ghost output = { λ variable. Some (version_variable_name variable) };

    fn fmt<W: fmt::Write>(&self, f: &mut fmt::Formatter<W>) -> fmt::Result {
        f.write_str(self.name())
    }
}

impl Display for MarkerValueString {
    ghost output = { λ key. Some (variable_name (variable_of key)) };

    fn fmt<W: fmt::Write>(&self, f: &mut fmt::Formatter<W>) -> fmt::Result {
        f.write_str(self.variable().name())
    }
}
