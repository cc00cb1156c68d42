//! The values of an interpreter and its platform.

use crate::builder::MarkerEnvironmentBuilder;
use crate::string_version::StringVersion;
use marker_words::{MarkerValueString, MarkerValueVersion, TextVariable};
use pep440_version::{Version, VersionParseError};
use refusal::Refusal;
use serde::{Deserialize, Serialize};
use std::alloc::{AllocError, Global};

/// The values of an interpreter and its platform, one for each modern key (PEP 508, "Environment
/// Markers").
///
/// ```
/// let win32 = String::from_str(alloc, "win32")?;
/// let linux = MarkerEnvironment::try_from(alloc, LINUX)?;
/// in_environment(rt, &linux, dev, interner)?;
/// let windows = linux.with_sys_platform(win32);
/// in_environment(rt, &windows, dev, interner)
/// ```
///
/// where `in_environment` evaluates a marker:
///
/// ```
/// let with_dev = marker.evaluate(interner, environment, dev);
/// let without = marker.evaluate(interner, environment, &[]);
/// ```
#[derive(Debug, PartialEq, Eq, Hash, Drop, Serialize, Deserialize)]
pub struct MarkerEnvironment {
    implementation_name: String,
    implementation_version: StringVersion,
    os_name: String,
    platform_machine: String,
    platform_python_implementation: String,
    platform_release: String,
    platform_system: String,
    platform_version: String,
    python_full_version: StringVersion,
    python_version: StringVersion,
    sys_platform: String,
}

impl MarkerEnvironment {
    ghost use Rattle.std.specs.Prelude.{◌≡◌, IfErr, IfOk};
    ghost use Rattle.marker_words.specs.declared.key.MarkerValueVersion.{MarkerValueVersion};
    ghost use Rattle.marker_words.specs.declared.key.TextVariable.{TextVariable};
    ghost use Rattle.marker_words.specs.Key.{variable_of};
    ghost use Rattle.marker_environment.specs.Environment.{text_of, version_of, values_of, IsRefusal, ChangesText, ChangesVersion, HasTextsOf, HasVersionsOf, IsVersionOf};

    /// Returns an environment with copies of the builder's texts, and the versions of the version
    /// keys.
    ///
    /// # Errors
    /// - [`Refusal::Fault`] if the text of a version key is an invalid version, with its fault.
    /// - [`Refusal::OutOfMemory`] when memory runs out.
    pub fn try_from(
        alloc: Global,
        builder: MarkerEnvironmentBuilder<'_>,
    ) -> Result<MarkerEnvironment, Refusal<VersionParseError>>
        ensures texts { IfOk result (HasTextsOf builder.entry) }
        ensures versions { IfOk result (HasVersionsOf builder.entry) }
        ensures refused { IfErr result (IsRefusal builder.entry) }
    {
        // The versions come last, so that few early returns have them to drop.
        Ok(MarkerEnvironment {
            implementation_name: String::from_str(alloc, builder.implementation_name)?,
            os_name: String::from_str(alloc, builder.os_name)?,
            platform_machine: String::from_str(alloc, builder.platform_machine)?,
            platform_python_implementation: String::from_str(
                alloc,
                builder.platform_python_implementation,
            )?,
            platform_release: String::from_str(alloc, builder.platform_release)?,
            platform_system: String::from_str(alloc, builder.platform_system)?,
            platform_version: String::from_str(alloc, builder.platform_version)?,
            sys_platform: String::from_str(alloc, builder.sys_platform)?,
            implementation_version: builder.version(
                alloc,
                MarkerValueVersion::ImplementationVersion,
            )?,
            python_full_version: builder.version(alloc, MarkerValueVersion::PythonFullVersion)?,
            python_version: builder.version(alloc, MarkerValueVersion::PythonVersion)?,
        })
    }

    /// Returns the value of the variable.
    pub fn text(&self, variable: TextVariable) -> &str
        ensures { result.now ≡ text_of self.now variable }
    {
        match variable {
            TextVariable::ImplementationName => &self.implementation_name,
            TextVariable::OsName => &self.os_name,
            TextVariable::PlatformMachine => &self.platform_machine,
            TextVariable::PlatformPythonImplementation => &self.platform_python_implementation,
            TextVariable::PlatformRelease => &self.platform_release,
            TextVariable::PlatformSystem => &self.platform_system,
            TextVariable::PlatformVersion => &self.platform_version,
            TextVariable::SysPlatform => &self.sys_platform,
        }
    }

    /// Returns the value of the version key.
    pub fn string_version(&self, key: MarkerValueVersion) -> &StringVersion
        ensures { IsVersionOf self.now key result.now }
    {
        match key {
            MarkerValueVersion::ImplementationVersion => &self.implementation_version,
            MarkerValueVersion::PythonFullVersion => &self.python_full_version,
            MarkerValueVersion::PythonVersion => &self.python_version,
        }
    }

    /// Returns the value of the version key as a version; of `python_version`, the environment's
    /// own.
    pub fn get_version(&self, key: &MarkerValueVersion) -> &Version
        ensures { result.now ≡ (version_of self.now key.now).version }
    {
        &self.string_version(*key).version
    }

    /// Returns the value of the key; of a deprecated key, that of the modern one.
    pub fn get_string(&self, key: &MarkerValueString) -> &str
        ensures { result.now ≡ text_of self.now (variable_of key.now) }
    {
        self.text(key.variable())
    }

    /// Returns the value of `implementation_name`, Python's `sys.implementation.name`.
    pub fn implementation_name(&self) -> &str
        ensures { result.now ≡ text_of self.now TextVariable.ImplementationName }
    {
        &self.implementation_name
    }

    /// Returns the value of `implementation_version`, Python's `sys.implementation.version`.
    pub fn implementation_version(&self) -> &StringVersion
        ensures { IsVersionOf self.now MarkerValueVersion.ImplementationVersion result.now }
    {
        &self.implementation_version
    }

    /// Returns the value of `os_name`, Python's `os.name`.
    pub fn os_name(&self) -> &str
        ensures { result.now ≡ text_of self.now TextVariable.OsName }
    {
        &self.os_name
    }

    /// Returns the value of `platform_machine`, Python's `platform.machine()`.
    pub fn platform_machine(&self) -> &str
        ensures { result.now ≡ text_of self.now TextVariable.PlatformMachine }
    {
        &self.platform_machine
    }

    /// Returns the value of `platform_python_implementation`, Python's
    /// `platform.python_implementation()`.
    pub fn platform_python_implementation(&self) -> &str
        ensures { result.now ≡ text_of self.now TextVariable.PlatformPythonImplementation }
    {
        &self.platform_python_implementation
    }

    /// Returns the value of `platform_release`, Python's `platform.release()`.
    pub fn platform_release(&self) -> &str
        ensures { result.now ≡ text_of self.now TextVariable.PlatformRelease }
    {
        &self.platform_release
    }

    /// Returns the value of `platform_system`, Python's `platform.system()`.
    pub fn platform_system(&self) -> &str
        ensures { result.now ≡ text_of self.now TextVariable.PlatformSystem }
    {
        &self.platform_system
    }

    /// Returns the value of `platform_version`, Python's `platform.version()`.
    pub fn platform_version(&self) -> &str
        ensures { result.now ≡ text_of self.now TextVariable.PlatformVersion }
    {
        &self.platform_version
    }

    /// Returns the value of `python_full_version`, Python's `platform.python_version()`.
    pub fn python_full_version(&self) -> &StringVersion
        ensures { IsVersionOf self.now MarkerValueVersion.PythonFullVersion result.now }
    {
        &self.python_full_version
    }

    /// Returns the value of `python_version`, the first two of Python's
    /// `platform.python_version_tuple()`.
    pub fn python_version(&self) -> &StringVersion
        ensures { IsVersionOf self.now MarkerValueVersion.PythonVersion result.now }
    {
        &self.python_version
    }

    /// Returns the value of `sys_platform`, Python's `sys.platform`.
    pub fn sys_platform(&self) -> &str
        ensures { result.now ≡ text_of self.now TextVariable.SysPlatform }
    {
        &self.sys_platform
    }

    /// Changes the value of the variable.
    pub fn set_string(&mut self, variable: TextVariable, value: String)
        ensures { ChangesText self.old self.new variable value }
    {
        match variable {
            TextVariable::ImplementationName => self.implementation_name = value,
            TextVariable::OsName => self.os_name = value,
            TextVariable::PlatformMachine => self.platform_machine = value,
            TextVariable::PlatformPythonImplementation => {
                self.platform_python_implementation = value;
            }
            TextVariable::PlatformRelease => self.platform_release = value,
            TextVariable::PlatformSystem => self.platform_system = value,
            TextVariable::PlatformVersion => self.platform_version = value,
            TextVariable::SysPlatform => self.sys_platform = value,
        }
    }

    /// Changes the value of the version key.
    pub fn set_version(&mut self, key: MarkerValueVersion, value: StringVersion)
        ensures { ChangesVersion self.old self.new key value }
    {
        match key {
            MarkerValueVersion::ImplementationVersion => self.implementation_version = value,
            MarkerValueVersion::PythonFullVersion => self.python_full_version = value,
            MarkerValueVersion::PythonVersion => self.python_version = value,
        }
    }

    /// Returns the environment with another value of the variable.
    pub fn with_string(self, variable: TextVariable, value: String) -> MarkerEnvironment
        ensures { ChangesText self result variable value }
    {
        let mut environment = self;
        environment.set_string(variable, value);
        environment
    }

    /// Returns the environment with another value of the version key.
    pub fn with_version(self, key: MarkerValueVersion, value: StringVersion) -> MarkerEnvironment
        ensures { ChangesVersion self result key value }
    {
        let mut environment = self;
        environment.set_version(key, value);
        environment
    }

    /// Returns the environment with another value of `implementation_name`.
    pub fn with_implementation_name(self, value: String) -> MarkerEnvironment
        ensures { ChangesText self result TextVariable.ImplementationName value }
    {
        self.with_string(TextVariable::ImplementationName, value)
    }

    /// Returns the environment with another value of `implementation_version`.
    pub fn with_implementation_version(self, value: StringVersion) -> MarkerEnvironment
        ensures { ChangesVersion self result MarkerValueVersion.ImplementationVersion value }
    {
        self.with_version(MarkerValueVersion::ImplementationVersion, value)
    }

    /// Returns the environment with another value of `os_name`.
    pub fn with_os_name(self, value: String) -> MarkerEnvironment
        ensures { ChangesText self result TextVariable.OsName value }
    {
        self.with_string(TextVariable::OsName, value)
    }

    /// Returns the environment with another value of `platform_machine`.
    pub fn with_platform_machine(self, value: String) -> MarkerEnvironment
        ensures { ChangesText self result TextVariable.PlatformMachine value }
    {
        self.with_string(TextVariable::PlatformMachine, value)
    }

    /// Returns the environment with another value of `platform_python_implementation`.
    pub fn with_platform_python_implementation(self, value: String) -> MarkerEnvironment
        ensures { ChangesText self result TextVariable.PlatformPythonImplementation value }
    {
        self.with_string(TextVariable::PlatformPythonImplementation, value)
    }

    /// Returns the environment with another value of `platform_release`.
    pub fn with_platform_release(self, value: String) -> MarkerEnvironment
        ensures { ChangesText self result TextVariable.PlatformRelease value }
    {
        self.with_string(TextVariable::PlatformRelease, value)
    }

    /// Returns the environment with another value of `platform_system`.
    pub fn with_platform_system(self, value: String) -> MarkerEnvironment
        ensures { ChangesText self result TextVariable.PlatformSystem value }
    {
        self.with_string(TextVariable::PlatformSystem, value)
    }

    /// Returns the environment with another value of `platform_version`.
    pub fn with_platform_version(self, value: String) -> MarkerEnvironment
        ensures { ChangesText self result TextVariable.PlatformVersion value }
    {
        self.with_string(TextVariable::PlatformVersion, value)
    }

    /// Returns the environment with another value of `python_full_version`.
    pub fn with_python_full_version(self, value: StringVersion) -> MarkerEnvironment
        ensures { ChangesVersion self result MarkerValueVersion.PythonFullVersion value }
    {
        self.with_version(MarkerValueVersion::PythonFullVersion, value)
    }

    /// Returns the environment with another value of `python_version`.
    pub fn with_python_version(self, value: StringVersion) -> MarkerEnvironment
        ensures { ChangesVersion self result MarkerValueVersion.PythonVersion value }
    {
        self.with_version(MarkerValueVersion::PythonVersion, value)
    }

    /// Returns the environment with another value of `sys_platform`.
    pub fn with_sys_platform(self, value: String) -> MarkerEnvironment
        ensures { ChangesText self result TextVariable.SysPlatform value }
    {
        self.with_string(TextVariable::SysPlatform, value)
    }
}

/// A clone has each value of its source.
impl Clone for MarkerEnvironment {
    ghost use Rattle.marker_environment.specs.Environment.{values_of, HasSameValues};

    ghost is_clone = { λ environment clone.
        HasSameValues (values_of clone) (values_of environment) };

    fn clone(&self) -> Result<MarkerEnvironment, AllocError> {
        // The versions come last, as above.
        Ok(MarkerEnvironment {
            implementation_name: self.implementation_name.clone()?,
            os_name: self.os_name.clone()?,
            platform_machine: self.platform_machine.clone()?,
            platform_python_implementation: self.platform_python_implementation.clone()?,
            platform_release: self.platform_release.clone()?,
            platform_system: self.platform_system.clone()?,
            platform_version: self.platform_version.clone()?,
            sys_platform: self.sys_platform.clone()?,
            implementation_version: self.implementation_version.clone()?,
            python_full_version: self.python_full_version.clone()?,
            python_version: self.python_version.clone()?,
        })
    }
}
