//! The texts from which an environment is made.

use crate::string_version::StringVersion;
use marker_words::MarkerValueVersion;
use pep440_version::VersionParseError;
use refusal::Refusal;
use std::alloc::Global;

/// The texts of an environment, one for each modern key (PEP 508, "Environment Markers").
/// [`MarkerEnvironment::try_from`](crate::MarkerEnvironment::try_from) copies them, and rejects an
/// invalid version of one of the three version keys.
///
/// ```
/// const LINUX: MarkerEnvironmentBuilder<'static> = MarkerEnvironmentBuilder {
///     implementation_name: "cpython",
///     implementation_version: "3.12.1",
///     os_name: "posix",
///     platform_machine: "x86_64",
///     platform_python_implementation: "CPython",
///     platform_release: "6.1",
///     platform_system: "Linux",
///     platform_version: "#1",
///     python_full_version: "3.12.1",
///     python_version: "3.12",
///     sys_platform: "linux",
/// };
/// ```
#[derive(Clone, Copy, Debug, PartialEq, Eq, Hash)]
pub struct MarkerEnvironmentBuilder<'a> {
    /// Python's `sys.implementation.name`, such as `cpython`.
    pub implementation_name: &'a str,
    /// Python's `sys.implementation.version`, as the text of a version.
    pub implementation_version: &'a str,
    /// Python's `os.name`, such as `posix`.
    pub os_name: &'a str,
    /// Python's `platform.machine()`, such as `x86_64`.
    pub platform_machine: &'a str,
    /// Python's `platform.python_implementation()`, such as `CPython`.
    pub platform_python_implementation: &'a str,
    /// Python's `platform.release()`, such as `6.1`.
    pub platform_release: &'a str,
    /// Python's `platform.system()`, such as `Linux`.
    pub platform_system: &'a str,
    /// Python's `platform.version()`.
    pub platform_version: &'a str,
    /// Python's `platform.python_version()`, as the text of a version.
    pub python_full_version: &'a str,
    /// The first two numbers of Python's version, as the text of a version. Markers do not read it:
    /// they compare `python_version` through `python_full_version`.
    pub python_version: &'a str,
    /// Python's `sys.platform`, such as `linux`.
    pub sys_platform: &'a str,
}

impl MarkerEnvironmentBuilder<'_> {
    ghost use Rattle.std.specs.Prelude.{IfErr, IfOk};
    ghost use Rattle.marker_environment.specs.Written.{SaysVersion};
    ghost use Rattle.marker_environment.specs.Environment.{version_texts_of, IsRefusal};

    // The version of the key's text.
    #[tactic(auto, using(crate::proofs::EnvironmentLaws::refused))]
    pub(crate) fn version(
        &self,
        alloc: Global,
        key: MarkerValueVersion,
    ) -> Result<StringVersion, Refusal<VersionParseError>>
        ensures says { IfOk result (SaysVersion (version_texts_of self.now key)) }
        ensures refused { IfErr result (IsRefusal self.now) }
    {
        let text = match key {
            MarkerValueVersion::ImplementationVersion => self.implementation_version,
            MarkerValueVersion::PythonFullVersion => self.python_full_version,
            MarkerValueVersion::PythonVersion => self.python_version,
        };
        StringVersion::parse(alloc, text)
    }
}
