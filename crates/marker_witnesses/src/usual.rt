//! Values that keys often have.

use marker_environment::MarkerEnvironmentBuilder;
use marker_words::TextVariable;

/// The environment whose values the keys keep that a marker does not depend on.
pub(crate) const USUAL: MarkerEnvironmentBuilder<'static> = MarkerEnvironmentBuilder {
    implementation_name: "cpython",
    implementation_version: "3.13.0",
    os_name: "posix",
    platform_machine: "x86_64",
    platform_python_implementation: "CPython",
    platform_release: "6.1.0",
    platform_system: "Linux",
    platform_version: "#1 SMP",
    python_full_version: "3.13.0",
    python_version: "3.13",
    sys_platform: "linux",
};

static VERSIONS: [&str; 9] = [
    "3.13.0", "3.12.0", "3.11.0", "3.10.0", "3.9.0", "3.8.0", "3.7.0", "3.6.0", "2.7.0",
];

static IMPLEMENTATION_NAMES: [&str; 2] = ["cpython", "pypy"];

static OS_NAMES: [&str; 3] = ["posix", "nt", "java"];

static MACHINES: [&str; 4] = ["x86_64", "aarch64", "arm64", "AMD64"];

static IMPLEMENTATIONS: [&str; 2] = ["CPython", "PyPy"];

static RELEASES: [&str; 2] = ["6.1.0", "10"];

static SYSTEMS: [&str; 3] = ["Linux", "Darwin", "Windows"];

static SYSTEM_VERSIONS: [&str; 1] = ["#1 SMP"];

static PLATFORMS: [&str; 3] = ["linux", "darwin", "win32"];

/// Returns the versions that Python often has, the latest first.
pub(crate) fn usual_versions() -> &'static [&'static str] {
    &VERSIONS
}

/// Returns the values that a text key often has, that of the usual environment first.
pub(crate) fn usual_texts(variable: TextVariable) -> &'static [&'static str] {
    match variable {
        TextVariable::ImplementationName => &IMPLEMENTATION_NAMES,
        TextVariable::OsName => &OS_NAMES,
        TextVariable::PlatformMachine => &MACHINES,
        TextVariable::PlatformPythonImplementation => &IMPLEMENTATIONS,
        TextVariable::PlatformRelease => &RELEASES,
        TextVariable::PlatformSystem => &SYSTEMS,
        TextVariable::PlatformVersion => &SYSTEM_VERSIONS,
        TextVariable::SysPlatform => &PLATFORMS,
    }
}
