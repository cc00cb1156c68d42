//! The values of an environment that are given.

ghost use Rattle.std.specs.Prelude.{◌≡◌, IfOk, option_map};
ghost use Rattle.marker_walks.specs.declared.keys.EnvironmentKey.TheVariants.{Version as VersionKey};
ghost use Rattle.marker_commands.specs.Values.{given_value, same_key, AreGiven, IsGivenText, IsGivenVersion};

use crate::keys::GivenKey;
use marker_answers::KnownValues;
use marker_walks::EnvironmentKey;
use marker_words::{TextVariable, VersionVariable};
use pep440_version::{Version, VersionParseError};
use refusal::Refusal;
use std::alloc::{AllocError, Global};

/// A value that is given to a key. Of several for a key the first counts.
#[derive(Debug, Drop)]
pub struct Assignment {
    pub key: EnvironmentKey,
    pub value: String,
    /// Whether it is the value of `python_version`, which is taken for that of
    /// `python_full_version`.
    pub is_short: bool,
}

impl Assignment {
    /// Gives a value to a key.
    pub fn new(alloc: Global, key: GivenKey, value: &str) -> Result<Assignment, AllocError> {
        Ok(Assignment {
            key: key.key(),
            value: String::from_str(alloc, value)?,
            is_short: key == GivenKey::PythonVersion,
        })
    }
}

/// A value that is no version, though its key has versions.
#[derive(Debug, Drop)]
pub struct ValueFault {
    pub key: VersionVariable,
    pub error: VersionParseError,
}

// Whether two keys are the same.
fn is_same(key: EnvironmentKey, other: EnvironmentKey) -> bool
    ensures { result ≡ same_key key other }
{
    match other {
        EnvironmentKey::Version(variable) => key == EnvironmentKey::Version(variable),
        EnvironmentKey::Text(variable) => key == EnvironmentKey::Text(variable),
    }
}

// The value that a key is given, if there is one.
fn value_of(assignments: &[Assignment], key: EnvironmentKey) -> Option<&str>
    ensures { option_map (λ value. value.now) result ≡ given_value key assignments.now }
{
    let assignment = assignments
        .iter()
        .find(|assignment| is_same(assignment.key, key))?;
    Some(assignment.value.as_str())
}

// The value of a text key, if there is one.
fn text_value(
    alloc: Global,
    assignments: &[Assignment],
    variable: TextVariable,
) -> Result<Option<String>, AllocError>
    ensures { IfOk result (IsGivenText variable assignments.now) }
{
    match value_of(assignments, EnvironmentKey::Text(variable)) {
        Some(value) => {
            let value = String::from_str(alloc, value)?;
            Ok(Some(value))
        }
        None => Ok(None),
    }
}

// The value of a version key, if there is one.
fn version_value(
    alloc: Global,
    assignments: &[Assignment],
    variable: VersionVariable,
) -> Result<Option<Version>, Refusal<ValueFault>>
    ensures { IfOk result (IsGivenVersion (given_value (VersionKey variable) assignments.now)) }
{
    let Some(value) = value_of(assignments, EnvironmentKey::Version(variable)) else {
        return Ok(None);
    };
    match Version::parse(alloc, value) {
        Ok(version) => Ok(Some(version)),
        Err(Refusal::Fault(error)) => Err(Refusal::Fault(ValueFault {
            key: variable,
            error,
        })),
        Err(_) => Err(Refusal::OutOfMemory),
    }
}

/// Returns the values that keys are given.
///
/// # Errors
/// - [`Refusal::Fault`] if the value of a version key is no version.
/// - [`Refusal::OutOfMemory`] when memory runs out.
pub fn known_values(
    alloc: Global,
    assignments: &[Assignment],
) -> Result<KnownValues, Refusal<ValueFault>>
    ensures { IfOk result (AreGiven assignments.now) }
{
    let text = |variable| text_value(alloc, assignments, variable);
    let python = version_value(alloc, assignments, VersionVariable::PythonFullVersion)?;
    let own = version_value(alloc, assignments, VersionVariable::ImplementationVersion)?;
    Ok(KnownValues {
        implementation_name: text(TextVariable::ImplementationName)?,
        implementation_version: own,
        os_name: text(TextVariable::OsName)?,
        platform_machine: text(TextVariable::PlatformMachine)?,
        platform_python_implementation: text(TextVariable::PlatformPythonImplementation)?,
        platform_release: text(TextVariable::PlatformRelease)?,
        platform_system: text(TextVariable::PlatformSystem)?,
        platform_version: text(TextVariable::PlatformVersion)?,
        python_full_version: python,
        sys_platform: text(TextVariable::SysPlatform)?,
    })
}
