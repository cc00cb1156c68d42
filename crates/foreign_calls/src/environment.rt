//! Environments and extras as another language has them.

ghost use Rattle.std.specs.Prelude.{IfErr, IfOk};
ghost use Rattle.marker_environment.specs.Environment.{values_of};
ghost use Rattle.pep508_names.specs.Name.{NormalizesTo};
ghost use Rattle.foreign_calls.specs.Environment.{AreGiven, HasSameTexts, Names, bytes_of};
ghost use Rattle.foreign_calls.specs.Refused.{IsOfArguments};

use crate::answer::Answer;
use crate::options::read_text;
use marker_environment::{MarkerEnvironment, MarkerEnvironmentBuilder};
use pep508_names::ExtraName;
use refusal::Refusal;
use std::alloc::Global;

/// The values of the keys of markers, as bytes.
#[repr(C)]
#[derive(Clone, Copy)]
pub struct Environment<'a> {
    /// Python's `sys.implementation.name`.
    pub implementation_name: &'a [u8],
    /// Python's `sys.implementation.version`, a version.
    pub implementation_version: &'a [u8],
    /// Python's `os.name`.
    pub os_name: &'a [u8],
    /// Python's `platform.machine()`.
    pub platform_machine: &'a [u8],
    /// Python's `platform.python_implementation()`.
    pub platform_python_implementation: &'a [u8],
    /// Python's `platform.release()`.
    pub platform_release: &'a [u8],
    /// Python's `platform.system()`.
    pub platform_system: &'a [u8],
    /// Python's `platform.version()`.
    pub platform_version: &'a [u8],
    /// Python's `platform.python_version()`, a version.
    pub python_full_version: &'a [u8],
    /// The first two numbers of Python's version, a version.
    pub python_version: &'a [u8],
    /// Python's `sys.platform`.
    pub sys_platform: &'a [u8],
}

// The texts of the values.
fn builder<'a>(values: &Environment<'a>) -> Result<MarkerEnvironmentBuilder<'a>, Answer>
    ensures same { IfOk result (λ builder. HasSameTexts values.now builder) }
    ensures refused { IfErr result IsOfArguments }
{
    Ok(MarkerEnvironmentBuilder {
        implementation_name: read_text(values.implementation_name)?,
        implementation_version: read_text(values.implementation_version)?,
        os_name: read_text(values.os_name)?,
        platform_machine: read_text(values.platform_machine)?,
        platform_python_implementation: read_text(values.platform_python_implementation)?,
        platform_release: read_text(values.platform_release)?,
        platform_system: read_text(values.platform_system)?,
        platform_version: read_text(values.platform_version)?,
        python_full_version: read_text(values.python_full_version)?,
        python_version: read_text(values.python_version)?,
        sys_platform: read_text(values.sys_platform)?,
    })
}

/// The environment with these values. `InvalidArgument` if one of a version key is no version.
pub fn read_environment(
    alloc: Global,
    values: &Environment<'_>,
) -> Result<MarkerEnvironment, Answer>
    ensures given { IfOk result (λ environment. AreGiven values.now (values_of environment)) }
    ensures refused { IfErr result IsOfArguments }
{
    match MarkerEnvironment::try_from(alloc, builder(values)?) {
        Ok(environment) => Ok(environment),
        Err(Refusal::Fault(_)) => Err(Answer::InvalidArgument),
        Err(Refusal::OutOfMemory | Refusal::SegmentAtEnd) => Err(Answer::OutOfMemory),
    }
}

// The name of an extra.
fn read_name(alloc: Global, word: &[u8]) -> Result<ExtraName, Answer>
    ensures read { IfOk result (λ name. NormalizesTo word.now name) }
    ensures refused { IfErr result IsOfArguments }
{
    match ExtraName::parse(alloc, read_text(word)?) {
        Ok(name) => Ok(name),
        Err(Refusal::Fault(_)) => Err(Answer::InvalidArgument),
        Err(Refusal::OutOfMemory | Refusal::SegmentAtEnd) => Err(Answer::OutOfMemory),
    }
}

/// The extras with these names. `InvalidArgument` if a text is no name.
pub fn read_names(alloc: Global, words: &[&[u8]]) -> Result<Vec<ExtraName>, Answer>
    ensures read { IfOk result (λ names. Names (bytes_of words.now) names.items) }
    ensures refused { IfErr result IsOfArguments }
{
    let mut names = Vec::new(alloc);
    for word in words {
        let name = read_name(alloc, word)?;
        let Ok(()) = names.push(name) else {
            return Err(Answer::OutOfMemory);
        };
    }
    Ok(names)
}
