//! Environments that were read.

ghost use Rattle.foreign_markers.specs.Read.{AreSaid};

use foreign_calls::{Answer, Environment, read_environment};
use marker_environment::MarkerEnvironment;
use std::alloc::Global;

// An environment as it was read: each version is what its text says.
#[derive(Drop)]
pub(crate) struct ReadEnvironment {
    pub(crate) environment: MarkerEnvironment,
    ghost said: { ∥ AreSaid environment ∥₁ },
}

impl ReadEnvironment {
    ghost use Rattle.std.specs.Prelude.{IfErr, IfOk, IsTrue};
    ghost use Rattle.marker_environment.specs.Environment.{values_of};
    ghost use Rattle.foreign_calls.specs.Environment.{AreGiven};
    ghost use Rattle.foreign_calls.specs.Refused.{IsOfArguments};
    ghost use Rattle.foreign_markers.specs.Read.{HasTexts, HasVersionTexts};

    // Reads an environment.
    pub(crate) fn read(alloc: Global, values: &Environment<'_>) -> Result<ReadEnvironment, Answer>
        ensures given { IfOk result (λ read. AreGiven values.now (values_of read.environment)) }
        ensures refused { IfErr result IsOfArguments }
    {
        let environment = read_environment(alloc, values)?;
        Ok(ReadEnvironment { environment })
    }

    // Whether these are its values.
    pub(crate) fn has(&self, values: &Environment<'_>) -> bool
        ensures { IsTrue result → ∥ AreGiven values.now (values_of self.now.environment) ∥₁ }
    {
        self.has_texts(values) && self.has_versions(values)
    }

    #[tactic(auto, using(crate::proofs::ReadLaws::texts_compared))]
    fn has_texts(&self, values: &Environment<'_>) -> bool
        ensures { IsTrue result → HasTexts values.now self.now.environment }
    {
        let known = &self.environment;
        known.implementation_name().as_bytes() == values.implementation_name
            && known.os_name().as_bytes() == values.os_name
            && known.platform_machine().as_bytes() == values.platform_machine
            && known.platform_python_implementation().as_bytes()
                == values.platform_python_implementation
            && known.platform_release().as_bytes() == values.platform_release
            && known.platform_system().as_bytes() == values.platform_system
            && known.platform_version().as_bytes() == values.platform_version
            && known.sys_platform().as_bytes() == values.sys_platform
    }

    #[tactic(auto, using(crate::proofs::ReadLaws::texts_compared))]
    fn has_versions(&self, values: &Environment<'_>) -> bool
        ensures { IsTrue result → HasVersionTexts values.now self.now.environment }
    {
        let known = &self.environment;
        known.implementation_version().string.as_bytes() == values.implementation_version
            && known.python_full_version().string.as_bytes() == values.python_full_version
            && known.python_version().string.as_bytes() == values.python_version
    }
}
