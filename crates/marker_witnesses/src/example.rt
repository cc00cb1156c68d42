//! Environments that follow a path.

use crate::step::Step;
use crate::texts::TextSearch;
use crate::usual::USUAL;
use crate::versions::version_of;
use marker_environment::{MarkerEnvironment, StringVersion};
use marker_graph::MarkerValueExtraRef;
use marker_walks::EnvironmentKey;
use marker_words::TextVariable;
use pep508_names::ExtraName;
use refusal::Refusal;
use std::alloc::{AllocError, Global};

/// An environment and extras.
#[derive(Debug, Drop)]
pub struct Example {
    pub environment: MarkerEnvironment,
    /// The extras that are requested: these and no others.
    pub extras: Vec<ExtraName>,
    /// The keys whose values were chosen, in the order of their names. All others have usual
    /// values.
    pub keys: Vec<EnvironmentKey>,
    /// Extras that must not be requested.
    pub without: Vec<ExtraName>,
}

impl Example {
    // An environment with usual values, without extras.
    fn usual(alloc: Global) -> Result<Option<Example>, AllocError> {
        match MarkerEnvironment::try_from(alloc, USUAL) {
            Ok(environment) => Ok(Some(Example {
                environment,
                extras: Vec::new(alloc),
                keys: Vec::new(alloc),
                without: Vec::new(alloc),
            })),
            Err(Refusal::OutOfMemory) => Err(AllocError),
            Err(_) => Ok(None),
        }
    }

    // Whether the value of a key was chosen.
    fn has(&self, key: EnvironmentKey) -> bool {
        self.keys.iter().any(|chosen| *chosen == key)
    }

    // The chosen keys in the order of their names.
    fn sorted_keys(&self, alloc: Global) -> Result<Vec<EnvironmentKey>, AllocError> {
        let mut keys = Vec::new(alloc);
        for key in EnvironmentKey::ALL {
            if self.has(key) {
                keys.push(key)?;
            }
        }
        Ok(keys)
    }

    // Gives a text key a value with which the path goes on. Returns whether one was found.
    fn set_text(
        &mut self,
        alloc: Global,
        path: &[Step<'_>],
        variable: TextVariable,
    ) -> Result<bool, AllocError> {
        let key = EnvironmentKey::Text(variable);
        if self.has(key) {
            return Ok(true);
        }
        let search = TextSearch {
            alloc,
            variable,
            path,
            next: None,
        };
        let Some(text) = search.any()? else {
            return Ok(false);
        };
        self.environment.set_string(variable, text);
        self.keys.push(key)?;
        Ok(true)
    }

    // Follows a step. Returns whether a value was found.
    fn follow(
        &mut self,
        alloc: Global,
        path: &[Step<'_>],
        step: &Step<'_>,
    ) -> Result<bool, AllocError> {
        match step {
            Step::Version(step) => {
                let Some(version) = version_of(alloc, step)? else {
                    return Ok(false);
                };
                let version = StringVersion::from_version(alloc, version)?;
                self.environment.set_version(step.variable.key(), version);
                self.keys.push(EnvironmentKey::Version(step.variable))?;
                Ok(true)
            }
            Step::Text(step) => self.set_text(alloc, path, step.variable),
            Step::In(test, _) => self.set_text(alloc, path, test.variable()),
            Step::Contains(test, _) => self.set_text(alloc, path, test.variable()),
            Step::Extra(extra, answer) => match extra.name() {
                MarkerValueExtraRef::Extra(name) => {
                    let list = if *answer {
                        &mut self.extras
                    } else {
                        &mut self.without
                    };
                    list.push(name.clone()?)?;
                    Ok(true)
                }
                MarkerValueExtraRef::Arbitrary(_) => Ok(!*answer),
            },
        }
    }
}

/// Returns an environment and extras that follow a path, or `None` if for a variable no value was
/// found.
pub fn example_of(alloc: Global, path: &[Step<'_>]) -> Result<Option<Example>, AllocError> {
    let Some(mut example) = Example::usual(alloc)? else {
        return Ok(None);
    };
    for step in path {
        if !example.follow(alloc, path, step)? {
            return Ok(None);
        }
    }
    example.keys = example.sorted_keys(alloc)?;
    Ok(Some(example))
}
