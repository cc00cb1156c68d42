//! A value of a text key.

use crate::step::Step;
use crate::usual::usual_texts;
use marker_environment::is_part_of;
use marker_words::TextVariable;
use std::alloc::{AllocError, Global};
use std::ops::Bound;

// What is appended to a text for one right above it.
static ABOVE: [&str; 2] = ["0", " "];

// Whether a step goes on with this value of a text key.
fn allows(step: &Step<'_>, variable: TextVariable, text: &str) -> bool {
    match step {
        Step::Version(_) => true,
        Step::Text(step) => step.variable != variable || step.has(text),
        Step::In(test, answer) => {
            test.variable() != variable || is_part_of(text, test.value()) == *answer
        }
        Step::Contains(test, answer) => {
            test.variable() != variable || is_part_of(test.value(), text) == *answer
        }
        Step::Extra(_, _) => true,
    }
}

/// A search for a value of a text key with which a path goes on.
#[derive(Clone, Copy)]
pub(crate) struct TextSearch<'p, 'i> {
    pub(crate) alloc: Global,
    pub(crate) variable: TextVariable,
    pub(crate) path: &'p [Step<'i>],
    /// A step after those of the path.
    pub(crate) next: Option<Step<'i>>,
}

impl TextSearch<'_, '_> {
    // Whether all steps go on with this value.
    fn all_allow(&self, text: &str) -> bool {
        let next = match &self.next {
            Some(step) => allows(step, self.variable, text),
            None => true,
        };
        next && self
            .path
            .iter()
            .all(|step| allows(step, self.variable, text))
    }

    /// Returns whether all steps go on with the value that the key has most often.
    pub(crate) fn allows_most_usual(&self) -> bool {
        match usual_texts(self.variable).first() {
            Some(text) => self.all_allow(text),
            None => false,
        }
    }

    // The first of these texts with which all steps go on.
    fn first_of(&self, texts: &[&str]) -> Result<Option<String>, AllocError> {
        for text in texts {
            if self.all_allow(text) {
                return Ok(Some(String::from_str(self.alloc, text)?));
            }
        }
        Ok(None)
    }

    // The bound, if it is included and all steps go on with it.
    fn included(&self, bound: Bound<&String>) -> Result<Option<String>, AllocError> {
        match bound {
            Bound::Included(text) => self.first_of(&[text.as_str()]),
            _ => Ok(None),
        }
    }

    // A text right above the lower bound of a step.
    fn above(&self, step: &Step<'_>) -> Result<Option<String>, AllocError> {
        let Step::Text(step) = step else {
            return Ok(None);
        };
        let Bound::Excluded(text) = step.lower else {
            return Ok(None);
        };
        for ending in ABOVE {
            let mut longer = text.clone()?;
            longer.push_str(ending)?;
            let found = self.first_of(&[longer.as_str()])?;
            if found.is_some() {
                return Ok(found);
            }
        }
        Ok(None)
    }

    // A bound of a step that is included.
    fn bound_of(&self, step: &Step<'_>) -> Result<Option<String>, AllocError> {
        match step {
            Step::Text(step) => {
                let found = self.included(step.lower)?;
                if found.is_some() {
                    return Ok(found);
                }
                self.included(step.upper)
            }
            _ => Ok(None),
        }
    }

    // The text that a substring test names.
    fn named_by(&self, step: &Step<'_>) -> Result<Option<String>, AllocError> {
        match step {
            Step::In(test, true) => self.first_of(&[test.value()]),
            Step::Contains(test, true) => self.first_of(&[test.value()]),
            _ => Ok(None),
        }
    }

    // The texts that must be part of the value, one after another.
    fn parts(&self) -> Result<String, AllocError> {
        let mut parts = String::new(self.alloc);
        for step in self.path.iter().chain(self.next.iter()) {
            if let Step::Contains(test, true) = step {
                if test.variable() == self.variable {
                    parts.push_str(test.value())?;
                }
            }
        }
        Ok(parts)
    }

    /// Returns a value that one may have in mind: an included bound, or one that the key often has.
    pub(crate) fn plain(&self) -> Result<Option<String>, AllocError> {
        for step in self.path.iter().chain(self.next.iter()) {
            let found = self.bound_of(step)?;
            if found.is_some() {
                return Ok(found);
            }
        }
        self.first_of(usual_texts(self.variable))
    }

    /// Returns a value, or `None` if none was found: a plain one, a text that a substring test
    /// names, one right above a lower bound, all parts that the value must have, or the empty text.
    pub(crate) fn any(&self) -> Result<Option<String>, AllocError> {
        let plain = self.plain()?;
        if plain.is_some() {
            return Ok(plain);
        }
        for step in self.path.iter().chain(self.next.iter()) {
            let found = self.named_by(step)?;
            if found.is_some() {
                return Ok(found);
            }
        }
        for step in self.path.iter().chain(self.next.iter()) {
            let found = self.above(step)?;
            if found.is_some() {
                return Ok(found);
            }
        }
        let parts = self.parts()?;
        self.first_of(&[parts.as_str(), ""])
    }
}
