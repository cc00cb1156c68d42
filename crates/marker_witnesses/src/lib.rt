//! Witnesses of markers: an environment and extras that satisfy a marker, or the values of the
//! variables with which its decision diagram leads to true.
//!
//! Calls that allocate return `AllocError` when memory runs out.
#![tactic(auto)]

mod choice;
mod example;
mod labels;
mod path;
mod sides;
mod step;
mod text;
mod texts;
mod usual;
mod versions;
mod witness;

pub use crate::choice::Preference;
pub use crate::example::{Example, example_of};
pub use crate::labels::{answer_word, text_label, variable_label, version_label};
pub use crate::path::path_to_true;
pub use crate::sides::{ShownWitness, Side, witness_lines, witnesses};
pub use crate::step::{Step, TextStep, VersionStep};
pub use crate::versions::version_of;
pub use crate::witness::{Witness, witness_of};
