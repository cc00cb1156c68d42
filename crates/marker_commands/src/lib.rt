//! The commands of the program `pep508` about markers, for any machine: how two markers relate,
//! what is left of one in a range of Python versions, and whether one is true where parts of an
//! environment are known.
#![tactic(auto)]

mod arguments;
mod comparing;
mod environments;
mod evaluating;
mod extras;
mod files;
mod keys;
mod messages;
mod outcome;
mod parsing;
mod ranges;
mod running;
mod settings;
mod simplifying;
mod stops;
mod values;

pub use crate::arguments::{
    CompareWords, EnvironmentWords, EvalWords, MarkerCommand, MarkerTask, SimplifyWords,
    environment_words, marker_command,
};
pub use crate::comparing::{compare_markers, compare_with_witness};
pub use crate::environments::{
    SHORT, add_implementation, add_platform, assignments_of, extras_of, is_short, known_of,
};
pub use crate::evaluating::{Situation, evaluate_marker};
pub use crate::extras::read_extras;
pub use crate::files::{FileFault, file_assignments};
pub use crate::keys::{GivenKey, key_named};
pub use crate::messages::GivenMarker;
pub use crate::outcome::{Outcome, Reply};
pub use crate::parsing::{out_of_memory, parse_marker, refuse, told};
pub use crate::ranges::{PythonRange, RangeFault};
pub use crate::running::{run_marker_command, write_reply};
pub use crate::settings::Settings;
pub use crate::simplifying::{Simplification, simplify_marker};
pub use crate::stops::{Stop, invalid_value, refused_value};
pub use crate::values::{Assignment, ValueFault, known_values};
