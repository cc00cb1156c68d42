//! Calls about markers and requirements for other languages: they take bytes and numbers, write
//! what they return to buffers of the caller, and return an answer.
//!
//! A call that allocates returns `OutOfMemory` when memory runs out. Nothing is kept between two
//! calls. Only `Done` fills a buffer or another place for a result, and `Invalid` those of
//! `check_requirement`. No variable of a URL is known, so `${NAME}` stays as it is written;
//! `${PROJECT_ROOT}` is the folder of the options, from which relative paths start.
#![tactic(auto)]

mod answer;
mod check;
mod environment;
mod json;
mod marker;
mod normal;
mod options;
mod parts;
mod reading;
mod relation;
mod simplification;

pub use answer::{Answer, hand_over, write_version};
pub use check::{Span, check_requirement};
pub use environment::{Environment, read_environment, read_names};
pub use marker::{evaluate_marker, marker_text, normalize_marker, out_of_memory, parse_marker};
pub use normal::normalize_requirement;
pub use options::{Options, Settings, read_text};
pub use parts::requirement_parts;
pub use relation::compare_markers;
pub use simplification::{BoundText, simplify_marker};
