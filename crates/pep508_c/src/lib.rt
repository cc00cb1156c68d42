//! The library for C, and so for every language that calls C. `include/pep508.h` documents each
//! function.
#![tactic(auto)]

mod handles;
mod markers;
mod requirements;
mod scripts;

pub use handles::{
    pep508_interner_free, pep508_interner_mark, pep508_interner_new, pep508_interner_release,
    pep508_interner_set_environment, pep508_marker_and, pep508_marker_disjoint,
    pep508_marker_equal, pep508_marker_evaluate_number, pep508_marker_is_true, pep508_marker_not,
    pep508_marker_or, pep508_marker_parse, pep508_marker_text,
};
pub use markers::{
    pep508_marker_evaluate, pep508_marker_normalize, pep508_marker_simplify,
    pep508_markers_compare, pep508_version,
};
pub use requirements::{
    pep508_requirement_check, pep508_requirement_normalize, pep508_requirement_parts,
};
pub use scripts::pep508_serve;
