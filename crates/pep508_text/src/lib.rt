//! Characters of texts for the grammars of PEP 508: classes of characters, the longest run of a
//! class at the front of a text, and places in a text.
//!
//! A parser of a part is a function from a `&str` to the part and the rest of the text. Nothing
//! here allocates. The rest always ends where the text ends, so a place is known by the number of
//! bytes from there to the end.
#![tactic(auto)]

mod classes;
mod fronts;
mod place;

pub use crate::classes::{Class, is_line_break};
pub use crate::fronts::{
    first, last, skip_space, split_before_comma, split_before_quote, split_run, strip,
};
pub use crate::place::Place;
