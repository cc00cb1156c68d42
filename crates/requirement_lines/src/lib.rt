//! The logical lines of requirements files, as pip reads them, with the place of each character.
//!
//! A place is counted in bytes from the end of the file. So it does not depend on the text before
//! it, and what follows a line is read as a file by itself. [`Positions`] returns the line and
//! column for people.
//!
//! Calls that allocate return `AllocError` when memory runs out; what they were given by `&mut` is
//! then in no particular state.
#![tactic(auto)]

mod logical;
mod pieces;
mod places;
mod positions;
mod quoting;
mod reports;
mod rest;
mod sets;
mod splitting;
mod variables;

pub use crate::logical::{cut_line, drop_last, next_line, options_of, without_mark};
pub use crate::pieces::{Piece, split_line};
pub use crate::places::{Place, Source};
pub use crate::positions::{Position, Positions};
pub use crate::reports::{Judge, LineReport, check_line, check_text, place_at, text_of};
pub use crate::rest::{Rest, line_left, next_character, whole_line};
pub use crate::sets::{Mark, is_break};
pub use crate::splitting::{Word, Words, split_words};
pub use crate::variables::replace_variables;
