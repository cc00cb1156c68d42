//! The commands `select` and `matrix` of the program `pep508`: which requirements apply in an
//! environment, and in which of several environments each applies.
//!
//! The truth of a marker is known if the values that are given decide it. What the markers of an
//! interner mean stays, even when memory runs out.
#![tactic(auto)]

mod arguments;
mod columns;
mod keys;
mod products;
mod reached;
mod reading;
mod running;
mod selector;
mod tables;
mod tabulator;
mod target;
mod truth;
mod written;

pub use crate::arguments::{
    MatrixWords, SelectWords, SelectionCommand, TableFormat, selection_command,
};
pub use crate::columns::{Column, columns_of};
pub use crate::keys::open_keys;
pub use crate::products::product;
pub use crate::running::run_selection_command;
pub use crate::selector::Selector;
pub use crate::tables::table_text;
pub use crate::tabulator::{Row, Tabulator};
pub use crate::target::Target;
pub use crate::truth::{Truth, truth_in, truths_in};
