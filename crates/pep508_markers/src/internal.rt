//! What the crates of requirements and lines need of marker texts. It is not part of the public
//! interface.

pub use crate::formula_tree::tree_of;
pub use crate::json::{no_string, read_string, write_string};
pub use crate::marker_text::{parse_behind, read_behind};
