//! Sessions that keep markers in numbered cells, and marker texts: parsing, printing and JSON.
//!
//! [`MarkerText`] adds the calls on texts to `MarkerTree`. A call that takes a tree and an interner
//! requires that the interner holds the tree. Calls that allocate return `AllocError` or
//! `OutOfMemory` when memory runs out; every existing value keeps its meaning. A text that is
//! refused leaves the nodes of the interner as they were.
#![tactic(auto)]

mod formula_tree;
pub mod internal;
mod json;
mod marker_text;
mod run;
pub mod ser;
mod session;
mod sets;
mod text_tree;

pub use marker_text::MarkerText;
pub use marker_view::MarkerTreeView;
pub use session::{Command, Reason, Reply, Session};
