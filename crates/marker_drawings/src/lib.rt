//! The drawing of a marker: its decision diagram, with labels, as a tree for a terminal, in the
//! language of Graphviz, or as a picture; and the command `draw` of the program `pep508`.
//!
//! `draw` and the layouts return `AllocError` when memory runs out; the command has status 2 then.
#![tactic(auto)]

mod arguments;
mod commands;
mod dots;
mod drawing;
mod edges;
mod escapes;
mod levels;
mod numbering;
mod pictures;
mod trees;

pub use crate::arguments::{DrawCommand, DrawingFormat, draw_command};
pub use crate::commands::{DrawingWish, draw_marker, run_draw_command};
pub use crate::dots::dot_text;
pub use crate::drawing::{Drawing, DrawnEdge, DrawnNode, Target, draw};
pub use crate::pictures::svg_text;
pub use crate::trees::tree_text;
