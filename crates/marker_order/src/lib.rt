//! The order of diagrams, of one table of nodes or of two.
//!
//! Ids of two tables cannot be compared, but what their diagrams mean can. Constants come first;
//! then the variable decides on which a diagram branches first, and then its edges, one by one.
//!
//! Comparing allocates nothing.
#![tactic(auto)]

mod bounds;
pub mod laws;
mod order;
mod turns;

pub use order::diagram_order;
