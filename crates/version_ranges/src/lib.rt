//! Sets and functions over an order: `Ranges`, a set of points that is a union of intervals, and
//! `Cuts`, a function of points that is constant between cuts.
//!
//! The points of an order are the one below all values, the one at each value and the one right
//! above it. Between two values there are no others unless the order has a value there. So two sets
//! are equal by `==` exactly if they have the same points, over every order, dense or not. Values
//! that are equal in the order have the same point.
//!
//! Calls that allocate return `AllocError` when memory runs out; every existing value keeps its
//! meaning.
#![tactic(auto)]

mod clamp;
mod combine;
mod cut;
mod cuts;
mod equality;
mod gather;
mod intervals;
pub mod laws;
mod lent;
mod overlay;
mod pairs;
mod pieces;
mod ranges;
mod sweep;

pub use clamp::has_point;
pub use cuts::Cuts;
pub use equality::{equal_where_same, equal_where_same_points};
pub use intervals::Intervals;
pub use lent::CutsRef;
pub use pairs::Pairs;
pub use pieces::{Piece, Pieces};
pub use ranges::Ranges;
