//! Conjunctions of the ids of a table of nodes, each computed once.
//!
//! Calls that allocate return `AllocError` when memory runs out. Even then every id keeps its
//! meaning.
#![tactic(auto)]

mod conjunctions;

pub use conjunctions::Conjunctions;
