//! Marker texts that were parsed before, with their ids in a table of nodes.
//!
//! Calls that allocate return `AllocError` when memory runs out.
#![tactic(auto)]

mod known_texts;

pub use known_texts::KnownTexts;
