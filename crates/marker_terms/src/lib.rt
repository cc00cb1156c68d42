//! Clauses: disjunctions of conjunctions of comparisons. The clauses of a set of versions or texts,
//! and the reduction of a disjunction.
//!
//! Calls that allocate return `AllocError` when memory runs out; every existing value keeps its
//! meaning.
#![tactic(auto)]

mod endings;
mod extra;
mod numbered;
mod numbering;
mod reduction;
mod term;
mod text_set;
mod version_set;

pub use extra::common_extra;
pub use reduction::reduce;
pub use term::{one_clause, push_large};
pub use text_set::{text_clauses, text_exclusion, text_range_terms};
pub use version_set::{version_clauses, version_exclusion, version_range_terms};
