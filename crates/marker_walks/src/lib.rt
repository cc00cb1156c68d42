//! Walks over the nodes of a table that only read: evaluation, with and without reports,
//! satisfiability with given extras, disjointness, and the subtrees of an id and the keys that its
//! truth depends on.
//!
//! Walks allocate nothing, except for the warnings that they report, and for lists of subtrees:
//! those calls return `AllocError` when memory runs out.
#![tactic(auto)]

mod child;
mod disjoint;
mod evaluation;
mod keys;
mod looks;
mod possible;
mod report;
mod subtree;

pub use child::is_listed;
pub use disjoint::{are_disjoint, are_disjoint_within};
pub use evaluation::evaluate;
pub use keys::{EnvironmentKey, depends_on};
pub use possible::{is_possible, is_possible_within};
pub use report::evaluate_and_report;
pub use subtree::subtrees;
