//! What a marker shows: its clauses, its text, and views, which can be printed, and compared across
//! interners.
//!
//! Calls that allocate return `AllocError` when memory runs out; every existing value keeps its
//! meaning. Comparing views allocates nothing. Printing one returns an error when memory for its
//! text runs out.
#![tactic(auto)]

mod branch;
mod dnf;
pub mod laws;
mod room;
mod text;
mod view;
mod walk;

pub use dnf::{to_dnf, top_level_extra};
pub use room::has_room_for_text;
pub use text::try_to_string;
pub use view::MarkerTreeView;
