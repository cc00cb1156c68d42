//! Proved statements about all values, as functions that do nothing. A call costs nothing and gives
//! a proof the fact that the contract states.

pub use marker_graph::laws as trees;
pub use marker_parts::laws as parts;
pub use marker_view::{laws as printed, laws as views};
pub use pep508_errors::laws as errors;
pub use pep508_requirements::laws as requirements;
pub use pep508_urls::laws as urls;
