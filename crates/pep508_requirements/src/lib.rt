//! Requirements (PEP 508): a name, extras, version specifiers or a URL, and a marker.
//!
//! - [`Requirement`] has a name, [`UnnamedRequirement`] is a URL or a path. [`Extras`] parses a
//!   list of extras alone.
//! - A marker is an id in an interner. Calls that take a requirement and an interner require that
//!   the interner holds the requirement's marker.
//! - Calls that allocate return `AllocError` or `OutOfMemory` when memory runs out; every existing
//!   value keeps its meaning. A text that is refused leaves the nodes of the interner as they were.
//! - Comparison and evaluation allocate nothing, except for warnings that are reported.
#![tactic(auto)]

mod end;
mod error;
mod extras;
mod head;
pub mod laws;
mod marked;
mod origin;
mod requirement;
mod text;
mod unnamed;
mod unnamed_text;
mod unnamed_view;
mod url;
mod version_or_url;
mod view;

pub use crate::extras::Extras;
pub use crate::origin::RequirementOrigin;
pub use crate::requirement::Requirement;
pub use crate::unnamed::UnnamedRequirement;
pub use crate::unnamed_view::UnnamedRequirementView;
pub use crate::version_or_url::{VersionOrUrl, VersionOrUrlRef};
pub use crate::view::RequirementView;
