//! URLs of requirements: the variables, schemes, extras and paths in them, and a type of URLs that
//! keeps the text that it was parsed from.
//!
//! Calls that allocate return `OutOfMemory` or `AllocError` when memory runs out. No call returns
//! `Refusal::SegmentAtEnd`.
#![tactic(auto)]

mod error;
mod extras;
pub mod internal;
pub mod laws;
mod meaning;
mod path;
mod scheme;
mod serialization;
mod unnamed;
mod variables;
mod verbatim_url;

pub use crate::error::VerbatimUrlError;
pub use crate::extras::split_extras;
pub use crate::path::{normalize_absolute_path, normalize_url_path};
pub use crate::scheme::{Scheme, split_scheme, strip_host};
pub use crate::unnamed::UnnamedRequirementUrl;
pub use crate::variables::expand_env_vars;
pub use crate::verbatim_url::VerbatimUrl;
