//! The headers of metadata files (`METADATA`, `PKG-INFO`), as Python's `email` reads them: the
//! fields, with the place of each character.
//!
//! Calls that allocate return `AllocError` when memory runs out.
#![tactic(auto)]

mod field;
mod headers;
mod pieces;

pub use crate::field::{Field, FieldKind};
pub use crate::headers::{Headers, read_headers};
