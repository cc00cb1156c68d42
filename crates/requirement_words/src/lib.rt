//! The words of a requirement (PEP 508): its name, extras, version specifiers and where its URL
//! ends, and the faults of texts without them.
//!
//! A parser of a part takes a text and returns the part at its front and the rest. The place of a
//! fault is counted from the end of the text, so a fault of the rest is one of the whole.
//!
//! Calls that allocate return `AllocError` or `OutOfMemory` when memory runs out. No call returns
//! `SegmentAtEnd`.
#![tactic(auto)]

mod extras;
mod fault;
mod head;
pub mod laws;
mod nameless;
mod specifiers;
mod tail;
mod text;
mod unnamed;
mod url;

pub use crate::extras::read_extras;
pub use crate::fault::{Fault, FaultKind};
pub use crate::head::{Asked, Head, read_head};
pub use crate::nameless::{is_archive, is_nameless};
pub use crate::specifiers::read_specifiers;
pub use crate::tail::read_tail;
pub use crate::text::{write_extras, write_specifiers};
pub use crate::unnamed::{UnnamedHead, read_unnamed_head};
pub use crate::url::{UrlPlace, split_url};
