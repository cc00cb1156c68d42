//! Markers that another language keeps from call to call: it has a handle, and names each marker by
//! a number; and scripts of lines, on a session of their own.
//!
//! A call that returns another answer than `Done` changes no marker and no number. Numbers start at
//! 0, and each new marker has the next one.
#![tactic(auto)]

mod calls;
mod handle;
mod loose;
mod markers;
mod questions;
mod read;
mod script;

pub use handle::Handle;
pub use markers::Markers;
pub use script::serve_script;
