//! Lines in, lines out: sources and sinks of bytes, splitting bytes into lines that are answered
//! one by one, and why that ends early. The meaning of lines is up to the [`Answer`] that is given.
#![tactic(auto)]

mod fault;
mod serving;
mod sink;
mod source;

pub use fault::ServeFault;
pub use serving::{Answer, serve_lines};
pub use sink::{Output, Sink, WriteFault, write_all};
pub use source::{Input, ReadFault, Source};
