//! Reduced ordered decision diagrams over any kind of nodes: the meaning of ids, and the laws by
//! which equal truths have equal ids.
//!
//! Nodes are in a list, each after its children. An id is the place of a node and a sign, so a
//! truth and its negation share a node. The laws are about any type of nodes, of variables and of
//! valuations, so they are proved once.
#![tactic(auto)]

pub mod laws;
mod node_id;

pub use node_id::NodeId;
