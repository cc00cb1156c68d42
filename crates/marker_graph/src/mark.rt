//! Marks of interners.

/// How far an interner had grown when [`Interner::mark`](crate::Interner::mark) was called.
/// [`Interner::release`](crate::Interner::release) goes back to it.
#[derive(Clone, Copy, Debug, PartialEq, Eq)]
pub struct Mark {
    // How many nodes there were, and how many conjunctions were known.
    pub(crate) nodes: usize,
    pub(crate) known: usize,
}
