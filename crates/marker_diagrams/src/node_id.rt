//! The ids of nodes.

use std::hash::{Hash, Hasher};

/// The id of a node of a diagram, or of its negation, in eight bytes. Ids of one list of nodes are
/// equal exactly if they mean the same.
#[derive(Clone, Copy, Debug, PartialEq, Eq)]
pub struct NodeId {
    // 0 is `TRUE`, and k + 1 the node of index k, counted from the oldest.
    place: u32,
    complement: bool,
}

impl NodeId {
    ghost use Rattle.std.specs.Prelude.{◌≡◌, ◌+◌, ◌<◌, ◌^◌, ◌↔◌, IsTrue};
    ghost use Rattle.marker_diagrams.specs.Id.{id_of, index_of, is_negated, opposite, signed_id};

    /// True everywhere.
    pub const TRUE: NodeId = NodeId {
        place: 0,
        complement: false,
    };

    /// False everywhere.
    pub const FALSE: NodeId = NodeId {
        place: 0,
        complement: true,
    };

    /// Returns the id of the node of this index, counted from the oldest, or of its negation.
    /// Indices are below 4,294,967,295.
    pub fn new(index: usize, complement: bool) -> Self
        requires { index + 1 < 2 ^ 32 }
        ensures { result ≡ id_of index complement }
    {
        NodeId {
            place: index as u32 + 1,
            complement,
        }
    }

    /// Returns the index of the node, or `None` for `TRUE` and `FALSE`.
    pub fn index(self) -> Option<usize>
        ensures { result ≡ index_of self }
    {
        if self.place == 0 {
            None
        } else {
            Some(self.place as usize - 1)
        }
    }

    /// Returns whether this is the negation of a node. `FALSE` is the negation of `TRUE`.
    pub fn is_complement(self) -> bool
        ensures { result ≡ is_negated self }
    {
        self.complement
    }

    /// Returns whether this is true everywhere.
    pub fn is_true(self) -> bool
        ensures { IsTrue result ↔ (self ≡ NodeId.TRUE) }
    {
        self == NodeId::TRUE
    }

    /// Returns whether this is false everywhere.
    pub fn is_false(self) -> bool
        ensures { IsTrue result ↔ (self ≡ NodeId.FALSE) }
    {
        self == NodeId::FALSE
    }

    /// Returns the negation.
    pub fn not(self) -> Self
        ensures { result ≡ opposite self }
    {
        NodeId {
            place: self.place,
            complement: !self.complement,
        }
    }

    /// Returns this id, negated if the parent is: a child of the parent's node becomes a child of
    /// the parent.
    pub fn negate(self, parent: NodeId) -> Self
        ensures { result ≡ signed_id (is_negated parent) self }
    {
        if parent.complement { self.not() } else { self }
    }
}

impl Default for NodeId {
    ghost use Rattle.std.specs.Prelude.{◌≡◌};

    /// True everywhere.
    fn default() -> Self
        ensures { result ≡ NodeId.TRUE }
    {
        Self::TRUE
    }
}

impl Hash for NodeId {
    ghost use Rattle.std.specs.Hash as fed;
    ghost use Rattle.marker_diagrams.specs.Word.{word_of, same_words};

    // An id is hashed as one word, whose lowest bit is the sign.
    ghost hash_input = { λ id. fed.u64 (word_of id) };

    ghost respects_eq = { same_words };

    fn hash<H: Hasher>(&self, state: &mut H) {
        state.write_u64(2 * self.place as u64 + self.complement as u64);
    }
}
