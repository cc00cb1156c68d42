//! How markers are read.

ghost use Rattle.std.specs.Prelude.{◌≡◌};
ghost use Rattle.marker_conjunctions.specs.Contents.{nothing};

use marker_graph::Interner;
use std::alloc::Global;

/// How many looks at pairs of nodes a comparison may take for each piece of the room.
const LOOKS: usize = 10;

/// How a command reads markers, and how it shows them.
#[derive(Clone, Copy, Debug)]
pub struct Settings {
    /// Two random words, the key by which nodes of markers are hashed.
    pub key: [u64; 2],
    /// How many pieces the nodes of the markers may have.
    pub room: usize,
    /// Whether messages have colors.
    pub has_colors: bool,
}

impl Settings {
    /// An interner without nodes.
    pub fn interner(&self, alloc: Global) -> Interner
        ensures { result ≡ nothing }
    {
        Interner::with_key_and_room(alloc, self.key, self.room)
    }

    /// How many looks at pairs of nodes a comparison may take.
    pub fn looks(&self) -> usize {
        self.room.saturating_mul(LOOKS)
    }
}
