//! A fast hasher with a key, for the tables of nodes.
#![tactic(auto)]

ghost use Rattle.std.specs.Prelude.{◌≡◌, ◌≤◌, drop, length, slice_index, take};
ghost use Rattle.std.specs.Int.{from_le_bytes, w32, w64};
ghost use Rattle.node_hasher.specs.Hash as hash;

use std::hash::{BuildHasher, Hasher};

/// Makes the hashers of the tables of nodes, with a key of two words.
///
/// The key protects against values that are chosen to collide. It is never shown: there is no
/// `Debug`, and no call returns it.
#[derive(Clone, Copy)]
pub struct NodeState {
    initial: u64,
    multiplier: u64,
}

impl NodeState {
    /// Returns the state with the fixed key, which everybody knows. Values that are chosen to
    /// collide can make tables slow, and nothing worse.
    pub fn new() -> Self
        ensures { result ≡ hash.keyed 0 0 }
    {
        NodeState::with_key([0, 0])
    }

    /// Returns the state with a key. Its words should be random and secret. The key of two zeros is
    /// the fixed one.
    pub fn with_key(key: [u64; 2]) -> Self
        ensures { result ≡ hash.keyed (slice_index key 0) (slice_index key 1) }
    {
        NodeState {
            initial: key[0] ^ 0x243f_6a88_85a3_08d3,
            multiplier: key[1] ^ 0x9e37_79b9_7f4a_7c15,
        }
    }
}

impl Default for NodeState {
    ghost is_default = { λ state. state ≡ hash.keyed 0 0 };

    /// The fixed key.
    fn default() -> Self {
        NodeState::new()
    }
}

impl BuildHasher for NodeState {
    type Hasher = NodeHasher;

    ghost build_hasher = { hash.begun };

    fn build_hasher(&self) -> NodeHasher {
        NodeHasher {
            state: self.initial,
            multiplier: self.multiplier,
        }
    }
}

/// A hasher that mixes in a word of eight bytes by one multiplication, and combines the halves of
/// the product. A number is one word, and a text one word for each eight bytes; a word of fewer
/// bytes also mixes in their count.
#[derive(Clone, Copy)]
pub struct NodeHasher {
    state: u64,
    multiplier: u64,
}

impl NodeHasher {
    // Mixes in a word.
    fn mix(&mut self, word: u64)
        ensures { self.new ≡ hash.mixed self.old word }
    {
        let product = (self.state ^ word) as u128 * self.multiplier as u128;
        self.state = (product & 0xFFFF_FFFF_FFFF_FFFF) as u64 ^ (product >> 64) as u64;
    }

    // Mixes in a word of fewer than eight bytes, and their count.
    fn mix_part(&mut self, word: u64, count: u64)
        ensures { self.new ≡ hash.mixed_part self.old word count }
    {
        self.mix(word);
        self.state = self.state.wrapping_add(count);
    }
}

impl Hasher for NodeHasher {
    ghost write = { hash.write };

    ghost finish = { hash.finish };

    fn finish(&self) -> u64 {
        self.state
    }

    fn write(&mut self, bytes: &[u8]) {
        let whole = bytes.len() / 8;
        for i in 0..whole {
            self.mix(word_at(bytes, 8 * i));
        }
        let left = bytes.len() % 8;
        if left > 0 {
            self.mix_part(word_at(bytes, 8 * whole), left as u64);
        }
    }

    fn write_u8(&mut self, i: u8) {
        self.mix_part(i as u64, 1);
    }

    fn write_u32(&mut self, i: u32) {
        self.mix_part(i as u64, 4);
    }

    fn write_u64(&mut self, i: u64) {
        self.mix(i);
    }

    fn write_usize(&mut self, i: usize) {
        self.mix(i as u64);
    }
}

// The eight bytes from an index on as one little-endian word. Missing bytes are 0.
fn word_at(bytes: &[u8], at: usize) -> u64
    requires { at ≤ length bytes.now }
    ensures { result ≡ hash.word_of bytes.now at }
{
    let left = bytes.len() - at;
    if left >= 8 {
        u64::from_le_bytes([
            bytes[at],
            bytes[at + 1],
            bytes[at + 2],
            bytes[at + 3],
            bytes[at + 4],
            bytes[at + 5],
            bytes[at + 6],
            bytes[at + 7],
        ])
    } else if left >= 4 {
        let low = u32::from_le_bytes([bytes[at], bytes[at + 1], bytes[at + 2], bytes[at + 3]]);
        let high = last_bytes(bytes, at + 4);
        low as u64 + high as u64 * (1 << 32)
    } else {
        last_bytes(bytes, at) as u64
    }
}

// The three bytes from an index on as one little-endian number. Missing bytes are 0.
fn last_bytes(bytes: &[u8], at: usize) -> u32
    requires { at ≤ length bytes.now }
    ensures { result ≡ from_le_bytes w32 (take 3 (drop at bytes.now)) }
{
    u32::from_le_bytes([
        byte_at(bytes, at),
        byte_at(bytes, at + 1),
        byte_at(bytes, at + 2),
        0,
    ])
}

fn byte_at(bytes: &[u8], at: usize) -> u8
    ensures { result ≡ slice_index bytes.now at }
{
    if at < bytes.len() { bytes[at] } else { 0 }
}
