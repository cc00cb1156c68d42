//! Texts that were parsed before.

ghost use Rattle.std.specs.Prelude.{◌≡◌, ◌≤◌, ◌+◌, Some, ℕ, length, slice_get};
ghost use Rattle.marker_diagrams.specs.Id.{place_of};
ghost use Rattle.marker_texts.specs.declared.known_texts.KnownText.{KnownText as Known};

use marker_diagrams::NodeId;
use std::alloc::{AllocError, Global};

// A text of more bytes is not added.
const LONGEST_TEXT: usize = 128;

// There are at most so many slots.
const MOST_SLOTS: usize = 4096;

/// The ids of marker texts that were parsed before: at most 4,096 texts of at most 128 bytes, so
/// that texts of strangers cannot fill the memory. Texts that share a slot replace one another, so
/// that no text takes longer than another one.
#[derive(Drop)]
pub struct KnownTexts {
    alloc: Global,
    slots: Vec<Option<KnownText>>,
    // How many slots are in use: those added since the last doubling are not yet.
    used: usize,
    // No id has a higher place among the nodes.
    highest: usize,
    pub ghost within: { (at : ℕ) (known : Known) → slice_get slots.items at ≡ Some (Some known)
        → place_of known.id ≤ highest },
}

// A text with its id.
#[derive(Drop)]
pub struct KnownText {
    pub text: String,
    pub id: NodeId,
}

// The place of an id among the nodes, counted from the oldest at 1; `TRUE` and `FALSE` have 0.
fn place(id: NodeId) -> usize
    ensures { result ≡ place_of id }
{
    match id.index() {
        Some(index) => index + 1,
        None => 0,
    }
}

// A number that depends on all bytes of a text.
fn number_of(text: &str) -> usize {
    let bytes = text.as_bytes();
    let mut number = bytes.len() as u64;
    for i in 0..bytes.len() / 8 {
        number = mix(number, word_at(bytes, 8 * i));
    }
    if let Some(last) = bytes.len().checked_sub(8) {
        number = mix(number, word_at(bytes, last));
    }
    number as usize
}

// Mixes a word into a number, so that each bit of it changes the lowest bits.
fn mix(number: u64, word: u64) -> u64 {
    let product = (number ^ word).wrapping_mul(0x9e37_79b9_7f4a_7c15);
    let folded = product ^ (product >> 32);
    folded ^ (folded >> 16)
}

// The eight bytes from an index on as one little-endian word.
fn word_at(bytes: &[u8], at: usize) -> u64
    requires { at + 8 ≤ length bytes.now }
{
    u64::from_le_bytes([
        bytes[at],
        bytes[at + 1],
        bytes[at + 2],
        bytes[at + 3],
        bytes[at + 4],
        bytes[at + 5],
        bytes[at + 6],
        bytes[at + 7],
    ])
}

impl KnownTexts {
    ghost use Rattle.std.specs.Prelude.{◌<◌, ◌⊎◌, List, IfSome};
    ghost use Rattle.marker_diagrams.specs.declared.node_id.NodeId.{NodeId as Id};
    ghost use Rattle.marker_texts.specs.Known.{IsKnown};

    /// Returns the state without any text.
    pub fn new(alloc: Global) -> Self
        ensures { (text : List ℕ) (id : Id) → IsKnown result text id → ⊥ }
    {
        KnownTexts {
            alloc,
            slots: Vec::new(alloc),
            used: 0,
            highest: 0,
        }
    }

    /// Returns the id of a text that is known.
    pub fn find(&self, text: &str) -> Option<NodeId>
        ensures { IfSome result (IsKnown self.now text.now) }
    {
        let at = self.slot_of(text)?;
        let known = self.slots[at].as_ref()?;
        if known.text.as_str() == text {
            Some(known.id)
        } else {
            None
        }
    }

    /// Makes a text known, with its id, unless it has more than 128 bytes. The text that was in its
    /// slot is forgotten.
    pub fn add(&mut self, text: &str, id: NodeId) -> Result<(), AllocError>
        ensures { (other : List ℕ) (found : Id) → IsKnown self.new other found
            → IsKnown self.old other found ⊎ ((other ≡ text.now) × (found ≡ id)) }
    {
        if text.len() > LONGEST_TEXT {
            return Ok(());
        }
        let copy = String::from_str(self.alloc, text)?;
        self.add_slots()?;
        if let Some(at) = self.slot_of(text) {
            self.slots[at] = Some(KnownText { text: copy, id });
            self.highest = self.highest.max(place(id));
        }
        Ok(())
    }

    /// Forgets all texts if one may have an id beyond the oldest `nodes` nodes.
    pub fn forget_beyond(&mut self, nodes: usize)
        ensures left { (text : List ℕ) (id : Id) → IsKnown self.new text id
            → IsKnown self.old text id × (place_of id ≤ nodes) }
        ensures same { self.old.highest ≤ nodes → self.new ≡ self.old }
    {
        if self.highest > nodes {
            self.slots.clear();
            self.used = 0;
            self.highest = 0;
        }
    }

    // The slot of a text.
    fn slot_of(&self, text: &str) -> Option<usize>
        ensures { IfSome result (λ at. at < length self.now.slots.items) }
    {
        let at = number_of(text).checked_rem(self.used)?;
        if at < self.slots.len() {
            Some(at)
        } else {
            None
        }
    }

    // Adds empty slots for one more text: two for each of the first eight, and eight for each later
    // one, so that few of them share a slot.
    fn add_slots(&mut self) -> Result<(), AllocError>
        ensures { (text : List ℕ) (id : Id) → IsKnown self.new text id
            → IsKnown self.old text id }
    {
        let count = if self.slots.len() < 16 { 2 } else { 8 };
        for _ in 0..count {
            self.add_slot()?;
        }
        Ok(())
    }

    // Adds an empty slot if there are fewer than 4,096. All are in use once they are twice as many.
    fn add_slot(&mut self) -> Result<(), AllocError>
        ensures { (text : List ℕ) (id : Id) → IsKnown self.new text id
            → IsKnown self.old text id }
    {
        if self.slots.len() < MOST_SLOTS {
            self.slots.push(None)?;
            if self.slots.len() / 2 >= self.used {
                self.used = self.slots.len();
            }
        }
        Ok(())
    }
}
