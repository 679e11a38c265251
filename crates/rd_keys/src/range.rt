//! Ranges of keys: of their slots, and of their generations. What is told of slots by bits is told by their places in pages of 64.
ghost use Rattle.std.specs.Prelude.{◌≡◌, ℕ, IsTrue};
ghost use Rattle.std.specs.Int.{bit_at};
ghost use Rattle.rd_keys.specs.Keys.{BoxKey as Box};
ghost use Rattle.rd_keys.specs.Ranges.{IsAmong};

use crate::entry::BoxKey;
use crate::words::with_bit;

/// The keys whose slots lie from one up to another, that one too, and whose generations do, where the slot has a bit, and its page.
#[derive(Clone, Copy)]
pub struct KeyRange {
    pub first_slot: u32,
    pub last_slot: u32,
    pub oldest: u32,
    pub newest: u32,
    /// A bit for each of their slots, by its place in a page of 64.
    pub slots: u64,
    /// A bit for each page of 64 slots with one of them, by its number and 64.
    pub pages: u64,
}

/// Are all bits of a word in another one?
#[inline(always)]
fn has_bits(bits: u64, others: u64) -> bool
    ensures { IsTrue result → (i : ℕ) → bit_at others i ≡ 1 → bit_at bits i ≡ 1 }
{
    bits | others == bits
}

impl KeyRange {
    /// No key.
    pub const NONE: KeyRange = KeyRange {
        first_slot: u32::MAX,
        last_slot: 0,
        oldest: u32::MAX,
        newest: 0,
        slots: 0,
        pages: 0,
    };

    /// The range of one key.
    #[inline(always)]
    pub fn one(key: BoxKey) -> KeyRange
        ensures { IsAmong result key }
    {
        KeyRange {
            first_slot: key.slot(),
            last_slot: key.slot(),
            oldest: key.generation(),
            newest: key.generation(),
            slots: with_bit(0, key.slot() as usize),
            pages: with_bit(0, key.slot() as usize / 64),
        }
    }

    /// A range with all keys of both.
    #[inline(always)]
    pub fn joined(self, other: KeyRange) -> KeyRange
        ensures first { (k : Box) → IsAmong self k → IsAmong result k }
        ensures second { (k : Box) → IsAmong other k → IsAmong result k }
    {
        KeyRange {
            first_slot: self.first_slot.min(other.first_slot),
            last_slot: self.last_slot.max(other.last_slot),
            oldest: self.oldest.min(other.oldest),
            newest: self.newest.max(other.newest),
            slots: self.slots | other.slots,
            pages: self.pages | other.pages,
        }
    }

    /// Are all keys of another range in this one? Where it is not said, nothing is known.
    #[inline(always)]
    pub fn has_all(self, other: KeyRange) -> bool
        ensures { IsTrue result → (k : Box) → IsAmong other k → IsAmong self k }
    {
        if other.first_slot < self.first_slot || self.last_slot < other.last_slot {
            return false;
        }
        if other.oldest < self.oldest || self.newest < other.newest {
            return false;
        }
        has_bits(self.slots, other.slots) && has_bits(self.pages, other.pages)
    }
}
