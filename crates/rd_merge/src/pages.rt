//! Marks of boxes by pages of 64 slots: a word a page, and of each 64 pages which of them have marks.
ghost use Rattle.std.specs.Prelude.{◌≡◌, ◌/◌, ◌%◌, ◌<◌, length, IfOk, IsTrue, slice_index};
ghost use Rattle.std.specs.Int.{bit_at};
ghost use Rattle.std.specs.Int.Bits.{bit_and};
ghost use Rattle.rd_keys.specs.Keys.{BoxKey as Box};
ghost use Rattle.rd_keys.specs.Ranges.{IsAmong};
ghost use Rattle.rd_merge.specs.Internal.Marks.{ArePages, page_mark, slot_mark};

use rd_keys::{BoxKey, KeyRange, with_bit};
use std::alloc::{AllocError, Global};

/// How many pages there are. More of the slots share them.
const PAGES: usize = 256;

/// Over how many pages a range may go that is looked at page by page.
const MOST_PAGES: u32 = 64;

/// Over how many times 64 pages a range may go of which something is said.
const MOST_GROUPS: u32 = 8;

/// A word of marks for each page, and for each 64 pages a word that tells which of them have some.
#[derive(Drop)]
pub(crate) struct PageMarks {
    pub(crate) pages: Vec<u64>,
    pub(crate) groups: [u64; 4],
}

/// The page of a box.
#[inline(always)]
fn page_of(owner: BoxKey) -> usize
    ensures value { result ≡ page_mark owner }
    ensures within { result < 256 }
{
    (owner.slot() / 64) as usize % PAGES
}

impl PageMarks {
    /// No marks.
    pub(crate) fn new(alloc: Global) -> Result<PageMarks, AllocError>
        ensures { IfOk result (λ m. ArePages m.pages.items m.groups) }
    {
        let pages = vec![in alloc; 0u64; PAGES]?;
        Ok(PageMarks {
            pages,
            groups: [0; 4],
        })
    }

    /// Sets the mark of a box.
    pub(crate) fn mark(&mut self, owner: BoxKey)
        requires { ArePages self.old.pages.items self.old.groups }
        ensures are { ArePages self.new.pages.items self.new.groups }
        ensures set { slot_mark self.new.pages.items owner ≡ 1 }
        ensures kept { (k : Box) → slot_mark self.old.pages.items k ≡ 1 → slot_mark self.new.pages.items k ≡ 1 }
    {
        let page = page_of(owner);
        let group = page / 64;
        self.groups[group] = with_bit(self.groups[group], page);
        self.pages[page] = with_bit(self.pages[page], owner.slot() as usize);
    }
}

/// Has none of the pages of a range marks, whose bits are given?
#[inline(always)]
fn none_marked(groups: &[u64], keys: KeyRange) -> bool
    requires { length groups.now ≡ 4 }
    ensures { IsTrue result → (k : Box) → IsAmong keys k → bit_at (slice_index groups.now (k.slot / 4096 % 4)) (k.slot / 64 % 64) ≡ 0 }
{
    let first = keys.first_slot / 4096;
    let last = keys.last_slot / 4096;
    if last < first || last - first >= MOST_GROUPS {
        return false;
    }
    for group in first..last + 1 {
        if groups[group as usize % 4] & keys.pages != 0 {
            return false;
        }
    }
    true
}

/// Has a page no mark of a key of a range?
#[inline(always)]
fn page_lacks(pages: &[u64], keys: KeyRange, page: u32) -> bool
    requires { length pages.now ≡ 256 }
    ensures { IsTrue result → bit_at keys.pages (page % 64) ≡ 1 → bit_and (slice_index pages.now (page % 256)) keys.slots ≡ 0 }
{
    keys.pages >> (page % 64) & 1 == 0 || pages[page as usize % PAGES] & keys.slots == 0
}

/// Has no key of a range a mark, page by page? Where it is not said, nothing is known.
#[inline(never)]
fn each_lacks(pages: &[u64], keys: KeyRange) -> bool
    requires { length pages.now ≡ 256 }
    ensures { IsTrue result → (k : Box) → IsAmong keys k → slot_mark pages.now k ≡ 0 }
{
    let first = keys.first_slot / 64;
    let last = keys.last_slot / 64;
    if last < first || last - first >= MOST_PAGES {
        return false;
    }
    for page in first..last + 1 {
        if !page_lacks(pages, keys, page) {
            return false;
        }
    }
    true
}

impl PageMarks {
    /// Has no key of a range a mark? Where it is not said, nothing is known.
    #[inline(always)]
    pub(crate) fn lacks(&self, keys: KeyRange) -> bool
        requires { ArePages self.now.pages.items self.now.groups }
        ensures { IsTrue result → (k : Box) → IsAmong keys k → slot_mark self.now.pages.items k ≡ 0 }
    {
        none_marked(&self.groups, keys) || each_lacks(&self.pages, keys)
    }
}
