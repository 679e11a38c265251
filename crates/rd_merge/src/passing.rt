//! A pass over the entries of a kept level. Those of which nothing is noted are passed over, and chunks of them.
ghost use Rattle.std.specs.Prelude.{◌≡◌, ◌<◌, ◌≤◌, ◌+◌, IsTrue, false, not, true, length};
ghost use Rattle.rd_keys.specs.Keys.{BoxKey as Box};
ghost use Rattle.rd_keys.specs.Ranges.{IsAmong};
ghost use Rattle.rd_merge.specs.Internal.Looks.{LeafStays, LeavesStay, NothingNoted, is_passed};
ghost use Rattle.rd_merge.specs.Internal.Marks.{box_marks};
ghost use Rattle.rd_merge.specs.Internal.Passes.{IsPass};
ghost use Rattle.rd_merge.specs.declared.passing.Leaves.TheVariants as known;

use crate::going::Touches;
use crate::marks::Marks;
use rd_keys::{BoxKey, EntryKey};
use rd_list::{Chunk, Entry};
use std::sync::ledger::Ledger;

/// What is known of the boxes of leaves: that none of them is touched, or nothing.
#[derive(Clone, Copy)]
pub(crate) enum Leaves {
    Untouched,
    Unknown,
}

/// What a pass over a kept level reads: its entries, the names that are sought, marks of the boxes of these, and what tells the touched
/// boxes.
#[derive_where(Clone, Copy)]
pub(crate) struct Pass<'a, A: Ledger, T: Touches> {
    pub(crate) entries: &'a [Entry<A>],
    pub(crate) names: &'a [EntryKey],
    pub(crate) marks: &'a Marks,
    pub(crate) tree: &'a T,
}

/// Is the box of a leaf untouched? Where this is known, it is not asked.
#[inline(always)]
fn is_untouched<T: Touches>(leaves: Leaves, owner: BoxKey, tree: &T) -> bool
    requires { leaves ≡ known.Untouched → T.is_touched tree.now owner ≡ false }
    ensures { result ≡ not (T.is_touched tree.now owner) }
{
    match leaves {
        Leaves::Untouched => true,
        Leaves::Unknown => !tree.touches(owner),
    }
}

/// Is it a leaf of an untouched box whose mark is not set? Nothing is noted of it.
#[inline(always)]
fn is_passed<A: Ledger, T: Touches>(
    entry: &Entry<A>,
    leaves: Leaves,
    marks: &Marks,
    tree: &T,
) -> bool
    requires marks { length marks.now.marks.items ≡ box_marks marks.now.is_wide }
    requires still { leaves ≡ known.Untouched → LeafStays (T.is_touched tree.now) entry.now }
    ensures { result ≡ is_passed (T.is_touched tree.now) marks.now.is_wide marks.now.marks.items entry.now }
{
    match entry {
        Entry::Leaf(item) => {
            !marks.has(item.owner()) && is_untouched(leaves, item.owner(), tree)
        }
        Entry::Group(_) => false,
    }
}

impl<A: Ledger, T: Touches> Pass<'_, A, T> {
    /// Is the entry at a place passed over?
    #[inline(always)]
    fn passes(&self, leaves: Leaves, place: usize) -> bool
        requires pass { IsPass self.now }
        requires within { place < length self.now.entries.now }
        requires still { leaves ≡ known.Untouched
            → LeavesStay (T.is_touched self.now.tree.now) self.now.entries.now place (place + 1) }
        ensures { result ≡ true
            → NothingNoted (T.is_touched self.now.tree.now) self.now.entries.now self.now.names.now place (place + 1) }
    {
        is_passed(&self.entries[place], leaves, self.marks, self.tree)
    }

    /// How many of the four entries from a place on are passed over, one after the other.
    #[inline(always)]
    fn passed_of_four(&self, leaves: Leaves, place: usize) -> usize
        requires pass { IsPass self.now }
        requires within { place + 4 ≤ length self.now.entries.now }
        requires still { leaves ≡ known.Untouched
            → LeavesStay (T.is_touched self.now.tree.now) self.now.entries.now place (place + 4) }
        ensures within { result ≤ 4 }
        ensures nothing { NothingNoted (T.is_touched self.now.tree.now) self.now.entries.now self.now.names.now place (place + result) }
    {
        if !self.passes(leaves, place) {
            return 0;
        }
        if !self.passes(leaves, place + 1) {
            return 1;
        }
        if !self.passes(leaves, place + 2) {
            return 2;
        }
        if !self.passes(leaves, place + 3) {
            return 3;
        }
        4
    }

    /// The first place before an end, from this one on, of which something may be noted. The end where there is none.
    #[inline(always)]
    pub(crate) fn next_before(&self, leaves: Leaves, from: usize, end: usize) -> usize
        requires pass { IsPass self.now }
        requires from { from ≤ end }
        requires end { end ≤ length self.now.entries.now }
        requires still { leaves ≡ known.Untouched
            → LeavesStay (T.is_touched self.now.tree.now) self.now.entries.now from end }
        ensures after { from ≤ result }
        ensures end { result ≤ end }
        ensures nothing { NothingNoted (T.is_touched self.now.tree.now) self.now.entries.now self.now.names.now from result }
    {
        let mut place = from;
        while end - place >= 4 {
            let passed = self.passed_of_four(leaves, place);
            place += passed;
            if passed < 4 {
                return place;
            }
        }
        while place < end && self.passes(leaves, place) {
            place += 1;
        }
        place
    }
}

/// Is it a chunk of which something is said, and none of the boxes of its entries touched?
#[inline(always)]
pub(crate) fn stands_still<T: Touches>(chunk: &Chunk, tree: &T) -> bool
    ensures open { IsTrue result → chunk.now.is_open ≡ false }
    ensures untouched { IsTrue result → (k : Box) → IsAmong chunk.now.told.keys k → T.is_touched tree.now k ≡ false }
{
    !chunk.is_open && tree.none_touched(chunk.told.keys)
}
