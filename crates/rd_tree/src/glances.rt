//! What walks read of all boxes. Beside each row stands one word that tells at once whether a key's box is live and untouched,
//! and beside each page of rows what tells so of many of them, and whether a walk among siblings may pass the page at once.
ghost use Rattle.std.specs.Prelude.{◌≡◌, ◌+◌, ◌%◌, ◌<◌, ◌≤◌, ◌⊎◌, [], false, true, length, slice_set, IfSome, IsTrue, OnOk};
ghost use Rattle.rd_keys.specs.Keys.{BoxKey as Box};
ghost use Rattle.rd_keys.specs.Ranges.{IsAmong};
ghost use Rattle.rd_tree.specs.Internal.Calm.{IsPassed, IsRun};
ghost use Rattle.rd_tree.specs.Internal.Glances.{HasRoom, quiet_word, seen_at, told_touched, untouched, with_glance};

use crate::calm;
use crate::glance::Glance;
use crate::shared::{NOT_QUIET, PageWord, all_share, extend, forget, renew};
use rd_keys::{BoxKey, KeyRange};
use std::alloc::{AllocError, Global};
use std::marker::Model;

/// A row a slot.
#[derive(Drop)]
pub(crate) struct Glances {
    rows: Vec<Glance>,
    /// Of each row the generation, where its box is untouched, and otherwise `NOT_QUIET`.
    words: Vec<u64>,
    /// Of each page of rows a word, and which of them may have another.
    shared: Vec<PageWord>,
    /// Of each page of rows, is it known to be calm?
    calm: Vec<bool>,
}

impl Model for Glances {
    ghost use Rattle.std.specs.Prelude.{vec_capacity};
    ghost use Rattle.rd_tree.specs.Internal.Glances.{Rows};
    ghost use Rattle.rd_tree.specs.Internal.Calm.{AreKnown};

    ghost Value = { Rows };

    ghost view = { λ g. record {
      rows = g.rows.items;
      room = vec_capacity g.rows;
      word_room = vec_capacity g.words;
      page_room = vec_capacity g.shared;
      calm_room = vec_capacity g.calm;
    } };

    ghost invariant = { λ g. AreKnown g.rows.items g.words.items g.shared.items g.calm.items };
}

/// The word of a row.
fn word_of(glance: &Glance) -> u64
    ensures { result ≡ quiet_word glance.now }
{
    if glance.touched {
        NOT_QUIET
    } else {
        u64::from(glance.generation)
    }
}

impl Glances {
    /// No row.
    pub(crate) fn new(alloc: Global) -> Glances
        ensures { result.rows ≡ [] }
    {
        Glances {
            rows: Vec::new(alloc),
            words: Vec::new(alloc),
            shared: Vec::new(alloc),
            calm: Vec::new(alloc),
        }
    }

    /// How many rows there are.
    #[inline(always)]
    pub(crate) fn len(&self) -> usize
        ensures { result ≡ length self.now.rows }
    {
        self.rows.len()
    }

    /// The row of a slot that has one.
    #[inline(always)]
    pub(crate) fn at(&self, slot: u32) -> Glance
        requires { slot < length self.now.rows }
        ensures { result ≡ seen_at self.now.rows slot }
    {
        self.rows[slot as usize]
    }

    /// How many boxes stand from a slot on, up to the end of its page, where that is known to be calm. 0 where it is not.
    #[inline(always)]
    pub(crate) fn run_from(&self, slot: u32) -> usize
        requires { slot < length self.now.rows }
        ensures run { IsRun self.now.rows slot result }
        ensures page { slot % 64 + result ≤ 64 }
    {
        calm::run_from(&self.rows, &self.calm, slot as usize)
    }

    /// The sibling after the box of a slot.
    #[inline(always)]
    pub(crate) fn next_at(&self, slot: usize) -> Option<BoxKey>
        requires { slot < length self.now.rows }
        ensures { result ≡ (seen_at self.now.rows slot).next }
    {
        self.rows[slot].next
    }

    /// Where a slot is the first of a page that is known to be calm: which sibling comes after the last box of the page, if any.
    #[inline(always)]
    pub(crate) fn after_page(&self, slot: u32) -> Option<Option<BoxKey>>
        requires { slot < length self.now.rows }
        ensures { IfSome result (IsPassed self.now.rows slot) }
    {
        calm::after_page(&self.rows, &self.calm, slot as usize)
    }

    /// Is a key not the one of its row, or its box touched?
    #[inline(always)]
    pub(crate) fn tells_touched(&self, key: BoxKey) -> bool
        ensures { result ≡ told_touched self.now.rows key }
    {
        let at = key.slot() as usize;
        at >= self.words.len() || self.words[at] != u64::from(key.generation())
    }

    /// Is each key of a range that of its row, and its box untouched? It is said only of a range of one generation, where the
    /// rows of its slots, of few pages, are known to share that; where it is not said, nothing is known.
    #[inline(always)]
    pub(crate) fn none_touched(&self, keys: KeyRange) -> bool
        ensures { IsTrue result → (k : Box) → IsAmong keys k → told_touched self.now.rows k
            ≡ false }
    {
        let last = keys.last_slot as usize;
        keys.oldest == keys.newest
            && last < self.words.len()
            && all_share(&self.shared, keys, u64::from(keys.oldest))
    }

    /// Room for a row more. After a refusal nothing but room has changed.
    pub(crate) fn reserve(&mut self) -> Result<(), AllocError>
        ensures rows { self.new.rows ≡ self.old.rows }
        ensures room { OnOk result (HasRoom self.new) }
    {
        self.rows.reserve(1)?;
        self.words.reserve(1)?;
        self.shared.reserve(1)?;
        self.calm.reserve(1)?;
        Ok(())
    }

    /// Writes the row of a slot.
    pub(crate) fn write(&mut self, slot: u32, glance: Glance)
        requires { slot < length self.old.rows }
        ensures { self.new.rows ≡ slice_set self.old.rows slot glance }
    {
        forget(&self.words, &mut self.shared, slot as usize);
        calm::stir(&self.rows, &mut self.calm, slot as usize);
        self.words[slot as usize] = word_of(&glance);
        self.rows[slot as usize] = glance;
    }

    /// The box of a slot is touched no more, which it was. So nothing was known of its page, and nothing is.
    #[inline(always)]
    pub(crate) fn settle(&mut self, slot: u32)
        requires here { slot < length self.old.rows }
        requires touched { (seen_at self.old.rows slot).touched ≡ true }
        ensures { self.new.rows ≡ slice_set self.old.rows slot (untouched (seen_at self.old.rows slot)) }
    {
        let row = &mut self.rows[slot as usize];
        row.touched = false;
        self.words[slot as usize] = u64::from(row.generation);
    }

    /// Writes the row of a slot, or of the next one.
    pub(crate) fn put(&mut self, slot: u32, glance: Glance)
        requires { (slot < length self.old.rows) ⊎ ((slot ≡ length self.old.rows) × HasRoom self.old) }
        ensures { self.new.rows ≡ with_glance self.old.rows slot glance }
    {
        if (slot as usize) < self.rows.len() {
            self.write(slot, glance);
        } else {
            extend(&self.words, &mut self.shared, glance.generation);
            calm::extend(&self.rows, &mut self.calm);
            self.words.push_reserved(word_of(&glance));
            self.rows.push_reserved(glance);
        }
    }

    /// Works out anew which pages of rows share a word, and which are calm, where that is not known.
    pub(crate) fn renew(&mut self)
        ensures { self.new.rows ≡ self.old.rows }
    {
        calm::renew(&self.rows, &self.shared, &mut self.calm);
        renew(&self.words, &mut self.shared);
    }
}
