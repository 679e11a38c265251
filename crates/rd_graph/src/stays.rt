//! Which places of a level stay: a bit for each place, which is set where its node goes.
ghost use Rattle.std.specs.Prelude.{◌≡◌, ◌≢◌, ℕ, ◌+◌, ◌^◌, ◌<◌, ◌≤◌, IfOk, IsTrue, length, true, false};
ghost use Rattle.rd_graph.specs.Internal.Walks.{stays_at};

use crate::chunks::chunk_end;
use rd_keys::with_bit;
use std::alloc::{AllocError, Global};
use std::marker::Model;

/// Of so many places, those that go.
#[derive(Drop)]
pub(crate) struct Stays {
    gone: Vec<u64>,
    count: usize,
}

impl Model for Stays {
    ghost use Rattle.std.specs.Prelude.{◌<◌, ◌*◌, Bool, List, length};
    ghost use Rattle.rd_graph.specs.Internal.Stays.{stay_from};

    ghost Value = { List Bool };

    ghost view = { λ s. stay_from s.gone.items 0 s.count };

    ghost invariant = { λ s. s.count < 64 * length s.gone.items };
}

impl Stays {
    /// All of so many places stay.
    pub(crate) fn all(alloc: Global, count: usize) -> Result<Stays, AllocError>
        ensures count { IfOk result (λ s. length s ≡ count) }
        ensures stay { IfOk result (λ s. (p : ℕ) → p < count → stays_at s p ≡ true) }
    {
        let gone = vec![in alloc; 0u64; count / 64 + 1]?;
        Ok(Stays { gone, count })
    }

    /// A place goes.
    pub(crate) fn take(&mut self, place: usize)
        requires { place < length self.old }
        ensures len { length self.new ≡ length self.old }
        ensures here { stays_at self.new place ≡ false }
        ensures others { (p : ℕ) → p ≢ place → stays_at self.new p ≡ stays_at self.old p }
    {
        self.gone[place / 64] = with_bit(self.gone[place / 64], place);
    }

    /// How many places there are.
    #[inline(always)]
    pub(crate) fn len(&self) -> usize
        ensures { result ≡ length self.now }
    {
        self.count
    }

    /// Does the node at a place stay? There may be no such place.
    #[inline(always)]
    pub(crate) fn has(&self, place: usize) -> bool
        ensures stays { result ≡ stays_at self.now place }
        ensures next { IsTrue result → place + 1 < 2 ^ 64 }
    {
        if self.count <= place {
            return false;
        }
        self.gone[place / 64] >> (place % 64) & 1 == 0
    }

    /// The first place from one up to another that stays, or else the other.
    pub(crate) fn next_staying(&self, from: usize, to: usize) -> usize
        requires from { from ≤ to }
        requires to { to ≤ length self.now }
        ensures after { from ≤ result }
        ensures within { result ≤ to }
        ensures before { (p : ℕ) → from ≤ p → p < result → stays_at self.now p ≡ false }
        ensures there { result < to → stays_at self.now result ≡ true }
    {
        let mut place = from;
        while place < to && !self.has(place) {
            place += 1;
        }
        place
    }

    /// The place after one, or where all of 64 stay, the first one after these; but none after an end.
    #[inline(always)]
    fn after(&self, place: usize, end: usize) -> usize
        requires place { place < end }
        requires end { end ≤ length self.now }
        requires stays { stays_at self.now place ≡ true }
        ensures after { place < result }
        ensures within { result ≤ end }
        ensures stay { (p : ℕ) → place ≤ p → p < result → stays_at self.now p ≡ true }
    {
        if self.gone[place / 64] == 0 {
            chunk_end(place, end)
        } else {
            place + 1
        }
    }

    /// The first place from one up to another that goes, or else the other.
    pub(crate) fn next_gone(&self, from: usize, to: usize) -> usize
        requires from { from ≤ to }
        requires to { to ≤ length self.now }
        ensures after { from ≤ result }
        ensures within { result ≤ to }
        ensures before { (p : ℕ) → from ≤ p → p < result → stays_at self.now p ≡ true }
        ensures there { result < to → stays_at self.now result ≡ false }
    {
        let mut place = from;
        while place < to && self.has(place) {
            place = self.after(place, to);
        }
        place
    }
}
