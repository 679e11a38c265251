//! A look at a kept level: which entries go, where the names of the new level stand, and in which groups something goes.
ghost use Rattle.std.specs.Prelude.{◌≡◌, ◌<◌, ◌≤◌, ◌+◌, ◌&&◌, not, false, if◌then◌else◌, [], ◌∷◌, ◌++◌, drop, length, map, take, None, IfOk, IfSome, OnOk};
ghost use Rattle.rd_graph.specs.Names.{place_of, same_entry};
ghost use Rattle.rd_graph.specs.Orders.{Once};
ghost use Rattle.rd_list.specs.Blocks.{AreBlocked};
ghost use Rattle.rd_list.specs.Chunks.{Covers, Tells, total};
ghost use Rattle.rd_list.specs.KeptView.{kept_entries};
ghost use Rattle.rd_merge.specs.Internal.Looks.{LeavesStay, gone_at, inner_at, name_of, noted};
ghost use Rattle.rd_merge.specs.Internal.Passes.{IsNoted, IsPass};
ghost use Rattle.rd_merge.specs.Internal.Sought.{AreChained};
ghost use Rattle.rd_merge.specs.Looking.{IsLooked, kept_names};
ghost use Rattle.rd_merge.specs.declared.passing.Leaves.TheVariants as known;

use crate::going::{Touches, key_of, stays_at};
use crate::inner::is_inner;
use crate::marks::Marks;
use crate::passing::{Leaves, Pass, stands_still};
use crate::sought::Finder;
use rd_keys::EntryKey;
use rd_list::{Blocked, Chunk, Entry};
use std::alloc::{AllocError, Global};
use std::sync::ledger::Ledger;

/// Places in a kept level: of the entries that go, of each name of the new level, and of the groups to go into although the new level does
/// not name them. And the number of the name that may be found next, after the last one that was.
#[derive(Drop)]
pub(crate) struct LevelDiff {
    pub(crate) gone: Vec<usize>,
    pub(crate) found: Vec<Option<usize>>,
    pub(crate) inner: Vec<usize>,
    next: usize,
}

/// What is noted in a pass, and what finds the names that are sought.
#[derive(Drop)]
struct Notes {
    looked: LevelDiff,
    finder: Finder,
}

/// The place of a name is noted, where the name is found. The name after it comes next.
#[inline(always)]
fn note(found: &mut Vec<Option<usize>>, next: &mut usize, name: Option<usize>, place: usize)
    requires { IfSome name (λ j. j < length found.old.items) }
    ensures { found.new.items ≡ noted name place found.old.items }
{
    if let Some(j) = name {
        found[j] = Some(place);
        *next = j + 1;
    }
}

/// The place goes to the end, if it is wanted.
fn push_if(places: &mut Vec<usize>, is_wanted: bool, place: usize) -> Result<(), AllocError>
    ensures { OnOk result (places.new.items ≡ places.old.items ++ (if is_wanted then place ∷ [] else [])) }
{
    if is_wanted {
        places.push(place)?;
        return Ok(());
    }
    Ok(())
}

/// Nothing is found as yet.
fn nothing(alloc: Global, names: &[EntryKey]) -> Result<LevelDiff, AllocError>
    ensures gone { IfOk result (λ l. l.gone.items ≡ []) }
    ensures found { IfOk result (λ l. l.found.items ≡ map (λ k. None) names.now) }
    ensures inner { IfOk result (λ l. l.inner.items ≡ []) }
{
    let mut found = Vec::with_capacity(alloc, names.len())?;
    for _ in names {
        found.push(None)?;
    }
    Ok(LevelDiff {
        gone: Vec::new(alloc),
        found,
        inner: Vec::new(alloc),
        next: 0,
    })
}

impl<A: Ledger, T: Touches> Pass<'_, A, T> {
    /// Notes what is found at one entry.
    #[inline(always)]
    fn at(
        &self,
        looked: &mut LevelDiff,
        finder: &mut Finder,
        place: usize,
        entry: &Entry<A>,
    ) -> Result<(), AllocError>
        requires pass { IsPass self.now }
        requires finder { IfSome finder.old.table (λ s. AreChained s.is_wide self.now.names.now s.lasts.items s.befores.items) }
        requires found { length looked.old.found.items ≡ length self.now.names.now }
        ensures finder { OnOk result (IfSome finder.new.table (λ s. AreChained s.is_wide self.now.names.now s.lasts.items s.befores.items)) }
        ensures gone { OnOk result (looked.new.gone.items
            ≡ looked.old.gone.items ++ gone_at (T.is_touched self.now.tree.now) place entry.now) }
        ensures found { OnOk result (looked.new.found.items
            ≡ noted (place_of same_entry self.now.names.now (name_of entry.now)) place looked.old.found.items) }
        ensures inner { OnOk result (looked.new.inner.items
            ≡ looked.old.inner.items ++ inner_at (T.is_touched self.now.tree.now) self.now.names.now place entry.now) }
    {
        let name = finder.find_from(self.marks, self.names, key_of(entry), looked.next)?;
        note(&mut looked.found, &mut looked.next, name, place);
        let stays = stays_at(entry, self.tree);
        push_if(&mut looked.gone, !stays, place)?;
        let is_inner = is_inner(stays, name.is_some(), entry, self.tree);
        push_if(&mut looked.inner, is_inner, place)?;
        Ok(())
    }

    /// Passes over entries before an end of which nothing is noted, and notes what is found at the next one, if there is one. All
    /// entries before them have been looked at. The place after it.
    #[inline(always)]
    fn on(
        &self,
        notes: &mut Notes,
        leaves: Leaves,
        from: usize,
        end: usize,
    ) -> Result<usize, AllocError>
        requires pass { IsPass self.now }
        requires from { from < end }
        requires end { end ≤ length self.now.entries.now }
        requires still { leaves ≡ known.Untouched
            → LeavesStay (T.is_touched self.now.tree.now) self.now.entries.now from end }
        requires noted { IsNoted (T.is_touched self.now.tree.now) self.now from notes.old }
        ensures after { IfOk result (λ n. from < n) }
        ensures within { IfOk result (λ n. n ≤ end) }
        ensures noted { IfOk result (λ n. IsNoted (T.is_touched self.now.tree.now) self.now n notes.new) }
    {
        let place = self.next_before(leaves, from, end);
        if place == end {
            return Ok(end);
        }
        let entry = &self.entries[place];
        self.at(&mut notes.looked, &mut notes.finder, place, entry)?;
        Ok(place + 1)
    }

    /// Notes what is found at the entries from one place up to another, where all before them have been looked at.
    #[inline(always)]
    fn between(
        &self,
        notes: &mut Notes,
        leaves: Leaves,
        from: usize,
        end: usize,
    ) -> Result<(), AllocError>
        requires pass { IsPass self.now }
        requires from { from ≤ end }
        requires end { end ≤ length self.now.entries.now }
        requires still { leaves ≡ known.Untouched
            → LeavesStay (T.is_touched self.now.tree.now) self.now.entries.now from end }
        requires noted { IsNoted (T.is_touched self.now.tree.now) self.now from notes.old }
        ensures { OnOk result (IsNoted (T.is_touched self.now.tree.now) self.now end notes.new) }
    {
        let mut place = from;
        while place < end {
            place = self.on(notes, leaves, place, end)?;
        }
        Ok(())
    }

    /// The same, where boxes may be touched.
    #[inline(never)]
    fn anywhere(&self, notes: &mut Notes, from: usize, end: usize) -> Result<(), AllocError>
        requires pass { IsPass self.now }
        requires from { from ≤ end }
        requires end { end ≤ length self.now.entries.now }
        requires noted { IsNoted (T.is_touched self.now.tree.now) self.now from notes.old }
        ensures { OnOk result (IsNoted (T.is_touched self.now.tree.now) self.now end notes.new) }
    {
        self.between(notes, Leaves::Unknown, from, end)
    }

    /// The same of the entries of a chunk, which is passed as a whole where nothing is noted of it.
    #[inline(always)]
    fn in_chunk(&self, notes: &mut Notes, chunk: &Chunk, start: usize) -> Result<(), AllocError>
        requires pass { IsPass self.now }
        requires end { start + chunk.now.count ≤ length self.now.entries.now }
        requires told { chunk.now.is_open ≡ false
            → Tells chunk.now (take chunk.now.count (drop start self.now.entries.now)) }
        requires noted { IsNoted (T.is_touched self.now.tree.now) self.now start notes.old }
        ensures { OnOk result (IsNoted (T.is_touched self.now.tree.now) self.now (start + chunk.now.count) notes.new) }
    {
        let end = start + chunk.count;
        if !stands_still(chunk, self.tree) {
            return self.anywhere(notes, start, end);
        }
        if self.marks.pages.lacks(chunk.told.keys) {
            return Ok(());
        }
        self.between(notes, Leaves::Untouched, start, end)
    }

    /// The same of the entries of chunks from one place on.
    fn in_chunks(
        &self,
        notes: &mut Notes,
        chunks: &[Chunk],
        start: usize,
    ) -> Result<usize, AllocError>
        requires pass { IsPass self.now }
        requires start { start ≤ length self.now.entries.now }
        requires covers { Covers chunks.now (drop start self.now.entries.now) }
        requires noted { IsNoted (T.is_touched self.now.tree.now) self.now start notes.old }
        ensures end { IfOk result (λ n. n ≡ start + total chunks.now) }
        ensures within { IfOk result (λ n. n ≤ length self.now.entries.now) }
        ensures noted { IfOk result (λ n. IsNoted (T.is_touched self.now.tree.now) self.now n notes.new) }
    {
        let mut place = start;
        for chunk in chunks {
            self.in_chunk(notes, chunk, place)?;
            place += chunk.count;
        }
        Ok(place)
    }

    /// The same of the entries of a block, whose chunks are given; they are passed as a whole where nothing is noted of them.
    #[inline(always)]
    fn in_block(
        &self,
        notes: &mut Notes,
        block: &Chunk,
        eight: &[Chunk],
        start: usize,
    ) -> Result<usize, AllocError>
        requires pass { IsPass self.now }
        requires end { start + block.now.count ≤ length self.now.entries.now }
        requires told { block.now.is_open ≡ false
            → Tells block.now (take block.now.count (drop start self.now.entries.now)) }
        requires covers { Covers eight.now (drop start self.now.entries.now) }
        requires total { total eight.now ≡ block.now.count }
        requires noted { IsNoted (T.is_touched self.now.tree.now) self.now start notes.old }
        ensures end { IfOk result (λ n. n ≡ start + block.now.count) }
        ensures noted { IfOk result (λ n. IsNoted (T.is_touched self.now.tree.now) self.now n notes.new) }
    {
        if stands_still(block, self.tree) && self.marks.pages.lacks(block.told.keys) {
            return Ok(start + block.count);
        }
        self.in_chunks(notes, eight, start)
    }
}

/// One pass over the entries of a kept level, for the names of a new one.
#[inline(never)]
pub(crate) fn look<A: Ledger, T: Touches>(
    alloc: Global,
    level: Blocked<'_, A>,
    names: &[EntryKey],
    tree: &T,
) -> Result<LevelDiff, AllocError>
    requires names { Once names.now }
    requires entries { Once (kept_names (kept_entries level.entries.now)) }
    requires covers { AreBlocked level }
    ensures { IfOk result (λ l. IsLooked (T.is_touched tree.now) (kept_entries level.entry.entries.now) names.now
        l.gone.items l.found.items l.inner.items) }
{
    let looked = nothing(alloc, names)?;
    let entries = level.entries;
    if entries.is_empty() {
        return Ok(looked);
    }
    let is_wide = names.len() > 128 && entries.len() > 4096;
    let marks = Marks::new(alloc, is_wide, names)?;
    let pass = Pass {
        entries,
        names,
        marks: &marks,
        tree,
    };
    let mut notes = Notes {
        looked,
        finder: Finder::new(alloc),
    };
    let mut place = 0;
    for (i, block) in level.blocks.iter().enumerate() {
        place = pass.in_block(&mut notes, block, level.eight(i, place), place)?;
    }
    let end = pass.in_chunks(&mut notes, level.rest(place), place)?;
    pass.anywhere(&mut notes, end, entries.len())?;
    Ok(notes.looked)
}
