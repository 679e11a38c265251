//! The chunks of a level through a merge: what is said of entries goes with them to their places. Nothing takes memory.
ghost use Rattle.std.specs.Prelude.{◌≡◌, ℕ, ◌<◌, ◌≤◌, ◌+◌, ◌-◌, ◌++◌, ◌∷◌, [], IfNone, IfSome, List, length, take, drop, option_map, slice_set, vec_len, vec_capacity};
ghost use Rattle.rd_graph.specs.Gathered.{ArePlaces, IsLine, arranged, gathered};
ghost use Rattle.rd_graph.specs.Runs.{places_of, up_from};
ghost use Rattle.rd_list.specs.Blocks.{IsAtBoth};
ghost use Rattle.rd_list.specs.Chunks.{AreCovered, AreEights, Covers, CoversAll, IsAt, IsLeaf, IsTold, counts};
ghost use Rattle.rd_list.specs.declared.kept.Entry.{Entry as KeptEntry};
ghost use Rattle.rd_list.specs.KeptView.{kept_entries};
ghost use Rattle.rd_list.specs.Entries.{◌▷◌};
ghost use Rattle.rd_list.specs.declared.kept.Entry.TheVariants as variants;
ghost use Rattle.rd_merge.specs.Plans.{IsPlace, one_made, put_entry};
ghost use Rattle.rd_merge.specs.Internal.Moving.{ChangesAt, PartsTo, PartsAll};

use crate::moving::{put, put_item_at};
use rd_graph::Run;
use rd_item::Item;
use rd_list::{
    BlockCursor, Chunk, ChunkBounds, ChunkCursor, Chunks, Entry, FIRST_CHUNK, chunk_at, item_told,
    push_chunk, replace_entry,
};
use std::sync::ledger::Ledger;

/// Nothing is said any more of the chunk of a place, if one is given, since its entry goes.
pub(crate) fn clear<A: Ledger>(
    chunks: &mut Chunks,
    last: BlockCursor,
    place: Option<usize>,
) -> BlockCursor
    requires eights { AreEights (counts chunks.old.blocks.items) (counts chunks.old.chunks.items) }
    requires at { IsAtBoth chunks.old last }
    ensures eights { AreEights (counts chunks.new.blocks.items) (counts chunks.new.chunks.items) }
    ensures at { IsAtBoth chunks.new result }
    ensures covers { (xs ys : List (KeptEntry A)) → AreCovered chunks.old xs → ChangesAt place xs ys → AreCovered chunks.new ys }
{
    match place {
        Some(place) => replace_entry::<A>(chunks, last, place, None),
        None => last,
    }
}

/// What is told of a new leaf, where it comes for a leaf.
#[inline(always)]
fn told_for_leaf<A: Ledger>(old: &Entry<A>, item: &Item<A>) -> Option<ChunkBounds>
    ensures { IfSome result (λ t. ((e : KeptEntry A) → e ≡ variants.Leaf item.now → IsTold t (e ∷ [])) × IsLeaf old.now) }
{
    match old {
        Entry::Leaf(_) => Some(item_told(item)),
        Entry::Group(_) => None,
    }
}

/// Puts a leaf at its place, and into the chunk of the place.
#[inline(always)]
pub(crate) fn put_item_in_chunk<A: Ledger>(
    chunks: &mut Chunks,
    last: BlockCursor,
    entries: &mut Vec<Entry<A>>,
    place: usize,
    item: Item<A>,
) -> BlockCursor
    requires place { place < vec_len entries.old }
    requires at { IsAtBoth chunks.old last }
    requires covers { AreCovered chunks.old entries.old.items }
    ensures put { entries.new.items ≡ slice_set entries.old.items place (variants.Leaf item) }
    ensures entries { vec_len entries.new ≡ vec_len entries.old }
    ensures at { IsAtBoth chunks.new result }
    ensures covers { AreCovered chunks.new entries.new.items }
{
    let told = told_for_leaf(&entries[place], &item);
    let seek = replace_entry::<A>(chunks, last, place, told);
    put_item_at(entries, place, item);
    seek
}

/// Puts an entry at its place, or on top of the ones that are made. Nothing is said any more of the chunk of the place.
pub(crate) fn put_in_chunk<A: Ledger>(
    chunks: &mut Chunks,
    last: BlockCursor,
    entries: &mut Vec<Entry<A>>,
    made: &mut Vec<Entry<A>>,
    place: Option<usize>,
    entry: Entry<A>,
) -> BlockCursor
    requires place { IsPlace place (vec_len entries.old) }
    requires room { vec_len made.old + one_made place ≤ vec_capacity made.old }
    requires at { IsAtBoth chunks.old last }
    requires covers { AreCovered chunks.old entries.old.items }
    ensures put { kept_entries entries.new.items ▷ kept_entries made.new.items
        ≡ put_entry place (kept_entries (entry ∷ [])) (kept_entries entries.old.items ▷ kept_entries made.old.items) }
    ensures entries { vec_len entries.new ≡ vec_len entries.old }
    ensures made { vec_len made.new ≡ vec_len made.old + one_made place }
    ensures room { vec_capacity made.old ≤ vec_capacity made.new }
    ensures at { IsAtBoth chunks.new result }
    ensures covers { AreCovered chunks.new entries.new.items }
{
    let seek = clear::<A>(chunks, last, place);
    put(entries, made, place, entry);
    seek
}

/// Puts what chunks say of the entries from one place up to another on top. None where there is no room for it.
fn push_parts<A: Ledger>(
    chunks: &mut Vec<Chunk>,
    had: &[Chunk],
    last: ChunkCursor,
    entries: &[Entry<A>],
    from: usize,
    end: usize,
) -> Option<ChunkCursor>
    requires at { IsAt had.now last.at last.start }
    requires had { Covers had.now entries.now }
    requires places { from ≤ end }
    ensures at { IfSome result (λ s. IsAt had.now s.at s.start) }
    ensures parts { PartsTo chunks.old.items chunks.new.items entries.now from end }
    ensures all { IfSome result (λ s. PartsAll chunks.old.items chunks.new.items entries.now from end) }
{
    let mut seek = last;
    let mut place = from;
    while place < end {
        let part = chunk_at(had, seek, entries, place, end);
        let count = part.chunk.count;
        if !push_chunk(chunks, part.chunk) {
            return None;
        }
        seek = part.seek;
        place += count;
    }
    Some(seek)
}

/// What chunks say of the entries of a line of old and made ones, as far as there is room for it.
fn push_line<A: Ledger>(
    chunks: &mut Vec<Chunk>,
    had: &[Chunk],
    entries: &[Entry<A>],
    made: &[Entry<A>],
    runs: &[Run],
)
    requires none { chunks.old.items ≡ [] }
    requires had { Covers had.now entries.now }
    requires places { ArePlaces (places_of runs.now) (length entries.now + length made.now) }
    ensures { Covers chunks.new.items (gathered (places_of runs.now) (entries.now ++ made.now)) }
{
    let mut seek = FIRST_CHUNK;
    for run in runs {
        let Some(end) = run.from.checked_add(run.count) else {
            return;
        };
        if run.count > 0 {
            match push_parts(chunks, had, seek, entries, run.from, end) {
                Some(next) => seek = next,
                None => return,
            }
        }
    }
}

/// The chunks as they are, or what they say of the entries of a line. There is room for the parts in `room`.
pub(crate) fn in_line_chunks<A: Ledger>(
    had: Chunks,
    entries: &[Entry<A>],
    made: &[Entry<A>],
    line: Option<&[Run]>,
    mut room: Chunks,
) -> Chunks
    requires chunks { room.chunks.items ≡ [] }
    requires blocks { room.blocks.items ≡ [] }
    requires had { AreCovered had entries.now }
    requires line { IsLine (option_map (λ l. places_of l.now) line) (length entries.now + length made.now) }
    ensures { AreCovered result (arranged (option_map (λ l. places_of l.now) line.entry) (entries.now ++ made.now)) }
{
    match line {
        None => had,
        Some(runs) => {
            push_line(&mut room.chunks, &had.chunks, entries, made, runs);
            room
        }
    }
}
