//! Blocks: of each eight chunks of a level what is told of all their entries, so that a walk passes over them at once.
ghost use Rattle.std.specs.Prelude.{◌≡◌, ◌<◌, ◌≤◌, ◌+◌, [], IfSome, false, length, take, drop, slice_index_or};
ghost use Rattle.rd_list.specs.Blocks.{AreBlocked};
ghost use Rattle.rd_list.specs.Chunks.{AreCovered, AreEights, Covers, IsAt, Tells, counts, total};
ghost use Rattle.rd_list.specs.declared.chunks.Chunk.{Chunk};

use crate::chunks::{Chunk, push_chunk, renew_open};
use crate::kept::Entry;
use crate::retelling::retell;
use crate::seeking::ChunkCursor;
use crate::told::sum_of;
use std::alloc::Global;
use std::sync::ledger::Ledger;

/// How many chunks a block has.
pub(crate) const EIGHT: usize = 8;

/// The chunks of a level, one after another, and blocks, which are told of as a chunk is; each is of the next eight chunks, and the last
/// chunks may have none.
#[derive(Drop)]
pub struct Chunks {
    pub chunks: Vec<Chunk>,
    pub blocks: Vec<Chunk>,
}

impl Chunks {
    /// No chunks.
    pub fn none(alloc: Global) -> Chunks
        ensures chunks { result.chunks.items ≡ [] }
        ensures blocks { result.blocks.items ≡ [] }
    {
        Chunks {
            chunks: Vec::new(alloc),
            blocks: Vec::new(alloc),
        }
    }
}

/// A level as a walk reads it: its blocks, its chunks and its entries.
#[derive_where(Clone, Copy)]
pub struct Blocked<'a, A: Ledger> {
    pub blocks: &'a [Chunk],
    pub chunks: &'a [Chunk],
    pub entries: &'a [Entry<A>],
}

impl<'a, A: Ledger> Blocked<'a, A> {
    /// The chunks of a block.
    #[inline(always)]
    pub fn eight(&self, block: usize, start: usize) -> &'a [Chunk]
        requires covers { AreBlocked self.now }
        requires some { block < length self.now.blocks.now }
        requires at { IsAt self.now.blocks.now block start }
        ensures covers { Covers result.now (drop start self.now.entries.now) }
        ensures total { (b : Chunk) → b ≡ slice_index_or self.now.blocks.now block b → total result.now ≡ b.count }
    {
        let (_, from) = self.chunks.split_at(block * EIGHT);
        let (eight, _) = from.split_at(EIGHT);
        eight
    }

    /// The block that begins with the next chunk, if there is one.
    #[inline(always)]
    pub fn block_at(&self, next: ChunkCursor) -> Option<&'a Chunk>
        requires covers { AreBlocked self.now }
        requires at { IsAt self.now.chunks.now next.at next.start }
        ensures at { IfSome result (λ b. IsAt self.now.chunks.now (next.at + 8) (next.start + b.now.count)) }
        ensures within { IfSome result (λ b. next.start + b.now.count ≤ length self.now.entries.now) }
        ensures told { IfSome result (λ b. b.now.is_open ≡ false → Tells b.now (take b.now.count (drop next.start self.now.entries.now))) }
    {
        let block = next.at / EIGHT;
        if next.at % EIGHT != 0 || block >= self.blocks.len() {
            return None;
        }
        Some(&self.blocks[block])
    }

    /// The chunks after those of all blocks.
    #[inline(always)]
    pub fn rest(&self, start: usize) -> &'a [Chunk]
        requires covers { AreBlocked self.now }
        requires at { IsAt self.now.blocks.now (length self.now.blocks.now) start }
        ensures covers { Covers result.now (drop start self.now.entries.now) }
    {
        let (_, rest) = self.chunks.split_at(self.blocks.len() * EIGHT);
        rest
    }
}

/// Puts the blocks of chunks on top of none, as far as there is room.
fn push_blocks<A: Ledger>(blocks: &mut Vec<Chunk>, chunks: &[Chunk], entries: &[Entry<A>])
    requires none { blocks.old.items ≡ [] }
    requires covers { Covers chunks.now entries.now }
    ensures covers { Covers blocks.new.items entries.now }
    ensures eights { AreEights (counts blocks.new.items) (counts chunks.now) }
{
    let mut place = 0;
    let mut at = 0;
    while chunks.len() - at >= EIGHT {
        let block = sum_of(&chunks[at..at + EIGHT], &entries[place..]);
        let count = block.count;
        if !push_chunk(blocks, block) {
            return;
        }
        place += count;
        at += EIGHT;
    }
}

/// Has each entry a chunk, and is no block of these open, and none of the chunks after the blocks?
fn are_closed<A: Ledger>(chunks: &Chunks, entries: &[Entry<A>]) -> bool
    requires { AreCovered chunks.now entries.now }
{
    let level = Blocked {
        blocks: &chunks.blocks,
        chunks: &chunks.chunks,
        entries,
    };
    let blocks = sum_of(level.blocks, entries);
    if blocks.is_open {
        return false;
    }
    let rest = sum_of(level.rest(blocks.count), &entries[blocks.count..]);
    !rest.is_open && blocks.count + rest.count == entries.len()
}

/// Has each eight chunks a block?
fn has_blocks(chunks: &Chunks) -> bool {
    chunks.blocks.len() >= chunks.chunks.len() / EIGHT
}

/// The chunks of some entries, by chunks that they had. Open ones are told anew where they stand, and where none is left that is open
/// these chunks stay, with new blocks if some are missing. Otherwise open ones, and small ones beside them, are made anew, and the
/// others stay, as far as there is room for them.
pub fn renew_chunks<A: Ledger>(mut room: Chunks, entries: &[Entry<A>], mut had: Chunks) -> Chunks
    requires chunks { room.chunks.items ≡ [] }
    requires blocks { room.blocks.items ≡ [] }
    requires had { AreCovered had entries.now }
    ensures { AreCovered result entries.now }
{
    retell(&mut had, entries);
    if !are_closed(&had, entries) {
        renew_open(&mut room.chunks, entries, &had.chunks);
        push_blocks(&mut room.blocks, &room.chunks, entries);
        return room;
    }
    if has_blocks(&had) {
        return had;
    }
    push_blocks(&mut room.blocks, &had.chunks, entries);
    Chunks {
        chunks: had.chunks,
        blocks: room.blocks,
    }
}
