//! Open chunks are told anew where they stand, and so are the blocks over them.
ghost use Rattle.std.specs.Prelude.{◌≡◌, ◌<◌, ◌≤◌, ◌+◌, false, length, take, drop, slice_index_or};
ghost use Rattle.rd_list.specs.Chunks.{AreCovered, Covers, IsAt, Tells, counts};
ghost use Rattle.rd_list.specs.declared.chunks.Chunk.{Chunk};

use crate::blocks::{Blocked, Chunks, EIGHT};
use crate::chunks::{Chunk, MOST, first_chunk, open_chunk};
use crate::kept::Entry;
use crate::told::sum_of;
use std::sync::ledger::Ledger;

/// The chunk of all these entries. An open one, where nothing is told of one of them.
fn whole_chunk<A: Ledger>(entries: &[Entry<A>]) -> Chunk
    ensures count { result.count ≡ length entries.now }
    ensures told { result.is_open ≡ false → Tells result entries.now }
{
    if entries.is_empty() {
        return open_chunk(0);
    }
    let first = first_chunk(entries);
    if first.count < entries.len() {
        return open_chunk(entries.len());
    }
    first
}

/// Is a chunk told anew where it stands? A small one is not, since it may go with those beside it.
#[inline(always)]
fn is_retold(chunk: &Chunk) -> bool {
    chunk.is_open && chunk.count >= MOST / 2
}

/// The chunk at a place is told anew, if it is open. Where its entries end is what is given back.
#[inline(always)]
fn retell_chunk<A: Ledger>(
    chunks: &mut Vec<Chunk>,
    at: usize,
    entries: &[Entry<A>],
    start: usize,
) -> usize
    requires some { at < length chunks.old.items }
    requires at { IsAt chunks.old.items at start }
    requires covers { Covers chunks.old.items entries.now }
    ensures counts { counts chunks.new.items ≡ counts chunks.old.items }
    ensures at { IsAt chunks.new.items (at + 1) result }
    ensures within { result ≤ length entries.now }
    ensures covers { Covers chunks.new.items entries.now }
{
    let chunk = chunks[at];
    let end = start + chunk.count;
    if is_retold(&chunk) {
        chunks[at] = whole_chunk(&entries[start..end]);
    }
    end
}

/// The same of the chunks from one place up to another.
fn retell_chunks<A: Ledger>(
    chunks: &mut Vec<Chunk>,
    from: usize,
    to: usize,
    entries: &[Entry<A>],
    start: usize,
)
    requires to { to ≤ length chunks.old.items }
    requires at { IsAt chunks.old.items from start }
    requires covers { Covers chunks.old.items entries.now }
    ensures counts { counts chunks.new.items ≡ counts chunks.old.items }
    ensures covers { Covers chunks.new.items entries.now }
{
    let mut at = from;
    let mut place = start;
    while at < to {
        place = retell_chunk(chunks, at, entries, place);
        at += 1;
    }
}

/// What the chunks of a block tell of it.
fn block_told<A: Ledger>(level: &Chunks, block: usize, entries: &[Entry<A>], start: usize) -> Chunk
    requires some { block < length level.now.blocks.items }
    requires at { IsAt level.now.blocks.items block start }
    requires covers { AreCovered level.now entries.now }
    ensures count { (b : Chunk) → b ≡ slice_index_or level.now.blocks.items block b → result.count ≡ b.count }
    ensures told { result.is_open ≡ false → Tells result (take result.count (drop start entries.now)) }
{
    let level = Blocked {
        blocks: &level.blocks,
        chunks: &level.chunks,
        entries,
    };
    sum_of(level.eight(block, start), &entries[start..])
}

/// The chunks of a block that is open are told anew, and then the block. Where its entries end is what is given back.
fn retell_block<A: Ledger>(
    level: &mut Chunks,
    block: usize,
    entries: &[Entry<A>],
    start: usize,
) -> usize
    requires some { block < length level.old.blocks.items }
    requires at { IsAt level.old.blocks.items block start }
    requires covers { AreCovered level.old entries.now }
    ensures blocks { counts level.new.blocks.items ≡ counts level.old.blocks.items }
    ensures at { IsAt level.new.blocks.items (block + 1) result }
    ensures covers { AreCovered level.new entries.now }
{
    let old = level.blocks[block];
    let end = start + old.count;
    if !old.is_open {
        return end;
    }
    let at = block * EIGHT;
    retell_chunks(&mut level.chunks, at, at + EIGHT, entries, start);
    level.blocks[block] = block_told(level, block, entries, start);
    end
}

/// What may be told anew where it stands: the chunks of open blocks, these blocks, and the chunks after all blocks.
pub(crate) fn retell<A: Ledger>(level: &mut Chunks, entries: &[Entry<A>])
    requires { AreCovered level.old entries.now }
    ensures { AreCovered level.new entries.now }
{
    let mut block = 0;
    let mut place = 0;
    while block < level.blocks.len() {
        place = retell_block(level, block, entries, place);
        block += 1;
    }
    let end = level.chunks.len();
    retell_chunks(&mut level.chunks, block * EIGHT, end, entries, place);
}
