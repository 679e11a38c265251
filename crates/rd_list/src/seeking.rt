//! The chunk of a place. It is sought from the one that was found last, since places mostly rise.
ghost use Rattle.std.specs.Prelude.{◌≡◌, ◌⊎◌, ◌<◌, ◌≤◌, ◌+◌, None, IfSome, MatchOption, List, length, take, drop, false};
ghost use Rattle.rd_list.specs.Blocks.{IsAtBoth};
ghost use Rattle.rd_list.specs.Chunks.{AreCovered, AreEights, ChangesTo, Covers, IsAt, IsFound, IsReplaced, IsWider, Tells, counts};
ghost use Rattle.rd_list.specs.declared.kept.Entry.{Entry};

use crate::blocks::Chunks;
use crate::chunks::{Chunk, open_chunk};
use crate::kept::Entry;
use crate::told::{ChunkBounds, told_too};
use std::sync::ledger::Ledger;

/// How many chunks stand before the one that was found last, and how many entries they have.
#[derive(Clone, Copy)]
pub struct ChunkCursor {
    pub at: usize,
    pub start: usize,
}

/// At the first chunk.
pub const FIRST_CHUNK: ChunkCursor = ChunkCursor { at: 0, start: 0 };

/// Where to begin: at the chunk that was found last, unless the place is before it.
#[inline(always)]
fn begin(chunks: &[Chunk], last: ChunkCursor, place: usize) -> ChunkCursor
    requires { IsAt chunks.now last.at last.start }
    ensures at { IsAt chunks.now result.at result.start }
    ensures before { result.start ≤ place }
{
    if last.start <= place {
        last
    } else {
        FIRST_CHUNK
    }
}

/// The chunk of a place, or past the last one where it has none.
#[inline(always)]
fn find_chunk(chunks: &[Chunk], last: ChunkCursor, place: usize) -> ChunkCursor
    requires { IsAt chunks.now last.at last.start }
    ensures at { IsAt chunks.now result.at result.start }
    ensures found { IsFound chunks.now result.at result.start place }
{
    let mut now = begin(chunks, last, place);
    while now.at < chunks.len() {
        let count = chunks[now.at].count;
        if place - now.start < count {
            return now;
        }
        now = ChunkCursor {
            at: now.at + 1,
            start: now.start + count,
        };
    }
    now
}

/// What a chunk says where another leaf comes, of which this is told. None where it says something else of that.
#[inline(always)]
fn admitted(chunk: &Chunk, told: Option<ChunkBounds>) -> Option<ChunkBounds>
    ensures { IfSome result (λ t. IsWider chunk.now.told t × (t.leaves ≡ chunk.now.told.leaves) × MatchOption told ⊥ (λ m. IsWider m t)) }
{
    let told = told?;
    told_too(&chunk.told, told)
}

/// The chunk where another entry comes, of which this is told, if it is a leaf for a leaf. It is open if it says something else of it.
#[inline(always)]
fn with_entry(chunk: &Chunk, told: Option<ChunkBounds>) -> Chunk
    ensures { IsReplaced told chunk.now result }
{
    match admitted(chunk, told) {
        Some(told) => Chunk {
            count: chunk.count,
            is_open: chunk.is_open,
            told,
        },
        None => open_chunk(chunk.count),
    }
}

/// Another entry comes to a place: one leaf for another, if something is told of it. The chunk of the place stays as it is if it
/// says so of the new leaf too, and otherwise it is open.
#[inline(always)]
fn replace_in<A: Ledger>(
    chunks: &mut Vec<Chunk>,
    last: ChunkCursor,
    place: usize,
    told: Option<ChunkBounds>,
) -> ChunkCursor
    requires { IsAt chunks.old.items last.at last.start }
    ensures at { IsAt chunks.new.items result.at result.start }
    ensures counts { counts chunks.new.items ≡ counts chunks.old.items }
    ensures covers { (xs ys : List (Entry A)) → Covers chunks.old.items xs → ChangesTo place told xs ys
        → Covers chunks.new.items ys }
{
    let found = find_chunk(chunks, last, place);
    if found.at < chunks.len() {
        let chunk = chunks[found.at];
        chunks[found.at] = with_entry(&chunk, told);
    }
    found
}

/// Where the last block was found, and the last chunk.
#[derive(Clone, Copy)]
pub struct BlockCursor {
    pub block: ChunkCursor,
    pub chunk: ChunkCursor,
}

/// At the first block, and its first chunk.
pub const FIRST_BLOCK: BlockCursor = BlockCursor {
    block: FIRST_CHUNK,
    chunk: FIRST_CHUNK,
};

/// The first chunk of a block, unless the chunk that was found last comes after it.
#[inline(always)]
fn within_block(
    chunks: &Chunks,
    block: ChunkCursor,
    chunk: ChunkCursor,
    place: usize,
) -> ChunkCursor
    requires eights { AreEights (counts chunks.now.blocks.items) (counts chunks.now.chunks.items) }
    requires block { IsAt chunks.now.blocks.items block.at block.start }
    requires chunk { IsAt chunks.now.chunks.items chunk.at chunk.start }
    ensures { IsAt chunks.now.chunks.items result.at result.start }
{
    if chunk.start <= place && block.start <= chunk.start {
        return chunk;
    }
    ChunkCursor {
        at: block.at * 8,
        start: block.start,
    }
}

/// Is the chunk at a place open, if there is one?
#[inline(always)]
fn is_open_at(chunks: &[Chunk], at: usize) -> bool {
    at < chunks.len() && chunks[at].is_open
}

/// What is told, or nothing.
#[inline(always)]
fn told_unless(is_none: bool, told: Option<ChunkBounds>) -> Option<ChunkBounds>
    ensures { (result ≡ told) ⊎ (result ≡ None) }
{
    if is_none { None } else { told }
}

/// Another entry comes to a place: one leaf for another, if something is told of it. The chunk of the place, and the block of that, stay
/// as they are if they say so of the new leaf too, and otherwise they are open; the block is open if the chunk is.
#[inline(always)]
pub fn replace_entry<A: Ledger>(
    chunks: &mut Chunks,
    last: BlockCursor,
    place: usize,
    told: Option<ChunkBounds>,
) -> BlockCursor
    requires eights { AreEights (counts chunks.old.blocks.items) (counts chunks.old.chunks.items) }
    requires at { IsAtBoth chunks.old last }
    ensures eights { AreEights (counts chunks.new.blocks.items) (counts chunks.new.chunks.items) }
    ensures at { IsAtBoth chunks.new result }
    ensures covers { (xs ys : List (Entry A)) → AreCovered chunks.old xs → ChangesTo place told xs ys → AreCovered chunks.new ys }
{
    let found = find_chunk(&chunks.blocks, last.block, place);
    let from = within_block(chunks, found, last.chunk, place);
    let of_chunk = told;
    let chunk = replace_in::<A>(&mut chunks.chunks, from, place, of_chunk);
    let is_open = is_open_at(&chunks.chunks, chunk.at);
    let of_block = told_unless(is_open, told);
    let block = replace_in::<A>(&mut chunks.blocks, found, place, of_block);
    BlockCursor { block, chunk }
}

/// What chunks say of entries.
#[derive(Clone, Copy)]
pub struct ChunkSlice {
    pub chunk: Chunk,
    pub seek: ChunkCursor,
}

/// How many places from one on are of the chunk that is found, up to an end.
#[inline(always)]
fn count_in(found: ChunkCursor, chunk: &Chunk, place: usize, end: usize) -> usize
    requires before { found.start ≤ place }
    requires within { place < found.start + chunk.now.count }
    requires some { place < end }
    ensures some { 0 < result }
    ensures in_end { place + result ≤ end }
    ensures whole { chunk.now.count ≤ result → (found.start ≡ place) × (result ≡ chunk.now.count) }
{
    let left = chunk.count - (place - found.start);
    left.min(end - place)
}

/// What chunks say of the entries from a place on, as far as it is one thing, up to an end. Nothing is said of a chunk in part,
/// and past the last chunk.
pub fn chunk_at<A: Ledger>(
    chunks: &[Chunk],
    last: ChunkCursor,
    entries: &[Entry<A>],
    place: usize,
    end: usize,
) -> ChunkSlice
    requires at { IsAt chunks.now last.at last.start }
    requires some { place < end }
    requires covers { Covers chunks.now entries.now }
    ensures at { IsAt chunks.now result.seek.at result.seek.start }
    ensures some { 0 < result.chunk.count }
    ensures in_end { place + result.chunk.count ≤ end }
    ensures within { result.chunk.is_open ≡ false → place + result.chunk.count ≤ length entries.now }
    ensures told { result.chunk.is_open ≡ false
        → Tells result.chunk (take result.chunk.count (drop place entries.now)) }
{
    let seek = find_chunk(chunks, last, place);
    if seek.at >= chunks.len() || place >= entries.len() {
        let chunk = open_chunk(end - place);
        return ChunkSlice { chunk, seek };
    }
    let whole = chunks[seek.at];
    let count = count_in(seek, &whole, place, end);
    if count < whole.count {
        let chunk = open_chunk(count);
        return ChunkSlice { chunk, seek };
    }
    ChunkSlice { chunk: whole, seek }
}
