//! Chunks of a level: entries that follow each other, and what is told of all of them, so that a walk passes over them at once.
ghost use Rattle.std.specs.Prelude.{◌≡◌, ◌<◌, ◌≤◌, ◌∷◌, ◌++◌, [], false, true, IsTrue, length, take};
ghost use Rattle.rd_list.specs.Chunks.{Covers, CoversAll, IsTold, Tells, total};

use crate::edges::{first_leaves, leaves_told};
use crate::kept::Entry;
use crate::told::{ChunkBounds, NOTHING, told_more};
use std::sync::ledger::Ledger;

/// How many entries a chunk has at most.
pub(crate) const MOST: usize = 32;

/// So many entries that follow each other, and what is told of them. Nothing is said of those of an open one, which is made anew by
/// the next merge.
#[derive(Clone, Copy)]
pub struct Chunk {
    pub count: usize,
    pub is_open: bool,
    pub told: ChunkBounds,
}

/// A chunk of which nothing is said.
#[inline(always)]
pub(crate) fn open_chunk(count: usize) -> Chunk
    ensures count { result.count ≡ count }
    ensures open { IsTrue result.is_open }
{
    Chunk {
        count,
        is_open: true,
        told: NOTHING,
    }
}

/// The chunk of the first so many of some entries, of which this is told, or an open one of the first, where they are none.
#[inline(always)]
fn chunk_of<A: Ledger>(entries: &[Entry<A>], count: usize, told: &ChunkBounds) -> Chunk
    requires some { 0 < length entries.now }
    requires within { count ≤ length entries.now }
    requires told { IsTold told.now (take count entries.now) }
    ensures some { 0 < result.count }
    ensures within { result.count ≤ length entries.now }
    ensures told { result.is_open ≡ false → Tells result (take result.count entries.now) }
{
    if count == 0 {
        return open_chunk(1);
    }
    Chunk {
        count,
        is_open: false,
        told: *told,
    }
}

/// The chunk of the first entries, of which so many are told already: as many as there may be, up to the first of which nothing is told.
#[inline(always)]
fn grown_chunk<A: Ledger>(entries: &[Entry<A>], first: usize, first_told: ChunkBounds) -> Chunk
    requires some { 0 < length entries.now }
    requires within { first ≤ length entries.now }
    requires told { IsTold first_told (take first entries.now) }
    ensures some { 0 < result.count }
    ensures within { result.count ≤ length entries.now }
    ensures told { result.is_open ≡ false → Tells result (take result.count entries.now) }
{
    let mut count = first;
    let mut told = first_told;
    while count < MOST && count < entries.len() {
        let Some(more) = told_more(&told, &entries[count]) else {
            return chunk_of(entries, count, &told);
        };
        told = more;
        count += 1;
    }
    chunk_of(entries, count, &told)
}

/// The first chunk of some entries: as many as there may be, up to the first of which nothing is told. The leaves that come first
/// are told at once.
pub(crate) fn first_chunk<A: Ledger>(entries: &[Entry<A>]) -> Chunk
    requires { 0 < length entries.now }
    ensures some { 0 < result.count }
    ensures within { result.count ≤ length entries.now }
    ensures told { result.is_open ≡ false → Tells result (take result.count entries.now) }
{
    let leaves = first_leaves(entries, MOST);
    let Some(told) = leaves_told::<A>(&leaves) else {
        return open_chunk(1);
    };
    grown_chunk(entries, leaves.count, told)
}

/// Puts a chunk on top, if there is room for it.
pub fn push_chunk(chunks: &mut Vec<Chunk>, chunk: Chunk) -> bool
    ensures put { result ≡ true → chunks.new.items ≡ chunks.old.items ++ chunk ∷ [] }
    ensures full { result ≡ false → chunks.new.items ≡ chunks.old.items }
{
    if chunks.len() < chunks.capacity() {
        chunks.push_reserved(chunk);
        return true;
    }
    false
}

/// Puts the chunks of the entries from one place up to another on top of those before them. Where there is no more room, the
/// rest has none.
pub(crate) fn cover_on<A: Ledger>(
    chunks: &mut Vec<Chunk>,
    entries: &[Entry<A>],
    from: usize,
    to: usize,
) -> bool
    requires from { from ≤ to }
    requires to { to ≤ length entries.now }
    requires before { CoversAll chunks.old.items (take from entries.now) }
    ensures covers { Covers chunks.new.items entries.now }
    ensures all { result ≡ true → CoversAll chunks.new.items (take to entries.now) }
{
    let mut place = from;
    while place < to {
        let rest = &entries[place..to];
        let chunk = first_chunk(rest);
        let count = chunk.count;
        if !push_chunk(chunks, chunk) {
            return false;
        }
        place += count;
    }
    true
}

/// Is the chunk at a place open?
fn is_open_at(chunks: &[Chunk], i: usize) -> bool {
    match chunks.get(i) {
        Some(chunk) => chunk.is_open,
        None => false,
    }
}

/// Does a chunk stay? A small one that comes right before or after entries that get new ones goes with them.
fn stays(chunk: &Chunk, is_apart: bool) -> bool {
    !chunk.is_open && (chunk.count >= MOST / 2 || is_apart)
}

/// Puts the chunks of some entries into room for them, by chunks that they had: open ones, and small ones beside them, are made
/// anew, and the others stay. What there is no room for has none.
pub(crate) fn renew_open<A: Ledger>(chunks: &mut Vec<Chunk>, entries: &[Entry<A>], had: &[Chunk])
    requires none { chunks.old.items ≡ [] }
    requires had { Covers had.now entries.now }
    ensures { Covers chunks.new.items entries.now }
{
    let mut done = 0;
    let mut place = 0;
    for (i, chunk) in had.iter().enumerate() {
        let end = place + chunk.count;
        if stays(chunk, place == done && !is_open_at(had, i + 1)) {
            if !cover_on(chunks, entries, done, place) {
                return;
            }
            if !push_chunk(chunks, *chunk) {
                return;
            }
            done = end;
        }
        place = end;
    }
    cover_on(chunks, entries, done, entries.len());
}

/// How many entries the chunks of a level have.
pub fn covered_by<A: Ledger>(chunks: &[Chunk], entries: &[Entry<A>]) -> usize
    requires { Covers chunks.now entries.now }
    ensures total { result ≡ total chunks.now }
    ensures within { result ≤ length entries.now }
{
    let mut place = 0;
    for chunk in chunks {
        place += chunk.count;
    }
    place
}
