//! What is told of entries at once: where all that may be seen of them lies, how many leaves they are or hold, the range of their
//! names, and by which paint the newest of these leaves was made.
ghost use Rattle.std.specs.Prelude.{IfSome, List, false, length, take, ◌≡◌, ◌≤◌, ◌∷◌, ◌++◌, []};
ghost use Rattle.rd_list.specs.declared.kept.Entry.{Entry as KeptEntry};
ghost use Rattle.rd_list.specs.declared.kept.Entry.TheVariants as variants;
ghost use Rattle.rd_list.specs.Blocks.{AreBlocked};
ghost use Rattle.rd_list.specs.Chunks.{Covers, IsGroupTold, IsListTold, IsTold, IsWider, Tells, total};
ghost use Rattle.rd_list.specs.Entries.{flat, is_empty};
ghost use Rattle.rd_list.specs.KeptView.{kept_entries};
ghost use Rattle.rd_list.specs.Internal.Telling.{IsBoth};

use crate::blocks::Blocked;
use crate::chunks::{Chunk, open_chunk};
use crate::kept::{Entry, Kept};
use rd_geom::{Rect, hull, is_within};
use rd_item::Item;
use rd_keys::{BoxKey, KeyRange};
use std::sync::ledger::Ledger;

/// What is told of some entries: all that may be seen of them is in the hull, they are or hold so many leaves, and the boxes of these
/// leaves and of the groups round them are among the keys. No group of them is empty. None of the leaves was made after the newest.
#[derive(Clone, Copy)]
pub struct ChunkBounds {
    pub hull: Rect,
    pub leaves: usize,
    pub keys: KeyRange,
    pub newest: u64,
}

/// What is told of no entry.
pub(crate) const NOTHING: ChunkBounds = ChunkBounds {
    hull: Rect::EMPTY,
    leaves: 0,
    keys: KeyRange::NONE,
    newest: 0,
};

/// What is told of entries, where it says of others too what is told of them, but for the paint that made the newest.
#[inline(always)]
pub(crate) fn told_too(told: &ChunkBounds, more: ChunkBounds) -> Option<ChunkBounds>
    ensures { IfSome result (λ t. IsWider told.now t × IsWider more t × (t.leaves ≡ told.now.leaves)) }
{
    if !is_within(more.hull, told.hull) || !told.keys.has_all(more.keys) {
        return None;
    }
    Some(ChunkBounds {
        hull: told.hull,
        leaves: told.leaves,
        keys: told.keys,
        newest: told.newest.max(more.newest),
    })
}

/// What is told of some entries and of some more. None where that would be too many leaves.
#[inline(always)]
fn joined(told: &ChunkBounds, more: &ChunkBounds) -> Option<ChunkBounds>
    ensures { IfSome result (IsBoth told.now more.now) }
{
    let leaves = told.leaves.checked_add(more.leaves)?;
    Some(ChunkBounds {
        hull: hull(told.hull, more.hull),
        leaves,
        keys: told.keys.joined(more.keys),
        newest: told.newest.max(more.newest),
    })
}

/// What is told of some entries, and of those of a chunk after them. None where nothing is told of either.
#[inline(always)]
fn joined_if<A: Ledger>(told: Option<ChunkBounds>, chunk: &Chunk) -> Option<ChunkBounds>
    ensures { (xs ys : List (KeptEntry A)) → IfSome told (λ t. IsTold t xs) → (chunk.now.is_open ≡ false → IsTold chunk.now.told ys)
        → IfSome result (λ t. IsTold t (xs ++ ys)) }
{
    let told = told?;
    if chunk.is_open {
        return None;
    }
    joined(&told, &chunk.told)
}

/// All of some chunks as one, which is open if one of them is.
pub(crate) fn sum_of<A: Ledger>(chunks: &[Chunk], entries: &[Entry<A>]) -> Chunk
    requires { Covers chunks.now entries.now }
    ensures count { result.count ≡ total chunks.now }
    ensures within { result.count ≤ length entries.now }
    ensures told { result.is_open ≡ false → Tells result (take result.count entries.now) }
{
    let mut count = 0;
    let mut told = Some(NOTHING);
    for chunk in chunks {
        told = joined_if::<A>(told, chunk);
        count += chunk.count;
    }
    match told {
        Some(told) => Chunk {
            count,
            is_open: false,
            told,
        },
        None => open_chunk(count),
    }
}

/// What chunks tell of all entries of a level. None where one is open, or an entry has none.
fn told_by<A: Ledger>(chunks: &[Chunk], entries: &[Entry<A>]) -> Option<ChunkBounds>
    requires { Covers chunks.now entries.now }
    ensures { IfSome result (λ t. IsTold t entries.now) }
{
    let all = sum_of(chunks, entries);
    if all.is_open || all.count < entries.len() {
        return None;
    }
    Some(all.told)
}

/// The same of a level, by blocks where none of them is open.
fn level_told<A: Ledger>(level: Blocked<'_, A>) -> Option<ChunkBounds>
    requires { AreBlocked level }
    ensures { IfSome result (λ t. IsTold t level.entry.entries.now) }
{
    let blocks = sum_of(level.blocks, level.entries);
    if blocks.is_open {
        return told_by(level.chunks, level.entries);
    }
    let rest = told_by(level.rest(blocks.count), &level.entries[blocks.count..])?;
    joined(&blocks.told, &rest)
}

/// What chunks tell of a list.
fn list_told<A: Ledger>(list: &Kept<A>) -> Option<ChunkBounds>
    ensures { IfSome result (λ t. IsListTold t list.now.entries) }
{
    level_told(list.blocked())
}

/// How many leaves a list has, as its chunks tell it.
pub(crate) fn list_leaves<A: Ledger>(list: &Kept<A>) -> Option<usize>
    ensures { IfSome result (λ n. n ≡ length (flat list.now.entries)) }
{
    let told = list_told(list)?;
    Some(told.leaves)
}

/// Is there no entry?
#[inline(always)]
fn has_none<A: Ledger>(entries: &[Entry<A>]) -> bool
    ensures { result ≡ is_empty (kept_entries entries.now) }
{
    entries.is_empty()
}

/// What is told of the group of a box with this list. None of an empty one.
fn group_told<A: Ledger>(key: BoxKey, list: &Kept<A>) -> Option<ChunkBounds>
    ensures { IfSome result (λ t. IsGroupTold t key list.now.entries) }
{
    if has_none(list.entries()) {
        return None;
    }
    let told = list_told(list)?;
    Some(ChunkBounds {
        hull: told.hull,
        leaves: told.leaves,
        keys: told.keys.joined(KeyRange::one(key)),
        newest: told.newest,
    })
}

/// What is told of the leaf that an item is.
#[inline(always)]
pub fn item_told<A: Ledger>(item: &Item<A>) -> ChunkBounds
    ensures { (e : KeptEntry A) → e ≡ variants.Leaf item.now → IsTold result (e ∷ []) }
{
    ChunkBounds {
        hull: item.visible(),
        leaves: 1,
        keys: KeyRange::one(item.owner()),
        newest: item.made_at(),
    }
}

/// What is told of an entry: of a group by the chunks of its list.
#[inline(always)]
fn told_of<A: Ledger>(entry: &Entry<A>) -> Option<ChunkBounds>
    ensures { IfSome result (λ t. IsTold t (entry.now ∷ [])) }
{
    match entry {
        Entry::Leaf(item) => Some(item_told(item)),
        Entry::Group(group) => group_told(group.key, &group.inner),
    }
}

/// What is told of some entries, and of one more.
#[inline(always)]
pub(crate) fn told_more<A: Ledger>(told: &ChunkBounds, entry: &Entry<A>) -> Option<ChunkBounds>
    ensures { (es : List (KeptEntry A)) → IsTold told.now es → IfSome result (λ t. IsTold t (es ++ entry.now ∷ [])) }
{
    let more = told_of(entry)?;
    joined(told, &more)
}
