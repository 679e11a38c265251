//! Entries that show nothing in an area are passed over: blocks and chunks of them whose hull is off it, or which are older than all
//! that meets it, leaves, and groups of no opacity.

ghost use Rattle.std.specs.Prelude.{◌≡◌, ◌⊎◌, ℤ, ◌+◌, ◌<◌, ◌≤◌, ◌∷◌, [], IsTrue, false, length, take, drop};
ghost use Rattle.rd_geom.specs.Plane.{holds_pixel};
ghost use Rattle.rd_list.specs.Blocks.{AreBlocked};
ghost use Rattle.rd_list.specs.Chunks.{IsAt, Tells};
ghost use Rattle.rd_list.specs.Displayed.{shown};
ghost use Rattle.rd_list.specs.Entries as list;
ghost use Rattle.rd_list.specs.Entries.{flat};
ghost use Rattle.rd_list.specs.KeptView.{kept_entries};
ghost use Rattle.rd_paint.specs.Internal.Picks.{InAreaWithin, InSpans, SameWhere, ServesWhere};
ghost use Rattle.rd_paint.specs.Since.{AreMadeSince};

use rd_area::Area;
use rd_geom::{Rect, Span};
use rd_item::Item;
use rd_list::{Blocked, Chunk, ChunkCursor, Entry};
use std::sync::ledger::Ledger;

/// What of an area is in some columns of some rows. The leaves that meet the area were made by this paint or after.
#[derive(Clone, Copy)]
pub(crate) struct Sight<'a> {
    pub(crate) area: &'a Area,
    pub(crate) since: u64,
    pub(crate) columns: Span,
    pub(crate) rows: Span,
}

/// Has the rectangle no pixel in these columns of these rows?
#[inline(always)]
fn misses(r: Rect, columns: Span, rows: Span) -> bool
    ensures { IsTrue result → (x y : ℤ) → InSpans columns rows x y → holds_pixel r x y ≡ false }
{
    if columns.x1 <= r.x() {
        return true;
    }
    if rows.x1 <= r.y() {
        return true;
    }
    if r.right() <= columns.x0 {
        return true;
    }
    r.bottom() <= rows.x0
}

/// Is nothing of the item to be seen in these columns of these rows, since it is beside them or transparent? Most are beside
/// them, and then the colour, which lies in memory apart from the rectangle, is not read.
#[inline(always)]
fn is_item_unseen<A: Ledger>(item: &Item<A>, columns: Span, rows: Span) -> bool
    ensures { IsTrue result → SameWhere (InSpans columns rows) list.nil (list.leaf item.now.leaf list.nil) }
{
    if misses(item.visible(), columns, rows) {
        return true;
    }
    let color = item.color();
    color.a == 0
}

/// Is the entry such a leaf, or a group of no opacity?
#[inline(always)]
fn is_unseen<A: Ledger>(entry: &Entry<A>, columns: Span, rows: Span) -> bool
    ensures { IsTrue result → SameWhere (InSpans columns rows) list.nil (shown (entry.now ∷ [])) }
{
    match entry {
        Entry::Leaf(item) => is_item_unseen(item, columns, rows),
        Entry::Group(group) => group.opacity == 0,
    }
}

/// Are the four entries from a place on such entries?
#[inline(always)]
fn four_unseen<A: Ledger>(entries: &[Entry<A>], i: usize, columns: Span, rows: Span) -> bool
    requires { i + 4 ≤ length entries.now }
    ensures { IsTrue result → ServesWhere (InSpans columns rows)
        (shown (drop (i + 4) entries.now)) (shown (drop i entries.now)) }
{
    if !is_unseen(&entries[i], columns, rows) {
        return false;
    }
    if !is_unseen(&entries[i + 1], columns, rows) {
        return false;
    }
    if !is_unseen(&entries[i + 2], columns, rows) {
        return false;
    }
    is_unseen(&entries[i + 3], columns, rows)
}

/// The place of the next entry before an end that is none of them, or the end.
fn next_before<A: Ledger>(
    entries: &[Entry<A>],
    from: usize,
    end: usize,
    columns: Span,
    rows: Span,
) -> usize
    requires from { from ≤ end }
    requires end { end ≤ length entries.now }
    ensures from { from ≤ result }
    ensures end { result ≤ end }
    ensures same { ServesWhere (InSpans columns rows)
        (shown (drop result entries.now)) (shown (drop from entries.now)) }
{
    let mut i = from;
    while end - i >= 4 && four_unseen(entries, i, columns, rows) {
        i += 4;
    }
    while i < end && is_unseen(&entries[i], columns, rows) {
        i += 1;
    }
    i
}

/// May no entry of the chunk show in the area, as far as it is in these columns of these rows?
#[inline(always)]
fn is_off(chunk: &Chunk, area: &Area, columns: Span, rows: Span) -> bool
    ensures open { IsTrue result → chunk.now.is_open ≡ false }
    ensures off { IsTrue result → (x y : ℤ) → InAreaWithin area.now columns rows x y
        → holds_pixel chunk.now.told.hull x y ≡ false }
{
    if chunk.is_open {
        return false;
    }
    if misses(chunk.told.hull, columns, rows) {
        return true;
    }
    !area.meets(chunk.told.hull)
}

/// Was each leaf of the chunk made before a paint?
#[inline(always)]
fn is_older(chunk: &Chunk, since: u64) -> bool
    ensures open { IsTrue result → chunk.now.is_open ≡ false }
    ensures older { IsTrue result → chunk.now.told.newest < since }
{
    !chunk.is_open && chunk.told.newest < since
}

/// Is a chunk or a block passed as a whole, since no entry of it may show in the area?
#[inline(always)]
fn is_passed(chunk: &Chunk, sight: Sight<'_>) -> bool
    ensures open { IsTrue result → chunk.now.is_open ≡ false }
    ensures unseen { IsTrue result → (chunk.now.told.newest < sight.entry.since)
        ⊎ ((x y : ℤ) → InAreaWithin sight.entry.area.now sight.entry.columns sight.entry.rows x y
        → holds_pixel chunk.now.told.hull x y ≡ false) }
{
    is_older(chunk, sight.since) || is_off(chunk, sight.area, sight.columns, sight.rows)
}

/// The same before the end of a chunk, which is passed as a whole where no entry of it may show in the area.
fn next_in_chunk<A: Ledger>(
    entries: &[Entry<A>],
    chunk: &Chunk,
    start: usize,
    sight: Sight<'_>,
    from: usize,
) -> usize
    requires from { from ≤ length entries.now }
    requires end { start + chunk.now.count ≤ length entries.now }
    requires told { chunk.now.is_open ≡ false → Tells chunk.now (take chunk.now.count (drop start entries.now)) }
    requires since { AreMadeSince sight.area.now sight.since (flat (kept_entries entries.now)) }
    ensures from { from ≤ result }
    ensures within { result ≤ length entries.now }
    ensures same { ServesWhere (InAreaWithin sight.entry.area.now sight.entry.columns sight.entry.rows)
        (shown (drop result entries.now)) (shown (drop from entries.now)) }
{
    let end = start + chunk.count;
    if from >= end {
        return from;
    }
    if from == start && is_passed(chunk, sight) {
        return end;
    }
    next_before(entries, from, end, sight.columns, sight.rows)
}

/// Past the block that begins with the next chunk, where no entry of it may show in the area. Otherwise the same.
#[inline(always)]
fn past_block<A: Ledger>(level: Blocked<'_, A>, sight: Sight<'_>, next: ChunkCursor) -> ChunkCursor
    requires covers { AreBlocked level }
    requires at { IsAt level.chunks.now next.at next.start }
    requires within { next.start ≤ length level.entries.now }
    requires since { AreMadeSince sight.area.now sight.since (flat (kept_entries level.entries.now)) }
    ensures at { IsAt level.entry.chunks.now result.at result.start }
    ensures forward { next.at ≤ result.at }
    ensures from { next.start ≤ result.start }
    ensures within { result.start ≤ length level.entry.entries.now }
    ensures same { ServesWhere (InAreaWithin sight.entry.area.now sight.entry.columns sight.entry.rows)
        (shown (drop result.start level.entry.entries.now)) (shown (drop next.start level.entry.entries.now)) }
{
    let Some(block) = level.block_at(next) else {
        return next;
    };
    if !is_passed(block, sight) {
        return next;
    }
    ChunkCursor {
        at: next.at + 8,
        start: next.start + block.count,
    }
}

/// The place of the next entry that may show in the area, as far as it is in these columns of these rows, or how many entries
/// there are. Its chunk is sought from the one of the last.
#[inline(always)]
pub(crate) fn next_within<A: Ledger>(
    level: Blocked<'_, A>,
    sight: Sight<'_>,
    seek: &mut ChunkCursor,
    from: usize,
) -> usize
    requires from { from ≤ length level.entries.now }
    requires covers { AreBlocked level }
    requires at { IsAt level.chunks.now seek.old.at seek.old.start }
    requires since { AreMadeSince sight.area.now sight.since (flat (kept_entries level.entries.now)) }
    ensures within { result ≤ length level.entry.entries.now }
    ensures from { from ≤ result }
    ensures at { IsAt level.entry.chunks.now seek.new.at seek.new.start }
    ensures same { ServesWhere (InAreaWithin sight.entry.area.now sight.entry.columns sight.entry.rows)
        (shown (drop result level.entry.entries.now)) (shown (drop from level.entry.entries.now)) }
{
    let chunks = level.chunks;
    let entries = level.entries;
    let mut i = from;
    let mut now = *seek;
    while now.at < chunks.len() {
        if i == now.start {
            let past = past_block(level, sight, now);
            if past.at > now.at {
                i = past.start;
                now = past;
                continue;
            }
        }
        let chunk = &chunks[now.at];
        let end = now.start + chunk.count;
        i = next_in_chunk(entries, chunk, now.start, sight, i);
        if i < end {
            *seek = now;
            return i;
        }
        now = ChunkCursor {
            at: now.at + 1,
            start: end,
        };
    }
    *seek = now;
    next_before(entries, i, entries.len(), sight.columns, sight.rows)
}
