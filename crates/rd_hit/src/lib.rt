//! What the pointer hits: the box of the topmost leaf under a pixel that takes hits.
//! A kept list is sought from the top down, and no further than that leaf.
//! Nothing is copied, and no memory is taken.
//!
//! Kept: nothing; a list is lent and read.
//! Breaks: another rule of what is hit breaks `rd_engine`, whose hits are those of the painting order.
#![tactic(auto)]

ghost use Rattle.std.specs.Prelude.{◌≡◌, ◌≤◌, ◌<◌, ◌+◌, ◌-◌, ◌∷◌, [], IsTrue, None, drop, false, length};
ghost use Rattle.rd_geom.specs.Plane.{holds_pixel, is_among};
ghost use Rattle.rd_list.specs.Displayed.{shown};
ghost use Rattle.rd_list.specs.Chunks.{Covers, Tells};
ghost use Rattle.rd_list.specs.Entries as list;
ghost use Rattle.rd_list.specs.EntryNames.{kept_leaves};
ghost use Rattle.rd_list.specs.Lists as lists;

use rd_geom::Rect;
use rd_item::Item;
use rd_keys::{BoxKey, Part};
use rd_list::{Chunk, Entry, Kept, ListView, covered_by};
use std::sync::ledger::Ledger;

fn is_outline(part: Part) -> bool
    ensures { result ≡ lists.is_outline part }
{
    matches!(part, Part::Outline)
}

fn is_hit<A: Ledger>(item: &Item<A>, x: i32, y: i32) -> bool
    ensures { result ≡ lists.is_hit x y item.now.leaf }
{
    if !item.covers(x, y) {
        return false;
    }
    if is_outline(item.part()) {
        return false;
    }
    item.hits()
}

/// The box of the topmost leaf that covers the pixel in column `x` and row `y`, is no outline, and takes hits;
/// None exactly where there is no such leaf.
pub fn hit<A: Ledger>(list: ListView<'_, A>, x: i32, y: i32) -> Option<BoxKey>
    ensures { result ≡ lists.hit (kept_leaves list.entry.list.now.entries) x y }
{
    topmost_of(list.list(), x, y)
}

/// Is `v` none of the `count` whole numbers from `low` on? What lies before them wraps round to a large number, so that
/// one comparison tells.
#[inline(always)]
fn is_off(low: i32, count: i32, v: i32) -> bool
    ensures { IsTrue result → is_among low count v ≡ false }
{
    v.wrapping_sub(low).cast_unsigned() >= count.cast_unsigned()
}

/// Is the pixel outside the rectangle? Rows come first, since most boxes are wider than high.
#[inline(always)]
fn misses(r: Rect, x: i32, y: i32) -> bool
    ensures { IsTrue result → holds_pixel r x y ≡ false }
{
    if is_off(r.y(), r.h(), y) {
        return true;
    }
    is_off(r.x(), r.w(), x)
}

/// Is the entry a leaf that may not be seen at the pixel?
#[inline(always)]
fn is_passed<A: Ledger>(entry: &Entry<A>, x: i32, y: i32) -> bool
    ensures { IsTrue result → lists.hit (shown (entry.now ∷ [])) x y ≡ None }
{
    match entry {
        Entry::Leaf(item) => misses(item.visible(), x, y),
        Entry::Group(_) => false,
    }
}

/// Is the entry at a place such a leaf?
#[inline(always)]
fn passes<A: Ledger>(entries: &[Entry<A>], place: usize, x: i32, y: i32) -> bool
    requires { place < length entries.now }
    ensures { IsTrue result → lists.hit (shown (drop (place + 1) entries.now)) x y ≡ None
        → lists.hit (shown (drop place entries.now)) x y ≡ None }
{
    is_passed(&entries[place], x, y)
}

/// Are the four entries right below a place such leaves?
#[inline(always)]
fn four_passed<A: Ledger>(entries: &[Entry<A>], left: usize, x: i32, y: i32) -> bool
    requires some { 4 ≤ left }
    requires within { left ≤ length entries.now }
    ensures { IsTrue result → lists.hit (shown (drop left entries.now)) x y ≡ None
        → lists.hit (shown (drop (left - 4) entries.now)) x y ≡ None }
{
    if !passes(entries, left - 1, x, y) {
        return false;
    }
    if !passes(entries, left - 2, x, y) {
        return false;
    }
    if !passes(entries, left - 3, x, y) {
        return false;
    }
    passes(entries, left - 4, x, y)
}

/// How many entries are left below `from` once the leaves right below it are passed over that may not be seen at the pixel.
fn left_below<A: Ledger>(entries: &[Entry<A>], from: usize, x: i32, y: i32) -> usize
    requires { from ≤ length entries.now }
    ensures within { result ≤ from }
    ensures none { lists.hit (shown (drop from entries.now)) x y ≡ None
        → lists.hit (shown (drop result entries.now)) x y ≡ None }
{
    let mut left = from;
    while left >= 4 && four_passed(entries, left, x, y) {
        left -= 4;
    }
    while left > 0 && passes(entries, left - 1, x, y) {
        left -= 1;
    }
    left
}

/// The box of the topmost leaf of a list that is hit.
#[cycle(hitting)]
fn topmost_of<A: Ledger>(list: &Kept<A>, x: i32, y: i32) -> Option<BoxKey>
    ensures { result ≡ lists.hit (kept_leaves list.now.entries) x y }
{
    let (chunks, entries) = list.chunked();
    topmost_by(chunks, entries, x, y)
}

/// The same of a level, chunk by chunk from the top down.
#[cycle(hitting)]
fn topmost_by<A: Ledger>(chunks: &[Chunk], entries: &[Entry<A>], x: i32, y: i32) -> Option<BoxKey>
    requires { Covers chunks.now entries.now }
    ensures { result ≡ lists.hit (shown entries.now) x y }
{
    let mut number = chunks.len();
    let mut end = covered_by(chunks, entries);
    let found = topmost(&entries[end..], x, y);
    if found.is_some() {
        return found;
    }
    while number > 0 {
        number -= 1;
        let chunk = chunks[number];
        let start = end - chunk.count;
        let found = topmost_in_chunk(chunk, &entries[start..end], x, y);
        if found.is_some() {
            return found;
        }
        end = start;
    }
    None
}

/// The same of the entries of a chunk, unless the pixel is outside of its hull.
#[cycle(hitting)]
fn topmost_in_chunk<A: Ledger>(chunk: Chunk, entries: &[Entry<A>], x: i32, y: i32) -> Option<BoxKey>
    requires { chunk.is_open ≡ false → Tells chunk entries.now }
    ensures { result ≡ lists.hit (shown entries.now) x y }
{
    if !chunk.is_open && misses(chunk.told.hull, x, y) {
        return None;
    }
    topmost(entries, x, y)
}

#[cycle(hitting)]
fn topmost<A: Ledger>(entries: &[Entry<A>], x: i32, y: i32) -> Option<BoxKey>
    ensures { result ≡ lists.hit (shown entries.now) x y }
{
    let mut left = entries.len();
    while left > 0 {
        left = left_below(entries, left, x, y);
        if left == 0 {
            return None;
        }
        left -= 1;
        let found = topmost_in(&entries[left], x, y);
        if found.is_some() {
            return found;
        }
    }
    None
}

#[cycle(hitting)]
fn topmost_in<A: Ledger>(entry: &Entry<A>, x: i32, y: i32) -> Option<BoxKey>
    ensures { result ≡ lists.hit (shown (entry.now ∷ [])) x y }
{
    match entry {
        Entry::Leaf(item) => hit_item(item, x, y),
        Entry::Group(group) => topmost_of(&group.inner, x, y),
    }
}

fn hit_item<A: Ledger>(item: &Item<A>, x: i32, y: i32) -> Option<BoxKey>
    ensures { result ≡ lists.hit (list.leaf item.now.leaf list.nil) x y }
{
    if is_hit(item, x, y) {
        Some(item.owner())
    } else {
        None
    }
}
