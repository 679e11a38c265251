//! Which of the picks may show in some rows.

ghost use Rattle.std.specs.Prelude.{◌≡◌, ℤ, ◌+◌, ◌^◌, ◌≤◌, ◌<◌, ◌≤ℤ◌, ◌<ℤ◌, IsFalse, false, ◌∷◌, [], length, take};
ghost use Rattle.rd_geom.specs.Plane.{is_among};
ghost use Rattle.rd_list.specs.Displayed.{shown};
ghost use Rattle.rd_list.specs.Entries as list;
ghost use Rattle.rd_list.specs.EntryNames.{kept_leaves};
ghost use Rattle.rd_list.specs.Views.{levels};
ghost use Rattle.rd_list.specs.Wrappers.{Wrapper};
ghost use Rattle.rd_paint.specs.Internal.Picks.{InRows, IsClosed, SameWhere, ServesWhere, ShowsFor, chosen, picked};

use crate::picks::{Pick, pick_at, put};
use rd_geom::Rect;
use rd_item::Item;
use rd_list::{Entry, Kept};
use std::sync::ledger::Ledger;

/// Has the rectangle one of the rows `y0` up to `y1`?
pub(crate) fn has_rows(r: Rect, y0: i32, y1: i32) -> bool
    ensures { IsFalse result → (y : ℤ) → y0 ≤ℤ y → y <ℤ y1 → is_among r.y r.h y ≡ false }
{
    let top = r.y();
    let bottom = top + r.h();
    top < y1 && y0 < bottom
}

/// Writes those of the picks whose entries may show in the rows `y0` up to `y1`; says how many.
#[cycle(narrowing)]
pub(crate) fn narrow<A: Ledger>(
    entries: &[Entry<A>],
    picks: &[Pick],
    y0: i32,
    y1: i32,
    room: &mut [Pick],
) -> usize
    requires few { length picks.now < 2 ^ 32 }
    requires room { length picks.now ≤ length room.old }
    ensures within { result ≤ length picks.now }
    ensures same { SameWhere (InRows y0 y1)
        (picked (take result room.new) (shown entries.now)) (picked picks.now (shown entries.now)) }
    ensures levels { levels (picked (take result room.new) (shown entries.now))
        ≤ levels (picked picks.now (shown entries.now)) }
{
    let mut i = 0;
    let mut count = 0;
    while i < picks.len() {
        let (place, own) = pick_at(picks, i);
        let more = narrow_at(entries, place, own, y0, y1, &mut room[count..]);
        count += more;
        i = i + 1 + own.len();
    }
    count
}

/// Writes the picks of the entry at a place, if there is one.
#[cycle(narrowing)]
fn narrow_at<A: Ledger>(
    entries: &[Entry<A>],
    place: u32,
    own: &[Pick],
    y0: i32,
    y1: i32,
    room: &mut [Pick],
) -> usize
    requires few { length own.now < 2 ^ 32 }
    requires room { 1 + length own.now ≤ length room.old }
    ensures within { result ≤ 1 + length own.now }
    ensures closed { IsClosed (take result room.new) }
    ensures same { ServesWhere (InRows y0 y1)
        (picked (take result room.new) (shown entries.now)) (chosen own.now place (shown entries.now)) }
{
    let index = place as usize;
    if index < entries.len() {
        return narrow_pick(&entries[index], place, own, y0, y1, room);
    }
    0
}

#[cycle(narrowing)]
fn narrow_pick<A: Ledger>(
    entry: &Entry<A>,
    place: u32,
    own: &[Pick],
    y0: i32,
    y1: i32,
    room: &mut [Pick],
) -> usize
    requires few { length own.now < 2 ^ 32 }
    requires room { 1 + length own.now ≤ length room.old }
    ensures within { result ≤ 1 + length own.now }
    ensures closed { IsClosed (take result room.new) }
    ensures same { ShowsFor (InRows y0 y1) place (shown (entry.now ∷ []))
        (chosen own.now 0 (shown (entry.now ∷ []))) (take result room.new) }
{
    match entry {
        Entry::Leaf(item) => narrow_item(item, place, y0, y1, room),
        Entry::Group(group) => narrow_group(&group.inner, place, own, y0, y1, room),
    }
}

fn narrow_item<A: Ledger>(item: &Item<A>, place: u32, y0: i32, y1: i32, room: &mut [Pick]) -> usize
    requires room { 1 ≤ length room.old }
    ensures within { result ≤ 1 }
    ensures closed { IsClosed (take result room.new) }
    ensures same { ShowsFor (InRows y0 y1) place (list.leaf item.now.leaf list.nil)
        (list.leaf item.now.leaf list.nil) (take result room.new) }
{
    if has_rows(item.visible(), y0, y1) {
        return put(room, place, 0);
    }
    0
}

/// Writes the pick of a group with those of its picks that may show; none where none of them may.
#[cycle(narrowing)]
fn narrow_group<A: Ledger>(
    inner: &Kept<A>,
    place: u32,
    own: &[Pick],
    y0: i32,
    y1: i32,
    room: &mut [Pick],
) -> usize
    requires few { length own.now < 2 ^ 32 }
    requires room { 1 + length own.now ≤ length room.old }
    ensures within { result ≤ 1 + length own.now }
    ensures closed { IsClosed (take result room.new) }
    ensures same { (w : Wrapper) → ShowsFor (InRows y0 y1) place
        (list.group w (kept_leaves inner.now.entries) list.nil)
        (list.group w (picked own.now (kept_leaves inner.now.entries)) list.nil) (take result room.new) }
{
    let inside = narrow(inner.entries(), own, y0, y1, &mut room[1..]);
    if inside == 0 {
        return 0;
    }
    put(room, place, inside)
}
