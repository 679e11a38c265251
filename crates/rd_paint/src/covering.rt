//! Entries that hide what is below them.

ghost use Rattle.std.specs.Prelude.{◌≡◌, ℕ, ℤ, pos, ◌+◌, ◌≤◌, ◌<◌, ◌+ℤ◌, ◌≤ℤ◌, ◌<ℤ◌, true, false, IsTrue, IfSome, ◌∷◌, [], List, length, drop};
ghost use Rattle.rd_geom.specs.Colors.{Premultiplied};
ghost use Rattle.rd_geom.specs.Areas.{in_span};
ghost use Rattle.rd_geom.specs.Plane.{is_among};
ghost use Rattle.rd_item.specs.Leaves as leaves;
ghost use Rattle.rd_list.specs.Displayed.{shown};
ghost use Rattle.rd_list.specs.Entries as list;
ghost use Rattle.rd_list.specs.Lists.{composed};
ghost use Rattle.rd_list.specs.Views.{levels};
ghost use Rattle.rd_paint.specs.Internal.Picks.{Hides, chosen, picked};
ghost use Rattle.rd_paint.specs.declared.picks.Pick as named;

use crate::narrowing::has_rows;
use crate::picks::{Pick, pick_at};
use crate::runs::columns;
use rd_geom::{Rect, Span};
use rd_item::Item;
use rd_list::Entry;
use std::sync::ledger::Ledger;

/// Are so many columns from `x0` on all in the span?
fn is_whole(span: Span, x0: i32, count: usize) -> bool
    requires from { pos 0 ≤ℤ x0 }
    requires within { (x0 +ℤ pos count) ≤ℤ pos 4096 }
    ensures { IsTrue result → (k : ℕ) → k < count → in_span span (x0 +ℤ pos k) ≡ true }
{
    let end = x0 + count as i32;
    span.x0 <= x0 && end <= span.x1
}

/// Is none of so many columns from `x0` on in the span?
pub(crate) fn is_beside(span: Span, x0: i32, count: usize) -> bool
    requires from { pos 0 ≤ℤ x0 }
    requires within { (x0 +ℤ pos count) ≤ℤ pos 4096 }
    ensures { IsTrue result → (k : ℕ) → k < count → in_span span (x0 +ℤ pos k) ≡ false }
{
    let end = x0 + count as i32;
    end <= span.x0 || span.x1 <= x0
}

/// Has the rectangle all of the rows `y0` up to `y1`?
fn has_all(r: Rect, y0: i32, y1: i32) -> bool
    ensures { IsTrue result → (y : ℤ) → y0 ≤ℤ y → y <ℤ y1 → is_among r.y r.h y ≡ true }
{
    r.y() <= y0 && y1 <= r.bottom()
}

/// Does the item cover so many pixels from column `x0` on of the rows `y0` up to `y1`?
fn fills<A: Ledger>(item: &Item<A>, y0: i32, y1: i32, x0: i32, count: usize) -> bool
    requires from { pos 0 ≤ℤ x0 }
    requires within { (x0 +ℤ pos count) ≤ℤ pos 4096 }
    ensures { IsTrue result → (k : ℕ) (y : ℤ) → k < count → y0 ≤ℤ y → y <ℤ y1
        → leaves.covers item.now.leaf (x0 +ℤ pos k) y ≡ true }
{
    let seen = item.visible();
    if !has_all(seen, y0, y1) || !is_whole(columns(seen), x0, count) {
        return false;
    }
    let hole = item.shape().inner;
    !has_rows(hole, y0, y1) || is_beside(columns(hole), x0, count)
}

/// Is the item opaque, and does it cover so many pixels from column `x0` on of these rows?
fn item_hides<A: Ledger>(item: &Item<A>, y0: i32, y1: i32, x0: i32, count: usize) -> bool
    requires from { pos 0 ≤ℤ x0 }
    requires within { (x0 +ℤ pos count) ≤ℤ pos 4096 }
    ensures { IsTrue result → Hides (list.leaf item.now.leaf list.nil) y0 y1 x0 count }
{
    if item.visible().w() < count as i32 {
        return false;
    }
    let color = item.color();
    color.a == 255 && fills(item, y0, y1, x0, count)
}

/// Is the entry an opaque leaf that covers so many pixels from column `x0` on of these rows?
fn hides<A: Ledger>(entry: &Entry<A>, y0: i32, y1: i32, x0: i32, count: usize) -> bool
    requires from { pos 0 ≤ℤ x0 }
    requires within { (x0 +ℤ pos count) ≤ℤ pos 4096 }
    ensures { IsTrue result → (own : List named.Pick) → Hides (chosen own 0 (shown (entry.now ∷ []))) y0 y1 x0 count }
{
    match entry {
        Entry::Leaf(item) => item_hides(item, y0, y1, x0, count),
        Entry::Group(_) => false,
    }
}

/// Is there such an entry at a place?
fn hides_at<A: Ledger>(
    entries: &[Entry<A>],
    place: u32,
    y0: i32,
    y1: i32,
    x0: i32,
    count: usize,
) -> bool
    requires from { pos 0 ≤ℤ x0 }
    requires within { (x0 +ℤ pos count) ≤ℤ pos 4096 }
    ensures { IsTrue result → (own : List named.Pick) → Hides (chosen own place (shown entries.now)) y0 y1 x0 count }
{
    let index = place as usize;
    if index < entries.len() {
        return hides(&entries[index], y0, y1, x0, count);
    }
    false
}

/// At which of the picks the topmost entry outside groups is named that hides what is below it.
pub(crate) fn cover<A: Ledger>(
    entries: &[Entry<A>],
    picks: &[Pick],
    y0: i32,
    y1: i32,
    x0: i32,
    count: usize,
) -> Option<usize>
    requires from { pos 0 ≤ℤ x0 }
    requires within { (x0 +ℤ pos count) ≤ℤ pos 4096 }
    ensures within { IfSome result (λ i. i ≤ length picks.now) }
    ensures levels { IfSome result (λ i. levels (picked (drop i picks.now) (shown entries.now))
        ≤ levels (picked picks.now (shown entries.now))) }
    ensures hides { IfSome result (λ i. (k : ℕ) (y : ℤ) (d e : Premultiplied) → k < count
        → y0 ≤ℤ y → y <ℤ y1 → composed (x0 +ℤ pos k) y d (picked (drop i picks.now) (shown entries.now))
        ≡ composed (x0 +ℤ pos k) y e (picked picks.now (shown entries.now))) }
{
    let mut found = None;
    let mut i = 0;
    while i < picks.len() {
        let (place, own) = pick_at(picks, i);
        if hides_at(entries, place, y0, y1, x0, count) {
            found = Some(i);
        }
        i = i + 1 + own.len();
    }
    found
}
