//! Painting the entries that picks name in a run of pixels.

ghost use Rattle.std.specs.Prelude.{◌≡◌, ℤ, pos, ◌+◌, ◌-◌, ◌*◌, ◌≤◌, ◌+ℤ◌, ◌≤ℤ◌, IsTrue, ◌∷◌, [], List, length, drop, replicate};
ghost use Rattle.rd_geom.specs.Colors.{clear};
ghost use Rattle.rd_list.specs.Displayed.{shown};
ghost use Rattle.rd_list.specs.EntryNames.{kept_leaves};
ghost use Rattle.rd_list.specs.Views.{levels, deeper};
ghost use Rattle.rd_paint.specs.Internal.Picks.{chosen, picked};
ghost use Rattle.rd_paint.specs.Internal.Runs.{laid_along, laid_along_group};
ghost use Rattle.rd_paint.specs.declared.picks.Pick as named;

use crate::picks::{Pick, pick_at};
use crate::reaching::places;
use crate::runs::{fill, lay_row};
use crate::spans::{begin_item, lay_item};
use rd_geom::Px;
use rd_list::{Entry, Group};
use std::sync::ledger::Ledger;

/// Lays the entries that picks name, from bottom to top, over the pixels of row `y` from column `x0` on.
#[cycle(choosing)]
fn lay_picks<A: Ledger>(
    entries: &[Entry<A>],
    picks: &[Pick],
    y: i32,
    x0: i32,
    out: &mut [Px],
    rows: &mut [Px],
)
    requires rows { length out.old * (levels (picked picks.now (shown entries.now)) - 1) ≤ length rows.old }
    requires from { pos 0 ≤ℤ x0 }
    requires within { (x0 +ℤ pos (length out.old)) ≤ℤ pos 4096 }
    ensures { out.new ≡ laid_along y x0 (picked picks.now (shown entries.now)) out.old }
{
    let mut i = 0;
    while i < picks.len() {
        let chosen = pick_at(picks, i);
        lay_at(entries, chosen, y, x0, out, rows);
        i = i + 1 + chosen.1.len();
    }
}

/// Lays the entry at the place of a pick, if there is one, by the picks of the list inside it.
#[cycle(choosing)]
fn lay_at<A: Ledger>(
    entries: &[Entry<A>],
    pick: (u32, &[Pick]),
    y: i32,
    x0: i32,
    out: &mut [Px],
    rows: &mut [Px],
)
    requires rows { length out.old * (levels (chosen pick.1.now pick.0 (shown entries.now)) - 1) ≤ length rows.old }
    requires from { pos 0 ≤ℤ x0 }
    requires within { (x0 +ℤ pos (length out.old)) ≤ℤ pos 4096 }
    ensures { out.new ≡ laid_along y x0 (chosen pick.entry.1.now pick.entry.0 (shown entries.now)) out.old }
{
    let (place, own) = pick;
    let index = place as usize;
    if index < entries.len() {
        lay_pick(&entries[index], own, y, x0, out, rows);
    }
}

#[cycle(choosing)]
fn lay_pick<A: Ledger>(
    entry: &Entry<A>,
    own: &[Pick],
    y: i32,
    x0: i32,
    out: &mut [Px],
    rows: &mut [Px],
)
    requires rows { length out.old * (levels (chosen own.now 0 (shown (entry.now ∷ []))) - 1) ≤ length rows.old }
    requires from { pos 0 ≤ℤ x0 }
    requires within { (x0 +ℤ pos (length out.old)) ≤ℤ pos 4096 }
    ensures { out.new ≡ laid_along y x0 (chosen own.now 0 (shown (entry.now ∷ []))) out.old }
{
    match entry {
        Entry::Leaf(item) => lay_item(item, y, x0, out),
        Entry::Group(group) => lay_own(group, own, y, x0, out, rows),
    }
}

/// Lays what picks name of a group over those of the pixels where it may show.
#[cycle(choosing)]
pub(crate) fn lay_own<A: Ledger>(
    group: &Group<A>,
    own: &[Pick],
    y: i32,
    x0: i32,
    out: &mut [Px],
    rows: &mut [Px],
)
    requires rows { length out.old * (deeper (levels (picked own.now (kept_leaves group.now.inner.entries))) - 1)
        ≤ length rows.old }
    requires from { pos 0 ≤ℤ x0 }
    requires within { (x0 +ℤ pos (length out.old)) ≤ℤ pos 4096 }
    ensures { out.new ≡ laid_along_group y x0 group.now.blend group.now.opacity
        (picked own.now (kept_leaves group.now.inner.entries)) out.old }
{
    let (from, to) = places(&group.inner, own, y, x0, out.len());
    if from < to {
        let start = x0 + from as i32;
        lay_seen(group, own, y, start, &mut out[from..to], rows);
    }
}

/// Makes a row clear, with an entry laid over it, if that is a leaf without a hole there: was it?
fn begin_entry<A: Ledger>(entry: &Entry<A>, y: i32, x0: i32, row: &mut [Px]) -> bool
    requires from { pos 0 ≤ℤ x0 }
    requires within { (x0 +ℤ pos (length row.old)) ≤ℤ pos 4096 }
    ensures { IsTrue result → (own : List named.Pick)
        → row.new ≡ laid_along y x0 (chosen own 0 (shown (entry.now ∷ []))) (replicate (length row.old) clear) }
{
    match entry {
        Entry::Leaf(item) => begin_item(item, y, x0, row),
        Entry::Group(_) => false,
    }
}

/// The same with the entry at a place.
fn begin_at<A: Ledger>(entries: &[Entry<A>], place: u32, y: i32, x0: i32, row: &mut [Px]) -> bool
    requires from { pos 0 ≤ℤ x0 }
    requires within { (x0 +ℤ pos (length row.old)) ≤ℤ pos 4096 }
    ensures { IsTrue result → (own : List named.Pick)
        → row.new ≡ laid_along y x0 (chosen own place (shown entries.now)) (replicate (length row.old) clear) }
{
    let index = place as usize;
    if index < entries.len() {
        return begin_entry(&entries[index], y, x0, row);
    }
    false
}

/// Begins a group's row, clear at first: how many of the picks, the lowest, are laid over it at once.
fn begin_row<A: Ledger>(
    entries: &[Entry<A>],
    picks: &[Pick],
    y: i32,
    x0: i32,
    row: &mut [Px],
) -> usize
    requires from { pos 0 ≤ℤ x0 }
    requires within { (x0 +ℤ pos (length row.old)) ≤ℤ pos 4096 }
    ensures within { result ≤ length picks.now }
    ensures levels { levels (picked (drop result picks.now) (shown entries.now)) ≤ levels (picked picks.now (shown entries.now)) }
    ensures laid { laid_along y x0 (picked (drop result picks.now) (shown entries.now)) row.new
        ≡ laid_along y x0 (picked picks.now (shown entries.now)) (replicate (length row.old) clear) }
{
    if !picks.is_empty() {
        let (place, own) = pick_at(picks, 0);
        if begin_at(entries, place, y, x0, row) {
            return 1 + own.len();
        }
    }
    fill(row, Px::CLEAR);
    0
}

/// Paints what picks name of a group into the first of the rows, and lays that over the pixels.
/// Where no row is left they name no leaf.
#[cycle(choosing)]
fn lay_seen<A: Ledger>(
    group: &Group<A>,
    own: &[Pick],
    y: i32,
    x0: i32,
    out: &mut [Px],
    rows: &mut [Px],
)
    requires rows { length out.old * (deeper (levels (picked own.now (kept_leaves group.now.inner.entries))) - 1)
        ≤ length rows.old }
    requires from { pos 0 ≤ℤ x0 }
    requires within { (x0 +ℤ pos (length out.old)) ≤ℤ pos 4096 }
    ensures { out.new ≡ laid_along_group y x0 group.now.blend group.now.opacity
        (picked own.now (kept_leaves group.now.inner.entries)) out.old }
{
    let n = out.len();
    if rows.len() < n {
        return;
    }
    let (row, rest) = rows.split_at_mut(n);
    let entries = group.inner.entries();
    let laid = begin_row(entries, own, y, x0, row);
    lay_picks(entries, &own[laid..], y, x0, row, rest);
    lay_row(out, row, group.blend, group.opacity);
}
