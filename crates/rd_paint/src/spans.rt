//! Painting entries of a list in a run of pixels.

ghost use Rattle.std.specs.Prelude.{◌≡◌, ℤ, pos, ◌+◌, ◌-◌, ◌*◌, ◌≤◌, ◌+ℤ◌, ◌≤ℤ◌, IsTrue, ◌∷◌, [], length, replicate};
ghost use Rattle.rd_geom.specs.Colors.{clear};
ghost use Rattle.rd_list.specs.Displayed.{shown};
ghost use Rattle.rd_list.specs.Entries as list;
ghost use Rattle.rd_list.specs.EntryNames.{kept_leaves};
ghost use Rattle.rd_list.specs.KeptView.{kept_entries};
ghost use Rattle.rd_list.specs.Views.{levels, deeper};
ghost use Rattle.rd_paint.specs.Internal.Runs.{laid_along, laid_along_group};

use crate::runs::{begin_columns, columns, fill, has_row, lay_row, lay_row_of};
use rd_geom::{Px, px_of};
use rd_item::Item;
use rd_list::{Entry, Group};
use std::sync::ledger::Ledger;

/// Lays entries, from bottom to top, over the pixels of row `y` from column `x0` on.
#[cycle(painting)]
pub(crate) fn lay_all<A: Ledger>(
    entries: &[Entry<A>],
    y: i32,
    x0: i32,
    out: &mut [Px],
    rows: &mut [Px],
)
    requires rows { length out.old * (levels (kept_entries entries.now) - 1) ≤ length rows.old }
    requires from { pos 0 ≤ℤ x0 }
    requires within { (x0 +ℤ pos (length out.old)) ≤ℤ pos 4096 }
    ensures { out.new ≡ laid_along y x0 (shown entries.now) out.old }
{
    for entry in entries {
        lay_one(entry, y, x0, out, rows);
    }
}

#[cycle(painting)]
fn lay_one<A: Ledger>(entry: &Entry<A>, y: i32, x0: i32, out: &mut [Px], rows: &mut [Px])
    requires rows { length out.old * (levels (kept_entries (entry.now ∷ [])) - 1) ≤ length rows.old }
    requires from { pos 0 ≤ℤ x0 }
    requires within { (x0 +ℤ pos (length out.old)) ≤ℤ pos 4096 }
    ensures { out.new ≡ laid_along y x0 (shown (entry.now ∷ [])) out.old }
{
    match entry {
        Entry::Leaf(item) => lay_item(item, y, x0, out),
        Entry::Group(group) => lay_group(group, y, x0, out, rows),
    }
}

/// Paints a group into the first of the rows, clear at first, and lays that over the pixels.
/// Where no row is left there is no leaf in the group.
#[cycle(painting)]
fn lay_group<A: Ledger>(group: &Group<A>, y: i32, x0: i32, out: &mut [Px], rows: &mut [Px])
    requires rows { length out.old * (deeper (levels group.now.inner.entries) - 1) ≤ length rows.old }
    requires from { pos 0 ≤ℤ x0 }
    requires within { (x0 +ℤ pos (length out.old)) ≤ℤ pos 4096 }
    ensures { out.new ≡ laid_along_group y x0 group.now.blend group.now.opacity (kept_leaves group.now.inner.entries) out.old }
{
    let n = out.len();
    if rows.len() < n {
        return;
    }
    let (row, rest) = rows.split_at_mut(n);
    fill(row, Px::CLEAR);
    lay_all(group.inner.entries(), y, x0, row, rest);
    lay_row(out, row, group.blend, group.opacity);
}

/// Lays an item over the pixels of row `y` from column `x0` on.
pub(crate) fn lay_item<A: Ledger>(item: &Item<A>, y: i32, x0: i32, out: &mut [Px])
    requires from { pos 0 ≤ℤ x0 }
    requires within { (x0 +ℤ pos (length out.old)) ≤ℤ pos 4096 }
    ensures { out.new ≡ laid_along y x0 (list.leaf item.now.leaf list.nil) out.old }
{
    let seen = item.visible();
    if has_row(seen, y) {
        lay_row_of(
            px_of(item.color()),
            columns(seen),
            item.shape().inner,
            y,
            x0,
            out,
        );
    }
}

/// Makes pixels of row `y` from column `x0` on clear, with an item laid over them, if it has no hole in that row: was it so?
pub(crate) fn begin_item<A: Ledger>(item: &Item<A>, y: i32, x0: i32, out: &mut [Px]) -> bool
    requires from { pos 0 ≤ℤ x0 }
    requires within { (x0 +ℤ pos (length out.old)) ≤ℤ pos 4096 }
    ensures { IsTrue result → out.new ≡ laid_along y x0 (list.leaf item.now.leaf list.nil) (replicate (length out.old) clear) }
{
    let seen = item.visible();
    let shape = item.shape();
    if !has_row(seen, y) {
        return false;
    }
    if has_row(shape.inner, y) {
        return false;
    }
    begin_columns(px_of(item.color()), columns(seen), x0, out);
    true
}
