//! Leaves that hide all below them in a tile.

ghost use Rattle.std.specs.Prelude.{◌≡◌, ℕ, ℤ, ◌≤◌, ◌<◌, ◌↔◌, ◌⊎◌, ◌∷◌, [], false, IsTrue, length};
ghost use Rattle.rd_geom.specs.Colors.{white};
ghost use Rattle.rd_geom.specs.Plane.{IsWithin, has_none, holds_pixel};
ghost use Rattle.rd_item.specs.Leaves.{covers};
ghost use Rattle.rd_list.specs.Displayed.{shown};
ghost use Rattle.rd_list.specs.EntryNames.{kept_leaves};
ghost use Rattle.rd_list.specs.Lists.{composed, pixel};
ghost use Rattle.rd_paint.specs.Changed.{ShowsFrom};
ghost use Rattle.rd_paint.specs.Parts.{entry_count, entries_from};
ghost use Rattle.rd_tiles.specs.Covering.{HasLid, IsCover, IsLid};

use rd_geom::{Rect, meets};
use rd_item::Item;
use rd_list::{Entry, ListView};
use std::sync::ledger::Ledger;

/// Has a rectangle every pixel of a tile?
fn has_all(r: Rect, tile: Rect) -> bool
    requires { has_none tile ≡ false }
    ensures { IsTrue result ↔ IsWithin tile r }
{
    if tile.x() < r.x() {
        return false;
    }
    if tile.y() < r.y() {
        return false;
    }
    if r.right() < tile.right() {
        return false;
    }
    tile.bottom() <= r.bottom()
}

/// Does the item cover every pixel of a tile, which has some?
fn covers_all<A: Ledger>(item: &Item<A>, tile: Rect) -> bool
    requires { has_none tile ≡ false }
    ensures { IsTrue result ↔ ((x y : ℤ) → IsTrue (holds_pixel tile x y) → IsTrue (covers item.now.leaf x y)) }
{
    has_all(item.visible(), tile) && !meets(tile, item.shape().inner)
}

/// Is the item opaque, and does it cover every pixel of a tile?
fn is_lid<A: Ledger>(item: &Item<A>, tile: Rect) -> bool
    ensures { IsTrue result ↔ IsLid tile item.now.leaf }
{
    let color = item.color();
    if color.a != 255 {
        return false;
    }
    tile.is_empty() || covers_all(item, tile)
}

/// Is the entry such a leaf?
fn is_entry_lid<A: Ledger>(entry: &Entry<A>, tile: Rect) -> bool
    ensures { IsTrue result ↔ HasLid tile (shown (entry.now ∷ [])) 0 }
{
    match entry {
        Entry::Leaf(item) => is_lid(item, tile),
        Entry::Group(_) => false,
    }
}

/// The place of the topmost of the entries from place `low` on that is such a leaf; 0 where there is none.
fn topmost<A: Ledger>(entries: &[Entry<A>], low: usize, tile: Rect) -> usize
    ensures at { HasLid tile (shown entries.now) result ⊎ (result ≡ 0) }
    ensures greatest { (i : ℕ) → low ≤ i → result < i → HasLid tile (shown entries.now) i → ⊥ }
    ensures within { result ≤ length entries.now }
{
    let mut i = entries.len();
    while i > low {
        i -= 1;
        if is_entry_lid(&entries[i], tile) {
            return i;
        }
    }
    0
}

/// The greatest place outside groups of a leaf that is opaque and covers every pixel of a tile, in canvas pixels; 0 where
/// there is none. In the tile the entries from that place on, painted on white, show what the whole list shows.
pub fn cover<A: Ledger>(list: ListView<'_, A>, tile: Rect) -> usize
    ensures cover { IsCover tile (kept_leaves list.entry.list.now.entries) result }
    ensures within { result ≤ entry_count list.entry.list.now.entries }
    ensures shows { (x y : ℤ) → IsTrue (holds_pixel tile x y)
        → composed x y white (entries_from result (kept_leaves list.entry.list.now.entries))
        ≡ pixel (kept_leaves list.entry.list.now.entries) x y }
{
    topmost(list.entries(), 0, tile)
}

/// So many entries, the topmost, are looked at before a tile is painted: a page is hidden by its topmost boxes, if by any,
/// and a look at all of a long list costs more than to paint a tile.
const NEAR: usize = 256;

/// The same place, if it is one of the topmost few; else 0.
pub(crate) fn near_cover<A: Ledger>(list: ListView<'_, A>, tile: Rect) -> usize
    ensures within { result ≤ entry_count list.entry.list.now.entries }
    ensures shows { ShowsFrom (kept_leaves list.entry.list.now.entries) result tile }
{
    let entries = list.entries();
    topmost(entries, entries.len().saturating_sub(NEAR), tile)
}
