//! Painting tiles anew in an area.

ghost use Rattle.std.specs.Prelude.{◌≡◌, ℕ, ◌-◌, ◌≤◌, ◌<◌, length, get_or};
ghost use Rattle.rd_geom.specs.Areas.{meets_area};
ghost use Rattle.rd_geom.specs.Canvas.{IsCanvas};
ghost use Rattle.rd_list.specs.EntryNames.{kept_leaves};
ghost use Rattle.rd_list.specs.Views.{levels};
ghost use Rattle.rd_paint.specs.Changed.{Fits, IsOn};
ghost use Rattle.rd_tiles.specs.Internal.Changing.{IsTileRepainted, IsTiled};
ghost use Rattle.rd_tiles.specs.Tiling.{tiles_met};
ghost use Rattle.rd_tiles.specs.declared.tile.Tile as small;

use crate::covering::near_cover;
use crate::tile::Tile;
use rd_area::Area;
use rd_list::ListView;
use rd_paint::{Buffers, repaint_part};
use std::sync::ledger::Ledger;

/// Makes the pixels of a tile that are in the area those of the list, and stamps it if there are any: are there?
fn repaint_tile<A: Ledger>(
    tile: &mut Tile,
    list: ListView<'_, A>,
    area: &Area,
    buffers: &mut Buffers,
    number: u64,
) -> bool
    requires canvas { IsCanvas buffers.old.size }
    requires on { IsOn buffers.old.size tile.old.place }
    requires fits { Fits tile.old.place tile.old.canvas }
    requires deep { levels list.list.now.entries - 1 ≤ buffers.old.rows }
    ensures met { result ≡ meets_area area.now tile.old.place }
    ensures painted { IsTileRepainted (kept_leaves list.entry.list.now.entries) area.now number tile.old tile.new }
    ensures same { buffers.new ≡ buffers.old }
{
    if !area.meets(tile.place) {
        return false;
    }
    let place = tile.place;
    let from = near_cover(list, place);
    repaint_part(&mut tile.canvas, place, list, from, area, buffers);
    tile.stamp = number;
    true
}

/// The same of all tiles of a canvas: how many of them have a pixel in the area?
pub(crate) fn repaint_all<A: Ledger>(
    tiles: &mut [Tile],
    list: ListView<'_, A>,
    area: &Area,
    buffers: &mut Buffers,
    number: u64,
) -> u32
    requires tiled { IsTiled (record { size = area.now.size; tiles = tiles.old }) }
    requires size { buffers.old.size ≡ area.now.size }
    requires deep { levels list.list.now.entries - 1 ≤ buffers.old.rows }
    ensures painted { (i : ℕ) → i < length tiles.old → (d : small.Tile)
        → IsTileRepainted (kept_leaves list.entry.list.now.entries) area.now number (get_or tiles.old i d) (get_or tiles.new i d) }
    ensures count { result ≡ tiles_met area.now }
    ensures same { buffers.new ≡ buffers.old }
{
    let mut count = 0;
    for i in 0..tiles.len() {
        if repaint_tile(&mut tiles[i], list, area, buffers, number) {
            count += 1;
        }
    }
    count
}
