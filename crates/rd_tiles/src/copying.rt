//! Copying tiles to a canvas.

ghost use Rattle.std.specs.Prelude.{◌<◌, length};
ghost use Rattle.rd_paint.specs.Pictures.{size_of};
ghost use Rattle.rd_paint.specs.Changed.{Fits, IsChanged, IsOn};
ghost use Rattle.rd_tiles.specs.Internal.Changing.{IsTiled};
ghost use Rattle.rd_tiles.specs.Internal.Copying.{in_first_tiles, in_line, in_tile, tile_color, tiles_color};

use crate::tile::Tile;
use rd_paint::Canvas;

/// The pixels of a row of a tile become those of the canvas where the tile lies.
fn copy_row(tile: &Tile, row: usize, canvas: &mut Canvas)
    requires on { IsOn (size_of canvas.old) tile.now.place }
    requires fits { Fits tile.now.place tile.now.canvas }
    requires row { row < tile.now.canvas.height }
    ensures { IsChanged (tile_color tile.now) (in_line tile.now.place row) canvas.old canvas.new }
{
    let place = tile.place;
    let width = place.w() as usize;
    let start = row * width;
    let own = &tile.canvas.pixels()[start..start + width];
    let out = canvas.span_mut(place.y() + row as i32, place.x(), place.right());
    out.copy_from_slice(own);
}

/// The same of all rows of a tile.
fn copy_tile(tile: &Tile, canvas: &mut Canvas)
    requires on { IsOn (size_of canvas.old) tile.now.place }
    requires fits { Fits tile.now.place tile.now.canvas }
    ensures { IsChanged (tile_color tile.now) (in_tile tile.now.place) canvas.old canvas.new }
{
    let rows = tile.canvas.size().h as usize;
    for row in 0..rows {
        copy_row(tile, row, canvas);
    }
}

/// The same of all tiles of a canvas of the same size.
pub(crate) fn copy_all(tiles: &[Tile], canvas: &mut Canvas)
    requires { IsTiled (record { size = size_of canvas.old; tiles = tiles.now }) }
    ensures { IsChanged (tiles_color (size_of canvas.old) tiles.now)
        (in_first_tiles (size_of canvas.old) (length tiles.now)) canvas.old canvas.new }
{
    for tile in tiles {
        copy_tile(tile, canvas);
    }
}
