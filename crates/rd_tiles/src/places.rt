//! Where tiles lie.

ghost use Rattle.std.specs.Prelude.{◌≡◌, ℕ, ℤ, pos, ◌*◌, ◌≤◌, ◌<◌, ◌≤ℤ◌, IsTrue, unsigned_abs};
ghost use Rattle.rd_geom.specs.Canvas.{IsCanvas};
ghost use Rattle.rd_tiles.specs.Tiling as tiling;
ghost use Rattle.rd_tiles.specs.Tiling.{tile_of, is_tile};

use rd_geom::{Rect, Size};

/// How many pixels a tile has across and down.
const SIDE: i32 = 64;

/// How many tiles lie along so many pixels.
pub(crate) fn tiles_along(pixels: i32) -> u32
    requires some { pos 0 ≤ℤ pixels }
    requires most { pixels ≤ℤ pos 4096 }
    ensures value { result ≡ tiling.tiles_along (unsigned_abs pixels) }
    ensures few { result ≤ 64 }
{
    (pixels as u32 + 63) / 64
}

/// How many of so many pixels the tile at a place along them has.
fn side_of(pixels: i32, place: u32) -> i32
    requires most { pixels ≤ℤ pos 4096 }
    requires left { 64 * place < unsigned_abs pixels }
    requires some { pos 0 ≤ℤ pixels }
    ensures { result ≡ pos (tiling.side_of (unsigned_abs pixels) place) }
{
    let left = pixels - SIDE * place as i32;
    left.min(SIDE)
}

/// The pixels of the tile in a column and a row of a canvas.
pub(crate) fn place_of(size: Size, column: u32, row: u32) -> Rect
    requires canvas { IsCanvas size }
    requires tile { IsTrue (is_tile size column row) }
    ensures { result ≡ tile_of size column row }
{
    let w = side_of(size.w, column);
    let h = side_of(size.h, row);
    match Rect::new(SIDE * column as i32, SIDE * row as i32, w, h) {
        Some(place) => place,
        None => Rect::EMPTY,
    }
}
