//! Canvases that are kept as tiles.

ghost use Rattle.std.specs.Prelude.{◌≡◌, ℕ, ℤ, pos, ◌+◌, ◌-◌, ◌*◌, ◌/◌, ◌%◌, ◌≤◌, ◌<◌, IfOk, IsTrue, Some, None, if◌then◌else◌, is_some, length, get_or, replicate, option_map, option_copied};
ghost use Rattle.rd_geom.specs.Canvas.{IsCanvas, canvas_of};
ghost use Rattle.rd_geom.specs.Colors.{white};
ghost use Rattle.rd_geom.specs.Plane.{holds_pixel};
ghost use Rattle.rd_list.specs.EntryNames.{kept_leaves};
ghost use Rattle.rd_list.specs.Views.{levels};
ghost use Rattle.rd_paint.specs.Pictures.{pixel_at, size_of};
ghost use Rattle.rd_tiles.specs.Internal.Blank.{AreBlank, IsBlank};
ghost use Rattle.rd_paint.specs.Changed.{IsOn};
ghost use Rattle.rd_tiles.specs.Tiling as tiling;
ghost use Rattle.rd_tiles.specs.Tiling.{IsRetiled, is_tile, pixel_in, stamp_of, tile_at, tile_of, tiles_met};

use crate::copying::copy_all;
use crate::painting::repaint_all;
use crate::places::{place_of, tiles_along};
use crate::tile::Tile;
use rd_area::Area;
use rd_geom::{NoMemory, Px, Rect, Size};
use rd_list::ListView;
use rd_paint::{Buffers, Canvas};
use std::alloc::Global;
use std::marker::Model;
use std::sync::ledger::Ledger;

/// The pixels of a canvas as tiles of 64 by 64, cut at its right and lower edges, each with a stamp.
#[derive(Drop)]
pub struct TileCanvas {
    size: Size,
    tiles: Vec<Tile>,
}

impl Model for TileCanvas {
    ghost use Rattle.rd_tiles.specs.Internal.Changing.{IsTiled};
    ghost use Rattle.rd_tiles.specs.Tiling.{Tiling};

    ghost Value = { Tiling };

    ghost view = { λ c. record { size = c.size; tiles = c.tiles.items } };

    ghost invariant = { λ c. IsTiled (record { size = c.size; tiles = c.tiles.items }) };
}

/// A white tile, never painted.
fn blank(alloc: Global, place: Rect) -> Result<Tile, NoMemory>
    requires { IsOn (record { w = pos 4096; h = pos 4096 }) place }
    ensures { IfOk result (IsBlank place) }
{
    let size = Size {
        w: place.w(),
        h: place.h(),
    };
    let canvas = Canvas::new(alloc, size)?;
    Ok(Tile {
        place,
        stamp: 0,
        canvas,
    })
}

/// The tiles of a canvas, white and never painted.
fn blanks(alloc: Global, size: Size) -> Result<Vec<Tile>, NoMemory>
    requires { IsCanvas size }
    ensures { IfOk result (λ v. AreBlank size v.items) }
{
    let columns = tiles_along(size.w);
    let count = columns * tiles_along(size.h);
    let mut tiles = Vec::new(alloc);
    for i in 0..count {
        let place = place_of(size, i % columns, i / columns);
        let tile = blank(alloc, place)?;
        tiles.push(tile)?;
    }
    Ok(tiles)
}

impl TileCanvas {
    /// A white canvas of this size, which is from 1 to 4,096 pixels wide and high. Every stamp is 0.
    pub fn new(alloc: Global, size: Size) -> Result<TileCanvas, NoMemory>
        requires { IsCanvas size }
        ensures size { IfOk result (λ t. t.size ≡ size) }
        ensures pixels { IfOk result (λ t. (x y : ℤ) → IsTrue (holds_pixel (canvas_of size) x y) → pixel_in t x y ≡ Some white) }
        ensures stamps { IfOk result (λ t. (column row : ℕ) → IsTrue (is_tile size column row) → stamp_of t column row ≡ Some 0) }
    {
        let tiles = blanks(alloc, size)?;
        Ok(TileCanvas { size, tiles })
    }

    /// Its size in pixels.
    pub fn size(&self) -> Size
        ensures value { result ≡ self.now.size }
        ensures limits { IsCanvas result }
    {
        self.size
    }

    /// How many tiles lie side by side.
    pub fn columns(&self) -> u32
        ensures value { result ≡ tiling.columns_of self.now.size }
        ensures few { result ≤ 64 }
    {
        tiles_along(self.size.w)
    }

    /// How many tiles lie one below another.
    pub fn rows(&self) -> u32
        ensures value { result ≡ tiling.rows_of self.now.size }
        ensures few { result ≤ 64 }
    {
        tiles_along(self.size.h)
    }

    /// Is there a tile in this column and row?
    fn has(&self, column: u32, row: u32) -> bool
        ensures value { result ≡ is_tile self.now.size column row }
        ensures few { IsTrue result → row < 64 }
    {
        column < self.columns() && row < self.rows()
    }

    /// The tile in this column and row; None exactly where there is none.
    fn find(&self, column: u32, row: u32) -> Option<&Tile>
        ensures value { option_copied result ≡ tile_at self.now column row }
        ensures some { is_some result ≡ is_tile self.now.size column row }
    {
        if !self.has(column, row) {
            return None;
        }
        let index = row * self.columns() + column;
        Some(&self.tiles[index as usize])
    }

    /// The pixels of the tile in this column and row, as a rectangle in canvas pixels; None exactly where there is no such
    /// tile.
    pub fn tile(&self, column: u32, row: u32) -> Option<Rect>
        ensures { result ≡ (if is_tile self.now.size column row then Some (tile_of self.now.size column row) else None) }
    {
        if self.has(column, row) {
            Some(place_of(self.size, column, row))
        } else {
            None
        }
    }

    /// The stamp of the tile in this column and row: the number that was given when it was painted last, or 0; None exactly
    /// where there is no such tile.
    pub fn stamp(&self, column: u32, row: u32) -> Option<u64>
        ensures value { result ≡ stamp_of self.now column row }
        ensures some { is_some result ≡ is_tile self.now.size column row }
    {
        match self.find(column, row) {
            Some(tile) => Some(tile.stamp),
            None => None,
        }
    }

    /// The pixels of the tile in this column and row, row by row from the top, each row from the left; None exactly where
    /// there is no such tile.
    pub fn pixels(&self, column: u32, row: u32) -> Option<&[Px]>
        ensures value { option_copied result ≡ option_map (λ tile. tile.canvas.pixels) (tile_at self.now column row) }
        ensures some { is_some result ≡ is_tile self.now.size column row }
    {
        match self.find(column, row) {
            Some(tile) => Some(tile.canvas.pixels()),
            None => None,
        }
    }

    /// The pixel in column `x` and row `y` of the canvas; None exactly off it.
    pub fn pixel(&self, x: i32, y: i32) -> Option<Px>
        ensures value { result ≡ pixel_in self.now x y }
        ensures some { is_some result ≡ holds_pixel (canvas_of self.now.size) x y }
    {
        let _size = self.size;
        self.pixel_of_tile(x, y)
    }

    /// The pixel of the tile that has it.
    fn pixel_of_tile(&self, x: i32, y: i32) -> Option<Px>
        ensures { result ≡ pixel_in self.now x y }
    {
        if x < 0 || y < 0 {
            return None;
        }
        match self.find(x as u32 / 64, y as u32 / 64) {
            Some(tile) => tile.canvas.pixel(x % 64, y % 64),
            None => None,
        }
    }

    /// Makes the pixels of the area those of the list, and leaves all others (CSS Color 3 section 3.2). The tiles that have a
    /// pixel in the area get the stamp `number`; how many are there? The buffers have as many rows as groups stand round a
    /// leaf. It takes no memory.
    pub fn repaint_tiles<A: Ledger>(
        &mut self,
        list: ListView<'_, A>,
        area: &Area,
        buffers: &mut Buffers,
        number: u64,
    ) -> u32
        requires area { area.now.size ≡ self.old.size }
        requires size { buffers.old.size ≡ self.old.size }
        requires deep { levels list.list.now.entries - 1 ≤ buffers.old.rows }
        ensures painted { IsRetiled (kept_leaves list.entry.list.now.entries) area.now number self.old self.new }
        ensures count { result ≡ tiles_met area.now }
        ensures same { buffers.new ≡ buffers.old }
    {
        repaint_all(&mut self.tiles, list, area, buffers, number)
    }

    /// The canvas, which has the same size, gets the same pixels. It takes no memory.
    pub fn copy_to(&self, canvas: &mut Canvas)
        requires { size_of canvas.old ≡ self.now.size }
        ensures size { size_of canvas.new ≡ size_of canvas.old }
        ensures pixels { (x y : ℤ) → pixel_at canvas.new x y ≡ pixel_in self.now x y }
    {
        copy_all(&self.tiles, canvas);
    }
}
