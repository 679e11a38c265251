//! The tiles that the last paint painted anew.

ghost use Rattle.std.specs.Prelude.{◌≡◌, ◌<◌, ◌≤ℤ◌, pos, ◌*◌, ◌++◌, ◌∷◌, [], IfOk, IfSome, OnOk, OnErr, IsTrue, None, length, unsigned_abs};
ghost use Rattle.rd_geom.specs.Canvas.{IsCanvas};
ghost use Rattle.rd_geom.specs.Figures.{max_canvas_side};
ghost use Rattle.rd_paint.specs.Pictures.{size_of};
ghost use Rattle.rd_c.specs.Handles.{IsSound};
ghost use Rattle.rd_c.specs.Held.{Holds};
ghost use Rattle.rd_c.specs.Numbers.{number_of};
ghost use Rattle.rd_c.specs.Reading.{IsAnswer, status_of};
ghost use Rattle.rd_c.specs.Tiles as told;
ghost use Rattle.rd_c.specs.Tiles.{AreTiles, first_tiles, is_side, tile_of, tiles_answer, tiles_met, told_tiles};

use crate::handle::RdEngine;
use crate::listing::told_rect;
use crate::painter::Painter;
use crate::refusal::{Refusal, status};
use crate::values::RdRect;
use rd_area::Area;
use rd_geom::{MAX_CANVAS_SIDE, NoMemory, Rect, Size, meet};
use std::alloc::Global;

/// May a tile have so many pixels across and down?
fn is_side(side: u32) -> bool
    ensures value { result ≡ is_side side }
    ensures some { IsTrue result → 0 < side }
    ensures most { IsTrue result → pos side ≤ℤ max_canvas_side }
{
    0 < side && side <= MAX_CANVAS_SIDE as u32
}

/// How many pixels a canvas has across.
fn across(size: Size) -> u32
    requires { IsCanvas size }
    ensures value { result ≡ unsigned_abs size.w }
    ensures most { pos result ≤ℤ max_canvas_side }
{
    size.w as u32
}

/// How many it has down.
fn down(size: Size) -> u32
    requires { IsCanvas size }
    ensures value { result ≡ unsigned_abs size.h }
    ensures most { pos result ≤ℤ max_canvas_side }
{
    size.h as u32
}

/// How many tiles lie along so many pixels.
fn tiles_along(side: u32, pixels: u32) -> u32
    requires some { 0 < side }
    requires side { pos side ≤ℤ max_canvas_side }
    requires most { pos pixels ≤ℤ max_canvas_side }
    ensures { result ≡ told.tiles_along side pixels }
{
    (pixels + (side - 1)) / side
}

/// The pixels of the tile in a column and a row of a canvas.
fn tile(size: Size, side: u32, column: u32, row: u32) -> Rect
    requires canvas { IsCanvas size }
    requires side { pos side ≤ℤ max_canvas_side }
    requires column { side * column < unsigned_abs size.w }
    requires row { side * row < unsigned_abs size.h }
    ensures { result ≡ tile_of side size column row }
{
    let (x, y) = ((side * column) as i32, (side * row) as i32);
    match Rect::new(x, y, side as i32, side as i32) {
        Some(square) => meet(square, size.rect()),
        None => Rect::EMPTY,
    }
}

/// Puts the rectangle of a tile at the end, where it has a pixel in the area.
#[tactic(auto, using(crate::proofs::Tiling::one))]
fn push_met(out: &mut Vec<RdRect>, area: &Area, tile: Rect) -> Result<(), NoMemory>
    ensures { OnOk result (out.new.items ≡ out.old.items ++ told_tiles area.now (tile ∷ [])) }
{
    if area.meets(tile) {
        out.push(told_rect(tile))?;
    }
    Ok(())
}

/// The same of the tiles of a row.
fn push_row(
    out: &mut Vec<RdRect>,
    area: &Area,
    size: Size,
    side: u32,
    row: u32,
) -> Result<(), NoMemory>
    requires canvas { IsCanvas size }
    requires some { 0 < side }
    requires side { pos side ≤ℤ max_canvas_side }
    requires row { side * row < unsigned_abs size.h }
    ensures { OnOk result (out.new.items ≡ out.old.items ++ told_tiles area.now (first_tiles side size row (told.tiles_along side (unsigned_abs size.w)))) }
{
    for column in 0..tiles_along(side, across(size)) {
        push_met(out, area, tile(size, side, column, row))?;
    }
    Ok(())
}

/// The tiles of a canvas that have a pixel in the area.
fn tiles_of(alloc: Global, area: &Area, size: Size, side: u32) -> Result<Vec<RdRect>, NoMemory>
    requires canvas { IsCanvas size }
    requires some { 0 < side }
    requires side { pos side ≤ℤ max_canvas_side }
    ensures { IfOk result (λ v. v.items ≡ tiles_met side size area.now) }
{
    let mut out = Vec::new(alloc);
    for row in 0..tiles_along(side, down(size)) {
        push_row(&mut out, area, size, side, row)?;
    }
    Ok(out)
}

impl Painter {
    /// Writes the tiles as far as there is room for all, and in any case how many there are.
    #[tactic(auto, using(crate::proofs::Tiling::met))]
    fn tiles(
        &self,
        alloc: Global,
        side: u32,
        out: &mut [RdRect],
        count: &mut usize,
    ) -> Result<(), Refusal>
        ensures tiles { OnOk result (AreTiles side self.now out.old out.new count.new) }
        ensures kept { OnErr result (out.new ≡ out.old) }
        ensures answer { IsAnswer (tiles_answer side self.now.engine.area (size_of self.now.engine.canvas) (length out.old)) (status_of result) }
        ensures count { status_of result ≡ number_of Refusal.Short → IfSome self.now.engine.area (λ a. count.new ≡ length (tiles_met side (size_of self.now.engine.canvas) a)) }
    {
        if !is_side(side) {
            return Err(Refusal::Value);
        }
        let Some(area) = self.engine.last_area() else {
            return Err(Refusal::Nothing);
        };
        let size = self.engine.canvas().size();
        let Ok(tiles) = tiles_of(alloc, area, size, side) else {
            return Err(Refusal::NoMemory);
        };
        *count = tiles.len();
        if out.len() < tiles.len() {
            return Err(Refusal::Short);
        }
        out[..tiles.len()].copy_from_slice(&tiles);
        Ok(())
    }
}

/// The tiles of `side` by `side` canvas pixels, cut at the right and lower edges of the canvas, that have a pixel which the last paint
/// painted anew: the rectangle of each, row by row from the top, each row from the left. `count` is how many there are, also where
/// there is no room for them. `side` is 1 to 4,096.
#[unsafe(no_mangle)]
pub extern "C" fn rd_c_tiles(
    handle: &mut RdEngine,
    alloc: Global,
    side: u32,
    out: &mut [RdRect],
    count: &mut usize,
) -> u32
    requires { IsSound handle.old.held.value handle.old.full }
    ensures sound { IsSound handle.new.held.value handle.new.full }
    ensures same { handle.new.held.value ≡ handle.old.held.value }
    ensures tiles { result ≡ 0 → Holds (λ p. AreTiles side p out.old out.new count.new) handle.old.held.value }
    ensures kept { 0 < result → out.new ≡ out.old }
    ensures answer { IfSome handle.old.held.value (λ p. IsAnswer (tiles_answer side p.engine.area (size_of p.engine.canvas) (length out.old)) result) }
    ensures count { result ≡ number_of Refusal.Short → Holds (λ p. IfSome p.engine.area (λ a. count.new ≡ length (tiles_met side (size_of p.engine.canvas) a))) handle.old.held.value }
    ensures none { handle.old.held.value ≡ None → result ≡ number_of Refusal.NoEngine }
{
    let Some(painter) = handle.take(alloc) else {
        return Refusal::NoEngine.number();
    };
    let done = painter.tiles(alloc, side, out, count);
    handle.put(painter);
    status(done)
}
