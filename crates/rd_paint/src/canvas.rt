//! Canvases, and spans of them that are lent.

ghost use Rattle.std.specs.Prelude.{◌≡◌, ℕ, ℤ, pos, ◌+◌, ◌-◌, ◌*◌, ◌≤◌, ◌<◌, ◌≤ℤ◌, ◌<ℤ◌, List, length, replicate, IfOk, unsigned_abs};
ghost use Rattle.std.specs.Borrow.{sem};
ghost use Rattle.rd_geom.specs.Canvas.{IsCanvas};
ghost use Rattle.rd_geom.specs.Colors.{Premultiplied, white};

use crate::corner::Corner;
use rd_geom::{NoMemory, Px, Size, Span};
use std::alloc::Global;
use std::marker::Model;

/// The pixels of a canvas, row by row.
#[derive(Drop)]
pub struct Canvas {
    width: usize,
    height: usize,
    pixels: Vec<Px>,
}

impl Model for Canvas {
    ghost use Rattle.rd_paint.specs.Pictures.{Picture, IsPicture};

    ghost Value = { Picture };

    ghost view = { λ c. record { width = c.width; height = c.height; pixels = c.pixels.items } };

    ghost invariant = { λ c. IsPicture (record { width = c.width; height = c.height; pixels = c.pixels.items }) };
}

/// So many pixels of one colour.
fn filled(alloc: Global, count: usize, px: Px) -> Result<Vec<Px>, NoMemory>
    ensures { IfOk result (λ v. v.items ≡ replicate count px) }
{
    let mut pixels = Vec::with_capacity(alloc, count)?;
    pixels.resize(count, px)?;
    Ok(pixels)
}

impl Canvas {
    ghost use Rattle.rd_paint.specs.Pictures.{Picture, size_of, pixel_at, span_of, with_span};
    ghost use Rattle.rd_paint.specs.Lending.{LendsSpan, HasSpan};

    /// A white canvas of this size, which is from 1 to 4,096 pixels wide and high.
    pub fn new(alloc: Global, size: Size) -> Result<Canvas, NoMemory>
        requires { IsCanvas size }
        ensures size { IfOk result (λ c. size_of c ≡ size) }
        ensures pixels { IfOk result (λ c. c.pixels ≡ replicate (c.height * c.width) white) }
    {
        let width = size.w as usize;
        let height = size.h as usize;
        let pixels = filled(alloc, height * width, Px::WHITE)?;
        Ok(Canvas {
            width,
            height,
            pixels,
        })
    }

    /// Its size in pixels.
    pub fn size(&self) -> Size
        ensures value { result ≡ size_of self.now }
        ensures limits { IsCanvas result }
    {
        Size {
            w: self.width as i32,
            h: self.height as i32,
        }
    }

    /// Its pixels, row by row from the top, each row from the left.
    pub fn pixels(&self) -> &[Px]
        ensures value { result.now ≡ self.now.pixels }
        ensures count { length result.now ≡ self.now.height * self.now.width }
        ensures few { length result.now ≤ 16777216 }
    {
        &self.pixels
    }

    /// The pixel in column `x` and row `y`; None exactly off the canvas.
    pub fn pixel(&self, x: i32, y: i32) -> Option<Px>
        ensures { result ≡ pixel_at self.now x y }
    {
        if x < 0 || y < 0 {
            return None;
        }
        let column = x as usize;
        let row = y as usize;
        if column >= self.width || row >= self.height {
            return None;
        }
        Some(self.pixels[row * self.width + column])
    }

    /// The pixels of row `y` from column `x0` up to but not including `x1`. Writing through it changes no other pixel.
    pub fn span_mut(&mut self, y: i32, x0: i32, x1: i32) -> &mut [Px]
        requires row { pos 0 ≤ℤ y }
        requires on { y <ℤ pos self.old.height }
        requires from { pos 0 ≤ℤ x0 }
        requires order { x0 ≤ℤ x1 }
        requires within { x1 ≤ℤ pos self.old.width }
        ensures* writes_back { sem 𝓛 (LendsSpan self.entry (unsigned_abs y) (unsigned_abs x0) result) }
        ensures value { result.now ≡ span_of self.old (unsigned_abs y) (unsigned_abs x0) (unsigned_abs x1) }
        ensures len { length result.now ≡ unsigned_abs x1 - unsigned_abs x0 }
        ensures exact { (ps : List Premultiplied) → length ps ≡ unsigned_abs x1 - unsigned_abs x0
            → HasSpan self.old (unsigned_abs y) (unsigned_abs x0) ps
            (with_span self.old (unsigned_abs y) (unsigned_abs x0) ps) }
    {
        let start = y as usize * self.width;
        let end = start + x1 as usize;
        self.pixels.slice_mut(start + x0 as usize..end)
    }
    /// The pixels in the columns of the span of a row of a list, whose pixel at the corner is the first of the canvas. Writing
    /// through it changes no other pixel.
    pub(crate) fn part_mut(&mut self, corner: Corner, row: usize, span: Span) -> &mut [Px]
        requires row { corner.top ≤ row }
        requires on { row < corner.top + self.old.height }
        requires from { pos corner.left ≤ℤ span.x0 }
        requires order { span.x0 ≤ℤ span.x1 }
        requires within { span.x1 ≤ℤ pos (corner.left + self.old.width) }
        ensures* writes_back { sem 𝓛 (LendsSpan self.entry (row - corner.top) (unsigned_abs span.x0 - corner.left) result) }
        ensures value { result.now ≡ span_of self.old (row - corner.top)
            (unsigned_abs span.x0 - corner.left) (unsigned_abs span.x1 - corner.left) }
        ensures len { length result.now ≡ unsigned_abs span.x1 - unsigned_abs span.x0 }
        ensures exact { (ps : List Premultiplied) → length ps ≡ unsigned_abs span.x1 - unsigned_abs span.x0
            → HasSpan self.old (row - corner.top) (unsigned_abs span.x0 - corner.left) ps
            (with_span self.old (row - corner.top) (unsigned_abs span.x0 - corner.left) ps) }
    {
        let start = (row - corner.top) * self.width;
        let from = span.x0 as usize - corner.left;
        let to = span.x1 as usize - corner.left;
        self.pixels.slice_mut(start + from..start + to)
    }
}
