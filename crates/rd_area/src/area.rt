//! A set of pixels of a canvas.

ghost use Rattle.std.specs.Prelude.{◌≡◌, ℕ, ℤ, pos, ◌+ℤ◌, ◌≤ℤ◌, ◌||◌, ◌⊎◌, IfOk, OnOk, OnErr, IsTrue, IsFalse, Bool, true, false};
ghost use Rattle.rd_geom.specs.Plane.{meet, right, bottom, holds_pixel, has_none};
ghost use Rattle.rd_geom.specs.Canvas.{IsCanvas, canvas_of};
ghost use Rattle.rd_geom.specs.Areas.{in_area, spans_at, count_of, meets_area};
ghost use Rattle.rd_area.specs.Rows.{IsRising};
ghost use Rattle.rd_area.specs.Internal.Crossing.{crosses, overlap};
ghost use Rattle.rd_area.specs.Internal.Normal.{IsOn};

use crate::{bands, row, rows};
use rd_geom::{NoMemory, Rect, Size, Span, hull, is_within, meet, meets};
use std::alloc::Global;
use std::marker::Model;

/// A set of pixels of a canvas, as spans for each band of rows that have the same ones.
#[derive(Drop)]
pub struct Area {
    size: Size,

    /// No pixel of the area is outside.
    used: Rect,

    /// Each pixel of it is in the area: the largest rectangle that joined, or one without a pixel.
    full: Rect,

    /// Only where `used` is not empty, and each pixel of it is in the area.
    is_full: bool,

    /// The row after the last of each band, from top to bottom.
    ends: Vec<usize>,

    /// The spans of each of a band's rows.
    bands: Vec<Vec<Span>>,
}

impl Model for Area {
    ghost use Rattle.rd_geom.specs.Areas.{Region};
    ghost use Rattle.rd_geom.specs.Plane.{has_none};
    ghost use Rattle.std.specs.Prelude.{◌≡◌, unsigned_abs, vec_len, IsTrue, false};
    ghost use Rattle.rd_area.specs.Internal.Normal.{spans_of, IsFilled, IsNormalized, IsOn};
    ghost use Rattle.rd_area.specs.Internal.Bands.{rows_of, IsBanded};

    ghost Value = { Region };

    ghost view = { λ a. record {
      size = a.size;
      rows = rows_of (unsigned_abs a.size.h) a.ends.items (spans_of a.bands.items);
    } };

    ghost invariant = { λ a. IsNormalized a.size a.used
        (rows_of (unsigned_abs a.size.h) a.ends.items (spans_of a.bands.items))
        × IsBanded (unsigned_abs a.size.h) a.ends.items (vec_len a.bands)
        × (IsTrue a.is_full → (has_none a.used ≡ false) × IsFilled a.used (rows_of (unsigned_abs a.size.h) a.ends.items (spans_of a.bands.items)))
        × IsOn a.full a.size
        × IsFilled a.full (rows_of (unsigned_abs a.size.h) a.ends.items (spans_of a.bands.items)) };
}

/// The columns of a rectangle.
fn columns(r: Rect) -> Span
    ensures { result ≡ record { x0 = r.x; x1 = right r } }
{
    Span {
        x0: r.x(),
        x1: r.right(),
    }
}

/// The rows of a rectangle, from the first up to the one after the last.
fn rows_of(r: Rect) -> (usize, usize)
    requires { pos 0 ≤ℤ r.y }
    ensures first { pos result.0 ≡ r.y }
    ensures last { pos result.1 ≡ bottom r }
{
    (r.y() as usize, r.bottom() as usize)
}

/// Do the columns of both overlap?
#[inline(always)]
fn columns_overlap(a: &Rect, b: &Rect) -> bool
    ensures { result ≡ overlap a.now.x (right a.now) b.now.x (right b.now) }
{
    a.x() < b.right() && b.x() < a.right()
}

/// Do the rows of both overlap?
#[inline(always)]
fn rows_overlap(a: &Rect, b: &Rect) -> bool
    ensures { result ≡ overlap a.now.y (bottom a.now) b.now.y (bottom b.now) }
{
    a.y() < b.bottom() && b.y() < a.bottom()
}

/// Is the second one not empty either, and do their columns and their rows overlap?
#[inline(always)]
fn cross(a: &Rect, b: &Rect) -> bool
    requires some { has_none a.now ≡ false }
    ensures { result ≡ crosses a.now b.now }
{
    if b.is_empty() {
        return false;
    }
    columns_overlap(a, b) && rows_overlap(a, b)
}

/// How many pixels a rectangle has, or the most that can be counted.
fn pixels(r: Rect) -> usize {
    (r.w() as usize).saturating_mul(r.h() as usize)
}

/// The one of two rectangles that has more pixels.
fn larger(a: Rect, b: Rect) -> Rect
    ensures { (result ≡ a) ⊎ (result ≡ b) }
{
    if pixels(a) < pixels(b) { b } else { a }
}

impl Area {
    /// No pixel of a canvas of this size, which is from 1 to `MAX_CANVAS_SIDE` pixels wide and high.
    pub fn none(alloc: Global, size: Size) -> Result<Area, NoMemory>
        requires { IsCanvas size }
        ensures size { IfOk result (λ a. a.size ≡ size) }
        ensures pixels { IfOk result (λ a. (x y : ℤ) → in_area a x y ≡ false) }
    {
        let mut ends = Vec::new(alloc);
        ends.push(size.h as usize)?;
        let mut bands = Vec::new(alloc);
        bands.push(Vec::new(alloc))?;
        Ok(Area {
            size,
            used: Rect::EMPTY,
            full: Rect::EMPTY,
            is_full: false,
            ends,
            bands,
        })
    }

    /// Every pixel of a canvas of this size, which is from 1 to `MAX_CANVAS_SIDE` pixels wide and high.
    pub fn whole(alloc: Global, size: Size) -> Result<Area, NoMemory>
        requires { IsCanvas size }
        ensures size { IfOk result (λ a. a.size ≡ size) }
        ensures pixels { IfOk result (λ a. (x y : ℤ) → in_area a x y
            ≡ holds_pixel (canvas_of size) x y) }
    {
        let mut area = Area::none(alloc, size)?;
        area.add(size.rect())?;
        Ok(area)
    }

    /// The pixels of the rectangle that are on the canvas join. Without memory the area stays as it was.
    pub fn add(&mut self, r: Rect) -> Result<(), NoMemory>
        ensures size { OnOk result (self.new.size ≡ self.old.size) }
        ensures pixels { OnOk result ((x y : ℤ) → in_area self.new x y ≡
            (holds_pixel (meet r (canvas_of self.old.size)) x y || in_area self.old x y)) }
        ensures refused { OnErr result (self.new ≡ self.old) }
    {
        let seen = meet(r, self.size.rect());
        if seen.is_empty() {
            return Ok(());
        }
        if is_within(seen, self.full) {
            return Ok(());
        }
        let (from, to) = rows_of(seen);
        let (first, last) = bands::between(&self.ends, from, to);
        if rows::have(&self.bands, first, last, columns(seen)) {
            return Ok(());
        }
        self.join(seen)
    }

    /// The pixels of a rectangle on the canvas join. Without memory the area stays as it was.
    fn join(&mut self, seen: Rect) -> Result<(), NoMemory>
        requires some { has_none seen ≡ false }
        requires on { IsOn seen self.old.size }
        ensures size { OnOk result (self.new.size ≡ self.old.size) }
        ensures pixels { OnOk result ((x y : ℤ) → in_area self.new x y ≡
            (holds_pixel seen x y || in_area self.old x y)) }
        ensures refused { OnErr result (self.new ≡ self.old) }
    {
        let (from, to) = rows_of(seen);
        let (first, last) = bands::prepare(&mut self.ends, &mut self.bands, from, to)?;
        rows::join(&mut self.bands, first, last, columns(seen));
        self.used = hull(self.used, seen);
        self.is_full = self.used == seen;
        self.full = larger(self.full, seen);
        Ok(())
    }

    /// A rectangle of the canvas outside of which the area has no pixel.
    #[inline(always)]
    pub fn frame(&self) -> Rect
        ensures { (x y : ℤ) → IsTrue (in_area self.now x y) → IsTrue (holds_pixel result x y) }
    {
        self.used
    }

    /// Is a pixel of the rectangle in the area?
    #[inline(always)]
    pub fn meets(&self, r: Rect) -> bool
        ensures { result ≡ meets_area self.now r }
    {
        if self.is_full {
            return cross(&self.used, &r);
        }
        self.meets_bands(r)
    }

    /// Is a pixel of the rectangle in one of the bands?
    #[inline(never)]
    fn meets_bands(&self, r: Rect) -> bool
        ensures { result ≡ meets_area self.now r }
    {
        let seen = meet(self.used, r);
        if seen.is_empty() {
            return false;
        }
        if meets(self.full, r) {
            return true;
        }
        let (from, to) = rows_of(seen);
        bands::meets(&self.ends, &self.bands, from, to, columns(seen))
    }

    /// Is the pixel in column `x` and row `y` in the area?
    pub fn holds(&self, x: i32, y: i32) -> bool
        ensures { result ≡ in_area self.now x y }
    {
        row::holds(self.spans(y), x)
    }

    /// How many pixels of the canvas are in the area.
    pub fn count(&self) -> u64
        ensures { result ≡ count_of self.now }
    {
        rows::count(&self.ends, &self.bands, self.size.h as usize)
    }

    /// The pixels of row `y` as rising spans, which neither touch nor are empty; none for a row off the canvas.
    pub fn spans(&self, y: i32) -> &[Span]
        ensures value { result.now ≡ spans_at self.now.rows y }
        ensures rising { IsRising (pos 0) self.now.size.w result.now }
    {
        if y < 0 {
            return &[];
        }
        match self.bands.get(bands::band_of(&self.ends, y as usize)) {
            Some(row) => row,
            None => &[],
        }
    }
}
