//! The canvas, copied into the caller's memory.

ghost use Rattle.std.specs.Prelude.{◌≡◌, ◌≤◌, ◌≤ℤ◌, ◌<◌, ◌+◌, ◌*◌, ◌^◌, ◌++◌, ℕ, pos, is_some, OnOk, OnErr, IfSome, None, drop, flat_map, length, take};
ghost use Rattle.rd_geom.specs.Figures.{max_canvas_side};
ghost use Rattle.rd_paint.specs.Pictures.{span_of};
ghost use Rattle.rd_c.specs.Copied.{IsCopied, bytes_wanted, copied, copy_answer, lies_on, put_at, quad};
ghost use Rattle.rd_c.specs.Handles.{IsSound};
ghost use Rattle.rd_c.specs.Held.{Holds};
ghost use Rattle.rd_c.specs.Numbers.{number_of};
ghost use Rattle.rd_c.specs.Reading.{status_of};

use crate::handle::RdEngine;
use crate::painter::Painter;
use crate::refusal::{Refusal, status};
use crate::values::RdRect;
use rd_geom::Px;
use rd_paint::Canvas;
use std::alloc::Global;

/// The four bytes of a pixel.
fn four(format: u32, px: &Px) -> [u8; 4]
    ensures { result ≡ quad format px.now }
{
    if format == 1 {
        [px.b(), px.g(), px.r(), 255]
    } else {
        [px.r(), px.g(), px.b(), 255]
    }
}

/// Writes the four bytes of a pixel.
fn put(out: &mut [u8], at: usize, format: u32, px: &Px)
    requires { at + 4 ≤ length out.old }
    ensures { out.new ≡ take at out.old ++ (quad format px.now ++ drop (at + 4) out.old) }
{
    out[at..at + 4].copy_from_slice(&four(format, px));
}

/// Writes pixels, four bytes each.
pub(crate) fn put_all(out: &mut [u8], pixels: &[Px], format: u32)
    requires { 4 * length pixels.now ≤ length out.old }
    ensures { out.new ≡ flat_map (quad format) pixels.now ++ drop (4 * length pixels.now) out.old }
{
    for i in 0..pixels.len() {
        put(out, 4 * i, format, &pixels[i]);
    }
}

/// Writes pixels from a place on.
fn put_from(out: &mut [u8], from: usize, pixels: &[Px], format: u32)
    requires { from + 4 * length pixels.now ≤ length out.old }
    ensures { out.new ≡ put_at from (flat_map (quad format) pixels.now) out.old }
{
    put_all(&mut out[from..], pixels, format);
}

/// The pixels of a row of the canvas, so many from column `x` on.
fn line(canvas: &Canvas, y: usize, x: usize, count: usize) -> &[Px]
    requires row { y < canvas.now.height }
    requires columns { x + count ≤ canvas.now.width }
    ensures { result.now ≡ span_of canvas.now y x (x + count) }
{
    let width = canvas.size().w as usize;
    let from = y * width + x;
    &canvas.pixels()[from..from + count]
}

/// A rectangle that lies on a canvas.
#[derive(Clone, Copy)]
struct Part {
    x: usize,
    y: usize,
    w: usize,
    h: usize,
}

/// The rectangle, where it lies on the canvas.
fn part_of(canvas: &Canvas, place: &RdRect) -> Option<Part>
    ensures value { IfSome result (λ p. place.now ≡ record { x = pos p.x; y = pos p.y; w = pos p.w; h = pos p.h }) }
    ensures columns { IfSome result (λ p. p.x + p.w ≤ canvas.now.width) }
    ensures rows { IfSome result (λ p. p.y + p.h ≤ canvas.now.height) }
    ensures few { IfSome result (λ p. pos (p.y + p.h) ≤ℤ max_canvas_side) }
    ensures narrow { IfSome result (λ p. pos (p.x + p.w) ≤ℤ max_canvas_side) }
    ensures lies { is_some result ≡ lies_on place.now canvas.now }
{
    let size = canvas.size();
    if place.x < 0 || place.y < 0 || place.w < 0 || place.h < 0 {
        return None;
    }
    if place.x > size.w || place.y > size.h {
        return None;
    }
    if place.w > size.w - place.x || place.h > size.h - place.y {
        return None;
    }
    Some(Part {
        x: place.x as usize,
        y: place.y as usize,
        w: place.w as usize,
        h: place.h as usize,
    })
}

/// How many bytes so many rows take that begin `stride` bytes apart and are `width` bytes long; None where no memory has so many.
#[tactic(auto, using(crate::proofs::Putting::rows))]
fn bytes_of(rows: usize, stride: usize, width: usize) -> Option<usize>
    ensures rows { IfSome result (λ n. (i : ℕ) → i < rows → i * stride + width ≤ n) }
    ensures value { IfSome result (λ n. n ≡ bytes_wanted rows stride width) }
    ensures none { result ≡ None → 2 ^ 64 ≤ bytes_wanted rows stride width }
{
    if rows == 0 {
        return Some(0);
    }
    let above = (rows - 1).checked_mul(stride)?;
    above.checked_add(width)
}

/// Copies the rows of a rectangle.
fn copy_rows(canvas: &Canvas, part: &Part, format: u32, stride: usize, out: &mut [u8])
    requires columns { part.now.x + part.now.w ≤ canvas.now.width }
    requires rows { part.now.y + part.now.h ≤ canvas.now.height }
    requires few { pos (part.now.y + part.now.h) ≤ℤ max_canvas_side }
    requires room { (i : ℕ) → i < part.now.h → i * stride + 4 * part.now.w ≤ length out.old }
    ensures { out.new ≡ copied format stride canvas.now part.now.x part.now.y part.now.w part.now.h out.old }
{
    let _room = out.len();
    for i in 0..part.h {
        let row = line(canvas, part.y + i, part.x, part.w);
        put_from(out, i * stride, row, format);
    }
}

impl Painter {
    /// Copies the rectangle.
    #[tactic(auto, using(crate::proofs::Answering::copies))]
    fn copy(
        &self,
        place: &RdRect,
        format: u32,
        stride: usize,
        out: &mut [u8],
    ) -> Result<(), Refusal>
        ensures copied { OnOk result (IsCopied place.now format stride self.now out.old out.new) }
        ensures kept { OnErr result (out.new ≡ out.old) }
        ensures answer { status_of result ≡ copy_answer place.now format stride self.now.engine.canvas (length out.old) }
    {
        let canvas = self.engine.canvas();
        let Some(part) = part_of(canvas, place) else {
            return Err(Refusal::Value);
        };
        if format > 1 || stride == 0 || stride < 4 * part.w {
            return Err(Refusal::Value);
        }
        let room = out.len();
        let Some(bytes) = bytes_of(part.h, stride, 4 * part.w) else {
            return Err(Refusal::Short);
        };
        if room < bytes {
            return Err(Refusal::Short);
        }
        copy_rows(canvas, &part, format, stride, out);
        Ok(())
    }
}

/// Copies a rectangle of the canvas of the last paint, four bytes a pixel: red, green, blue and 255 where `format` is 0, and blue,
/// green, red and 255 where it is 1. Each row begins `stride` bytes after the one above it.
#[unsafe(no_mangle)]
pub extern "C" fn rd_c_copy(
    handle: &mut RdEngine,
    alloc: Global,
    place: &RdRect,
    format: u32,
    stride: usize,
    out: &mut [u8],
) -> u32
    requires { IsSound handle.old.held.value handle.old.full }
    ensures sound { IsSound handle.new.held.value handle.new.full }
    ensures same { handle.new.held.value ≡ handle.old.held.value }
    ensures copied { result ≡ 0 → Holds (λ p. IsCopied place.now format stride p out.old out.new) handle.old.held.value }
    ensures kept { 0 < result → out.new ≡ out.old }
    ensures answer { IfSome handle.old.held.value (λ p. result ≡ copy_answer place.now format stride p.engine.canvas (length out.old)) }
    ensures none { handle.old.held.value ≡ None → result ≡ number_of Refusal.NoEngine }
{
    let Some(painter) = handle.take(alloc) else {
        return Refusal::NoEngine.number();
    };
    let done = painter.copy(place, format, stride, out);
    handle.put(painter);
    status(done)
}
