//! Paints, and what they painted anew.

ghost use Rattle.std.specs.Prelude.{◌≡◌, ◌<◌, ◌≤◌, ◌≤ℤ◌, ◌<ℤ◌, ◌++◌, pos, IfOk, IfSome, OnOk, OnErr, None, length, map};
ghost use Rattle.rd_geom.specs.Figures.{max_canvas_side};
ghost use Rattle.rd_c.specs.Handles.{IsSound};
ghost use Rattle.rd_c.specs.Held.{OnHeld, Holds, IsPainted};
ghost use Rattle.rd_c.specs.Numbers.{number_of};
ghost use Rattle.rd_c.specs.Reading.{IsAnswer, paint_answer, spans_answer, status_of};
ghost use Rattle.rd_c.specs.Spans.{AreSpans, told_rows, told_span};

use crate::handle::RdEngine;
use crate::painter::Painter;
use crate::refusal::{Refusal, status};
use crate::values::RdNote;
use rd_area::Area;
use rd_geom::{NoMemory, Span, Steps};
use std::alloc::Global;

/// The columns from `x0` up to but not including `x1` of row `y`, in canvas pixels.
#[repr(C)]
#[derive(Clone, Copy)]
pub struct RdSpan {
    pub y: i32,
    pub x0: i32,
    pub x1: i32,
}

impl Painter {
    /// Paints what has changed since the last paint, where one more may be counted. Without memory nothing has changed.
    #[tactic(auto, using(crate::proofs::Answering::paints))]
    pub(crate) fn paint(&mut self, note: &mut RdNote) -> Result<(), Refusal>
        ensures done { OnOk result (IsPainted note.new self.old self.new) }
        ensures kept { OnErr result (self.new ≡ self.old) }
        ensures answer { IsAnswer (paint_answer self.old.engine.paints) (status_of result) }
    {
        if self.engine.paints() == u64::MAX {
            return Err(Refusal::Nothing);
        }
        let Ok(told) = self.engine.paint(&mut Steps::idle(), &mut Steps::idle()) else {
            return Err(Refusal::NoMemory);
        };
        *note = RdNote {
            number: told.number,
            built: told.built,
            kept: told.kept,
            area: told.area,
        };
        Ok(())
    }

    /// Writes the spans of the area of the last paint as far as there is room for all, and in any case how many there are.
    #[tactic(auto, using(crate::proofs::Answering::lists))]
    fn spans(&self, alloc: Global, out: &mut [RdSpan], count: &mut usize) -> Result<(), Refusal>
        ensures spans { OnOk result (AreSpans self.now out.old out.new count.new) }
        ensures kept { OnErr result (out.new ≡ out.old) }
        ensures answer { IsAnswer (spans_answer self.now.engine.area self.now.engine.canvas.height (length out.old)) (status_of result) }
        ensures count { status_of result ≡ number_of Refusal.Short → IfSome self.now.engine.area (λ a. count.new ≡ length (told_rows a self.now.engine.canvas.height)) }
    {
        let Some(area) = self.engine.last_area() else {
            return Err(Refusal::Nothing);
        };
        let height = self.engine.canvas().size().h.unsigned_abs();
        let Ok(spans) = spans_of(alloc, area, height) else {
            return Err(Refusal::NoMemory);
        };
        *count = spans.len();
        if out.len() < spans.len() {
            return Err(Refusal::Short);
        }
        out[..spans.len()].copy_from_slice(&spans);
        Ok(())
    }
}

/// A span of row `y`.
fn told(y: u32, span: &Span) -> RdSpan
    requires { pos y <ℤ max_canvas_side }
    ensures { result ≡ told_span y span.now }
{
    RdSpan {
        y: y as i32,
        x0: span.x0,
        x1: span.x1,
    }
}

/// The spans of row `y`.
fn push_row(out: &mut Vec<RdSpan>, y: u32, row: &[Span]) -> Result<(), NoMemory>
    requires { pos y <ℤ max_canvas_side }
    ensures { OnOk result (out.new.items ≡ out.old.items ++ map (told_span y) row.now) }
{
    for span in row {
        out.push(told(y, span))?;
    }
    Ok(())
}

/// The spans of each of the first rows, from the top.
#[tactic(auto, using(crate::proofs::Spanning::told_next))]
fn spans_of(alloc: Global, area: &Area, height: u32) -> Result<Vec<RdSpan>, NoMemory>
    requires { pos height ≤ℤ max_canvas_side }
    ensures { IfOk result (λ v. v.items ≡ told_rows area.now height) }
{
    let mut out = Vec::new(alloc);
    for y in 0..height {
        push_row(&mut out, y, area.spans(y as i32))?;
    }
    Ok(out)
}

/// Paints what has changed since the last paint.
#[unsafe(no_mangle)]
pub extern "C" fn rd_c_paint(handle: &mut RdEngine, alloc: Global, note: &mut RdNote) -> u32
    requires { IsSound handle.old.held.value handle.old.full }
    ensures sound { IsSound handle.new.held.value handle.new.full }
    ensures done { result ≡ 0 → OnHeld (IsPainted note.new) handle.old.held.value handle.new.held.value }
    ensures kept { 0 < result → handle.new.held.value ≡ handle.old.held.value }
    ensures answer { IfSome handle.old.held.value (λ p. IsAnswer (paint_answer p.engine.paints) result) }
    ensures none { handle.old.held.value ≡ None → result ≡ number_of Refusal.NoEngine }
{
    let Some(mut painter) = handle.take(alloc) else {
        return Refusal::NoEngine.number();
    };
    let done = painter.paint(note);
    handle.put(painter);
    status(done)
}

/// The pixels that the last paint painted anew, as spans: of each row from the top those from the left. `count` is how many there
/// are, also where there is no room for them.
#[unsafe(no_mangle)]
pub extern "C" fn rd_c_spans(
    handle: &mut RdEngine,
    alloc: Global,
    out: &mut [RdSpan],
    count: &mut usize,
) -> u32
    requires { IsSound handle.old.held.value handle.old.full }
    ensures sound { IsSound handle.new.held.value handle.new.full }
    ensures same { handle.new.held.value ≡ handle.old.held.value }
    ensures spans { result ≡ 0 → Holds (λ p. AreSpans p out.old out.new count.new) handle.old.held.value }
    ensures kept { 0 < result → out.new ≡ out.old }
    ensures answer { IfSome handle.old.held.value (λ p. IsAnswer (spans_answer p.engine.area p.engine.canvas.height (length out.old)) result) }
    ensures count { result ≡ number_of Refusal.Short → Holds (λ p. IfSome p.engine.area (λ a. count.new ≡ length (told_rows a p.engine.canvas.height))) handle.old.held.value }
    ensures none { handle.old.held.value ≡ None → result ≡ number_of Refusal.NoEngine }
{
    let Some(painter) = handle.take(alloc) else {
        return Refusal::NoEngine.number();
    };
    let done = painter.spans(alloc, out, count);
    handle.put(painter);
    status(done)
}
