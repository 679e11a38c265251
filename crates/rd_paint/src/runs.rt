//! Runs of pixels of one row.

ghost use Rattle.std.specs.Prelude.{◌≡◌, ℕ, ℤ, pos, ◌+◌, ◌*◌, ◌≤◌, ◌<◌, ◌+ℤ◌, ◌≤ℤ◌, ◌&&◌, ◌||◌, IsTrue, false, get_or, nat_le, nat_lt, int_le, int_lt, List, length, replicate};
ghost use Rattle.rd_geom.specs.Colors.{Premultiplied, clear, laid_over};
ghost use Rattle.rd_geom.specs.Plane.{is_among, right, bottom};
ghost use Rattle.rd_geom.specs.Areas.{in_span};
ghost use Rattle.rd_geom.specs.declared.blend.Blend.TheVariants as mode;
ghost use Rattle.rd_paint.specs.Internal.Runs.{IsTurned, row_laid, tinted, piece_laid, round_laid, holed_laid, laid_around};

use rd_geom::{Blend, Px, Rect, Span, mix, over, px_of, scale};

/// Makes each pixel the same.
pub(crate) fn fill(out: &mut [Px], px: Px)
    ensures { out.new ≡ replicate (length out.old) px }
{
    for p in out.iter_mut() {
        *p = px;
    }
}

/// Are the two pixels the same?
fn same(p: Px, q: Px) -> bool
    ensures { IsTrue result → p ≡ q }
{
    (p.r() == q.r()) & (p.g() == q.g()) & (p.b() == q.b()) & (p.a() == q.a())
}

/// Are the four pixels from place `at` on all the same as this one?
fn four_same(out: &[Px], at: usize, px: Px) -> bool
    requires { at + 4 ≤ length out.now }
    ensures first { IsTrue result → get_or out.now at clear ≡ px }
    ensures second { IsTrue result → get_or out.now (at + 1) clear ≡ px }
    ensures third { IsTrue result → get_or out.now (at + 2) clear ≡ px }
    ensures fourth { IsTrue result → get_or out.now (at + 3) clear ≡ px }
{
    same(out[at], px) & same(out[at + 1], px) & same(out[at + 2], px) & same(out[at + 3], px)
}

/// Are the eight pixels from place `at` on all the same as this one?
fn eight_same(out: &[Px], at: usize, px: Px) -> bool
    requires { at + 8 ≤ length out.now }
    ensures { IsTrue result → (k : ℕ) → at ≤ k → k < at + 8 → get_or out.now k clear ≡ px }
{
    four_same(out, at, px) & four_same(out, at + 4, px)
}

/// Makes pixels `laid`, by eights, as long as they are `was`: from place `from` up to which?
fn turn_eights(out: &mut [Px], from: usize, was: Px, laid: Px) -> usize
    requires { from ≤ length out.old }
    ensures from { from ≤ result }
    ensures within { result ≤ length out.old }
    ensures turned { IsTurned was laid from result out.old out.new }
{
    let mut end = from;
    while out.len() - end >= 8 && eight_same(out, end, was) {
        fill(&mut out[end..end + 8], laid);
        end += 8;
    }
    end
}

/// The same, one pixel after another.
fn turn_ones(out: &mut [Px], from: usize, was: Px, laid: Px) -> usize
    requires { from ≤ length out.old }
    ensures from { from ≤ result }
    ensures within { result ≤ length out.old }
    ensures turned { IsTurned was laid from result out.old out.new }
{
    let mut end = from;
    while end < out.len() && same(out[end], was) {
        out[end] = laid;
        end += 1;
    }
    end
}

/// Lays one pixel over the pixel at place `from` and over those behind it that are the same; says up to where.
fn tint_run(out: &mut [Px], from: usize, px: Px) -> usize
    requires { from < length out.old }
    ensures more { from < result }
    ensures within { result ≤ length out.old }
    ensures turned { IsTurned (get_or out.old from clear) (laid_over px (get_or out.old from clear)) from result
        out.old out.new }
{
    let was = out[from];
    let laid = over(px, was);
    out[from] = laid;
    let end = turn_eights(out, from + 1, was, laid);
    turn_ones(out, end, was, laid)
}

/// Lays one pixel over each of the pixels.
#[inline(never)]
fn tint(out: &mut [Px], px: Px)
    ensures { out.new ≡ tinted px out.old }
{
    let mut from = 0;
    while from < out.len() {
        from = tint_run(out, from, px);
    }
}

/// Up to where the pixels from `from` on are the same, and those of a row too. Where the next ones are others no eight are looked at.
#[inline(always)]
fn both_same_until(out: &[Px], row: &[Px], from: usize) -> usize
    requires long { length row.now ≡ length out.now }
    requires from { from < length out.now }
    ensures more { from < result }
    ensures within { result ≤ length out.now }
    ensures same { (k : ℕ) → from ≤ k → k < result → get_or out.now k clear ≡ get_or out.now from clear }
    ensures same_row { (k : ℕ) → from ≤ k → k < result → get_or row.now k clear ≡ get_or row.now from clear }
{
    let px = out[from];
    let above = row[from];
    let mut end = from + 1;
    if end < out.len() && !(same(out[end], px) & same(row[end], above)) {
        return end;
    }
    while out.len() - end >= 8 && eight_same(out, end, px) && eight_same(row, end, above) {
        end += 8;
    }
    while end < out.len() && same(out[end], px) && same(row[end], above) {
        end += 1;
    }
    end
}

/// Lays a row over as many pixels, each channel scaled by the opacity.
fn lay_row_over(out: &mut [Px], row: &[Px], opacity: u8)
    requires { length row.now ≡ length out.old }
    ensures { out.new ≡ row_laid mode.Normal opacity row.now out.old }
{
    let mut from = 0;
    while from < out.len() {
        let end = both_same_until(out, row, from);
        let laid = over(scale(row[from], opacity), out[from]);
        fill(&mut out[from..end], laid);
        from = end;
    }
}

/// Puts a row onto as many pixels by a blend mode, each channel scaled by the opacity.
fn mix_row(out: &mut [Px], row: &[Px], blend: Blend, opacity: u8)
    requires { length row.now ≡ length out.old }
    ensures { out.new ≡ row_laid blend opacity row.now out.old }
{
    let mut from = 0;
    while from < out.len() {
        let end = both_same_until(out, row, from);
        let laid = mix(blend, scale(row[from], opacity), out[from]);
        fill(&mut out[from..end], laid);
        from = end;
    }
}

/// The same; the mode is asked once for all pixels, since most groups are laid over.
pub(crate) fn lay_row(out: &mut [Px], row: &[Px], blend: Blend, opacity: u8)
    requires { length row.now ≡ length out.old }
    ensures { out.new ≡ row_laid blend opacity row.now out.old }
{
    match blend {
        Blend::Normal => lay_row_over(out, row, opacity),
        _ => mix_row(out, row, blend, opacity),
    }
}

/// Lays one pixel over each of the pixels; an opaque one takes their places.
fn lay_px(out: &mut [Px], px: Px)
    ensures { out.new ≡ tinted px out.old }
{
    if px.a() == 255 {
        fill(out, px);
    } else {
        tint(out, px);
    }
}

/// Which of so many places, of which the first is in column `x0`, is in column `x`: the nearest where none is.
fn place_of(x: i32, x0: i32, count: usize) -> usize
    requires { pos 0 ≤ℤ x0 }
    ensures within { result ≤ count }
    ensures at { (k : ℕ) → k < count → int_le x (x0 +ℤ pos k) ≡ nat_le result k }
{
    if x <= x0 {
        return 0;
    }
    let ahead = (x - x0) as usize;
    if ahead < count { ahead } else { count }
}

/// Which of so many places, of which the first is in column `x0`, are in the span: from the first up to the second.
pub(crate) fn clipped(span: Span, x0: i32, count: usize) -> (usize, usize)
    requires { pos 0 ≤ℤ x0 }
    ensures order { result.0 ≤ result.1 }
    ensures within { result.1 ≤ count }
    ensures places { (k : ℕ) → k < count → in_span span (x0 +ℤ pos k) ≡ (nat_le result.0 k && nat_lt k result.1) }
{
    let from = place_of(span.x0, x0, count);
    let to = place_of(span.x1, x0, count);
    if to < from { (from, from) } else { (from, to) }
}

/// Lays one pixel over those of the pixels from column `x0` on that are in the span.
fn lay_columns(px: Px, span: Span, x0: i32, out: &mut [Px])
    requires from { pos 0 ≤ℤ x0 }
    requires within { (x0 +ℤ pos (length out.old)) ≤ℤ pos 4096 }
    ensures { out.new ≡ piece_laid span px x0 out.old }
{
    let (from, to) = clipped(span, x0, out.len());
    lay_px(&mut out[from..to], px);
}

/// Makes pixels from column `x0` on clear, with one pixel laid over those of them that are in the span.
pub(crate) fn begin_columns(px: Px, span: Span, x0: i32, out: &mut [Px])
    requires from { pos 0 ≤ℤ x0 }
    requires within { (x0 +ℤ pos (length out.old)) ≤ℤ pos 4096 }
    ensures { out.new ≡ piece_laid span px x0 (replicate (length out.old) clear) }
{
    let (from, to) = clipped(span, x0, out.len());
    let (before, rest) = out.split_at_mut(from);
    let (inside, after) = rest.split_at_mut(to - from);
    fill(before, Px::CLEAR);
    fill(inside, px);
    fill(after, Px::CLEAR);
}

/// Is row `y` one of the rectangle's?
pub(crate) fn has_row(r: Rect, y: i32) -> bool
    ensures { result ≡ is_among r.y r.h y }
{
    let top = r.y();
    let bottom = top + r.h();
    top <= y && y < bottom
}

/// The columns of a rectangle.
pub(crate) fn columns(r: Rect) -> Span
    ensures { result ≡ record { x0 = r.x; x1 = right r } }
{
    Span {
        x0: r.x(),
        x1: r.x() + r.w(),
    }
}

/// Lays one pixel over those of the pixels from column `x0` on that are in the span and not in the columns of a hole.
fn lay_round(px: Px, span: Span, hole: Rect, x0: i32, out: &mut [Px])
    requires from { pos 0 ≤ℤ x0 }
    requires within { (x0 +ℤ pos (length out.old)) ≤ℤ pos 4096 }
    ensures { out.new ≡ round_laid span hole px x0 out.old }
{
    let before = left_of(span, hole.x());
    let after = right_from(span, hole.right());
    lay_columns(px, before, x0, out);
    lay_columns(px, after, x0, out);
}

/// The columns of a span left of column `edge`.
fn left_of(run: Span, edge: i32) -> Span
    ensures { (x : ℤ) → in_span result x ≡ (in_span run x && int_lt x edge) }
{
    Span {
        x0: run.x0,
        x1: run.x1.min(edge),
    }
}

/// The columns of a span from column `edge` on.
fn right_from(run: Span, edge: i32) -> Span
    ensures { (x : ℤ) → in_span result x ≡ (in_span run x && int_le edge x) }
{
    Span {
        x0: run.x0.max(edge),
        x1: run.x1,
    }
}

/// Lays one pixel over those of the pixels of row `y` from column `x0` on that are in the span and not in a hole.
pub(crate) fn lay_row_of(px: Px, span: Span, hole: Rect, y: i32, x0: i32, out: &mut [Px])
    requires from { pos 0 ≤ℤ x0 }
    requires within { (x0 +ℤ pos (length out.old)) ≤ℤ pos 4096 }
    ensures { out.new ≡ holed_laid span hole px y x0 out.old }
{
    if has_row(hole, y) {
        lay_round(px, span, hole, x0, out);
    } else {
        lay_columns(px, span, x0, out);
    }
}

/// The rows of a rectangle.
pub(crate) fn rows_of(r: Rect) -> Span
    ensures { result ≡ record { x0 = r.y; x1 = bottom r } }
{
    Span {
        x0: r.y(),
        x1: r.y() + r.h(),
    }
}

/// So many columns from `x0` on.
fn run_of(x0: i32, count: usize) -> Span
    requires from { pos 0 ≤ℤ x0 }
    requires within { (x0 +ℤ pos count) ≤ℤ pos 4096 }
    ensures { result ≡ record { x0 = x0; x1 = x0 +ℤ pos count } }
{
    Span {
        x0,
        x1: x0 + count as i32,
    }
}

/// Lays one pixel over those of the pixels of row `y` from column `x0` on that are not in a hole.
pub(crate) fn lay_around(px: Px, hole: Rect, y: i32, x0: i32, out: &mut [Px])
    requires from { pos 0 ≤ℤ x0 }
    requires within { (x0 +ℤ pos (length out.old)) ≤ℤ pos 4096 }
    ensures { out.new ≡ laid_around hole px y x0 out.old }
{
    if has_row(hole, y) {
        lay_round(px, run_of(x0, out.len()), hole, x0, out);
    } else {
        lay_px(out, px);
    }
}
