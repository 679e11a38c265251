//! The rows and columns that an area lies in.

ghost use Rattle.std.specs.Prelude.{◌≡◌, ℕ, pos, ◌≤◌, ◌<◌, IsFalse, true, false};
ghost use Rattle.rd_geom.specs.Areas.{in_area};
ghost use Rattle.rd_paint.specs.Internal.Frames.{IsFramed};

use rd_area::Area;
use rd_geom::{Rect, Span};

/// The columns from `left` up to `right` of the rows from `top` up to `bottom`.
#[derive(Clone, Copy)]
pub(crate) struct Frame {
    pub(crate) left: usize,
    pub(crate) right: usize,
    pub(crate) top: usize,
    pub(crate) bottom: usize,
}

impl Frame {
    /// Its columns.
    pub(crate) fn columns(&self) -> Span
        requires across { self.now.left ≤ self.now.right }
        requires wide { self.now.right ≤ 4096 }
        ensures { result ≡ record { x0 = pos self.now.left; x1 = pos self.now.right } }
    {
        Span {
            x0: self.left as i32,
            x1: self.right as i32,
        }
    }

    /// Its rows.
    pub(crate) fn rows(&self) -> Span
        requires down { self.now.top ≤ self.now.bottom }
        requires high { self.now.bottom ≤ 4096 }
        ensures { result ≡ record { x0 = pos self.now.top; x1 = pos self.now.bottom } }
    {
        Span {
            x0: self.top as i32,
            x1: self.bottom as i32,
        }
    }
}

/// Is a pixel of the area in the columns `left` up to `right` of the rows `top` up to `bottom`?
pub(crate) fn meets_part(area: &Area, left: usize, right: usize, top: usize, bottom: usize) -> bool
    requires across { left ≤ right }
    requires wide { right ≤ 4096 }
    requires down { top ≤ bottom }
    requires high { bottom ≤ 4096 }
    ensures { IsFalse result → (x y : ℕ) → left ≤ x → x < right → top ≤ y → y < bottom
        → in_area area.now (pos x) (pos y) ≡ false }
{
    match Rect::new(
        left as i32,
        top as i32,
        (right - left) as i32,
        (bottom - top) as i32,
    ) {
        Some(part) => area.meets(part),
        None => true,
    }
}

/// From which row on the area may have a pixel of a whole.
fn first_row(area: &Area, whole: Frame) -> usize
    requires across { whole.left ≤ whole.right }
    requires wide { whole.right ≤ 4096 }
    requires down { whole.top ≤ whole.bottom }
    requires high { whole.bottom ≤ 4096 }
    ensures from { whole.top ≤ result }
    ensures within { result ≤ whole.bottom }
    ensures above { (x y : ℕ) → whole.left ≤ x → x < whole.right → whole.top ≤ y → y < result
        → in_area area.now (pos x) (pos y) ≡ false }
{
    let mut first = whole.top;
    for step in [2048, 1024, 512, 256, 128, 64, 32, 16, 8, 4, 2, 1] {
        if step <= whole.bottom - first
            && !meets_part(area, whole.left, whole.right, first, first + step)
        {
            first += step;
        }
    }
    first
}

/// Up to which row the area may have a pixel of a whole, if none is above row `first`.
fn last_row(area: &Area, whole: Frame, first: usize) -> usize
    requires across { whole.left ≤ whole.right }
    requires wide { whole.right ≤ 4096 }
    requires order { first ≤ whole.bottom }
    requires high { whole.bottom ≤ 4096 }
    ensures order { first ≤ result }
    ensures within { result ≤ whole.bottom }
    ensures below { (x y : ℕ) → whole.left ≤ x → x < whole.right → result ≤ y → y < whole.bottom
        → in_area area.now (pos x) (pos y) ≡ false }
{
    let mut last = whole.bottom;
    for step in [2048, 1024, 512, 256, 128, 64, 32, 16, 8, 4, 2, 1] {
        if step <= last - first && !meets_part(area, whole.left, whole.right, last - step, last) {
            last -= step;
        }
    }
    last
}

/// From which column on the area may have a pixel of a whole in the rows `top` up to `bottom`.
fn first_column(area: &Area, whole: Frame, top: usize, bottom: usize) -> usize
    requires across { whole.left ≤ whole.right }
    requires wide { whole.right ≤ 4096 }
    requires down { top ≤ bottom }
    requires high { bottom ≤ 4096 }
    ensures from { whole.left ≤ result }
    ensures within { result ≤ whole.right }
    ensures before { (x y : ℕ) → whole.left ≤ x → x < result → top ≤ y → y < bottom
        → in_area area.now (pos x) (pos y) ≡ false }
{
    let mut first = whole.left;
    for step in [2048, 1024, 512, 256, 128, 64, 32, 16, 8, 4, 2, 1] {
        if step <= whole.right - first && !meets_part(area, first, first + step, top, bottom) {
            first += step;
        }
    }
    first
}

/// Up to which column the area may have a pixel of a whole in the rows `top` up to `bottom`, if none is left of column `first`.
fn last_column(area: &Area, whole: Frame, first: usize, top: usize, bottom: usize) -> usize
    requires order { first ≤ whole.right }
    requires wide { whole.right ≤ 4096 }
    requires down { top ≤ bottom }
    requires high { bottom ≤ 4096 }
    ensures order { first ≤ result }
    ensures within { result ≤ whole.right }
    ensures after { (x y : ℕ) → result ≤ x → x < whole.right → top ≤ y → y < bottom
        → in_area area.now (pos x) (pos y) ≡ false }
{
    let mut last = whole.right;
    for step in [2048, 1024, 512, 256, 128, 64, 32, 16, 8, 4, 2, 1] {
        if step <= last - first && !meets_part(area, last - step, last, top, bottom) {
            last -= step;
        }
    }
    last
}

/// Rows and columns of a whole outside which the area has no pixel of it.
pub(crate) fn frame_of(area: &Area, whole: Frame) -> Frame
    requires across { whole.left ≤ whole.right }
    requires wide { whole.right ≤ 4096 }
    requires down { whole.top ≤ whole.bottom }
    requires high { whole.bottom ≤ 4096 }
    ensures { IsFramed area.now whole result }
{
    let top = first_row(area, whole);
    let bottom = last_row(area, whole, top);
    let left = first_column(area, whole, top, bottom);
    let right = last_column(area, whole, left, top, bottom);
    Frame {
        left,
        right,
        top,
        bottom,
    }
}
