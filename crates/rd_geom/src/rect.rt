//! Rectangles of pixels as sets of pixels.

ghost use Rattle.std.specs.Prelude.{◌≡◌, ℕ, ℤ, pos, ◌+ℤ◌, ◌-ℤ◌, ◌≤ℤ◌, ◌↔◌, IfSome, IfNone, IsTrue, ◌&&◌, int_le, int_lt, Bool};
ghost use Rattle.rd_geom.specs.Plane as plane;
ghost use Rattle.rd_geom.specs.Plane.{meet, SharesPixel, has_none, holds_pixel, right, bottom, IsPlaced, spanning, int_low, inset, outset};
ghost use Rattle.rd_geom.specs.Figures.{max_reach, max_canvas_side};

use std::marker::Model;

/// How far from the canvas's corner a rectangle may reach, to any side, in canvas pixels.
pub const MAX_REACH: i32 = 1_000_000_000;

/// The largest width and height of a canvas, in pixels.
pub const MAX_CANVAS_SIDE: i32 = 4096;

/// The limits, so that clauses can say what they are.
fn figures()
    ensures reach { MAX_REACH ≡ max_reach }
    ensures canvas { MAX_CANVAS_SIDE ≡ max_canvas_side }
{}

/// A rectangle of pixels: its left upper pixel, and how many it has across and down (CSS 2.2 section 8.1).
///
/// `w` and `h` are not negative, `x` and `y` are at least `-MAX_REACH`, and `x + w` and `y + h` are at most `MAX_REACH`.
#[derive(Clone, Copy, PartialEq, Eq, Debug)]
pub struct Rect {
    x: i32,
    y: i32,
    w: i32,
    h: i32,
}

impl Model for Rect {
    ghost use Rattle.rd_geom.specs.Plane.{Rectangle, IsPlaced};

    ghost Value = { Rectangle };

    ghost view = { λ a. record { x = a.x; y = a.y; w = a.w; h = a.h } };

    ghost invariant = { λ a. IsPlaced (record { x = a.x; y = a.y; w = a.w; h = a.h }) };

    ghost inverse = { λ r. record { x = r.x; y = r.y; w = r.w; h = r.h } };
}

/// A size in canvas pixels.
#[derive(Clone, Copy, PartialEq, Eq, Debug)]
pub struct Size {
    pub w: i32,
    pub h: i32,
}

/// Four widths in canvas pixels, as those of a border (CSS 2.2 section 8.1).
#[derive(Clone, Copy, PartialEq, Eq, Debug)]
pub struct Sides {
    pub top: u16,
    pub right: u16,
    pub bottom: u16,
    pub left: u16,
}

impl Size {
    ghost use Rattle.rd_geom.specs.Canvas.{IsCanvas, canvas_of};

    /// The rectangle of a canvas of this size, which is from 1 to `MAX_CANVAS_SIDE` pixels wide and high (CSS 2.2 section 10.1).
    pub fn rect(&self) -> Rect
        requires { IsCanvas self.now }
        ensures { result ≡ canvas_of self.now }
    {
        Rect {
            x: 0,
            y: 0,
            w: self.w,
            h: self.h,
        }
    }
}

impl Rect {
    /// The rectangle without a pixel.
    pub const EMPTY: Rect = Rect {
        x: 0,
        y: 0,
        w: 0,
        h: 0,
    };

    /// The rectangle, or None exactly where the limits of the type do not hold of it.
    pub fn new(x: i32, y: i32, w: i32, h: i32) -> Option<Rect>
        ensures made { IfSome result (λ r. r ≡ record { x = x; y = y; w = w; h = h }) }
        ensures placed { IfSome result (λ r. IsPlaced r) }
        ensures none { IfNone result (IsPlaced (record { x = x; y = y; w = w; h = h }) → ⊥) }
    {
        if w < 0 || h < 0 || x < -MAX_REACH || y < -MAX_REACH {
            return None;
        }
        if x > MAX_REACH - w || y > MAX_REACH - h {
            return None;
        }
        Some(Rect { x, y, w, h })
    }

    /// The first column.
    pub fn x(&self) -> i32
        ensures value { result ≡ self.now.x }
        ensures placed { IsPlaced self.now }
    {
        self.x
    }

    /// The first row.
    pub fn y(&self) -> i32
        ensures value { result ≡ self.now.y }
        ensures placed { IsPlaced self.now }
    {
        self.y
    }

    /// The number of columns.
    pub fn w(&self) -> i32
        ensures value { result ≡ self.now.w }
        ensures placed { IsPlaced self.now }
    {
        self.w
    }

    /// The number of rows.
    pub fn h(&self) -> i32
        ensures value { result ≡ self.now.h }
        ensures placed { IsPlaced self.now }
    {
        self.h
    }

    /// The first column right of it.
    pub fn right(&self) -> i32
        ensures value { result ≡ right self.now }
        ensures placed { IsPlaced self.now }
    {
        self.x + self.w
    }

    /// The first row below it.
    pub fn bottom(&self) -> i32
        ensures value { result ≡ bottom self.now }
        ensures placed { IsPlaced self.now }
    {
        self.y + self.h
    }

    /// Is there no pixel in it?
    pub fn is_empty(&self) -> bool
        ensures { result ≡ has_none self.now }
    {
        self.w <= 0 || self.h <= 0
    }
}

/// The pixels from column `left` up to `right` and from row `top` up to `bottom`.
pub(crate) fn spanning(left: i32, top: i32, right: i32, bottom: i32) -> Rect
    requires from_left { int_low ≤ℤ left }
    requires from_top { int_low ≤ℤ top }
    requires to_right { right ≤ℤ max_reach }
    requires to_bottom { bottom ≤ℤ max_reach }
    ensures { result ≡ spanning left top right bottom }
{
    if left < right && top < bottom {
        Rect {
            x: left,
            y: top,
            w: right - left,
            h: bottom - top,
        }
    } else {
        Rect::EMPTY
    }
}

/// The common pixels of both, or `Rect::EMPTY`.
pub fn meet(a: Rect, b: Rect) -> Rect
    ensures value { result ≡ meet a b }
    ensures pixels { (x y : ℤ) → holds_pixel result x y ≡ (holds_pixel a x y && holds_pixel b x y) }
{
    let left = a.x().max(b.x());
    let top = a.y().max(b.y());
    let right = a.right().min(b.right());
    let bottom = a.bottom().min(b.bottom());
    spanning(left, top, right, bottom)
}

/// Have the two a common pixel?
pub fn meets(a: Rect, b: Rect) -> bool
    ensures value { result ≡ plane.meets a b }
    ensures pixel { IsTrue result ↔ SharesPixel a b }
{
    !meet(a, b).is_empty()
}

/// Is the pixel at column `x` and row `y` in the rectangle?
pub fn holds(r: Rect, x: i32, y: i32) -> bool
    ensures { result ≡ holds_pixel r x y }
{
    is_from_to(r.x(), r.right(), x) && is_from_to(r.y(), r.bottom(), y)
}

/// Is `at` at least `from` and below `to`?
fn is_from_to(from: i32, to: i32, at: i32) -> bool
    ensures { result ≡ (int_le from at && int_lt at to) }
{
    from <= at && at < to
}

/// What the four widths leave of a rectangle, or `Rect::EMPTY` (CSS 2.2 section 8.1).
pub fn inset(r: Rect, s: Sides) -> Rect
    ensures value { result ≡ inset r s.top s.right s.bottom s.left }

    // A pixel is left where those by the four widths away from it are in the rectangle.
    ensures pixels { (x y : ℤ) → holds_pixel result x y ≡
        (holds_pixel r (x -ℤ pos s.left) (y -ℤ pos s.top) && holds_pixel r (x +ℤ pos s.right) (y +ℤ pos s.bottom)) }
{
    let left = r.x() + s.left as i32;
    let top = r.y() + s.top as i32;
    let right = r.right() - s.right as i32;
    let bottom = r.bottom() - s.bottom as i32;
    spanning(left, top, right, bottom)
}

/// A rectangle with a border of the given width round it, also where the rectangle is empty.
pub fn outset(r: Rect, by: u16) -> Rect
    requires { IsPlaced (outset r by) }
    ensures { result ≡ outset r by }
{
    let by = by as i32;
    Rect {
        x: r.x - by,
        y: r.y - by,
        w: r.w + 2 * by,
        h: r.h + 2 * by,
    }
}
