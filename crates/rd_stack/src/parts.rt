//! The leaves of a box.
ghost use Rattle.std.specs.Prelude.{◌≡◌, Some, option_map};
ghost use Rattle.rd_stack.specs.Clips.{padding_box};
ghost use Rattle.rd_stack.specs.Parts as parts;

use crate::clip::{clip_of, padding_box};
use crate::path::{BoxData, BoxPath, is_root};
use rd_geom::{Color, Rect, Sides, meet, outset};
use rd_item::{Leaf, Shape};
use rd_keys::Part;
use rd_style::{Pointer, Visibility};

fn has_border(s: &Sides) -> bool
    ensures { result ≡ parts.has_border s.now }
{
    0 < s.top || 0 < s.right || 0 < s.bottom || 0 < s.left
}

fn solid(r: Rect) -> Shape
    ensures { result ≡ parts.solid r }
{
    Shape {
        outer: r,
        inner: Rect::EMPTY,
    }
}

/// The outer rectangle without the inner one, which is 0 0 0 0 where it has no pixel.
fn frame(outer: Rect, inner: Rect) -> Shape
    ensures { result ≡ parts.frame outer inner }
{
    if inner.is_empty() {
        solid(outer)
    } else {
        Shape { outer, inner }
    }
}

fn background(canvas: &Rect, root: bool, b: &BoxData) -> Rect
    ensures { result ≡ parts.background canvas.now root b.now }
{
    if root { *canvas } else { b.rect() }
}

/// The shape and the colour of a part, where the box has that part.
fn shape_of(canvas: &Rect, root: bool, b: &BoxData, part: Part) -> Option<(Shape, Color)>
    ensures { result ≡ parts.shape_of canvas.now root b.now part }
{
    match part {
        Part::Back => Some((back_of(canvas, root, b), b.style().background)),
        Part::Border => border_of(b),
        Part::Content => content_of(b),
        Part::Outline => outline_of(b),
    }
}

/// The shape of the background.
#[inline(always)]
pub fn back_of(canvas: &Rect, root: bool, b: &BoxData) -> Shape
    ensures { result ≡ parts.solid (parts.background canvas.now root b.now) }
{
    solid(background(canvas, root, b))
}

/// The shape and the colour of the content, where there is one.
#[inline(always)]
pub fn content_of(b: &BoxData) -> Option<(Shape, Color)>
    ensures { result ≡ option_map (λ c. (parts.solid (padding_box b.now), c)) b.now.style.content }
{
    match b.style().content {
        Some(color) => Some((solid(padding_box(b)), color)),
        None => None,
    }
}

/// The shape and the colour of the border, where there is one.
#[inline(always)]
pub fn border_of(b: &BoxData) -> Option<(Shape, Color)>
    ensures { result ≡ parts.border b.now }
{
    if has_border(&b.style().border_width) {
        Some((frame(b.rect(), padding_box(b)), b.style().border_color))
    } else {
        None
    }
}

/// The shape and the colour of the outline, where there is one.
#[inline(always)]
pub fn outline_of(b: &BoxData) -> Option<(Shape, Color)>
    ensures { result ≡ parts.outline b.now }
{
    if 0 < b.style.outline_width {
        let outer = outset(b.rect, b.style.outline_width);
        Some((frame(outer, b.rect), b.style.outline_color))
    } else {
        None
    }
}

/// Is the box seen (CSS 2.2 section 11.2)?
#[inline(always)]
pub fn is_seen(b: &BoxData) -> bool
    ensures { result ≡ parts.is_seen b.now.style.visibility }
{
    matches!(b.style().visibility, Visibility::Visible)
}

/// Can a pointer hit it?
#[inline(always)]
pub fn takes_hits(b: &BoxData) -> bool
    ensures { result ≡ parts.takes_hits b.now.style.pointer }
{
    matches!(b.style().pointer, Pointer::Auto)
}

fn shown(clip: &Rect, b: &BoxData, part: Part, shape: &Shape, color: Color) -> Option<Leaf>
    ensures { result ≡ parts.shown clip.now b.now part (Some (shape.now, color)) }
{
    let visible = meet(shape.outer, *clip);
    if visible.is_empty() {
        return None;
    }
    Some(Leaf {
        owner: b.key(),
        part,
        visible,
        shape: *shape,
        color,
        hits: takes_hits(b),
    })
}

/// The leaf of a part of a box, the root or another, inside a clip: none for a hidden box, a part that the box does not
/// have, or one that may be seen nowhere.
pub fn leaf_of(canvas: &Rect, root: bool, clip: &Rect, b: &BoxData, part: Part) -> Option<Leaf>
    ensures { result ≡ parts.leaf_of canvas.now root clip.now b.now part }
{
    if !is_seen(b) {
        return None;
    }
    match shape_of(canvas, root, b, part) {
        Some((shape, color)) => shown(clip, b, part, &shape, color),
        None => None,
    }
}

/// The leaf of a part of a box where it stands.
pub fn leaf_at(canvas: &Rect, x: &BoxPath, part: Part) -> Option<Leaf>
    ensures { result ≡ parts.leaf_at canvas.now x.now part }
{
    leaf_of(canvas, is_root(x), &clip_of(canvas, x), &x.here, part)
}
