//! One painted part of a box.
ghost use Rattle.std.specs.Prelude.{◌≡◌};
ghost use Rattle.rd_item.specs.Leaves as leaves;

use rd_geom::{Color, Rect, holds};
use rd_keys::{BoxKey, Part};

/// The pixels of the outer rectangle that are not in the inner one, in canvas pixels.
/// A full shape has an empty inner rectangle.
#[derive(Clone, Copy)]
pub struct Shape {
    pub outer: Rect,
    pub inner: Rect,
}

/// One painted part of one box: where it may be seen, its shape, its colour (8 bits a channel, not premultiplied),
/// and whether the pointer can hit it.
#[derive(Clone, Copy)]
pub struct Leaf {
    pub owner: BoxKey,
    pub part: Part,
    pub visible: Rect,
    pub shape: Shape,
    pub color: Color,
    pub hits: bool,
}

/// Is the pixel in the shape of the leaf, and in its visible rectangle?
pub fn covers(leaf: &Leaf, x: i32, y: i32) -> bool
    ensures { result ≡ leaves.covers leaf.now x y }
{
    holds(leaf.shape.outer, x, y) && !holds(leaf.shape.inner, x, y) && holds(leaf.visible, x, y)
}
