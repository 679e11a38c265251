//! Rectangles of tests.
use rd_geom::Rect;
use std::process::Abort;

/// The rectangle of this corner and this size.
pub(super) fn rect_of(rt: &impl Abort, r: [i32; 4]) -> Rect {
    Rect::new(r[0], r[1], r[2], r[3]).expect(rt, "a rectangle")
}
