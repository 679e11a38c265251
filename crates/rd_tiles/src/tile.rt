//! One tile.

use rd_geom::Rect;
use rd_paint::Canvas;

/// A tile: where it lies, in canvas pixels; the number of the paint that painted it last, or 0; and its own pixels.
#[derive(Drop)]
pub struct Tile {
    pub place: Rect,
    pub stamp: u64,
    pub canvas: Canvas,
}
