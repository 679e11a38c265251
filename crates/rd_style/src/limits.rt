//! The limits of widths and rectangles.

ghost use Rattle.std.specs.Prelude.{◌≡◌};
ghost use Rattle.rd_style.specs.Figures.{max_line_width, max_coordinate, max_extent};
ghost use Rattle.rd_style.specs.Limits as limits;

use crate::styles::Style;
use rd_geom::Rect;

/// The widest border or outline, in canvas pixels.
pub const MAX_LINE_WIDTH: u16 = 1000;

/// How far from the canvas's corner a box may begin, to either side, in canvas pixels.
pub const MAX_COORDINATE: i32 = 1_000_000;

/// The largest width and height of a box, in canvas pixels.
pub const MAX_EXTENT: i32 = 1_000_000;

/// The limits, so that clauses can say what they are.
fn figures()
    ensures lines { MAX_LINE_WIDTH ≡ max_line_width }
    ensures places { MAX_COORDINATE ≡ max_coordinate }
    ensures extents { MAX_EXTENT ≡ max_extent }
{}

/// Is every border and outline width at most `MAX_LINE_WIDTH`?
#[tactic(auto, unfolding(crate::specs::Limits::fits))]
pub fn fits(s: &Style) -> bool
    ensures { result ≡ limits.fits s.now }
{
    let b = s.border_width;
    b.top <= MAX_LINE_WIDTH
        && b.right <= MAX_LINE_WIDTH
        && b.bottom <= MAX_LINE_WIDTH
        && b.left <= MAX_LINE_WIDTH
        && s.outline_width <= MAX_LINE_WIDTH
}

/// Are x and y from `-MAX_COORDINATE` to `MAX_COORDINATE`, and w and h at most `MAX_EXTENT`?
#[tactic(auto, unfolding(crate::specs::Limits::fits_rect))]
pub fn fits_rect(r: Rect) -> bool
    ensures { result ≡ limits.fits_rect r }
{
    starts_near(r) && is_small(r)
}

/// Does it begin within reach of the canvas's corner?
fn starts_near(r: Rect) -> bool
    ensures { result ≡ limits.starts_near r }
{
    let least = -MAX_COORDINATE;
    is_between(least, r.x(), MAX_COORDINATE) && is_between(least, r.y(), MAX_COORDINATE)
}

fn is_small(r: Rect) -> bool
    ensures { result ≡ limits.is_small r }
{
    is_between(0, r.w(), MAX_EXTENT) && is_between(0, r.h(), MAX_EXTENT)
}

fn is_between(low: i32, v: i32, high: i32) -> bool
    ensures { result ≡ limits.is_between low v high }
{
    low <= v && v <= high
}
