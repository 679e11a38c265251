//! Rows of a list that a canvas shows, and rectangles of pixels in them.

use crate::corner::Corner;
use rd_area::Area;
use rd_geom::Span;

/// The rows `y0` up to `y1` of a list, on a canvas whose first pixel shows the one at the corner.
#[derive(Clone, Copy)]
pub(crate) struct Strip {
    pub(crate) corner: Corner,
    pub(crate) y0: usize,
    pub(crate) y1: usize,
}

/// A rectangle of pixels: the columns of a span in the rows of a strip.
#[derive(Clone, Copy)]
pub(crate) struct PixelRect {
    pub(crate) strip: Strip,
    pub(crate) span: Span,
}

/// An area of a list, on a canvas whose first pixel shows the one at the corner. The leaves that meet the area were made by this paint
/// or after.
#[derive(Clone, Copy)]
pub(crate) struct Window<'a> {
    pub(crate) corner: Corner,
    pub(crate) area: &'a Area,
    pub(crate) since: u64,
}

/// What of an area is in the rows of a strip.
#[derive(Clone, Copy)]
pub(crate) struct Band<'a> {
    pub(crate) strip: Strip,
    pub(crate) area: &'a Area,
}
