//! Areas: sets of pixels of a canvas, kept as spans of columns for each of its rows.
//! What a paint has to paint anew is such an area; rectangles join it, and leaves are asked whether they meet it.
//! A row's spans rise, and neither touch nor are empty, so that the same pixels have the same spans.
//!
//! Kept: the spans of each row rise, with gaps between (`IsNormalized`).
//! Breaks: another set of pixels breaks the invalid area of `rd_partial`, and what `rd_paint` and `rd_tiles` repaint.
#![tactic(auto)]

mod area;
mod bands;
mod row;
mod rows;

pub use area::Area;
pub use rd_geom::Span;
