//! Rectangles of pixels, colours of 8 bits a channel, and counters of steps.
//! What every other crate measures, paints and counts with.
//! Nothing here takes memory, and no arithmetic wraps.
//!
//! Kept: a rectangle's sides lie within 32 bits (`IsPlaced`), and a pixel's channels are at most its opacity
//! (`IsPremultiplied`).
//! Breaks: another rounding breaks `rd_paint` and the laws of pixels in `rd_list`; another reach of coordinates, every
//! crate above.
#![tactic(auto)]

mod blend;
mod color;
mod count;
mod enclosing;
mod rect;
mod span;
mod steps;

pub use blend::{Blend, mix};
pub use color::{Color, Px, mul, over, px_of, scale};
pub use enclosing::{hull, is_within, moved_hull};
pub use rect::{MAX_CANVAS_SIDE, MAX_REACH, Rect, Sides, Size, holds, inset, meet, meets, outset};
pub use span::Span;
pub use std::alloc::AllocError as NoMemory;
pub use steps::Steps;
