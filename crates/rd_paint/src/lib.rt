//! Painting display lists on canvases.
//! A canvas is painted in an area, some rows of one shape at a time; a group is painted into a row of its own before it is laid down.
//! No part of a list or of a canvas is copied, and painting takes no memory.
//!
//! Kept: a canvas is a picture of its size (`IsPicture`), and buffers have the rows that they were taken for.
//! Breaks: another pixel of a list breaks `rd_tiles` and `rd_engine`, whose canvas shows its list.
#![tactic(auto)]

mod areas;
mod bands;
mod buffers;
mod canvas;
mod chosen;
mod corner;
mod covering;
mod frame;
mod gathering;
mod narrowing;
mod picks;
mod plain;
mod reaching;
mod rects;
mod runs;
mod skipping;
mod spans;
mod strip;

pub use areas::{repaint, repaint_part, repaint_since};
pub use buffers::{Buffers, paint_span};
pub use canvas::Canvas;
