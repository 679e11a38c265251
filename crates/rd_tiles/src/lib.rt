//! A canvas that is kept as tiles of 64 by 64 pixels, each with a stamp: the number of the paint that painted it last.
//! In a tile nothing is painted that lies below an opaque leaf which covers all of it.
//! Painting takes no memory.
//!
//! Kept: the tiles are those of the canvas's size (`IsTiled`).
//! Breaks: another tile breaks whoever uploads them; nothing else rests on it.
#![tactic(auto)]

mod canvas;
mod copying;
mod covering;
mod painting;
mod places;
mod tile;

pub use canvas::TileCanvas;
pub use covering::cover;
