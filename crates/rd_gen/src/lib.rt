//! Scripts drawn from a seed, to try the engine with.
//! A [`Draw`] draws numbers, and [`script`] makes boxes and edits of them.
//! The same seed gives the same script.
//!
//! Kept: nothing; a draw is its number.
//! Breaks: another draw changes the script of each seed, and with it the stored cases of storms.
#![tactic(auto)]

mod boxes;
mod draw;
mod edits;
mod generated;
mod names;
mod styles;
mod values;

pub use draw::Draw;
pub use generated::{MAX_EDITS, script};
