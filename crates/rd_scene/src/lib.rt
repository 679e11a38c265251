//! Scripts of scenes: the canvas, its boxes, and what is done to them.
//! [`read`] takes a script from the bytes of a JSON text, or says that they are none.
//! [`write_scene`] gives the canonical text of one.
//! A [`Script`] keeps the rules of the format, so that whoever is handed one need not look again.
//!
//! Kept: a [`Script`] keeps every rule of the format (`IsScript`).
//! Breaks: another rule breaks `rd_gen`, which owes it of what it draws, and `rd_run`.
#![tactic(auto)]

mod boxes;
mod colors;
mod commands;
mod differing;
mod edits;
mod fault;
pub mod laws;
mod members;
mod planting;
mod reader;
mod rects;
mod script;
mod styles;
mod types;
mod version;
mod words;
mod writing;

pub use fault::{Place, SceneFault, Why};
pub use planting::plant;
pub use rd_edits::Edit;
pub use reader::read;
pub use script::{Command, MAX_COMMANDS, MAX_DISTANCE, SceneBox, Script};
pub use writing::write_scene;
