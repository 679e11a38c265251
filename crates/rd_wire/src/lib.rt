//! The wire form of a list: how a compositor apart from the engine is handed a kept list.
//! A list has one spelling as bytes, and what is read is spelled so, each byte of it.
//!
//! Kept: nothing beside its lists; a wire that was read keeps the rules of a wire, as `decode` says.
//! Breaks: another byte breaks every reader of wires, `examples/wire.py` among them, and `rd_run`.
#![tactic(auto)]

mod decoding;
mod fault;
mod fields;
mod groups;
pub mod laws;
mod leaves;
mod names;
mod reading;
mod shows;
mod wire;
mod writing;

pub use decoding::decode;
pub use fault::WireFault;
pub use shows::{hit, pixel};
pub use wire::{Wire, WireEntry, WireList};
pub use writing::encode;
