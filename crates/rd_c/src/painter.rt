//! An engine as C holds it.

use crate::undoing::Undos;
use rd_engine::Engine;
use std::marker::Brand;

/// An engine whose type names no counters of a caller, and what undoes its latest edits, where that is kept.
#[derive(Drop)]
pub struct Painter {
    pub(crate) engine: Engine<Brand, Brand>,
    pub(crate) undo: Option<Undos>,
}
