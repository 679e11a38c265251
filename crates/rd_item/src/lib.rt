//! What a display list is made of.
//! A leaf is one painted part of one box, as plain data; an item is a leaf that a paint made.
//! Every item that is made costs one tick of the counter of its own ledger, and none can be copied.
//!
//! Kept: an item's leaf may be seen (`IsShown`).
//! Breaks: another field of a leaf breaks `rd_list`, `rd_wire` (its bytes), `rd_report` (its line) and `rd_stack`.
#![tactic(auto)]

mod item;
mod leaf;

pub use item::Item;
pub use leaf::{Leaf, Shape, covers};
