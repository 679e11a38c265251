//! The lines of a dump.

use rd_geom::{Blend, Color, Rect};
use rd_item::Shape;
use rd_keys::Part;
use rd_tree::Id;

/// The line of an entry: below how many groups it is, the id of its box, and what it is.
#[derive(Drop)]
pub(crate) struct Row {
    pub(crate) depth: u64,
    pub(crate) id: Id,
    pub(crate) what: What,
}

/// A leaf, or a group with its opacity, its blend mode and the number of its own entries.
#[derive(Clone, Copy)]
pub(crate) enum What {
    Item(LeafLine),
    Group {
        opacity: u8,
        blend: Blend,
        entries: u64,
    },
}

/// What a line says of a leaf.
#[derive(Clone, Copy)]
pub(crate) struct LeafLine {
    pub(crate) part: Part,
    pub(crate) visible: Rect,
    pub(crate) shape: Shape,
    pub(crate) color: Color,
    pub(crate) hits: bool,
    pub(crate) made_at: u64,
}
