//! What is done to a tree.

use rd_geom::Rect;
use rd_style::{Style, StyleChange};
use rd_tree::Id;

/// One change of a tree of boxes, which it names by their ids.
#[derive(Drop)]
pub enum Edit {
    /// A new box below a parent, before one of its children or last. The rectangle is in canvas pixels.
    Insert {
        id: Id,
        parent: Id,
        before: Option<Id>,
        rect: Rect,
        style: Style,
    },
    /// A box, which is not the root, and all below it taken away.
    Remove {
        id: Id,
    },
    /// A box, which is not the root, and all below it put below a parent, before one of its children or last. Their
    /// rectangles stay.
    Move {
        id: Id,
        parent: Id,
        before: Option<Id>,
    },
    /// Other values for the members of a box's style that are named.
    SetStyle {
        id: Id,
        change: StyleChange,
    },
    /// Another rectangle for one box, in canvas pixels. What is below it stays where it is.
    SetRect {
        id: Id,
        rect: Rect,
    },
    /// A box and all below it, moved right and down by canvas pixels.
    Shift {
        id: Id,
        dx: i32,
        dy: i32,
    },
    /// Another scroll offset of a box, in canvas pixels.
    Scroll {
        id: Id,
        x: i32,
        y: i32,
    },
}
