//! Boxes with their links.
ghost use Rattle.std.specs.Prelude.{◌≡◌};
ghost use Rattle.rd_tree.specs.Changes.{new_item};
ghost use Rattle.rd_tree.specs.Touching.{touch};

use crate::id::Id;
use crate::scroll::Scroll;
use rd_geom::Rect;
use rd_keys::BoxKey;
use rd_style::Style;

/// What a box is, but for its place.
#[derive(Drop)]
pub struct Item {
    pub id: Id,
    pub rect: Rect,
    pub style: Style,
    pub scroll: Scroll,
    pub touched: bool,
}

impl Item {
    /// What a tree holds of a new box, which is touched.
    pub(crate) fn new(id: Id, rect: Rect, style: Style) -> Item
        ensures { result ≡ touch (new_item id rect style) }
    {
        Item {
            id,
            rect,
            style,
            scroll: Scroll { x: 0, y: 0 },
            touched: true,
        }
    }
}

/// The neighbours of a box.
#[derive(Clone, Copy)]
pub(crate) struct Links {
    pub(crate) up: Option<BoxKey>,
    pub(crate) prev: Option<BoxKey>,
    pub(crate) first: Option<BoxKey>,
    pub(crate) last: Option<BoxKey>,
    pub(crate) next: Option<BoxKey>,
}

/// A box with its neighbours.
#[derive(Drop)]
pub(crate) struct Node {
    pub(crate) item: Item,
    pub(crate) links: Links,
}
