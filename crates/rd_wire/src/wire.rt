//! Wires: lists of leaves with their canvas.
ghost use Rattle.std.specs.Prelude.{◌≡◌};
ghost use Rattle.rd_list.specs.Entries as list;
ghost use Rattle.rd_list.specs.Entries.{is_empty};

use rd_geom::{Blend, Color, Rect, Size};
use rd_item::Shape;
use rd_keys::{BoxKey, Part};
use std::alloc::Global;
use std::marker::Model;

/// A list with the size of its canvas, in pixels.
#[derive(Drop)]
pub struct Wire {
    pub size: Size,
    pub list: WireList,
}

/// Entries from bottom to top.
#[derive(Drop)]
#[cycle(wire)]
pub struct WireList {
    pub entries: Vec<WireEntry>,
}

/// A leaf with the number of the paint that made it, or the group of a box with its opacity (0 to 255), its blend mode (CSS
/// Compositing 1 section 3.4.1) and its own list.
/// Rectangles are in canvas pixels, and the colour is not premultiplied.
#[derive(Drop)]
#[cycle(wire)]
pub enum WireEntry {
    Leaf {
        owner: BoxKey,
        part: Part,
        visible: Rect,
        shape: Shape,
        color: Color,
        hits: bool,
        made: u64,
    },
    Group {
        key: BoxKey,
        opacity: u8,
        blend: Blend,
        inner: WireList,
    },
}

impl Model for WireList {
    ghost use Rattle.rd_list.specs.Entries.{Entries, list_size};
    ghost use Rattle.rd_list.specs.Wrappers.{Wrapper, wrapper_code};
    ghost use Rattle.rd_list.specs.Internal.EntriesCode.{entries_code};
    ghost use Rattle.rd_list.specs.Internal.KeptCode.{made_code};
    ghost use Rattle.rd_item.specs.Items.{Made};
    ghost use Rattle.rd_item.specs.contracts.leaf.Leaf as item;
    ghost use Rattle.rd_keys.specs.contracts.key.Key as key;
    ghost use Rattle.rd_keys.specs.contracts.entry.BoxMark as mark;

    ghost Value = { Entries Wrapper Made };

    ghost coded = { entries_code (made_code item.the_row.coded) (wrapper_code (key.the_row mark.the_row).coded) };

    ghost use Rattle.rd_wire.specs.Internal.Listed.{listed};

    ghost view = { λ a. listed a.entries.items };

    ghost size = { list_size };

    ghost use Rattle.std.proofs.Common.{arith};
    ghost use Rattle.rd_wire.specs.Internal.ListFalls.{most_le-list_size};

    ghost size_decreases = { λ a h. Prim.omega (arith, most_le-list_size a.entries.items) };
}

impl WireList {
    /// The list without entries.
    pub fn new(alloc: Global) -> WireList
        ensures { result ≡ list.nil }
    {
        WireList {
            entries: Vec::new(alloc),
        }
    }

    /// Has the list no entry?
    pub fn is_empty(&self) -> bool
        ensures { result ≡ is_empty self.now }
    {
        self.entries.is_empty()
    }
}
