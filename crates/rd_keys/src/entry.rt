//! Names of boxes and of the entries of a display list.

use crate::Key;

/// The mark of the keys of boxes.
pub struct BoxMark;

/// The name of a box. No two boxes of a tree ever have the same one.
pub type BoxKey = Key<BoxMark>;

/// What an item paints of its box (CSS 2.2 section 8.1 and section 18.4).
#[derive(Clone, Copy, PartialEq, Eq, Hash, Debug)]
pub enum Part {
    /// The background.
    Back,
    /// The border.
    Border,
    /// The content.
    Content,
    /// The outline.
    Outline,
}

/// The name of an entry of a display list: one part of a box, or the group of a box.
#[derive(Clone, Copy, PartialEq, Eq, Hash, Debug)]
pub enum EntryKey {
    /// A part of a box.
    Leaf(BoxKey, Part),
    /// A box with all that is painted in its stacking context.
    Group(BoxKey),
}
