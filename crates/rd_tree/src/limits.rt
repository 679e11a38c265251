//! The limits of a tree.

ghost use Rattle.std.specs.Prelude.{◌≡◌};
ghost use Rattle.rd_tree.specs.Figures.{max_boxes, max_depth};

/// The most boxes of a tree. A slot that gives no key any more takes the place of one.
pub const MAX_BOXES: u32 = 20_000;

/// How deep a box of a tree may be, where the root is at depth 1.
pub const MAX_DEPTH: u32 = 256;

/// The limits, so that clauses can say what they are.
fn figures()
    ensures boxes { MAX_BOXES ≡ max_boxes }
    ensures depth { MAX_DEPTH ≡ max_depth }
{}
