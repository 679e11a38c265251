//! Places in the painting order.

use rd_geom::Rect;
use rd_keys::BoxKey;

/// A step of the painting order (CSS 2.2 Appendix E.2).
#[derive(Clone, Copy, PartialEq, Eq, Debug)]
pub enum PaintStep {
    /// Step 1: the background of the root.
    RootBackground,
    /// Step 2: of a block the background, unless it is the root, and the border.
    OwnBackground,
    /// Step 3: the layers of negative level.
    NegativeLayers,
    /// Step 4: the backgrounds and borders of the blocks.
    BlockBackgrounds,
    /// Step 5: the floats, each with all that it paints.
    Floats,
    /// Step 6: of an inline box the background, the border, the content and the line.
    InlineContext,
    /// Step 7: of a block the content and the line, and then those of the blocks below.
    BlockContents,
    /// Step 8: the layers of level auto or 0.
    ZeroLayers,
    /// Step 9: the layers of positive level.
    PositiveLayers,
    /// Step 10: the outlines.
    Outlines,
}

/// A place in the painting order: a step of the box `context`, and the box `of` that is painted there, in the line of the box
/// `line` or as that box itself; as a layer at its stack level (CSS 2.2 section 9.9.1), and else at 0.
#[derive(Clone, Copy)]
pub struct Placing {
    pub step: PaintStep,
    pub context: BoxKey,
    pub line: BoxKey,
    pub of: BoxKey,
    pub level: i32,
}

/// A pixel of a canvas.
#[derive(Clone, Copy)]
pub struct Sight {
    pub canvas: Rect,
    pub x: i32,
    pub y: i32,
}
