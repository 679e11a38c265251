//! The keywords that a style is made of.

/// The position of a box (CSS 2.2 section 9.3.1).
#[derive(Clone, Copy, PartialEq, Eq, Debug)]
pub enum Position {
    Static,
    Relative,
    Absolute,
    Fixed,
}

/// What happens to what overflows a box (CSS 2.2 section 11.1.1); the last three clip alike.
#[derive(Clone, Copy, PartialEq, Eq, Debug)]
pub enum Overflow {
    Visible,
    Hidden,
    Scroll,
    Auto,
}

/// How a box is laid out (CSS 2.2 section 9.2.4).
#[derive(Clone, Copy, PartialEq, Eq, Debug)]
pub enum Display {
    Block,
    Inline,
    InlineBlock,
}

/// To which side a box floats (CSS 2.2 section 9.5.1).
#[derive(Clone, Copy, PartialEq, Eq, Debug)]
pub enum Floating {
    No,
    Left,
    Right,
}

/// Whether a box shows (CSS 2.2 section 11.2).
#[derive(Clone, Copy, PartialEq, Eq, Debug)]
pub enum Visibility {
    Visible,
    Hidden,
    Collapse,
}

/// Whether a box is hit by a pointer.
#[derive(Clone, Copy, PartialEq, Eq, Debug)]
pub enum Pointer {
    Auto,
    Off,
}

/// Whether a box makes a stacking context of its own accord (CSS Compositing 1 section 3.4.2).
#[derive(Clone, Copy, PartialEq, Eq, Debug)]
pub enum Isolation {
    Auto,
    Isolate,
}

/// How a box takes part in painting (CSS 2.2 Appendix E.2): a box that is positioned, translucent, blended or
/// isolated, a float, an inline block, a block, or an inline box.
#[derive(Clone, Copy, PartialEq, Eq, Debug)]
pub enum Class {
    Layer,
    Float,
    Atom,
    Block,
    Inline,
}
