//! Scroll offsets.

ghost use Rattle.std.specs.Prelude.{◌≡◌};
ghost use Rattle.rd_tree.specs.Figures.{max_scroll};

/// How far what a box clips is scrolled, to the right and down, in canvas pixels.
#[derive(Clone, Copy)]
pub struct Scroll {
    pub x: i32,
    pub y: i32,
}

/// How far a box may be scrolled, to either side, in canvas pixels.
pub const MAX_SCROLL: i32 = 1_000_000;

/// The limit, so that clauses can say what it is.
fn figure()
    ensures { MAX_SCROLL ≡ max_scroll }
{}
