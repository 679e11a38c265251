//! Which part of a list is wanted.
ghost use Rattle.std.specs.Prelude.{◌≡◌, Bool, true};
ghost use Rattle.rd_geom.specs.Plane.{Rectangle, IsWithin};
ghost use Rattle.rd_tree.specs.Seeking.{reaches};

use rd_area::Area;
use rd_geom::{Rect, meets};

/// Where a list is wanted: some pixels of the canvas.
pub trait Wanted {
    /// Has the rectangle a pixel that is wanted?
    ghost wants: { Self → Rectangle → Bool };

    /// Has the rectangle, in canvas pixels, a pixel that is wanted?
    fn meets(&self, r: Rect) -> bool
        ensures { result ≡ wants self.now r };

    /// A rectangle into which each one reaches that has a wanted pixel.
    fn frame(&self) -> Rect
        ensures { (r : Rectangle) → wants self.now r ≡ true → reaches result r ≡ true };

    // what holds a rectangle with a wanted pixel has one
    ghost grows: { (s : Self) (a b : Rectangle) → IsWithin a b → wants s a ≡ true → wants s b ≡ true };
}

/// All that may be seen in a rectangle; in that of the canvas, all that may be seen.
#[derive(Clone, Copy)]
pub struct Within {
    pub rect: Rect,
}

impl Wanted for Within {
    ghost use Rattle.rd_geom.specs.Plane as plane;
    ghost use Rattle.rd_partial.specs.Internal.Growing.{meets_grows};

    ghost wants = { λ s r. plane.meets s.rect r };

    fn meets(&self, r: Rect) -> bool {
        meets(self.rect, r)
    }

    #[inline(always)]
    fn frame(&self) -> Rect {
        self.rect
    }

    ghost grows = { λ s a b w h. meets_grows s.rect a b w h };
}

impl Wanted for Area {
    ghost use Rattle.rd_geom.specs.Areas.{meets_area};
    ghost use Rattle.rd_stack.proofs.Growing.{grows_area};

    ghost wants = { λ s r. meets_area s r };

    fn meets(&self, r: Rect) -> bool {
        Area::meets(self, r)
    }

    #[inline(always)]
    fn frame(&self) -> Rect {
        Area::frame(self)
    }

    ghost grows = { λ s a b w h. grows_area s a b w h };
}
