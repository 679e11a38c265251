//! The clips that are handed down.

ghost use Rattle.std.specs.Prelude.{◌≡◌, List, [], ◌∷◌};
ghost use Rattle.rd_geom.specs.Plane.{Rectangle};
ghost use Rattle.rd_geom.specs.Canvas.{IsCanvas, canvas_of};
ghost use Rattle.rd_clip.specs.Clipping.{Entered, padding_box, clipped_by, clip_of};
ghost use Rattle.rd_clip.specs.Standing.{clips_of};

use rd_geom::{Rect, Size, inset, meet};
use rd_style::{Position, Style, clips, is_positioned};

/// What boxes below those entered so far may be seen of, by what their containing block is. In canvas pixels.
#[derive(Clone, Copy)]
pub struct Clips {
    /// For a box in the flow.
    pub flow: Rect,

    /// For an absolute box.
    pub absolute: Rect,

    /// For a fixed box.
    pub fixed: Rect,
}

impl Clips {
    /// Before any box is entered: all three are the canvas, which is from 1 to `MAX_CANVAS_SIDE` pixels wide and high.
    pub fn root(canvas: Size) -> Clips
        requires { IsCanvas canvas }
        ensures { result ≡ clips_of (canvas_of canvas) [] }
    {
        let canvas = canvas.rect();
        Clips {
            flow: canvas,
            absolute: canvas,
            fixed: canvas,
        }
    }

    /// What may be seen of a box of this style below the boxes entered (CSS 2.2 sections 10.1 and 11.1.1).
    pub fn for_box(&self, s: &Style) -> Rect
        ensures { (canvas : Rectangle) (above : List Entered) → self.now ≡ clips_of canvas above
            → result ≡ clip_of canvas above s.now }
    {
        match s.position {
            Position::Fixed => self.fixed,
            Position::Absolute => self.absolute,
            Position::Static | Position::Relative => self.flow,
        }
    }

    /// The clips for the children of a box with this style and border box.
    pub fn enter(&self, s: &Style, rect: Rect, is_root: bool) -> Clips
        ensures { (canvas : Rectangle) (above : List Entered) → self.now ≡ clips_of canvas above
            → result ≡ clips_of canvas (record { style = s.now; rect = rect; root = is_root }
            ∷ above) }
    {
        let inside = clip_to(s, rect, is_root, self.for_box(s));
        Clips {
            flow: inside,
            absolute: if is_positioned(s) {
                inside
            } else {
                self.absolute
            },
            fixed: self.fixed,
        }
    }
}

/// The part of `seen` that a box with this style and border box leaves of what is in it.
fn clip_to(s: &Style, rect: Rect, is_root: bool, seen: Rect) -> Rect
    ensures { result ≡ clipped_by (record { style = s.now; rect = rect; root = is_root }) seen }
{
    if clips(s, is_root) {
        meet(seen, inset(rect, s.border_width))
    } else {
        seen
    }
}
