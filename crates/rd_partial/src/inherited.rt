//! What is handed down to a box.
ghost use Rattle.std.specs.Prelude.{◌≡◌};
ghost use Rattle.rd_stack.specs.Parts.{background, solid};
ghost use Rattle.rd_geom.specs.Canvas.{IsCanvas, canvas_of};
ghost use Rattle.rd_geom.specs.Plane as plane;
ghost use Rattle.rd_partial.specs.Internal.Inherited as spec;

use rd_clip::Clips;
use rd_geom::{Rect, Size, meets};
use rd_item::{Leaf, Shape};
use rd_keys::Part;
use rd_stack::{BoxData, back_of, leaf_of};
use std::marker::Model;

/// What a box needs of the boxes above it: the canvas, whether there are none, and what may be seen of it.
#[derive(Clone, Copy)]
pub struct Inherited {
    canvas: Rect,
    root: bool,
    clips: Clips,
}

impl Model for Inherited {
    ghost use Rattle.rd_partial.specs.Internal.Inherited.{Inherited, Stood};

    ghost Value = { Inherited };

    ghost view = { λ s. record { canvas = s.canvas; root = s.root; clips = s.clips } };

    ghost invariant = { λ s. Stood (record { canvas = s.canvas; root = s.root; clips = s.clips }) };

    ghost inverse = { λ s. record { canvas = s.canvas; root = s.root; clips = s.clips } };
}

impl Inherited {
    /// Above the root: nothing clips, and the whole canvas may be seen.
    pub(crate) fn at_root(canvas: Size) -> Inherited
        requires { IsCanvas canvas }
        ensures { result ≡ spec.at_root (canvas_of canvas) }
    {
        Inherited {
            canvas: canvas.rect(),
            root: true,
            clips: Clips::root(canvas),
        }
    }

    /// Is the box the root?
    pub fn is_root(&self) -> bool
        ensures { result ≡ self.now.root }
    {
        self.root
    }

    /// What is handed down to the children of a box.
    pub fn below(&self, b: &BoxData) -> Inherited
        ensures { result ≡ spec.below self.now b.now }
    {
        Inherited {
            canvas: self.canvas,
            root: false,
            clips: self.clips.enter(b.style(), b.rect(), self.root),
        }
    }

    /// Has the rectangle a pixel of the canvas?
    #[inline(always)]
    pub(crate) fn may_show(&self, r: Rect) -> bool
        ensures { result ≡ plane.meets self.now.canvas r }
    {
        meets(self.canvas, r)
    }

    /// What may be seen of a box.
    #[inline(always)]
    pub fn clip(&self, b: &BoxData) -> Rect
        ensures { result ≡ spec.clip_in self.now b.now.style }
    {
        self.clips.for_box(b.style())
    }

    /// The shape of the background of a box.
    #[inline(always)]
    pub fn back(&self, b: &BoxData) -> Shape
        ensures { result ≡ solid (background self.now.canvas self.now.root b.now) }
    {
        back_of(&self.canvas, self.root, b)
    }

    /// The leaf of a part of a box, where it has one.
    #[inline(always)]
    pub fn leaf(&self, b: &BoxData, part: Part) -> Option<Leaf>
        ensures { result ≡ spec.leaf_in self.now b.now part }
    {
        leaf_of(
            &self.canvas,
            self.root,
            &self.clips.for_box(b.style()),
            b,
            part,
        )
    }
}
