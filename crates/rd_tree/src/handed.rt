//! How far boxes are scrolled, handed down from the root.
ghost use Rattle.std.specs.Prelude.{◌≡◌, ◌&&◌, ◌+ℤ◌, ◌-ℤ◌, ◌≤ℤ◌, pos, [], ◌∷◌, List, IsTrue};
ghost use Rattle.rd_tree.specs.Changes as changes;
ghost use Rattle.rd_tree.specs.Drawn.{Above, offset_of, plus};
ghost use Rattle.rd_tree.specs.Limits.{FitsScroll};
ghost use Rattle.rd_tree.specs.Internal.Handing.{IsFar, IsWithin, entered, handed_of, offset_in, own_of};

use crate::scroll::Scroll;
use rd_style::{Position, Style, clips, is_positioned};

/// How far boxes below those entered so far are scrolled, by what their containing block is. In canvas pixels.
#[derive(Clone, Copy)]
pub(crate) struct ScrollSums {
    /// For a box in the flow.
    pub(crate) flow: Scroll,
    /// For an absolute box. A fixed one is not scrolled.
    pub(crate) absolute: Scroll,
}

/// Not scrolled.
#[inline(always)]
pub(crate) fn unscrolled() -> Scroll
    ensures { result ≡ changes.unscrolled }
{
    Scroll { x: 0, y: 0 }
}

fn sum(a: i32, b: i32) -> i32
    requires low { (pos 0 -ℤ pos 300000000) ≤ℤ (a +ℤ b) }
    requires high { (a +ℤ b) ≤ℤ pos 300000000 }
    ensures { result ≡ a +ℤ b }
{
    a + b
}

/// So far and then so much farther.
fn farther(a: Scroll, b: Scroll) -> Scroll
    requires a { IsFar 256 a }
    requires b { IsFar 1 b }
    ensures { result ≡ plus a b }
{
    Scroll {
        x: sum(a.x, b.x),
        y: sum(a.y, b.y),
    }
}

/// How far a box scrolls what is below it: not at all where it does not clip.
fn own_scroll(style: &Style, scroll: Scroll, is_root: bool) -> Scroll
    ensures { result ≡ own_of is_root style.now scroll }
{
    if clips(style, is_root) {
        scroll
    } else {
        unscrolled()
    }
}

/// Are both so far?
fn is_as_far(a: Scroll, b: Scroll) -> bool
    ensures { IsTrue result → a ≡ b }
{
    (a.x == b.x) & (a.y == b.y)
}

impl ScrollSums {
    /// Is the same handed down?
    fn is(&self, other: &ScrollSums) -> bool
        ensures { IsTrue result → self.now ≡ other.now }
    {
        is_as_far(self.flow, other.flow) & is_as_far(self.absolute, other.absolute)
    }

    /// Before any box is entered.
    pub(crate) fn none() -> ScrollSums
        ensures { result ≡ handed_of [] }
    {
        ScrollSums {
            flow: unscrolled(),
            absolute: unscrolled(),
        }
    }

    /// How far a box of this position is scrolled below the boxes entered (CSS 2.2 section 10.1).
    #[inline(always)]
    pub(crate) fn offset(&self, position: Position) -> Scroll
        ensures offset { result ≡ offset_in self.now position }
        ensures stands { (above : List Above) → self.now ≡ handed_of above → result ≡ offset_of position above }
    {
        match position {
            Position::Fixed => unscrolled(),
            Position::Absolute => self.absolute,
            Position::Static | Position::Relative => self.flow,
        }
    }

    /// What is handed to the children of a box with this style and scroll offset. At most 256 boxes are entered before it.
    pub(crate) fn enter(&self, style: &Style, scroll: Scroll, is_root: bool) -> ScrollSums
        requires few { IsWithin 256 self.now }
        requires scroll { FitsScroll scroll }
        ensures entered { result ≡ entered is_root style.now scroll self.now }
        ensures stands { (above : List Above) → self.now ≡ handed_of above
            → result ≡ handed_of (record { position = style.now.position; scrolled = own_of is_root style.now scroll } ∷ above) }
    {
        let inside = farther(
            self.offset(style.position),
            own_scroll(style, scroll, is_root),
        );
        ScrollSums {
            flow: inside,
            absolute: if is_positioned(style) {
                inside
            } else {
                self.absolute
            },
        }
    }
}

/// Is a box drawn where it was, and is the same handed down from it?
pub(crate) fn stays(old: Scroll, new: Scroll, before: &ScrollSums, inside: &ScrollSums) -> bool
    ensures place { IsTrue result → old ≡ new }
    ensures below { IsTrue result → before.now ≡ inside.now }
{
    is_as_far(old, new) & before.is(inside)
}
