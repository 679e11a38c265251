//! Rectangles within others, and hulls.

ghost use Rattle.std.specs.Prelude.{◌≡◌, IfSome, IsFalse, IsTrue, false};
ghost use Rattle.rd_geom.specs.Plane.{Rectangle, IsWithin, around, has_none, hull_of, right, bottom};

use crate::rect::{Rect, spanning};

/// The least rectangle that holds the pixels of both, or `Rect::EMPTY` where there are none.
pub fn hull(a: Rect, b: Rect) -> Rect
    ensures value { result ≡ hull_of a b }
    ensures first { IsWithin a result }
    ensures second { IsWithin b result }
    ensures least { (r : Rectangle) → IsWithin a r → IsWithin b r → IsWithin result r }
{
    match (a.is_empty(), b.is_empty()) {
        (true, true) => Rect::EMPTY,
        (true, false) => b,
        (false, true) => a,
        (false, false) => around(a, b),
    }
}

/// From the first column and row of either to the last of either.
fn around(a: Rect, b: Rect) -> Rect
    ensures { result ≡ around a b }
{
    let left = a.x().min(b.x());
    let top = a.y().min(b.y());
    let right = a.right().max(b.right());
    let bottom = a.bottom().max(b.bottom());
    spanning(left, top, right, bottom)
}

/// Is every pixel of the first rectangle one of the second, as their edges tell? Of one without a pixel the answer may be no.
#[inline(always)]
pub fn is_within(a: Rect, b: Rect) -> bool
    ensures within { IsTrue result → IsWithin a b }
    ensures outside { IsFalse result → has_none a ≡ false → IsWithin a b → ⊥ }
{
    if a.x() < b.x() {
        return false;
    }
    if a.y() < b.y() {
        return false;
    }
    if b.right() < a.right() {
        return false;
    }
    a.bottom() <= b.bottom()
}

/// The hull of some rectangles once the one that was `lost` of them has become `gained`. None where the others have to tell.
pub fn moved_hull(old: Rect, lost: Rect, gained: Rect) -> Option<Rect>
    ensures { IfSome result (λ r. (rest : Rectangle) → old ≡ hull_of rest lost → r
        ≡ hull_of rest gained) }
{
    let none = lost.is_empty();
    let held = is_within(lost, gained);
    let off = is_off(old, lost);
    if none || held || off {
        Some(hull(old, gained))
    } else {
        None
    }
}

/// Is no edge of the second at one of the first?
fn is_off(a: Rect, b: Rect) -> bool
    ensures left { IsTrue result → a.x ≡ b.x → ⊥ }
    ensures top { IsTrue result → a.y ≡ b.y → ⊥ }
    ensures right { IsTrue result → right a ≡ right b → ⊥ }
    ensures bottom { IsTrue result → bottom a ≡ bottom b → ⊥ }
{
    let left = a.x() != b.x();
    let top = a.y() != b.y();
    let right = a.right() != b.right();
    let bottom = a.bottom() != b.bottom();
    left && top && right && bottom
}
