//! Leaves, read from the front of some bytes.
ghost use Rattle.std.specs.Prelude.{◌≡◌, option_map, false};
ghost use Rattle.rd_geom.specs.Plane.{has_none};
ghost use Rattle.rd_wire.specs.Internal.LeafReading.{both_zero, lies_in, is_plain, is_seen, allowed, name_at, place_at, look_at};
ghost use Rattle.rd_wire.specs.Internal.Listed.{one_of};
ghost use Rattle.rd_wire.specs.Internal.LevelReading.{leaf_one_at};

use crate::fields::{color, flag, key, part, rect, u64_at};
use crate::wire::WireEntry;
use rd_geom::{Color, Rect, is_within};
use rd_item::Shape;
use rd_keys::{BoxKey, Part};

/// Does a rectangle with a pixel lie in another one?
fn lies_in(a: Rect, b: Rect) -> bool
    requires { has_none a ≡ false }
    ensures { result ≡ lies_in a b }
{
    is_within(a, b)
}

fn both_zero(a: i32, b: i32) -> bool
    ensures { result ≡ both_zero a b }
{
    a == 0 && b == 0
}

/// Is it the one of four zeros, if it has no pixel?
fn is_plain(r: Rect) -> bool
    ensures { result ≡ is_plain r }
{
    if !r.is_empty() {
        return true;
    }
    both_zero(r.x(), r.y()) && both_zero(r.w(), r.h())
}

/// May a leaf of this shape be seen so, on a canvas?
fn is_seen(canvas: Rect, visible: Rect, outer: Rect, inner: Rect) -> bool
    ensures { result ≡ is_seen canvas visible outer inner }
{
    if visible.is_empty() {
        return false;
    }
    lies_in(visible, outer) && lies_in(visible, canvas) && is_plain(inner)
}

fn allowed(canvas: Rect, visible: Rect, outer: Rect, inner: Rect) -> Option<(Rect, (Rect, Rect))>
    ensures { result ≡ allowed canvas (visible, (outer, inner)) }
{
    if is_seen(canvas, visible, outer, inner) {
        Some((visible, (outer, inner)))
    } else {
        None
    }
}

/// The box and the part of a leaf.
#[tactic(auto, unfolding(crate::specs::Internal::LeafReading::name_at))]
fn name(bytes: &[u8]) -> Option<((BoxKey, Part), &[u8])>
    ensures { option_map (λ x. (x.0, x.1.now)) result ≡ name_at bytes.now }
{
    let (owner, rest) = key(bytes)?;
    let (part, rest) = part(rest)?;
    Some(((owner, part), rest))
}

/// Where a leaf may be seen, and its outer and inner rectangle.
#[tactic(auto, unfolding(crate::specs::Internal::LeafReading::place_at))]
fn place(canvas: Rect, bytes: &[u8]) -> Option<((Rect, (Rect, Rect)), &[u8])>
    ensures { option_map (λ x. (x.0, x.1.now)) result ≡ place_at canvas bytes.now }
{
    let Some((visible, rest)) = rect(bytes) else {
        return None;
    };
    let Some((outer, rest)) = rect(rest) else {
        return None;
    };
    let Some((inner, rest)) = rect(rest) else {
        return None;
    };
    let place = allowed(canvas, visible, outer, inner)?;
    Some((place, rest))
}

/// The colour of a leaf, whether it takes hits, and the number of its paint.
#[tactic(auto, unfolding(crate::specs::Internal::LeafReading::look_at))]
fn look(bytes: &[u8]) -> Option<((Color, (bool, u64)), &[u8])>
    ensures { option_map (λ x. (x.0, x.1.now)) result ≡ look_at bytes.now }
{
    let (color, rest) = color(bytes)?;
    let (hits, rest) = flag(rest)?;
    let (made, rest) = u64_at(rest)?;
    Some(((color, (hits, made)), rest))
}

/// A leaf that may be seen on the canvas, with the number of its paint.
#[tactic(auto, unfolding(crate::specs::Internal::LevelReading::leaf_one_at, crate::specs::Internal::LeafReading::leaf_at))]
pub(crate) fn leaf(canvas: Rect, bytes: &[u8]) -> Option<(WireEntry, &[u8])>
    ensures { option_map (λ x. (one_of x.0, x.1.now)) result ≡ leaf_one_at canvas bytes.now }
{
    let ((owner, part), rest) = name(bytes)?;
    let Some(((visible, (outer, inner)), rest)) = place(canvas, rest) else {
        return None;
    };
    let ((color, (hits, made)), rest) = look(rest)?;
    let leaf = WireEntry::Leaf {
        owner,
        part,
        visible,
        shape: Shape { outer, inner },
        color,
        hits,
        made,
    };
    Some((leaf, rest))
}
