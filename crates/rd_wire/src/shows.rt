//! What a wire shows, and what the pointer hits in it.
ghost use Rattle.std.specs.Prelude.{◌≡◌, pos, ◌∷◌, [], Some, None, if◌then◌else◌};
ghost use Rattle.rd_geom.specs.Canvas.{canvas_of};
ghost use Rattle.rd_geom.specs.Plane.{holds_pixel, is_among};
ghost use Rattle.rd_list.specs.Entries.{flat};
ghost use Rattle.rd_list.specs.EntryNames.{new_leaves};
ghost use Rattle.rd_list.specs.Internal.LastHit.{last_owner};
ghost use Rattle.rd_list.specs.Lists as lists;
ghost use Rattle.rd_list.specs.Lists.{composed, with_leaf};
ghost use Rattle.rd_wire.specs.Internal.Listed.{listed};

use crate::wire::{Wire, WireEntry, WireList};
use rd_geom::{Px, Size, mix, over, px_of, scale};
use rd_item::{Leaf, covers};
use rd_keys::{BoxKey, Part};

/// Is `n` one of the whole numbers from 0 up to a limit?
fn is_below(n: i32, limit: i32) -> bool
    ensures { result ≡ is_among (pos 0) limit n }
{
    0 <= n && n < limit
}

/// Is the pixel on a canvas of this size?
fn is_on(size: Size, x: i32, y: i32) -> bool
    ensures { result ≡ holds_pixel (canvas_of size) x y }
{
    is_below(x, size.w) && is_below(y, size.h)
}

/// The pixel in column `x` and row `y`, premultiplied, on a white canvas (CSS Color 3 section 3.2). None exactly off the canvas.
pub fn pixel(wire: &Wire, x: i32, y: i32) -> Option<Px>
    ensures { result ≡ (if holds_pixel (canvas_of wire.now.size) x y then Some (lists.pixel (new_leaves wire.now.list) x y) else None) }
{
    if is_on(wire.size, x, y) {
        Some(compose(&wire.list, x, y, Px::WHITE))
    } else {
        None
    }
}

#[cycle(composing)]
fn compose(list: &WireList, x: i32, y: i32, backdrop: Px) -> Px
    ensures { result ≡ composed x y backdrop (new_leaves list.now) }
{
    compose_all(&list.entries, x, y, backdrop)
}

#[cycle(composing)]
fn compose_all(entries: &[WireEntry], x: i32, y: i32, backdrop: Px) -> Px
    ensures { result ≡ composed x y backdrop (new_leaves (listed entries.now)) }
{
    let mut px = backdrop;
    for entry in entries {
        px = compose_one(entry, x, y, px);
    }
    px
}

#[cycle(composing)]
fn compose_one(entry: &WireEntry, x: i32, y: i32, backdrop: Px) -> Px
    ensures { result ≡ composed x y backdrop (new_leaves (listed (entry.now ∷ []))) }
{
    match entry {
        WireEntry::Leaf {
            owner,
            part,
            visible,
            shape,
            color,
            hits,
            ..
        } => {
            let leaf = Leaf {
                owner: *owner,
                part: *part,
                visible: *visible,
                shape: *shape,
                color: *color,
                hits: *hits,
            };
            lay_leaf(&leaf, x, y, backdrop)
        }
        WireEntry::Group {
            opacity,
            blend,
            inner,
            ..
        } => {
            let own = compose(inner, x, y, Px::CLEAR);
            mix(*blend, scale(own, *opacity), backdrop)
        }
    }
}

fn lay_leaf(leaf: &Leaf, x: i32, y: i32, backdrop: Px) -> Px
    ensures { result ≡ with_leaf x y leaf.now backdrop }
{
    if covers(leaf, x, y) {
        over(px_of(leaf.color), backdrop)
    } else {
        backdrop
    }
}

fn is_outline(part: Part) -> bool
    ensures { result ≡ lists.is_outline part }
{
    matches!(part, Part::Outline)
}

fn is_hit(leaf: &Leaf, x: i32, y: i32) -> bool
    ensures { result ≡ lists.is_hit x y leaf.now }
{
    if !covers(leaf, x, y) {
        return false;
    }
    if is_outline(leaf.part) {
        return false;
    }
    leaf.hits
}

/// The box of the topmost leaf that covers the pixel in column `x` and row `y`, is no outline and takes hits; None exactly
/// where there is no such leaf.
pub fn hit(wire: &Wire, x: i32, y: i32) -> Option<BoxKey>
    ensures { result ≡ lists.hit (new_leaves wire.now.list) x y }
{
    hit_in(&wire.list, x, y, None)
}

#[cycle(hits)]
fn hit_in(list: &WireList, x: i32, y: i32, found: Option<BoxKey>) -> Option<BoxKey>
    ensures { result ≡ last_owner (lists.is_hit x y) found (flat (new_leaves list.now)) }
{
    hit_among(&list.entries, x, y, found)
}

#[cycle(hits)]
fn hit_among(entries: &[WireEntry], x: i32, y: i32, mut found: Option<BoxKey>) -> Option<BoxKey>
    ensures { result ≡ last_owner (lists.is_hit x y) found (flat (new_leaves (listed entries.now))) }
{
    for entry in entries {
        found = hit_at(entry, x, y, found);
    }
    found
}

#[cycle(hits)]
fn hit_at(entry: &WireEntry, x: i32, y: i32, found: Option<BoxKey>) -> Option<BoxKey>
    ensures { result ≡ last_owner (lists.is_hit x y) found (flat (new_leaves (listed (entry.now ∷ [])))) }
{
    match entry {
        WireEntry::Leaf {
            owner,
            part,
            visible,
            shape,
            color,
            hits,
            ..
        } => {
            let leaf = Leaf {
                owner: *owner,
                part: *part,
                visible: *visible,
                shape: *shape,
                color: *color,
                hits: *hits,
            };
            if is_hit(&leaf, x, y) {
                Some(*owner)
            } else {
                found
            }
        }
        WireEntry::Group { inner, .. } => hit_in(inner, x, y, found),
    }
}
