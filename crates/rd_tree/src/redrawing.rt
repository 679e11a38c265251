//! Boxes that are drawn elsewhere once what is handed to them has changed.
ghost use Rattle.std.specs.Prelude.{◌≡◌, ◌+ℤ◌, ◌-ℤ◌, ◌≤ℤ◌, false, pos, length};
ghost use Rattle.rd_geom.specs.Plane.{IsPlaced};
ghost use Rattle.rd_keys.specs.Keys.{same_key};
ghost use Rattle.rd_tree.specs.Internal.Handing.{IsFar, IsWithin};
ghost use Rattle.rd_tree.specs.Internal.Hands.{CanHand, HandsDown, HasHands};
ghost use Rattle.rd_tree.specs.Internal.Laid.{IsHandedDown};
ghost use Rattle.rd_tree.specs.Internal.Links.{edit, with_item};
ghost use Rattle.rd_tree.specs.Internal.Linked.{IsRead, Relinks, linked, seen_from};
ghost use Rattle.rd_tree.specs.Internal.Redraws.{AllRedraw, CanRedraw, DrawsAt, Redraws, drawn_anew, drawn_far, rect_far, redrawn_if};

use crate::handed::ScrollSums;
use crate::handing::{hand_of, write};
use crate::held::Nodes;
use crate::node::Item;
use crate::scroll::Scroll;
use rd_geom::Rect;
use rd_keys::BoxKey;

/// One side, which was scrolled so far and is so far now.
fn side(at: i32, old: i32, new: i32) -> i32
    requires at_low { (pos 0 -ℤ pos 1000000000) ≤ℤ at }
    requires at_high { at ≤ℤ pos 1000000000 }
    requires old_low { (pos 0 -ℤ pos 256000000) ≤ℤ old }
    requires old_high { old ≤ℤ pos 256000000 }
    requires new_low { (pos 0 -ℤ pos 256000000) ≤ℤ new }
    requires new_high { new ≤ℤ pos 256000000 }
    ensures { result ≡ (at +ℤ old) -ℤ new }
{
    at + old - new
}

/// Where a box is drawn that was scrolled so far and is so far now.
#[inline(always)]
pub(crate) fn anew(r: &Rect, old: Scroll, new: Scroll) -> Rect
    requires old { IsFar 256 old }
    requires new { IsFar 256 new }
    requires fits { IsPlaced (drawn_anew old new r.now) }
    ensures { result ≡ drawn_anew old new r.now }
{
    match Rect::new(
        side(r.x(), old.x, new.x),
        side(r.y(), old.y, new.y),
        r.w(),
        r.h(),
    ) {
        Some(rect) => rect,
        None => unreachable!(),
    }
}

/// Draws a box anew to which the one was handed and the other is now, and touches it where that is asked for.
#[inline(always)]
pub(crate) fn draw_item(item: &mut Item, old: &ScrollSums, new: &ScrollSums, asked: bool)
    requires few { IsWithin 256 new.now }
    requires can { CanRedraw old.now new.now item.old }
    ensures { item.new ≡ redrawn_if asked old.now new.now item.old }
{
    let position = item.style.position;
    item.rect = anew(&item.rect, old.offset(position), new.offset(position));
    item.touched = asked | item.touched;
}

/// Where a walk goes on from a box: its first child, its next sibling, and what is handed to its children.
#[derive(Clone, Copy)]
pub(crate) struct Onward {
    pub(crate) below: Option<BoxKey>,
    pub(crate) next: Option<BoxKey>,
    pub(crate) inside: ScrollSums,
}

/// Where the box of a key is drawn that was scrolled so far and is so far now.
fn rect_at(nodes: &Nodes, key: BoxKey, old: Scroll, new: Scroll) -> Rect
    requires old { IsFar 256 old }
    requires new { IsFar 256 new }
    requires can { DrawsAt old new (linked nodes.now key) }
    ensures { result ≡ rect_far old new (linked nodes.now key) }
{
    match nodes.get(key) {
        Some(node) => anew(&node.item.rect, old, new),
        None => Rect::EMPTY,
    }
}

/// Draws a box elsewhere that was scrolled so far and is so far now.
pub(crate) fn draw_at(nodes: &mut Nodes, key: BoxKey, old: Scroll, new: Scroll)
    requires old { IsFar 256 old }
    requires new { IsFar 256 new }
    requires can { DrawsAt old new (linked nodes.old key) }
    ensures { Relinks nodes.old nodes.new (edit same_key key (with_item (drawn_far old new)) (linked nodes.old)) }
{
    let rect = rect_at(nodes, key, old, new);
    nodes.put_rect(key, false, rect);
}

/// The same of the boxes below a box, with no call where there are none.
#[cycle(redrawing)]
#[inline(always)]
fn redraw_below(
    nodes: &mut Nodes,
    rows: &mut Vec<ScrollSums>,
    first: Option<BoxKey>,
    handed: ScrollSums,
    asked: bool,
)
    requires read { IsRead nodes.old first }
    requires has_rows { HasHands rows.old.items (seen_from nodes.old first) }
    requires can { CanHand handed (seen_from nodes.old first) }
    requires fits { AllRedraw rows.old.items handed (seen_from nodes.old first) }
    ensures drawn { Redraws asked nodes.old nodes.new rows.old.items handed (seen_from nodes.old first) }
    ensures handed { HandsDown nodes.old rows.old.items rows.new.items handed (seen_from nodes.old first) }
    ensures same_length { length rows.new.items ≡ length rows.old.items }
{
    match first {
        Some(_) => redraw(nodes, rows, first, handed, asked),
        None => {}
    }
}

/// Draws anew a box that is not the root, its later siblings, and all below them, where the table has what was handed to
/// each of them, and this is handed to the first ones now. So the table has it then, and what follows from it. Touches them
/// where that is asked for.
#[cycle(redrawing)]
pub(crate) fn redraw(
    nodes: &mut Nodes,
    rows: &mut Vec<ScrollSums>,
    first: Option<BoxKey>,
    handed: ScrollSums,
    asked: bool,
)
    requires read { IsRead nodes.old first }
    requires has_rows { HasHands rows.old.items (seen_from nodes.old first) }
    requires can { CanHand handed (seen_from nodes.old first) }
    requires fits { AllRedraw rows.old.items handed (seen_from nodes.old first) }
    ensures drawn { Redraws asked nodes.old nodes.new rows.old.items handed (seen_from nodes.old first) }
    ensures handed { HandsDown nodes.old rows.old.items rows.new.items handed (seen_from nodes.old first) }
    ensures same_length { length rows.new.items ≡ length rows.old.items }
{
    let mut at = first;
    while let Some(key) = at {
        let old = hand_of(rows, key);
        write(rows, key, handed);
        let onward = nodes.redraw_one(key, &old, &handed, asked);
        redraw_below(nodes, rows, onward.below, onward.inside, asked);
        at = onward.next;
    }
}

/// The same where that is asked for. Where it is not, the table has of each of these boxes what is handed to it now, and none
/// is gone to.
pub(crate) fn redraw_where(
    nodes: &mut Nodes,
    rows: &mut Vec<ScrollSums>,
    first: Option<BoxKey>,
    handed: ScrollSums,
    asked: bool,
)
    requires read { IsRead nodes.old first }
    requires has_rows { HasHands rows.old.items (seen_from nodes.old first) }
    requires can { CanHand handed (seen_from nodes.old first) }
    requires fits { AllRedraw rows.old.items handed (seen_from nodes.old first) }
    requires still { asked ≡ false → IsHandedDown rows.old.items handed (seen_from nodes.old first) }
    ensures drawn { Redraws asked nodes.old nodes.new rows.old.items handed (seen_from nodes.old first) }
    ensures handed { HandsDown nodes.old rows.old.items rows.new.items handed (seen_from nodes.old first) }
    ensures same_length { length rows.new.items ≡ length rows.old.items }
{
    if asked {
        redraw(nodes, rows, first, handed, asked);
    }
}
