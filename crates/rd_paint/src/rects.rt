//! Painting entries in a rectangle: the columns of a span in some rows.

ghost use Rattle.std.specs.Prelude.{◌≡◌, ℕ, pos, ◌+◌, ◌-◌, ◌*◌, ◌≤◌, ◌<◌, ◌+ℤ◌, ◌≤ℤ◌, ◌∷◌, [], IfSome, IsTrue, List, false, length, unsigned_abs};
ghost use Rattle.rd_geom.specs.Colors.{white};
ghost use Rattle.rd_geom.specs.declared.blend.Blend.TheVariants as mode;
ghost use Rattle.rd_item.specs.Leaves.{covers};
ghost use Rattle.rd_list.specs.Displayed.{shown};
ghost use Rattle.rd_list.specs.Entries as list;
ghost use Rattle.rd_list.specs.EntryNames.{kept_leaves};
ghost use Rattle.rd_list.specs.Views.{levels, deeper};
ghost use Rattle.rd_paint.specs.Internal.Rects.{IsRectChanged, IsRectLaid, group_over, over_around, over_leaf};
ghost use Rattle.rd_paint.specs.Internal.Picks.{chosen, picked};
ghost use Rattle.rd_paint.specs.Internal.Strips.{IsRectOn, IsRowOn};
ghost use Rattle.rd_paint.specs.declared.picks.Pick as named;

use crate::canvas::Canvas;
use crate::chosen::lay_own;
use crate::covering::is_beside;
use crate::narrowing::has_rows;
use crate::picks::{Pick, pick_at};
use crate::runs::{clipped, columns, fill, lay_around, rows_of};
use crate::strip::{PixelRect, Strip};
use rd_geom::{Blend, Px, Rect, Span, px_of, scale};
use rd_item::Item;
use rd_list::{Entry, Group, Kept};
use std::sync::ledger::Ledger;

/// Makes the pixels of a row of the rectangle white.
fn whiten_row(canvas: &mut Canvas, rect: PixelRect, row: usize)
    requires { IsRowOn canvas.old rect row }
    ensures { IsRectChanged rect.strip.corner (λ x y p. white) rect.span row (row + 1) canvas.old canvas.new }
{
    let out = canvas.part_mut(rect.strip.corner, row, rect.span);
    fill(out, Px::WHITE);
}

/// Makes the pixels of the rectangle white.
pub(crate) fn whiten(canvas: &mut Canvas, rect: PixelRect)
    requires { IsRectOn canvas.old rect }
    ensures { IsRectChanged rect.strip.corner (λ x y p. white) rect.span rect.strip.y0 rect.strip.y1
        canvas.old canvas.new }
{
    for row in rect.strip.y0..rect.strip.y1 {
        whiten_row(canvas, rect, row);
    }
}

/// Lays the entries that picks name, from bottom to top, over the pixels of the rectangle.
pub(crate) fn lay_picks_in<A: Ledger>(
    canvas: &mut Canvas,
    rect: PixelRect,
    entries: &[Entry<A>],
    picks: &[Pick],
    rows: &mut [Px],
)
    requires on { IsRectOn canvas.old rect }
    requires rows { canvas.old.width * (levels (picked picks.now (shown entries.now)) - 1) ≤ length rows.old }
    ensures { IsRectLaid rect.strip.corner (picked picks.now (shown entries.now)) rect.span rect.strip.y0 rect.strip.y1
        canvas.old canvas.new }
{
    let mut i = 0;
    while i < picks.len() {
        let (place, own) = pick_at(picks, i);
        lay_at_in(canvas, rect, entries, place, own, rows);
        i = i + 1 + own.len();
    }
}

/// Lays the entry at a place, if there is one.
fn lay_at_in<A: Ledger>(
    canvas: &mut Canvas,
    rect: PixelRect,
    entries: &[Entry<A>],
    place: u32,
    own: &[Pick],
    rows: &mut [Px],
)
    requires on { IsRectOn canvas.old rect }
    requires rows { canvas.old.width * (levels (chosen own.now place (shown entries.now)) - 1) ≤ length rows.old }
    ensures { IsRectLaid rect.strip.corner (chosen own.now place (shown entries.now)) rect.span rect.strip.y0 rect.strip.y1
        canvas.old canvas.new }
{
    let index = place as usize;
    if index < entries.len() {
        lay_pick_in(canvas, rect, &entries[index], own, rows);
    }
}

fn lay_pick_in<A: Ledger>(
    canvas: &mut Canvas,
    rect: PixelRect,
    entry: &Entry<A>,
    own: &[Pick],
    rows: &mut [Px],
)
    requires on { IsRectOn canvas.old rect }
    requires rows { canvas.old.width * (levels (chosen own.now 0 (shown (entry.now ∷ []))) - 1) ≤ length rows.old }
    ensures { IsRectLaid rect.strip.corner (chosen own.now 0 (shown (entry.now ∷ []))) rect.span rect.strip.y0 rect.strip.y1
        canvas.old canvas.new }
{
    match entry {
        Entry::Leaf(item) => lay_leaf_in(canvas, rect, item),
        Entry::Group(group) => lay_inner_in(canvas, rect, group, own, rows),
    }
}

/// Puts what picks name of a group onto the pixels of the rectangle by its blend mode. Where that is normal, a leaf alone needs no row of
/// its own.
fn lay_inner_in<A: Ledger>(
    canvas: &mut Canvas,
    rect: PixelRect,
    group: &Group<A>,
    own: &[Pick],
    rows: &mut [Px],
)
    requires on { IsRectOn canvas.old rect }
    requires rows { canvas.old.width * (deeper (levels (picked own.now (kept_leaves group.now.inner.entries))) - 1)
        ≤ length rows.old }
    ensures { IsRectChanged rect.strip.corner
        (group_over group.now.blend group.now.opacity (picked own.now (kept_leaves group.now.inner.entries)))
        rect.span rect.strip.y0 rect.strip.y1 canvas.old canvas.new }
{
    match laid_at_once(group.blend, &group.inner, own) {
        Some(item) => {
            if !is_off(item, rect.span, rect.strip.y0, rect.strip.y1) {
                let px = scale(px_of(item.color()), group.opacity);
                lay_item_in(canvas, rect, item, px);
            }
        }
        None => lay_group_in(canvas, rect, group, own, rows),
    }
}

/// The leaf that picks name of a group of normal mode, where they name nothing else: with the opacity of the group it is laid over the
/// pixels as it is.
fn laid_at_once<'a, A: Ledger>(
    blend: Blend,
    inner: &'a Kept<A>,
    own: &[Pick],
) -> Option<&'a Item<A>>
    ensures normal { IfSome result (λ i. blend ≡ mode.Normal) }
    ensures leaf { IfSome result (λ i. picked own.now (kept_leaves inner.now.entries) ≡ list.leaf i.now.leaf list.nil) }
{
    match blend {
        Blend::Normal => only_leaf(inner, own),
        _ => None,
    }
}

/// The leaf that picks name of a group, where they name nothing else.
fn only_leaf<'a, A: Ledger>(inner: &'a Kept<A>, own: &[Pick]) -> Option<&'a Item<A>>
    ensures { IfSome result (λ i. picked own.now (kept_leaves inner.now.entries) ≡ list.leaf i.now.leaf list.nil) }
{
    if own.len() != 1 {
        return None;
    }
    let (place, _) = pick_at(own, 0);
    leaf_at(inner.entries(), place)
}

/// The leaf at a place, if there is one.
fn leaf_at<A: Ledger>(entries: &[Entry<A>], place: u32) -> Option<&Item<A>>
    ensures { IfSome result (λ i. (own : List named.Pick) → chosen own place (shown entries.now) ≡ list.leaf i.now.leaf list.nil) }
{
    let index = place as usize;
    if index < entries.len() {
        return leaf_of(&entries[index]);
    }
    None
}

/// The item of a leaf.
fn leaf_of<A: Ledger>(entry: &Entry<A>) -> Option<&Item<A>>
    ensures { IfSome result (λ i. shown (entry.now ∷ []) ≡ list.leaf i.now.leaf list.nil) }
{
    match entry {
        Entry::Leaf(item) => Some(item),
        Entry::Group(_) => None,
    }
}

/// Lays what picks name of a group over the pixels of a row of the rectangle.
fn lay_group_row<A: Ledger>(
    canvas: &mut Canvas,
    rect: PixelRect,
    row: usize,
    group: &Group<A>,
    own: &[Pick],
    rows: &mut [Px],
)
    requires on { IsRowOn canvas.old rect row }
    requires rows { canvas.old.width * (deeper (levels (picked own.now (kept_leaves group.now.inner.entries))) - 1)
        ≤ length rows.old }
    ensures { IsRectChanged rect.strip.corner
        (group_over group.now.blend group.now.opacity (picked own.now (kept_leaves group.now.inner.entries)))
        rect.span row (row + 1) canvas.old canvas.new }
{
    let y = row as i32;
    let out = canvas.part_mut(rect.strip.corner, row, rect.span);
    lay_own(group, own, y, rect.span.x0, out, rows);
}

/// Lays what picks name of a group over the pixels of the rectangle, a row at a time.
fn lay_group_in<A: Ledger>(
    canvas: &mut Canvas,
    rect: PixelRect,
    group: &Group<A>,
    own: &[Pick],
    rows: &mut [Px],
)
    requires on { IsRectOn canvas.old rect }
    requires rows { canvas.old.width * (deeper (levels (picked own.now (kept_leaves group.now.inner.entries))) - 1)
        ≤ length rows.old }
    ensures { IsRectChanged rect.strip.corner
        (group_over group.now.blend group.now.opacity (picked own.now (kept_leaves group.now.inner.entries)))
        rect.span rect.strip.y0 rect.strip.y1 canvas.old canvas.new }
{
    for row in rect.strip.y0..rect.strip.y1 {
        lay_group_row(canvas, rect, row, group, own, rows);
    }
}

/// The columns of a span from its place `from` up to its place `to`.
fn part_of(span: Span, from: usize, to: usize) -> Span
    requires left { pos 0 ≤ℤ span.x0 }
    requires order { from ≤ to }
    requires within { (span.x0 +ℤ pos to) ≤ℤ pos 4096 }
    ensures { result ≡ record { x0 = span.x0 +ℤ pos from; x1 = span.x0 +ℤ pos to } }
{
    Span {
        x0: span.x0 + from as i32,
        x1: span.x0 + to as i32,
    }
}

/// Does the item cover no pixel of the rectangle, as is told by where it may be seen?
fn is_off<A: Ledger>(item: &Item<A>, span: Span, y0: usize, y1: usize) -> bool
    requires rows { y0 ≤ y1 }
    requires high { y1 ≤ 4096 }
    requires from { pos 0 ≤ℤ span.x0 }
    requires order { span.x0 ≤ℤ span.x1 }
    requires within { span.x1 ≤ℤ pos 4096 }
    ensures { IsTrue result → (k row : ℕ) → k < unsigned_abs span.x1 - unsigned_abs span.x0 → y0 ≤ row → row < y1
        → covers item.now.leaf (pos (unsigned_abs span.x0 + k)) (pos row) ≡ false }
{
    let seen = item.visible();
    if has_rows(seen, y0 as i32, y1 as i32) {
        return is_beside(columns(seen), span.x0, (span.x1 - span.x0) as usize);
    }
    true
}

/// Lays an item over the pixels of the rectangle.
fn lay_leaf_in<A: Ledger>(canvas: &mut Canvas, rect: PixelRect, item: &Item<A>)
    requires { IsRectOn canvas.old rect }
    ensures { IsRectLaid rect.strip.corner (list.leaf item.now.leaf list.nil) rect.span rect.strip.y0 rect.strip.y1
        canvas.old canvas.new }
{
    if !is_off(item, rect.span, rect.strip.y0, rect.strip.y1) {
        lay_item_in(canvas, rect, item, px_of(item.color()));
    }
}

/// Lays one pixel over those of the rectangle that the item covers.
#[inline(never)]
fn lay_item_in<A: Ledger>(canvas: &mut Canvas, rect: PixelRect, item: &Item<A>, px: Px)
    requires { IsRectOn canvas.old rect }
    ensures { IsRectChanged rect.strip.corner (over_leaf px item.now.leaf) rect.span rect.strip.y0 rect.strip.y1
        canvas.old canvas.new }
{
    let span = rect.span;
    let y0 = rect.strip.y0;
    let seen = item.visible();
    let (left, right) = clipped(columns(seen), span.x0, (span.x1 - span.x0) as usize);
    let (top, bottom) = clipped(rows_of(seen), y0 as i32, rect.strip.y1 - y0);
    if left < right && top < bottom {
        let strip = Strip {
            corner: rect.strip.corner,
            y0: y0 + top,
            y1: y0 + bottom,
        };
        let part = part_of(span, left, right);
        lay_rows(
            canvas,
            PixelRect { strip, span: part },
            px,
            item.shape().inner,
        );
    }
}

/// Lays one pixel over those of a row of the rectangle that are not in a hole.
fn lay_one_row(canvas: &mut Canvas, rect: PixelRect, row: usize, px: Px, hole: Rect)
    requires { IsRowOn canvas.old rect row }
    ensures { IsRectChanged rect.strip.corner (over_around px hole) rect.span row (row + 1) canvas.old canvas.new }
{
    let y = row as i32;
    let out = canvas.part_mut(rect.strip.corner, row, rect.span);
    lay_around(px, hole, y, rect.span.x0, out);
}

/// Lays one pixel over those of the rectangle that are not in a hole.
fn lay_rows(canvas: &mut Canvas, rect: PixelRect, px: Px, hole: Rect)
    requires { IsRectOn canvas.old rect }
    ensures { IsRectChanged rect.strip.corner (over_around px hole) rect.span rect.strip.y0 rect.strip.y1
        canvas.old canvas.new }
{
    for row in rect.strip.y0..rect.strip.y1 {
        lay_one_row(canvas, rect, row, px, hole);
    }
}
