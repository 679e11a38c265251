//! What an edit is tested for.

ghost use Rattle.std.specs.Prelude.{◌≡◌, ◌+◌, ◌≤◌, IfSome, OnSome, IfNone, Some, true, false};
ghost use Rattle.rd_keys.specs.Keys.{same_key};
ghost use Rattle.rd_tree.specs.Document.{contains, HasFreeSlot};
ghost use Rattle.rd_tree.specs.Forest.{children, depth, IsPlaceIn};
ghost use Rattle.rd_style.specs.Limits as style_limits;
ghost use Rattle.rd_tree.specs.Limits as limits;
ghost use Rattle.rd_edits.specs.Edited as edited;
ghost use Rattle.rd_edits.specs.Ranges as ranges;
ghost use Rattle.rd_edits.specs.Refusals as refusals;
ghost use Rattle.rd_tree.specs.Figures.{max_depth};

use rd_geom::Sides;
use rd_style::{MAX_LINE_WIDTH, StyleChange};
use rd_tree::{BoxKey, Id, MAX_BOXES, MAX_DEPTH, MAX_SCROLL, Tree};
use std::sync::ledger::Ledger;

/// Is each of the four widths within the limits?
fn fits_sides(w: Sides) -> bool
    ensures { result ≡ ranges.fits_sides w }
{
    w.top <= MAX_LINE_WIDTH
        && w.right <= MAX_LINE_WIDTH
        && w.bottom <= MAX_LINE_WIDTH
        && w.left <= MAX_LINE_WIDTH
}

/// Is each width that the change names within the limits?
pub(crate) fn fits_change(c: &StyleChange) -> bool
    ensures { result ≡ ranges.fits_change c.now }
{
    let border = match c.border_width {
        Some(w) => fits_sides(w),
        None => true,
    };
    let outline = match c.outline_width {
        Some(w) => w <= MAX_LINE_WIDTH,
        None => true,
    };
    border && outline
}

fn is_between(low: i32, v: i32, high: i32) -> bool
    ensures { result ≡ style_limits.is_between low v high }
{
    low <= v && v <= high
}

/// Is each side of a scroll offset within the limits?
#[tactic(auto, unfolding(rd_tree::specs::Limits::fits_scroll))]
pub(crate) fn fits_scroll(x: i32, y: i32) -> bool
    ensures { result ≡ limits.fits_scroll (record { x = x; y = y }) }
{
    let least = -MAX_SCROLL;
    is_between(least, x, MAX_SCROLL) && is_between(least, y, MAX_SCROLL)
}

/// Is the box the root?
pub(crate) fn is_root<B: Ledger>(tree: &Tree<B>, key: BoxKey) -> bool
    ensures { result ≡ refusals.is_root key tree.now }
{
    key.is(tree.root())
}

/// Is it the place before the box itself?
pub(crate) fn is_before_itself(key: BoxKey, place: Option<BoxKey>) -> bool
    ensures test { result ≡ refusals.is_before_itself key place }
    ensures other { result ≡ false → place ≡ Some key → ⊥ }
{
    match place {
        Some(at) => at.is(key),
        None => false,
    }
}

/// Would so many levels below the parent go too deep?
pub(crate) fn is_too_deep<B: Ledger>(tree: &Tree<B>, parent: BoxKey, levels: u32) -> bool
    requires { contains tree.now parent ≡ true }
    ensures test { result ≡ refusals.is_too_deep levels parent tree.now }
    ensures room { result ≡ false → depth same_key parent tree.now.boxes + levels ≤ max_depth }
{
    u64::from(tree.depth(parent)) + u64::from(levels) > u64::from(MAX_DEPTH)
}

/// Is there no room for one box more?
pub(crate) fn is_full<B: Ledger>(tree: &Tree<B>) -> bool
    ensures test { result ≡ refusals.is_full tree.now }
    ensures room { result ≡ false → HasFreeSlot tree.now }
{
    u64::from(tree.boxes()) + u64::from(tree.retired()) >= u64::from(MAX_BOXES)
}

/// The place among the children of the parent: before the box given, or last where none is given. None where the box given
/// is no child of the parent.
#[tactic(auto, using(rd_tree::proofs::Nodes::Naming::named_there))]
pub(crate) fn place_of<B: Ledger>(
    tree: &Tree<B>,
    parent: BoxKey,
    before: &Option<Id>,
) -> Option<Option<BoxKey>>
    requires { contains tree.now parent ≡ true }
    ensures place { IfSome result (λ at. at ≡ edited.place_of before.now tree.now.boxes) }
    ensures child { IfSome result (λ at. IsPlaceIn same_key at (children same_key parent
        tree.now.boxes)) }
    ensures here { OnSome result (refusals.is_not_a_child before.now parent tree.now ≡ false) }
    ensures elsewhere { IfNone result (refusals.is_not_a_child before.now parent tree.now ≡ true) }
{
    let Some(before) = before else {
        return Some(None);
    };
    let key = tree.find(before)?;
    if tree.is_child(key, parent) {
        Some(Some(key))
    } else {
        None
    }
}
