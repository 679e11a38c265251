//! Work on all boxes of a subtree.
ghost use Rattle.std.specs.Prelude.{◌≡◌, ◌↔◌, ◌||◌, ◌≤◌, ◌+ℤ◌, ◌-ℤ◌, ◌≤ℤ◌, ◌<◌, length, pos, false, IsTrue};
ghost use Rattle.rd_keys.specs.Keys.{same_key};
ghost use Rattle.rd_tree.specs.Forest.{has, height, AllItems};
ghost use Rattle.rd_tree.specs.Internal.Links.{edit, with_item, on_each, child_and_sibling};
ghost use Rattle.rd_tree.specs.Internal.Linked.{Relinks, IsRead, linked, seen_from};
ghost use Rattle.rd_tree.specs.Internal.Works.{done, Allows};
ghost use Rattle.rd_tree.specs.Changes.{shifted};
ghost use Rattle.rd_tree.specs.Touching.{touch};
ghost use Rattle.rd_style.specs.Limits.{FitsRect};
ghost use Rattle.rd_tree.specs.Internal.Works.{AllowsAt, item_under};
ghost use Rattle.rd_tree.specs.Internal.Laid.{laid_by, LaidFitsAt, ShiftFitsAt};
ghost use Rattle.rd_tree.specs.Internal.Hands.{hand_at, HasHands};
ghost use Rattle.rd_tree.specs.Limits.{IsNear};
ghost use Rattle.rd_tree.specs.Internal.Reaching.{reached};
ghost use Rattle.rd_tree.specs.Changes as changes;
ghost use Rattle.rd_tree.specs.Internal.Reaching as reaching;
ghost use Rattle.std.specs.Option.{option_map_or};
ghost use Rattle.rd_style.specs.Figures.{max_coordinate};
ghost use Rattle.rd_tree.specs.Figures.{max_boxes};

use crate::handed::ScrollSums;
use crate::held::Nodes;
use crate::node::Item;
use crate::reach::Reach;
use crate::scroll::Scroll;
use rd_geom::Rect;
use rd_keys::BoxKey;
use rd_style::MAX_COORDINATE;

/// What is done to a box.
#[derive(Clone, Copy)]
pub(crate) enum Work {
    /// It is touched.
    Touch,
    /// It is touched no more.
    Settle,
    /// It moves right and down by canvas pixels, and is touched.
    Shift(i32, i32),
}

impl Work {
    /// The work that moves a box right and down.
    pub(crate) fn shift(dx: i32, dy: i32) -> Work
        ensures { result ≡ Work.Shift dx dy }
    {
        Work::Shift(dx, dy)
    }
}

fn shift_side(at: i32, by: i32) -> i32
    requires low { (pos 0 -ℤ pos 257000000) ≤ℤ (at +ℤ by) }
    requires high { (at +ℤ by) ≤ℤ pos 257000000 }
    ensures { result ≡ at +ℤ by }
{
    at + by
}

fn shift_rect(r: &Rect, dx: i32, dy: i32) -> Rect
    requires { IsNear (shifted dx dy r.now) }
    ensures { result ≡ shifted dx dy r.now }
{
    match Rect::new(shift_side(r.x(), dx), shift_side(r.y(), dy), r.w(), r.h()) {
        Some(rect) => rect,
        None => unreachable!(),
    }
}

/// Does the work on the item of a box.
pub(crate) fn do_work(item: &mut Item, work: Work)
    requires { Allows work item.old }
    ensures { item.new ≡ done work item.old }
{
    match work {
        Work::Touch => item.touched = true,
        Work::Settle => item.touched = false,
        Work::Shift(dx, dy) => {
            item.rect = shift_rect(&item.rect, dx, dy);
            item.touched = true;
        }
    }
}

/// Does the work on a box, on those below it, and on its later siblings with theirs.
pub(crate) fn work_from(nodes: &mut Nodes, first: Option<BoxKey>, work: Work)
    requires read { IsRead nodes.old first }
    requires allowed { AllItems (Allows work) (seen_from nodes.old first) }
    ensures { Relinks nodes.old nodes.new (on_each (λ j. has same_key j (seen_from nodes.old
        first)) (done work) (linked nodes.old)) }
{
    let mut at = first;
    while let Some(key) = at {
        let onward = nodes.work_on(key, work);
        work_from(nodes, onward.0, work);
        at = onward.1;
    }
}

/// Does the work on a box and on all below it.
pub(crate) fn work_below(nodes: &mut Nodes, key: BoxKey, work: Work)
    requires here { AllowsAt work (linked nodes.old key) }
    requires read { IsRead nodes.old (child_and_sibling (linked nodes.old key)).0 }
    requires apart { has same_key key (seen_from nodes.old (child_and_sibling (linked nodes.old
        key)).0) ≡ false }
    requires allowed { AllItems (Allows work) (seen_from nodes.old (child_and_sibling
        (linked nodes.old key)).0) }
    ensures { Relinks nodes.old nodes.new (on_each (λ j. same_key j key || has same_key j
        (seen_from nodes.old (child_and_sibling (linked nodes.old key)).0)) (done work)
        (linked nodes.old)) }
{
    let onward = nodes.work_on(key, work);
    work_from(nodes, onward.0, work);
}

/// The first child and the next sibling of a box.
pub(crate) fn child_and_sibling(nodes: &Nodes, key: BoxKey) -> (Option<BoxKey>, Option<BoxKey>)
    ensures { result ≡ child_and_sibling (linked nodes.now key) }
{
    match nodes.get(key) {
        Some(node) => (node.links.first, node.links.next),
        None => (None, None),
    }
}

/// How many levels a box, those below it, and its later siblings with theirs have.
pub(crate) fn height_from(nodes: &Nodes, first: Option<BoxKey>) -> u32
    requires read { IsRead nodes.now first }
    requires small { nodes.now.limit ≤ max_boxes }
    ensures height { result ≡ height (seen_from nodes.now first) }
    ensures most { result ≤ nodes.now.limit }
{
    let mut most = 0;
    let mut at = first;
    while let Some(key) = at {
        let (below, next) = child_and_sibling(nodes, key);
        most = most.max(height_from(nodes, below) + 1);
        at = next;
    }
    most
}

/// Touches as far as an edit reaches.
pub(crate) fn touch(nodes: &mut Nodes, key: BoxKey, reach: Reach)
    requires read { IsRead nodes.old (child_and_sibling (linked nodes.old key)).0 }
    requires apart { has same_key key (seen_from nodes.old (child_and_sibling (linked nodes.old
        key)).0) ≡ false }
    ensures { Relinks nodes.old nodes.new (on_each (reached reach key (seen_from nodes.old
        (child_and_sibling (linked nodes.old key)).0)) touch (linked nodes.old)) }
{
    match reach {
        Reach::Nothing => {}
        Reach::Alone => {
            nodes.work_on(key, Work::Touch);
        }
        Reach::Subtree => work_below(nodes, key, Work::Touch),
    }
}

/// How far boxes are moved right and down, in canvas pixels.
#[derive(Clone, Copy)]
pub(crate) struct Offset {
    pub(crate) dx: i32,
    pub(crate) dy: i32,
}

impl Offset {
    pub(crate) fn new(dx: i32, dy: i32) -> Offset
        ensures dx { result.dx ≡ dx }
        ensures dy { result.dy ≡ dy }
    {
        Offset { dx, dy }
    }
}

fn side_fits(at: i32, by: i32) -> bool
    ensures low { IsTrue result → (pos 0 -ℤ max_coordinate) ≤ℤ (at +ℤ by) }
    ensures high { IsTrue result → (at +ℤ by) ≤ℤ max_coordinate }
    ensures fits { (pos 0 -ℤ max_coordinate) ≤ℤ (at +ℤ by) → (at +ℤ by) ≤ℤ max_coordinate
        → IsTrue result }
{
    let sum = i64::from(at) + i64::from(by);
    let most = i64::from(MAX_COORDINATE);
    -most <= sum && sum <= most
}

fn sum(at: i32, by: i32) -> i32
    requires low { (pos 0 -ℤ pos 1000000000) ≤ℤ (at +ℤ by) }
    requires high { (at +ℤ by) ≤ℤ pos 1000000000 }
    ensures { result ≡ at +ℤ by }
{
    at + by
}

/// Does a rectangle that is scrolled so far stay within the limits once it is moved?
fn shift_fits(r: &Rect, far: Scroll, by: &Offset) -> bool
    requires { FitsRect (record r.now { x = r.now.x +ℤ far.x; y = r.now.y +ℤ far.y }) }
    ensures { IsTrue result ↔ FitsRect (shifted by.now.dx by.now.dy (record r.now { x = r.now.x +ℤ far.x; y = r.now.y +ℤ far.y })) }
{
    let x = sum(r.x(), far.x);
    let y = sum(r.y(), far.y);
    let across = side_fits(x, by.dx);
    let down = side_fits(y, by.dy);
    across && down
}

/// Does a box stay within the limits once it is moved? Its first child and its next sibling.
pub(crate) fn shift_one_fits(
    nodes: &Nodes,
    rows: &[ScrollSums],
    key: BoxKey,
    by: &Offset,
) -> (bool, Option<BoxKey>, Option<BoxKey>)
    requires here { key.slot < length rows.now }
    requires fits { LaidFitsAt (hand_at rows.now key) (linked nodes.now key) }
    ensures fits { IsTrue result.0 ↔ ShiftFitsAt (hand_at rows.now key) by.now.dx by.now.dy (linked nodes.now key) }
    ensures onward { (result.1, result.2) ≡ child_and_sibling (linked nodes.now key) }
{
    let handed = rows[key.slot() as usize];
    match nodes.get(key) {
        Some(node) => (
            shift_fits(&node.item.rect, handed.offset(node.item.style.position), by),
            node.links.first,
            node.links.next,
        ),
        None => (true, None, None),
    }
}

/// Do a box, those below it, and its later siblings with theirs stay within the limits once they are moved?
pub(crate) fn shift_from_fits(
    nodes: &Nodes,
    rows: &[ScrollSums],
    first: Option<BoxKey>,
    by: &Offset,
) -> bool
    requires read { IsRead nodes.now first }
    requires has_rows { HasHands rows.now (seen_from nodes.now first) }
    requires fits { AllItems (λ d. FitsRect d.rect) (laid_by rows.now (seen_from nodes.now first)) }
    ensures { IsTrue result ↔ AllItems (λ d. FitsRect (shifted by.now.dx by.now.dy d.rect))
        (laid_by rows.now (seen_from nodes.now first)) }
{
    let mut at = first;
    while let Some(key) = at {
        let (fits, below, next) = shift_one_fits(nodes, rows, key, by);
        if !fits {
            return false;
        }
        if !shift_from_fits(nodes, rows, below, by) {
            return false;
        }
        at = next;
    }
    true
}
