//! What a look at a box gives.

ghost use Rattle.std.specs.Prelude.{◌≡◌, ◌&&◌, ◌||◌, Some, int_lt, nat_lt, option_map};
ghost use Rattle.rd_geom.specs.Plane.{bottom, right};
ghost use Rattle.rd_keys.specs.Keys.{same_key};
ghost use Rattle.rd_keys.specs.Arena.{value};
ghost use Rattle.rd_tree.specs.Seeking as seeking;
ghost use Rattle.rd_tree.specs.Shown.{told};
ghost use Rattle.rd_tree.specs.Internal.Glances.{glance_of};
ghost use Rattle.rd_tree.specs.Internal.Linked.{shown_of};

use crate::glance::Glance;
use crate::held::Nodes;
use crate::node::Node;
use crate::scroll::Scroll;
use crate::table::row::Summary;
use rd_geom::Rect;
use rd_keys::BoxKey;
use rd_style::Style;

/// What a look at a box gives.
#[derive(Drop)]
pub struct BoxView<'a> {
    /// The box.
    pub key: BoxKey,
    /// Its border box where it is laid out, in pixels of the canvas (CSS 2.2 section 8.1).
    pub rect: Rect,
    /// Where its border box is drawn, as boxes above it are scrolled, in pixels of the canvas.
    pub at: Rect,
    /// Its scroll offset.
    pub scroll: Scroll,
    /// Its style.
    pub style: &'a Style,
    /// Is it the root?
    pub is_root: bool,
    /// How many children it has.
    pub children: u32,
    /// The first of its children.
    pub first_child: Option<BoxKey>,
    /// The next child of its parent.
    pub next_sibling: Option<BoxKey>,
    /// The least rectangle with the border boxes of it and of all below it, each with its outline round it, those of
    /// hidden boxes too, in pixels of the canvas.
    pub hull: Rect,
    /// Was it touched since the marks were last cleared?
    pub touched: bool,
    /// How many boxes below it were touched since then.
    pub touched_below: u32,
    /// Is a layer below it blended, with no stacking context between the two (CSS Compositing 1 section 3.2)?
    pub blend_below: bool,
}

/// What a node, what a walk reads of it, and its row show of its box, as if it were laid out where it is drawn.
#[inline(always)]
pub(crate) fn view_of(
    key: BoxKey,
    is_root: bool,
    node: &Node,
    glance: Glance,
    row: Summary,
    blend_below: bool,
) -> BoxView<'_>
    requires { glance ≡ glance_of key.generation node.now }
    ensures { told result ≡ shown_of key is_root node.now row blend_below }
{
    BoxView {
        key,
        rect: node.item.rect,
        at: node.item.rect,
        scroll: node.item.scroll,
        style: &node.item.style,
        is_root,
        children: row.children,
        first_child: glance.first,
        next_sibling: glance.next,
        hull: row.hull,
        touched: glance.touched,
        touched_below: row.touched,
        blend_below,
    }
}

/// What a look at a box gives, by what is read of it, by its row, and by whether a blended layer is below it.
#[inline(always)]
pub(crate) fn view_at(
    nodes: &Nodes,
    root: BoxKey,
    key: BoxKey,
    glance: Glance,
    row: Summary,
    blend_below: bool,
) -> Option<BoxView<'_>>
    requires { Some glance ≡ option_map (glance_of key.generation) (value nodes.now key.slot key.generation) }
    ensures { option_map told result ≡ option_map (λ n. shown_of key (same_key key root) n row blend_below)
        (value nodes.now key.slot key.generation) }
{
    match nodes.get(key) {
        Some(node) => Some(view_of(key, key.is(root), node, glance, row, blend_below)),
        None => unreachable!(),
    }
}

/// Is a box touched, or has it a touched box below it, by what is read of it and by its row?
#[inline(always)]
pub(crate) fn is_marked(glance: &Glance, row: &Summary) -> bool
    ensures { result ≡ (glance.now.touched || nat_lt 0 row.now.touched) }
{
    glance.touched || row.touched > 0
}

#[inline(always)]
fn is_before(a: i32, b: i32) -> bool
    ensures { result ≡ int_lt a b }
{
    a < b
}

/// Is there a column that both may reach?
#[inline(always)]
fn reaches_across(r: &Rect, hull: &Rect) -> bool
    ensures { result ≡ (int_lt hull.now.x (right r.now) && int_lt r.now.x (right hull.now)) }
{
    is_before(hull.x(), r.right()) && is_before(r.x(), hull.right())
}

/// Is there a row that both may reach?
#[inline(always)]
fn reaches_down(r: &Rect, hull: &Rect) -> bool
    ensures { result ≡ (int_lt hull.now.y (bottom r.now) && int_lt r.now.y (bottom hull.now)) }
{
    is_before(hull.y(), r.bottom()) && is_before(r.y(), hull.bottom())
}

/// Are there a column and a row that both may reach? Each edge is read only where those before it leave that open.
#[inline(always)]
pub(crate) fn reaches(r: &Rect, hull: &Rect) -> bool
    ensures { result ≡ seeking.reaches r.now hull.now }
{
    reaches_across(r, hull) && reaches_down(r, hull)
}
