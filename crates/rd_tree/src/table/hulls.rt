//! Hulls of boxes.
ghost use Rattle.std.specs.Prelude.{◌≡◌, ◌<◌, length};
ghost use Rattle.rd_geom.specs.Plane.{Rectangle, hull_of};
ghost use Rattle.rd_tree.specs.Internal.Links.{child_and_sibling};
ghost use Rattle.rd_tree.specs.Internal.Linked.{IsRead, linked, seen_from};
ghost use Rattle.rd_tree.specs.Internal.Summaries.{summary_at};
ghost use Rattle.rd_tree.specs.Internal.Rows.{HasRows, IsFitAt, extent_under, hulls_by, hull_anew_of};

use crate::held::Nodes;
use crate::links::walk::child_and_sibling;
use crate::table::row::row_at;
use crate::table::rows::Table;
use rd_geom::{Rect, hull, outset};
use rd_keys::BoxKey;

/// A border box with its outline round it.
pub(crate) fn extent_of(nodes: &Nodes, key: BoxKey) -> Rect
    requires { IsFitAt (linked nodes.now key) }
    ensures { result ≡ extent_under (linked nodes.now key) }
{
    match nodes.get(key) {
        Some(node) => outset(node.item.rect, node.item.style.outline_width),
        None => Rect::EMPTY,
    }
}

/// The hull of a box and its later siblings, by their rows.
fn hull_from(table: &Table, nodes: &Nodes, first: Option<BoxKey>) -> Rect
    requires read { IsRead nodes.now first }
    requires rows { HasRows table.now.rows (seen_from nodes.now first) }
    ensures { result ≡ hulls_by table.now.rows (seen_from nodes.now first) }
{
    let mut all = Rect::EMPTY;
    let mut at = first;
    while let Some(key) = at {
        all = hull(all, row_at(table, key).hull);
        at = child_and_sibling(nodes, key).1;
    }
    all
}

/// The hull of a box by its own extent and by the rows of its children.
pub(crate) fn hull_anew(table: &Table, nodes: &Nodes, key: BoxKey) -> Rect
    requires fits { IsFitAt (linked nodes.now key) }
    requires read { IsRead nodes.now (child_and_sibling (linked nodes.now key)).0 }
    requires rows { HasRows table.now.rows (seen_from nodes.now (child_and_sibling (linked nodes.now
        key)).0) }
    ensures { result ≡ hull_anew_of nodes.now table.now.rows key }
{
    let below = child_and_sibling(nodes, key).0;
    let own = extent_of(nodes, key);
    hull(own, hull_from(table, nodes, below))
}

/// The hull of a box once what was `lost` of it has become `gained`, as the rows of its children tell already.
pub(crate) fn moved_hull(
    table: &Table,
    nodes: &Nodes,
    key: BoxKey,
    lost: Rect,
    gained: Rect,
) -> Rect
    requires here { key.slot < length table.now.rows }
    requires fits { IsFitAt (linked nodes.now key) }
    requires read { IsRead nodes.now (child_and_sibling (linked nodes.now key)).0 }
    requires rows { HasRows table.now.rows (seen_from nodes.now (child_and_sibling (linked nodes.now
        key)).0) }
    ensures { (rest : Rectangle) → (summary_at table.now.rows key).hull ≡ hull_of rest lost
        → hull_of rest gained ≡ hull_anew_of nodes.now table.now.rows key → result
        ≡ hull_of rest gained }
{
    match rd_geom::moved_hull(row_at(table, key).hull, lost, gained) {
        Some(rect) => rect,
        None => hull_anew(table, nodes, key),
    }
}
