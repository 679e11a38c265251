//! The table's rows of all boxes below a place, worked out anew.
ghost use Rattle.std.specs.Prelude.{◌≡◌, ◌+◌, ◌<◌, ◌≤◌, length};
ghost use Rattle.rd_geom.specs.Plane.{hull_of};
ghost use Rattle.rd_tree.specs.Forest.{empty};
ghost use Rattle.rd_tree.specs.Drawn.{AllNear};
ghost use Rattle.rd_tree.specs.Internal.Links.{child_and_sibling};
ghost use Rattle.rd_tree.specs.Internal.Linked.{IsRead, linked, seen_from};
ghost use Rattle.rd_tree.specs.Internal.Rows.{HasRows, IsFitAt, extent_under, touched_under};
ghost use Rattle.rd_tree.specs.Internal.Gathers.{Gathers, gathered_in, row_over};
ghost use Rattle.rd_tree.specs.Figures.{max_boxes};

use crate::held::Nodes;
use crate::table::row::{Summary, write};
use crate::table::rows::Table;
use rd_geom::{Rect, hull, outset};
use rd_keys::BoxKey;

/// What some siblings are together: how many they are, how many of them and of all below them are touched, and the hull
/// of all.
#[derive(Clone, Copy)]
pub(crate) struct SiblingSums {
    pub(crate) breadth: u32,
    pub(crate) touched: u32,
    pub(crate) hull: Rect,
}

impl SiblingSums {
    fn none() -> SiblingSums
        ensures { result ≡ gathered_in empty }
    {
        SiblingSums {
            breadth: 0,
            touched: 0,
            hull: Rect::EMPTY,
        }
    }
}

/// 1 where the box is touched, and else 0.
pub(crate) fn touched_at(nodes: &Nodes, key: BoxKey) -> u32
    ensures { result ≡ touched_under (linked nodes.now key) }
{
    match nodes.get(key) {
        Some(node) => { if node.item.touched { 1 } else { 0 } }
        None => 0,
    }
}

/// What its row takes of a box itself, and where to go on.
#[derive(Clone, Copy)]
pub(crate) struct RowParts {
    /// The border box with its outline round it.
    pub(crate) extent: Rect,
    /// 1 where the box is touched, and else 0.
    pub(crate) touched: u32,
    /// The first child.
    pub(crate) below: Option<BoxKey>,
    /// The next sibling.
    pub(crate) next: Option<BoxKey>,
}

/// What its row takes of a box.
#[inline(always)]
pub(crate) fn measure(nodes: &Nodes, key: BoxKey) -> RowParts
    requires { IsFitAt (linked nodes.now key) }
    ensures extent { result.extent ≡ extent_under (linked nodes.now key) }
    ensures touched { result.touched ≡ touched_under (linked nodes.now key) }
    ensures onward { (result.below, result.next) ≡ child_and_sibling (linked nodes.now key) }
{
    match nodes.get(key) {
        Some(node) => RowParts {
            extent: outset(node.item.rect, node.item.style.outline_width),
            touched: if node.item.touched { 1 } else { 0 },
            below: node.links.first,
            next: node.links.next,
        },
        None => RowParts {
            extent: Rect::EMPTY,
            touched: 0,
            below: None,
            next: None,
        },
    }
}

/// The row of a box of this extent with these below it.
#[inline(always)]
pub(crate) fn row_of(own: Rect, below: &SiblingSums) -> Summary
    ensures { result ≡ row_over own below.now }
{
    Summary {
        children: below.breadth,
        touched: below.touched,
        hull: hull(own, below.hull),
    }
}

/// With one sibling more, of which this is the row. `own` is 1 where it is touched itself.
fn with_one(all: &SiblingSums, own: u32, row: &Summary) -> SiblingSums
    requires few { all.now.breadth < 4294967295 }
    requires few_touched { all.now.touched + (own + row.now.touched) < 4294967296 }
    ensures breadth { result.breadth ≡ all.now.breadth + 1 }
    ensures touched { result.touched ≡ all.now.touched + (own + row.now.touched) }
    ensures hull { result.hull ≡ hull_of all.now.hull row.now.hull }
{
    SiblingSums {
        breadth: all.breadth + 1,
        touched: all.touched + (own + row.touched),
        hull: hull(all.hull, row.hull),
    }
}

/// The same of the boxes below a box, with no call where there are none.
#[cycle(gathering)]
#[inline(always)]
fn gather_below(table: &mut Table, nodes: &Nodes, first: Option<BoxKey>) -> SiblingSums
    requires read { IsRead nodes.now first }
    requires small { nodes.now.limit ≤ max_boxes }
    requires has_rows { HasRows table.old.rows (seen_from nodes.now first) }
    requires fits { AllNear (seen_from nodes.now first) }
    ensures told { result ≡ gathered_in (seen_from nodes.now first) }
    ensures rows { Gathers nodes.now table.old.rows table.new.rows (seen_from nodes.now first) }
    ensures same_length { length table.new.rows ≡ length table.old.rows }
{
    match first {
        Some(_) => gather(table, nodes, first),
        None => SiblingSums::none(),
    }
}

/// Writes the rows of a box, of those below it, and of its later siblings with theirs. What the siblings are together.
#[cycle(gathering)]
pub(crate) fn gather(table: &mut Table, nodes: &Nodes, first: Option<BoxKey>) -> SiblingSums
    requires read { IsRead nodes.now first }
    requires small { nodes.now.limit ≤ max_boxes }
    requires has_rows { HasRows table.old.rows (seen_from nodes.now first) }
    requires fits { AllNear (seen_from nodes.now first) }
    ensures told { result ≡ gathered_in (seen_from nodes.now first) }
    ensures rows { Gathers nodes.now table.old.rows table.new.rows (seen_from nodes.now first) }
    ensures same_length { length table.new.rows ≡ length table.old.rows }
{
    let mut all = SiblingSums::none();
    let mut at = first;
    while let Some(key) = at {
        let own = measure(nodes, key);
        let low = gather_below(table, nodes, own.below);
        let row = row_of(own.extent, &low);
        all = with_one(&all, own.touched, &row);
        write(table, key, row);
        at = own.next;
    }
    all
}
