//! From a box up to the root, what the table has of each box is set right.
ghost use Rattle.std.specs.Prelude.{◌≡◌, length};
ghost use Rattle.rd_tree.specs.Document.{BoxKey, BoxForest};
ghost use Rattle.rd_tree.specs.Internal.Rows.{IsStanding, IsIn, CanMark, MarksUp, CanMove, IsMoving, HasHulls, KeepsCounts, KeepsOthers};

use crate::held::Nodes;
use crate::links::parent_of;
use crate::table::hulls::moved_hull;
use crate::table::row::{mark, put_hull};
use crate::table::rows::Table;
use rd_geom::Rect;
use rd_keys::BoxKey;

/// So many touched boxes less below a box and below all boxes above it, and so many more.
pub(crate) fn mark_up(table: &mut Table, nodes: &Nodes, from: Option<BoxKey>, less: u32, more: u32)
    requires { CanMark nodes.now table.old.rows from less more }
    ensures rows { (root : BoxKey) (f : BoxForest) → IsStanding nodes.now root f → IsIn from f
        → MarksUp nodes.now f table.old.rows table.new.rows from less more }
    ensures same_length { length table.new.rows ≡ length table.old.rows }
{
    let mut at = from;
    while let Some(key) = at {
        mark(table, key, less, more);
        at = parent_of(nodes, key);
    }
}

/// Something below a box, or nothing, had the hull `lost` and has now `gained`: the hulls of the box and of all above it.
pub(crate) fn move_hulls(
    table: &mut Table,
    nodes: &Nodes,
    from: Option<BoxKey>,
    lost: Rect,
    gained: Rect,
)
    requires { CanMove nodes.now table.old.rows from }
    ensures hulls { (root : BoxKey) (f : BoxForest) → IsStanding nodes.now root f → IsIn from f
        → IsMoving table.old.rows f from lost gained → HasHulls table.new.rows f }
    ensures others { (root : BoxKey) (f : BoxForest) → IsStanding nodes.now root f → IsIn from f
        → KeepsOthers nodes.now f table.old.rows table.new.rows from }
    ensures counts { KeepsCounts table.old.rows table.new.rows }
    ensures same_length { length table.new.rows ≡ length table.old.rows }
{
    let mut at = from;
    while let Some(key) = at {
        let hull = moved_hull(table, nodes, key, lost, gained);
        put_hull(table, key, hull);
        at = parent_of(nodes, key);
    }
}
