//! The table's rows once the items of one branch have changed.
ghost use Rattle.std.specs.Prelude.{◌≡◌, ◌+◌, ◌<◌, ◌↔◌, length, true};
ghost use Rattle.rd_keys.specs.Keys.{same_key};
ghost use Rattle.rd_tree.specs.Forest.{has};
ghost use Rattle.rd_tree.specs.Document.{BoxKey, BoxForest};
ghost use Rattle.rd_tree.specs.Internal.Linked.{linked};
ghost use Rattle.rd_tree.specs.Internal.Summaries.{summary_at};
ghost use Rattle.rd_tree.specs.Internal.Rows.{IsStanding, IsRight, CanClimb, touched_under};
ghost use Rattle.rd_tree.specs.Internal.Renews.{whole_at, IsRightIn, KeepsOutside, IsStale, IsRenewing};

use crate::held::Nodes;
use crate::links::parent_of;
use crate::reach::Reach;
use crate::table::fill::{gather, measure, row_of, touched_at};
use crate::table::hulls::hull_anew;
use crate::table::row::{put_hull, row_at, write};
use crate::table::rows::Table;
use crate::table::whole::{Whole, swap_up};
use rd_geom::Rect;
use rd_keys::BoxKey;

/// Which rows of a branch are to be worked out anew.
#[derive(Clone, Copy)]
pub(crate) enum Stale {
    /// None.
    Nothing,
    /// That of its box, and there the hull alone.
    Hull,
    /// All.
    Branch,
}

/// Which rows an edit of a box leaves stale, by how far it touches and by the extents of the box before and after.
pub(crate) fn stale_by(reach: Reach, before: Rect, after: Rect) -> Stale
    ensures branch { (result ≡ Stale.Branch) ↔ (reach ≡ Reach.Subtree) }
    ensures nothing { result ≡ Stale.Nothing → before ≡ after }
    ensures hull { result ≡ Stale.Hull → before ≡ after → ⊥ }
{
    match reach {
        Reach::Subtree => Stale::Branch,
        Reach::Nothing | Reach::Alone => {
            if before == after {
                Stale::Nothing
            } else {
                Stale::Hull
            }
        }
    }
}

/// What a branch is, by the row of its box.
pub(crate) fn whole_of(table: &Table, nodes: &Nodes, key: BoxKey) -> Whole
    requires here { key.slot < length table.now.rows }
    requires few { touched_under (linked nodes.now key) + (summary_at table.now.rows key).touched <
        4294967296 }
    ensures { result ≡ whole_at nodes.now table.now.rows key }
{
    let row = row_at(table, key);
    Whole {
        touched: touched_at(nodes, key) + row.touched,
        hull: row.hull,
    }
}

/// Works the stale rows of a branch out anew.
pub(crate) fn renew(table: &mut Table, nodes: &Nodes, key: BoxKey, stale: Stale)
    requires { CanClimb nodes.now table.old.rows key (λ f. IsStale stale table.old.rows f key) }
    ensures right { (root : BoxKey) (f : BoxForest) → IsStanding nodes.now root f
        → has same_key key f ≡ true → IsStale stale table.old.rows f key
        → IsRightIn table.new.rows f key }
    ensures others { (root : BoxKey) (f : BoxForest) → IsStanding nodes.now root f
        → has same_key key f ≡ true → KeepsOutside nodes.now f table.old.rows table.new.rows
        key }
    ensures same_length { length table.new.rows ≡ length table.old.rows }
{
    match stale {
        Stale::Nothing => {}
        Stale::Hull => {
            let hull = hull_anew(table, nodes, key);
            put_hull(table, key, hull);
        }
        Stale::Branch => {
            let own = measure(nodes, key);
            let low = gather(table, nodes, own.below);
            let row = row_of(own.extent, &low);
            write(table, key, row);
        }
    }
}

/// Sets all rows right once the items of a branch have changed, which was `old`.
pub(crate) fn renew_up(table: &mut Table, nodes: &Nodes, key: BoxKey, stale: Stale, old: Whole)
    requires { CanClimb nodes.now table.old.rows key (λ f. IsRenewing table.old.rows f key
        stale old) }
    ensures right { (root : BoxKey) (f : BoxForest) → IsStanding nodes.now root f
        → has same_key key f ≡ true → IsRenewing table.old.rows f key stale old
        → IsRight table.new.rows f }
    ensures same_length { length table.new.rows ≡ length table.old.rows }
{
    renew(table, nodes, key, stale);
    let new = whole_of(table, nodes, key);
    let up = parent_of(nodes, key);
    swap_up(table, nodes, up, old, new);
}
