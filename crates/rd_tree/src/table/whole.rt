//! What a branch is to the boxes above it.
ghost use Rattle.std.specs.Prelude.{◌≡◌, length, Some, true};
ghost use Rattle.rd_keys.specs.Keys.{same_key};
ghost use Rattle.rd_tree.specs.Forest.{has};
ghost use Rattle.rd_tree.specs.Document.{BoxKey, BoxForest};
ghost use Rattle.rd_tree.specs.Internal.Rows.{IsStanding, IsIn, IsSwapping, IsGaining, IsLosing, IsRight, CanSwap, CanClimb, KeepsOthers};
ghost use Rattle.rd_tree.specs.Internal.Rows as rows;

use crate::held::Nodes;
use crate::table::climb::{mark_up, move_hulls};
use crate::table::row::{add_child, drop_child};
use crate::table::rows::Table;
use rd_geom::Rect;
use rd_keys::BoxKey;

/// How many boxes of a branch are touched, and the hull of them all.
#[derive(Clone, Copy)]
pub(crate) struct Whole {
    pub(crate) touched: u32,
    pub(crate) hull: Rect,
}

/// Below a box, and below all boxes above it, a branch stands in place of another.
pub(crate) fn swap_up(
    table: &mut Table,
    nodes: &Nodes,
    from: Option<BoxKey>,
    old: Whole,
    new: Whole,
)
    requires { CanSwap nodes.now table.old.rows from old new }
    ensures right { (root : BoxKey) (f : BoxForest) → IsStanding nodes.now root f → IsIn from f
        → IsSwapping table.old.rows f from old new → IsRight table.new.rows f }
    ensures others { (root : BoxKey) (f : BoxForest) → IsStanding nodes.now root f → IsIn from f
        → KeepsOthers nodes.now f table.old.rows table.new.rows from }
    ensures same_length { length table.new.rows ≡ length table.old.rows }
{
    mark_up(table, nodes, from, old.touched, new.touched);
    move_hulls(table, nodes, from, old.hull, new.hull);
}

/// No branch at all.
fn nothing() -> Whole
    ensures { result ≡ rows.nothing }
{
    Whole {
        touched: 0,
        hull: Rect::EMPTY,
    }
}

/// A touched box by itself, whose hull this is.
pub(crate) fn touched_box(hull: Rect) -> Whole
    ensures { result ≡ rows.touched_box hull }
{
    Whole { touched: 1, hull }
}

/// A branch is a new child of a box.
pub(crate) fn gain(table: &mut Table, nodes: &Nodes, parent: BoxKey, whole: Whole)
    requires { CanClimb nodes.now table.old.rows parent (λ f. IsGaining table.old.rows f parent
        whole) }
    ensures right { (root : BoxKey) (f : BoxForest) → IsStanding nodes.now root f
        → has same_key parent f ≡ true → IsGaining table.old.rows f parent whole
        → IsRight table.new.rows f }
    ensures others { (root : BoxKey) (f : BoxForest) → IsStanding nodes.now root f
        → has same_key parent f ≡ true → KeepsOthers nodes.now f table.old.rows table.new.rows
        (Some parent) }
    ensures same_length { length table.new.rows ≡ length table.old.rows }
{
    add_child(table, parent);
    swap_up(table, nodes, Some(parent), nothing(), whole);
}

/// A branch is a child of a box no more.
pub(crate) fn lose(table: &mut Table, nodes: &Nodes, parent: BoxKey, whole: Whole)
    requires { CanClimb nodes.now table.old.rows parent (λ f. IsLosing table.old.rows f parent
        whole) }
    ensures right { (root : BoxKey) (f : BoxForest) → IsStanding nodes.now root f
        → has same_key parent f ≡ true → IsLosing table.old.rows f parent whole
        → IsRight table.new.rows f }
    ensures others { (root : BoxKey) (f : BoxForest) → IsStanding nodes.now root f
        → has same_key parent f ≡ true → KeepsOthers nodes.now f table.old.rows table.new.rows
        (Some parent) }
    ensures same_length { length table.new.rows ≡ length table.old.rows }
{
    drop_child(table, parent);
    swap_up(table, nodes, Some(parent), whole, nothing());
}
