//! The rows of the table of a tree.
ghost use Rattle.std.specs.Prelude.{◌≡◌, ◌+◌, ◌-◌, ◌<◌, ◌≤◌, ◌⊎◌, length};
ghost use Rattle.rd_tree.specs.Forest.{empty};
ghost use Rattle.rd_tree.specs.Internal.Summaries.{summary_first, summary_at};
ghost use Rattle.rd_tree.specs.Internal.Cells.{HasRowRoom};
ghost use Rattle.rd_tree.specs.Internal.Rows.{Puts, IsMarkable, alone, with_child_count, with_hull, marked, unmarked};

use crate::table::rows::Table;
use rd_geom::Rect;
use rd_keys::BoxKey;

/// How many children a box has, how many touched boxes are below it, and the hull of it and all below it.
#[derive(Clone, Copy)]
pub struct Summary {
    pub children: u32,
    pub touched: u32,
    pub hull: Rect,
}

/// Of no box at all.
pub(crate) fn none() -> Summary
    ensures { result ≡ summary_first empty }
{
    Summary {
        children: 0,
        touched: 0,
        hull: Rect::EMPTY,
    }
}

/// Of a box without children, whose hull this is.
pub(crate) fn summary_alone(hull: Rect) -> Summary
    ensures { result ≡ alone hull }
{
    Summary {
        children: 0,
        touched: 0,
        hull,
    }
}

/// The row of a box.
#[inline(always)]
pub(crate) fn row_at(table: &Table, key: BoxKey) -> Summary
    requires { key.slot < length table.now.rows }
    ensures { result ≡ summary_at table.now.rows key }
{
    *table.at(key.slot() as usize)
}

/// The row of a box, where it stands.
#[inline(always)]
pub(crate) fn row_of(table: &Table, key: BoxKey) -> &Summary
    requires { key.slot < length table.now.rows }
    ensures { result.now ≡ summary_at table.now.rows key }
{
    table.at(key.slot() as usize)
}

/// Writes the row of a slot that has one.
pub(crate) fn write(table: &mut Table, key: BoxKey, row: Summary)
    requires { key.slot < length table.old.rows }
    ensures rows { Puts table.old.rows table.new.rows key row }
    ensures same_length { length table.new.rows ≡ length table.old.rows }
{
    table.write(key.slot() as usize, row);
}

/// Writes the row of a slot that has one, or of the next one.
pub(crate) fn put(table: &mut Table, key: BoxKey, row: Summary)
    requires { (key.slot < length table.old.rows) ⊎ ((key.slot ≡ length table.old.rows)
        × (HasRowRoom table.old)) }
    ensures rows { Puts table.old.rows table.new.rows key row }
    ensures there { key.slot < length table.new.rows }
    ensures longer { length table.old.rows ≤ length table.new.rows }
    ensures by_one { length table.new.rows ≤ length table.old.rows + 1 }
{
    if (key.slot() as usize) < table.len() {
        write(table, key, row);
    } else {
        table.push(row);
    }
}

/// One child more.
pub(crate) fn add_child(table: &mut Table, key: BoxKey)
    requires here { key.slot < length table.old.rows }
    requires few { (summary_at table.old.rows key).children < 4294967295 }
    ensures rows { Puts table.old.rows table.new.rows key (with_child_count ((summary_at
        table.old.rows key).children + 1) (summary_at table.old.rows key)) }
    ensures same_length { length table.new.rows ≡ length table.old.rows }
{
    let mut row = row_at(table, key);
    row.children += 1;
    write(table, key, row);
}

/// One child less.
pub(crate) fn drop_child(table: &mut Table, key: BoxKey)
    requires here { key.slot < length table.old.rows }
    requires some { 0 < (summary_at table.old.rows key).children }
    ensures rows { Puts table.old.rows table.new.rows key (with_child_count ((summary_at
        table.old.rows key).children - 1) (summary_at table.old.rows key)) }
    ensures same_length { length table.new.rows ≡ length table.old.rows }
{
    let mut row = row_at(table, key);
    row.children -= 1;
    write(table, key, row);
}

/// So many touched boxes less below a box, and so many more.
pub(crate) fn mark(table: &mut Table, key: BoxKey, less: u32, more: u32)
    requires here { key.slot < length table.old.rows }
    requires markable { IsMarkable less more (summary_at table.old.rows key) }
    ensures rows { Puts table.old.rows table.new.rows key (marked less more (summary_at
        table.old.rows key)) }
    ensures same_length { length table.new.rows ≡ length table.old.rows }
{
    let mut row = row_at(table, key);
    row.touched = row.touched - less + more;
    write(table, key, row);
}

/// Gives a box another hull.
pub(crate) fn put_hull(table: &mut Table, key: BoxKey, hull: Rect)
    requires { key.slot < length table.old.rows }
    ensures rows { Puts table.old.rows table.new.rows key (with_hull hull (summary_at
        table.old.rows key)) }
    ensures same_length { length table.new.rows ≡ length table.old.rows }
{
    let mut row = row_at(table, key);
    row.hull = hull;
    write(table, key, row);
}

/// No touched box is below a box any more, below which there were so many.
#[inline(always)]
pub(crate) fn unmark(table: &mut Table, key: BoxKey, were: u32)
    requires here { key.slot < length table.old.rows }
    requires were { (summary_at table.old.rows key).touched ≡ were }
    ensures rows { Puts table.old.rows table.new.rows key (unmarked (summary_at table.old.rows
        key)) }
    ensures same_length { length table.new.rows ≡ length table.old.rows }
{
    if were > 0 {
        table.unmark(key.slot() as usize);
    }
}
