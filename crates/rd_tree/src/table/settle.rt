//! Marks are taken off where they are.
ghost use Rattle.std.specs.Prelude.{◌≡◌, ◌<◌, ◌==◌, is_some, length, None, if◌then◌else◌, true};
ghost use Rattle.rd_keys.specs.Arena.{value};
ghost use Rattle.rd_keys.specs.Keys.{same_key};
ghost use Rattle.rd_tree.specs.Forest.{has};
ghost use Rattle.rd_tree.specs.Touching.{settled};
ghost use Rattle.rd_tree.specs.Internal.Links.{child_and_sibling, edit, on_each, with_item};
ghost use Rattle.rd_tree.specs.Internal.Linked.{Relinks, IsRead, linked, seen_from};
ghost use Rattle.rd_tree.specs.Hulls.{touched_in};
ghost use Rattle.rd_tree.specs.Internal.Rows.{HasRows, touched_under};
ghost use Rattle.rd_tree.specs.Internal.Settles.{HasCounts, Unmarks};

use crate::held::Nodes;
use crate::table::row::{row_at, unmark};
use crate::table::rows::Table;
use rd_keys::BoxKey;

/// The box, where some of these marks are left.
#[inline(always)]
fn where_left(left: u32, at: Option<BoxKey>) -> Option<BoxKey>
    ensures { result ≡ (if left == 0 then None else at) }
{
    if left == 0 { None } else { at }
}

/// A box whose mark was taken off: its first child, its next sibling, and 1 if it was touched.
#[derive(Clone, Copy)]
struct Settled {
    first: Option<BoxKey>,
    next: Option<BoxKey>,
    own: u32,
}

/// Takes the mark off a box, whose node is opened only where it is touched.
#[inline(always)]
fn settle_on(nodes: &mut Nodes, key: BoxKey) -> Settled
    requires live { is_some (value nodes.old key.slot key.generation) ≡ true }
    ensures worked { Relinks nodes.old nodes.new (edit same_key key (with_item settled)
        (linked nodes.old)) }
    ensures onward { (result.first, result.next) ≡ child_and_sibling (linked nodes.old key) }
    ensures own { result.own ≡ touched_under (linked nodes.old key) }
{
    let glance = nodes.glance_at_live(key);
    if glance.touched {
        nodes.settle(key);
    }
    Settled {
        first: glance.first,
        next: glance.next,
        own: u32::from(glance.touched),
    }
}

/// Takes so many marks off some siblings and off those below them, where there are any.
#[cycle(settling)]
#[inline(always)]
fn settle_below(nodes: &mut Nodes, table: &mut Table, first: Option<BoxKey>, marks: u32)
    requires read { IsRead nodes.old first }
    requires has_rows { HasRows table.old.rows (seen_from nodes.old first) }
    requires counted { HasCounts table.old.rows (seen_from nodes.old first) }
    requires marks { marks ≡ touched_in (seen_from nodes.old first) }
    ensures settled { Relinks nodes.old nodes.new (on_each (λ j. has same_key j
        (seen_from nodes.old first)) settled (linked nodes.old)) }
    ensures rows { Unmarks nodes.old table.old.rows table.new.rows (seen_from nodes.old first) }
    ensures same_length { length table.new.rows ≡ length table.old.rows }
{
    match first {
        Some(_) => settle_from(nodes, table, first, marks),
        None => {}
    }
}

/// Takes so many marks off a box, off those below it, and off its later siblings with theirs; these are all that they have.
/// Goes below a box only where one of those there is touched, and to no sibling once all marks are off.
#[cycle(settling)]
pub(crate) fn settle_from(nodes: &mut Nodes, table: &mut Table, first: Option<BoxKey>, marks: u32)
    requires read { IsRead nodes.old first }
    requires has_rows { HasRows table.old.rows (seen_from nodes.old first) }
    requires counted { HasCounts table.old.rows (seen_from nodes.old first) }
    requires marks { marks ≡ touched_in (seen_from nodes.old first) }
    ensures settled { Relinks nodes.old nodes.new (on_each (λ j. has same_key j
        (seen_from nodes.old first)) settled (linked nodes.old)) }
    ensures rows { Unmarks nodes.old table.old.rows table.new.rows (seen_from nodes.old first) }
    ensures same_length { length table.new.rows ≡ length table.old.rows }
{
    let mut left = marks;
    let mut at = where_left(left, first);
    while let Some(key) = at {
        if let Some(next) = nodes.after_page(key) {
            at = next;
            continue;
        }
        let marks_below = row_at(table, key).touched;
        let here = settle_on(nodes, key);
        if here.own == 0 && marks_below == 0 {
            at = here.next;
            continue;
        }
        let below = where_left(marks_below, here.first);
        settle_below(nodes, table, below, marks_below);
        unmark(table, key, marks_below);
        left -= here.own + marks_below;
        if left == 0 {
            return;
        }
        at = here.next;
    }
}
