//! A search among siblings by the rows that stand beside their nodes.
ghost use Rattle.std.specs.Prelude.{◌≡◌, ℕ, ◌+◌, ◌-◌, ◌<◌, ◌≤◌, is_some, length, true, false};
ghost use Rattle.std.specs.Option.{option_map_or};
ghost use Rattle.rd_keys.specs.Arena.{value};
ghost use Rattle.rd_keys.specs.Keys.{same_key};
ghost use Rattle.rd_tree.specs.Forest.{from_some};
ghost use Rattle.rd_tree.specs.Seeking.{siblings_from, looks_until, hull_reaches};
ghost use Rattle.rd_tree.specs.Seeking as seeking;
ghost use Rattle.rd_tree.specs.Internal.Calm.{place_on};
ghost use Rattle.rd_tree.specs.Internal.Linked.{IsTree, seen};
ghost use Rattle.rd_tree.specs.Internal.Rows.{IsTabled};
ghost use Rattle.rd_tree.specs.Internal.Summaries.{row_at};

use crate::held::Nodes;
use crate::table::cells::reach_of;
use crate::table::row::row_of;
use crate::table::rows::Table;
use crate::view::reaches;
use rd_geom::{Rect, Steps};
use rd_keys::BoxKey;
use std::sync::ledger::Ledger;

/// So many looks are counted.
#[inline(always)]
pub(crate) fn tick_times<B: Ledger>(steps: &mut Steps<B>, times: usize)
    ensures { steps.new ≡ steps.old + times }
{
    for _ in 0..times {
        steps.tick();
    }
}

/// In a page that is known to be calm, from a box on: the box of a slot, or the sibling after the last box before it.
#[inline(always)]
fn sibling_in(nodes: &Nodes, key: BoxKey, slot: usize) -> Option<BoxKey>
    requires from { key.slot ≤ slot }
    requires end { slot ≤ length nodes.now.slots }
    ensures { result ≡ place_on nodes.now key (slot - key.slot) }
{
    if slot == key.slot() as usize {
        Some(key)
    } else {
        nodes.next_at(slot - 1)
    }
}

/// The first of some siblings, from one on, whose hull reaches into a rectangle; in calm pages, by the cells of rows. Each look is
/// counted once.
#[inline(never)]
fn pass_by_cells<B: Ledger>(
    nodes: &Nodes,
    table: &Table,
    root: BoxKey,
    first: Option<BoxKey>,
    rect: &Rect,
    steps: &mut Steps<B>,
) -> Option<BoxKey>
    requires tree { IsTree nodes.now root }
    requires tabled { IsTabled nodes.now table.now.rows (seen nodes.now root) }
    requires live { option_map_or (λ k. is_some (value nodes.now k.slot k.generation)) first true ≡ true }
    ensures found { from_some same_key result (seen nodes.now root)
        ≡ siblings_from (hull_reaches rect.now) (from_some same_key first (seen nodes.now root)) }
    ensures live { option_map_or (λ k. is_some (value nodes.now k.slot k.generation)) result true ≡ true }
    ensures ticks { steps.new ≡ steps.old
        + looks_until (hull_reaches rect.now) (from_some same_key first (seen nodes.now root)) }
{
    let reach = reach_of(rect);
    let mut at = first;
    while let Some(key) = at {
        let run = nodes.run_from(key);
        if run > 0 {
            let start = key.slot() as usize;
            let end = start + run;
            let stop = table.far_reaching(start, end, rect, &reach);
            tick_times(steps, stop - start);
            at = sibling_in(nodes, key, stop);
            if stop < end {
                steps.tick();
                return at;
            }
            continue;
        }
        steps.tick();
        let row = row_of(table, key);
        if reaches(rect, &row.hull) {
            return Some(key);
        }
        at = nodes.glance_at_live(key).next;
    }
    None
}

/// How many hulls in a calm page are compared before cells are asked.
const FEW: usize = 16;

/// The same, where it is likely one of the next ones.
#[inline(never)]
fn pass_to_hull<B: Ledger>(
    nodes: &Nodes,
    table: &Table,
    root: BoxKey,
    first: Option<BoxKey>,
    rect: &Rect,
    steps: &mut Steps<B>,
) -> Option<BoxKey>
    requires tree { IsTree nodes.now root }
    requires tabled { IsTabled nodes.now table.now.rows (seen nodes.now root) }
    requires live { option_map_or (λ k. is_some (value nodes.now k.slot k.generation)) first true ≡ true }
    ensures found { from_some same_key result (seen nodes.now root)
        ≡ siblings_from (hull_reaches rect.now) (from_some same_key first (seen nodes.now root)) }
    ensures live { option_map_or (λ k. is_some (value nodes.now k.slot k.generation)) result true ≡ true }
    ensures ticks { steps.new ≡ steps.old
        + looks_until (hull_reaches rect.now) (from_some same_key first (seen nodes.now root)) }
{
    match first {
        Some(key) => {
            let start = key.slot() as usize;
            let end = start + nodes.run_from(key).min(FEW);
            let stop = table.first_reaching(start, end, rect);
            tick_times(steps, stop - start);
            let at = sibling_in(nodes, key, stop);
            if stop < end {
                steps.tick();
                return at;
            }
            pass_by_cells(nodes, table, root, at, rect, steps)
        }
        None => None,
    }
}

/// The same, where it is likely the first one. The search beyond it reads a copy of the rectangle, so that whoever asks again
/// and again keeps its own in registers.
#[inline(always)]
pub(crate) fn first_in_reach<B: Ledger>(
    nodes: &Nodes,
    table: &Table,
    root: BoxKey,
    first: Option<BoxKey>,
    rect: &Rect,
    steps: &mut Steps<B>,
) -> Option<BoxKey>
    requires tree { IsTree nodes.now root }
    requires tabled { IsTabled nodes.now table.now.rows (seen nodes.now root) }
    requires live { option_map_or (λ k. is_some (value nodes.now k.slot k.generation)) first true ≡ true }
    ensures found { from_some same_key result (seen nodes.now root)
        ≡ siblings_from (hull_reaches rect.now) (from_some same_key first (seen nodes.now root)) }
    ensures live { option_map_or (λ k. is_some (value nodes.now k.slot k.generation)) result true ≡ true }
    ensures ticks { steps.new ≡ steps.old
        + looks_until (hull_reaches rect.now) (from_some same_key first (seen nodes.now root)) }
{
    match first {
        Some(key) => {
            let glance = nodes.glance_at_live(key);
            steps.tick();
            let row = row_of(table, key);
            if reaches(rect, &row.hull) {
                Some(key)
            } else {
                let apart = *rect;
                pass_to_hull(nodes, table, root, glance.next, &apart, steps)
            }
        }
        None => None,
    }
}
