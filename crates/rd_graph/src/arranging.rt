//! The line in which the nodes of a merge stand.
ghost use Rattle.std.specs.Prelude.{◌≡◌, ◌+◌, ◌<◌, ◌≤◌, ◌↔◌, ◌⊎◌, ◌≢◌, ℕ, slice_index_or, ◌∷◌, ◌++◌, ◌^◌, [], IfOk, OnOk, IsTrue, length, Contains, option_map};
ghost use Rattle.rd_graph.specs.Patches.{AreRising, CanBePatched, IsArranged};
ghost use Rattle.rd_graph.specs.Graphs.{IsInOrder};
ghost use Rattle.rd_graph.specs.Internal.Ranks.{IsLineOf};
ghost use Rattle.rd_graph.specs.Internal.Seen.{seen};
ghost use Rattle.rd_graph.specs.Runs.{places_of, up_from};
ghost use Rattle.rd_graph.specs.Internal.Walks.{counted, place_or, free_after, IsMet, RisesTo};

use crate::change::Change;
use crate::graph::{Node, OrderGraph};
use crate::ranking::ranked_line;
use crate::runs::{Run, push_run};
use crate::walking::walked_line;
use rd_keys::EntryKey;
use std::alloc::{AllocError, Global};

/// Puts the place of a name at the end, or the next free place, if it has none. Gives the next free place.
fn push_counted(
    places: &mut Vec<usize>,
    place: Option<usize>,
    next: usize,
) -> Result<usize, AllocError>
    requires { next + 1 < 2 ^ 64 }
    ensures places { OnOk result (places.new.items ≡ places.old.items ++ place_or next place ∷ []) }
    ensures next { IfOk result (λ n. n ≡ free_after next place) }
{
    match place {
        Some(place) => {
            places.push(place)?;
            Ok(next)
        }
        None => {
            places.push(next)?;
            Ok(next + 1)
        }
    }
}

/// The places of the names of a chain. Those that are not found have places after the nodes, in their order.
fn counted_places(
    alloc: Global,
    nodes: &[Node],
    found: &[Option<usize>],
) -> Result<Vec<usize>, AllocError>
    ensures { IfOk result (λ v. v.items ≡ counted (length nodes.now) found.now) }
{
    let mut places = Vec::with_capacity(alloc, found.len())?;
    let mut next = nodes.len();
    for place in found {
        next = push_counted(&mut places, *place, next)?;
    }
    Ok(places)
}

/// Do places rise below an end?
fn rises(places: &[usize], end: usize) -> bool
    ensures { IsTrue result ↔ RisesTo end 0 places.now }
{
    let mut least = 0;
    for place in places {
        if *place < least {
            return false;
        }
        if end <= *place {
            return false;
        }
        least = *place + 1;
    }
    true
}

/// How many are met, of those that are looked for one after another, when a walk comes to a place.
pub(crate) fn advance_past(gone: &[usize], met: usize, place: usize) -> usize
    ensures { IsMet gone.now met place result }
{
    if gone.len() <= met {
        return met;
    }
    if gone[met] != place {
        return met;
    }
    met + 1
}

/// Is each of these among some places? Both rise.
fn are_among(gone: &[usize], places: &[usize]) -> bool
    requires gone { AreRising gone.now }
    requires places { AreRising places.now }
    ensures { IsTrue result ↔ ((p : ℕ) → Contains gone.now p → Contains places.now p) }
{
    let mut met = 0;
    for place in places {
        met = advance_past(gone, met, *place);
    }
    if met < gone.len() {
        return false;
    }
    true
}

/// May every node of a merge stay at its place?
fn stands_still(gone: &[usize], places: &[usize], end: usize) -> bool
    requires { AreRising gone.now }
    ensures { IsTrue result ↔ (RisesTo end 0 places.now × ((p : ℕ) → Contains gone.now p → Contains places.now p)) }
{
    if !rises(places, end) {
        return false;
    }
    are_among(gone, places)
}

/// A line in which each edge of a merge goes forward: by one walk where that serves, or else by ranks.
fn moving_line(
    alloc: Global,
    nodes: &[Node],
    change: Change<'_>,
    places: &[usize],
) -> Result<Vec<Run>, AllocError>
    requires sound { IsInOrder (seen nodes.now) }
    requires can { CanBePatched change.removed.now change.chain.now change.old_places.now (seen nodes.now) }
    requires places { places.now ≡ counted (length nodes.now) change.old_places.now }
    ensures { IfOk result (IsLineOf change.entry.removed.now change.entry.chain.now change.entry.old_places.now (seen nodes.now)) }
{
    if let Some(line) = walked_line(alloc, nodes, change, places)? {
        return Ok(line);
    }
    ranked_line(alloc, nodes, change, places)
}

/// So many places from the first one on, as a run: the line of made nodes alone.
fn first_places(alloc: Global, count: usize) -> Result<Vec<Run>, AllocError>
    ensures { IfOk result (λ v. places_of v.items ≡ up_from 0 count) }
{
    let mut line = Vec::new(alloc);
    push_run(&mut line, 0, count, false)?;
    Ok(line)
}

/// The places of the nodes of a merge in an order in which each edge goes forward, as runs. None where every node may stay at its
/// place.
pub(crate) fn arrange(
    alloc: Global,
    graph: &OrderGraph,
    change: Change<'_>,
) -> Result<Option<Vec<Run>>, AllocError>
    requires { CanBePatched change.removed.now change.chain.now change.old_places.now graph.now }
    ensures { IfOk result (λ l. IsArranged change.entry.removed.now change.entry.chain.now change.entry.old_places.now graph.now (option_map (λ v. places_of v.items) l)) }
{
    let nodes: &[Node] = &graph.nodes;
    let found = change.old_places;
    if nodes.is_empty() && !found.is_empty() {
        let line = first_places(alloc, found.len())?;
        return Ok(Some(line));
    }
    let places = counted_places(alloc, nodes, found)?;
    if stands_still(change.removed, &places, nodes.len()) {
        return Ok(None);
    }
    let line = moving_line(alloc, nodes, change, &places)?;
    Ok(Some(line))
}
