//! A line by one walk along the old places: what stays keeps its order, and what is of the chain comes between.
ghost use Rattle.std.specs.Prelude.{◌≡◌, ℕ, ◌+◌, ◌-◌, ◌<◌, ◌≤◌, ◌↔◌, false, IfOk, OnOk, IsTrue, MatchOption, Some, IfSome, ◌++◌, length, slice_index_or, Contains};
ghost use Rattle.rd_graph.specs.Graphs.{IsInOrder};
ghost use Rattle.rd_graph.specs.Patches.{CanBePatched};
ghost use Rattle.rd_graph.specs.Internal.Ranks.{IsLineOf};
ghost use Rattle.rd_graph.specs.Internal.Seen.{seen};
ghost use Rattle.rd_graph.specs.Runs.{places_of};
ghost use Rattle.rd_graph.specs.Internal.Walks.{stays_at, staying, counted, from_after, led_to, walk, RisesWhere, IsBehind, IsAhead};

use crate::change::Change;
use crate::graph::Node;
use crate::runs::{Run, push_place, push_run};
use crate::stays::Stays;
use rd_keys::EntryKey;
use std::alloc::{AllocError, Global};

/// Which of so many places stay.
pub(crate) fn marks(alloc: Global, count: usize, gone: &[usize]) -> Result<Stays, AllocError>
    requires { (k : ℕ) → k < length gone.now → slice_index_or gone.now k 0 < count }
    ensures count { IfOk result (λ s. length s ≡ count) }
    ensures stays { IfOk result (λ s. (p : ℕ) → p < count → IsTrue (stays_at s p) ↔ (Contains gone.now p → ⊥)) }
{
    let mut stays = Stays::all(alloc, count)?;
    for place in gone {
        stays.take(*place);
    }
    Ok(stays)
}

/// Puts those places at the end that stay, of a stretch of places.
pub(crate) fn push_stretch(
    line: &mut Vec<Run>,
    stays: &Stays,
    from: usize,
    to: usize,
) -> Result<(), AllocError>
    requires { to ≤ length stays.now }
    ensures { OnOk result (places_of line.new.items ≡ places_of line.old.items ++ staying stays.now from (to - from)) }
{
    let mut place = from;
    while place < to {
        let first = stays.next_staying(place, to);
        let end = stays.next_gone(first, to);
        push_run(line, first, end - first, false)?;
        place = end;
    }
    Ok(())
}

/// Puts a place of the chain at the end, and before it, if it stays, those that stay since the walk stopped. An old one
/// that does not stay is set aside, since the walk does not come to its place in its order. Gives the place to go on from.
fn push_led(
    line: &mut Vec<Run>,
    stays: &Stays,
    from: usize,
    place: usize,
) -> Result<usize, AllocError>
    ensures line { OnOk result (places_of line.new.items
        ≡ places_of line.old.items ++ led_to stays.now from place) }
    ensures from { IfOk result (λ f. f ≡ from_after stays.now from place) }
{
    if stays.has(place) {
        push_stretch(line, stays, from, place)?;
        push_place(line, place, stays.len(), false)?;
        return Ok(place + 1);
    }
    push_place(line, place, stays.len(), place < stays.len())?;
    Ok(from)
}

/// The whole walk, with the places of the chain.
pub(crate) fn walked(alloc: Global, stays: &Stays, places: &[usize]) -> Result<Vec<Run>, AllocError>
    ensures { IfOk result (λ v. places_of v.items ≡ walk stays.now 0 places.now) }
{
    let mut line = Vec::new(alloc);
    let mut from = 0;
    for place in places {
        from = push_led(&mut line, stays, from, *place)?;
    }
    push_stretch(&mut line, stays, from, stays.len())?;
    Ok(line)
}

/// Where the walk goes on after a place of the chain. None if it stays and lies behind.
fn goes_on(stays: &Stays, from: usize, place: usize) -> Option<usize>
    ensures { MatchOption result (IsBehind stays.now from place) (IsAhead stays.now from place) }
{
    if stays.has(place) {
        if place < from {
            return None;
        }
        return Some(place + 1);
    }
    Some(from)
}

/// Do those places of a chain rise that stay?
pub(crate) fn rises_where(stays: &Stays, places: &[usize]) -> bool
    ensures { IsTrue result ↔ RisesWhere stays.now 0 places.now }
{
    let mut from = 0;
    for place in places {
        match goes_on(stays, from, *place) {
            Some(next) => from = next,
            None => return false,
        }
    }
    true
}

/// The line by one walk, where those places of the chain that stay rise. Else none.
pub(crate) fn walked_line(
    alloc: Global,
    nodes: &[Node],
    change: Change<'_>,
    places: &[usize],
) -> Result<Option<Vec<Run>>, AllocError>
    requires sound { IsInOrder (seen nodes.now) }
    requires can { CanBePatched change.removed.now change.chain.now change.old_places.now (seen nodes.now) }
    requires places { places.now ≡ counted (length nodes.now) change.old_places.now }
    ensures { IfOk result (λ l. IfSome l (IsLineOf change.entry.removed.now change.entry.chain.now change.entry.old_places.now (seen nodes.now))) }
{
    let stays = marks(alloc, nodes.len(), change.removed)?;
    if !rises_where(&stays, places) {
        return Ok(None);
    }
    let line = walked(alloc, &stays, places)?;
    Ok(Some(line))
}
