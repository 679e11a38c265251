//! A climb from the predecessors of a node along theirs, which finds the ones that others imply.
ghost use Rattle.std.specs.Prelude.{◌≡◌, ◌<◌, IfOk, OnOk, Some, length};
ghost use Rattle.rd_graph.specs.Graphs.{nodes as nodes_of};
ghost use Rattle.rd_graph.specs.Names.{place_of, same_entry};
ghost use Rattle.rd_graph.specs.Internal.Seen.{seen};
ghost use Rattle.rd_graph.specs.Internal.Thinning.{AreImplied, AddsOf, AddsBefore, MayAdd};

use crate::before::{Name, Predecessors, copied, is_among, nothing, push};
use crate::graph::Node;
use crate::places::Places;
use rd_keys::EntryKey;
use std::alloc::{AllocError, Global};

/// How many nodes a climb looks at. What it has not found by then stays.
const STEPS: usize = 64;

/// The names that a climb has still to go on from, in their order, and those of its list that it found.
#[derive(Drop)]
struct Climb {
    left: Predecessors,
    found: Predecessors,
}

/// Puts a name at the end of those that are found, if it is in a list, or else of those that are still looked at.
fn sort_one(list: &[Name], key: EntryKey, climb: &mut Climb) -> Result<(), AllocError>
    ensures left { OnOk result (MayAdd key climb.old.left.items climb.new.left.items) }
    ensures found { OnOk result (MayAdd key climb.old.found.items climb.new.found.items) }
{
    if is_among(list, key) {
        push(&mut climb.found, key)?;
        return Ok(());
    }
    push(&mut climb.left, key)?;
    Ok(())
}

/// The same for the predecessors of a node.
fn sort_out(list: &[Name], before: &[Name], climb: &mut Climb) -> Result<(), AllocError>
    ensures left { OnOk result (AddsOf before.now climb.old.left.items climb.new.left.items) }
    ensures found { OnOk result (AddsOf before.now climb.old.found.items climb.new.found.items) }
{
    for key in before {
        sort_one(list, key.key, climb)?;
    }
    Ok(())
}

/// Goes on from the name at a place to the predecessors of its node.
fn go_on_at(
    nodes: &[Node],
    list: &[Name],
    key: EntryKey,
    place: usize,
    climb: &mut Climb,
) -> Result<(), AllocError>
    requires within { place < length nodes.now }
    requires named { Some place ≡ place_of same_entry (nodes_of (seen nodes.now)) key }
    ensures left { OnOk result (AddsBefore (seen nodes.now) key climb.old.left.items climb.new.left.items) }
    ensures found { OnOk result (AddsBefore (seen nodes.now) key climb.old.found.items climb.new.found.items) }
{
    let node = &nodes[place];
    sort_out(list, &node.before, climb)?;
    Ok(())
}

/// Goes on from a name to the predecessors of its node, if it stands after the lowest place.
fn go_on(
    nodes: &[Node],
    places: &Places,
    list: &[Name],
    lowest: usize,
    key: EntryKey,
    climb: &mut Climb,
) -> Result<(), AllocError>
    requires { places.now ≡ nodes_of (seen nodes.now) }
    ensures left { OnOk result (AddsBefore (seen nodes.now) key climb.old.left.items climb.new.left.items) }
    ensures found { OnOk result (AddsBefore (seen nodes.now) key climb.old.found.items climb.new.found.items) }
{
    match places.find(key) {
        Some(place) => {
            if place <= lowest {
                return Ok(());
            }
            go_on_at(nodes, list, key, place, climb)?;
            Ok(())
        }
        None => Ok(()),
    }
}

/// The lower of a place and that of a name, if it has one.
fn lower(places: &Places, lowest: usize, key: EntryKey) -> usize {
    match places.find(key) {
        Some(place) => lowest.min(place),
        None => lowest,
    }
}

/// The lowest place of these names, or the given one. A climb need not go below it.
fn lowest_of(places: &Places, end: usize, list: &[Name]) -> usize {
    let mut lowest = end;
    for key in list {
        lowest = lower(places, lowest, key.key);
    }
    lowest
}

/// Of a list of predecessors those that a climb from all of them finds: each reaches another one of the list.
pub(crate) fn implied(
    alloc: Global,
    nodes: &[Node],
    places: &Places,
    list: &[Name],
) -> Result<Predecessors, AllocError>
    requires { places.now ≡ nodes_of (seen nodes.now) }
    ensures { IfOk result (λ v. AreImplied (seen nodes.now) list.now v.items) }
{
    let lowest = lowest_of(places, nodes.len(), list);
    let left = copied(alloc, list)?;
    let found = nothing(alloc);
    let mut climb = Climb { left, found };
    for step in 0..STEPS {
        if climb.left.len() <= step {
            return Ok(climb.found);
        }
        if list.len().saturating_sub(climb.found.len()) <= 1 {
            return Ok(climb.found);
        }
        let name = climb.left[step];
        go_on(nodes, places, list, lowest, name.key, &mut climb)?;
    }
    Ok(climb.found)
}
