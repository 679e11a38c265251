//! New lists of predecessors without what a chain implies: of the names of a chain, the last one in a list comes after the others.
ghost use Rattle.std.specs.Prelude.{◌≡◌, ◌<◌, ℕ, List, Contains, length, IfOk, IsTrue, OnOk, if◌then◌else◌, [], ◌∷◌, ◌++◌};
ghost use Rattle.rd_graph.specs.Names.{place_of, same_entry};
ghost use Rattle.rd_graph.specs.Orders.{Once};
ghost use Rattle.rd_graph.specs.Internal.Patching.{lists_seen};
ghost use Rattle.rd_graph.specs.Internal.Tables.{at};
ghost use Rattle.rd_graph.specs.Internal.Trimming.{higher, highest, is_left, trimmed, all_trimmed};

use crate::asking::{marks_asked, places_asked};
use crate::before::{Name, Predecessors, nothing, push};
use crate::changing::push_list;
use crate::tables::find;
use indexmap::IndexMap;
use rd_keys::EntryKey;
use std::alloc::{AllocError, Global};

/// The higher of a place and that of a name, if it is in the chain.
fn raised(places: &IndexMap<EntryKey, usize>, top: usize, key: EntryKey) -> usize
    ensures { result ≡ higher top (at places.now key) }
{
    match find(places, key).copied() {
        Some(place) => top.max(place),
        None => top,
    }
}

/// The highest place in the chain of these names, or 0.
fn top_of(places: &IndexMap<EntryKey, usize>, keys: &[Name]) -> usize
    ensures { result ≡ highest (at places.now) 0 keys.now }
{
    let mut top = 0;
    for key in keys {
        top = raised(places, top, key.key);
    }
    top
}

/// Is a name left in a list? It is not in the chain, or at this place there.
fn stays(places: &IndexMap<EntryKey, usize>, top: usize, key: EntryKey) -> bool
    ensures { result ≡ is_left top (at places.now key) }
{
    match find(places, key).copied() {
        Some(place) => place == top,
        None => true,
    }
}

/// Puts a name at the end, if it is left.
fn push_if(keys: &mut Predecessors, stays: bool, key: EntryKey) -> Result<(), AllocError>
    ensures { OnOk result (keys.new.items ≡ keys.old.items ++ (if stays then key ∷ [] else [])) }
{
    if stays {
        push(keys, key)?;
    }
    Ok(())
}

/// What is left of a list: of the names of the chain only the last.
fn left_of(
    alloc: Global,
    places: &IndexMap<EntryKey, usize>,
    keys: &[Name],
) -> Result<Predecessors, AllocError>
    ensures { IfOk result (λ v. v.items ≡ trimmed (at places.now) keys.now) }
{
    let top = top_of(places, keys);
    let mut left = nothing(alloc);
    for key in keys {
        let stays = stays(places, top, key.key);
        push_if(&mut left, stays, key.key)?;
    }
    Ok(left)
}

/// The same. A list of one name stays as it is.
fn trim(
    alloc: Global,
    places: &IndexMap<EntryKey, usize>,
    keys: Predecessors,
) -> Result<Predecessors, AllocError>
    ensures { IfOk result (λ v. v.items ≡ trimmed (at places.now) keys.items) }
{
    if keys.len() < 2 {
        return Ok(keys);
    }
    left_of(alloc, places, &keys)
}

/// Puts a list at the end, the same of it, with the place of its node.
fn push_trimmed(
    alloc: Global,
    places: &IndexMap<EntryKey, usize>,
    all: &mut Vec<(usize, Predecessors)>,
    place: usize,
    keys: Predecessors,
) -> Result<(), AllocError>
    ensures { OnOk result (lists_seen all.new.items
        ≡ lists_seen all.old.items ++ (place, trimmed (at places.now) keys.items) ∷ []) }
{
    let keys = trim(alloc, places, keys)?;
    push_list(all, place, keys)
}

/// The same of each of these lists.
fn trim_all(
    alloc: Global,
    places: &IndexMap<EntryKey, usize>,
    lists: Vec<(usize, Predecessors)>,
) -> Result<Vec<(usize, Predecessors)>, AllocError>
    ensures { IfOk result (λ v. lists_seen v.items
        ≡ all_trimmed (at places.now) (lists_seen lists.items)) }
{
    let mut all = Vec::with_capacity(alloc, lists.len())?;
    for (place, before) in lists {
        push_trimmed(alloc, places, &mut all, place, before)?;
    }
    Ok(all)
}

/// The places in a chain of its names, at least of those that stand in a list of more than one.
fn places_in(
    alloc: Global,
    chain: &[EntryKey],
    lists: &[(usize, Predecessors)],
) -> Result<IndexMap<EntryKey, usize>, AllocError>
    requires { Once chain.now }
    ensures { IfOk result (λ t. (l : ℕ × List EntryKey) → Contains (lists_seen lists.now) l → 1 < length l.1
        → (k : EntryKey) → Contains l.1 k → at t k ≡ place_of same_entry chain.now k) }
{
    let marks = marks_asked(alloc, lists)?;
    places_asked(alloc, chain, &marks)
}

/// Has each of these lists one name at most?
fn are_short(lists: &[(usize, Predecessors)]) -> bool
    ensures { IsTrue result → (l : ℕ × List EntryKey) → Contains (lists_seen lists.now) l → length l.1 < 2 }
{
    for list in lists {
        if 1 < list.1.len() {
            return false;
        }
    }
    true
}

/// New lists of predecessors without the names that the chain implies.
pub(crate) fn trimmed(
    alloc: Global,
    chain: &[EntryKey],
    lists: Vec<(usize, Predecessors)>,
) -> Result<Vec<(usize, Predecessors)>, AllocError>
    requires { Once chain.now }
    ensures { IfOk result (λ v. lists_seen v.items
        ≡ all_trimmed (place_of same_entry chain.now) (lists_seen lists.items)) }
{
    if are_short(&lists) {
        return Ok(lists);
    }
    let places = places_in(alloc, chain, &lists)?;
    trim_all(alloc, &places, lists)
}
