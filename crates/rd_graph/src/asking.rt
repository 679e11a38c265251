//! The places of those names of a chain that lists of predecessors ask for.
ghost use Rattle.std.specs.Prelude.{◌≡◌, ℕ, ◌<◌, IfOk, OnOk, Contains, length, slice_index_or, false};
ghost use Rattle.rd_graph.specs.Names.{place_of, same_entry};
ghost use Rattle.rd_graph.specs.Orders.{Once};
ghost use Rattle.rd_graph.specs.Internal.Patching.{lists_seen};
ghost use Rattle.rd_graph.specs.Internal.Relisting.{mark_of};
ghost use Rattle.rd_graph.specs.Internal.Tables.{at};
ghost use Rattle.rd_graph.specs.Internal.Trimming.{AreAsked, HasMark, KeepsMarks};
ghost use Rattle.rd_graph.specs.Internal.Words.{IsPut};

use crate::before::{Name, Predecessors};
use crate::gone::mark_of;
use crate::tables::put;
use indexmap::IndexMap;
use rd_keys::EntryKey;
use std::alloc::{AllocError, Global};

/// Sets the marks of these names.
fn mark_names(marks: &mut Vec<bool>, names: &[Name])
    requires { length marks.old.items ≡ 2048 }
    ensures whole { length marks.new.items ≡ 2048 }
    ensures kept { KeepsMarks marks.old.items marks.new.items }
    ensures marked { (k : EntryKey) → Contains names.now k → HasMark marks.new.items k }
{
    for name in names {
        marks[mark_of(&name.key)] = true;
    }
}

/// Sets the marks of the names of a list that has more than one.
fn mark_list(marks: &mut Vec<bool>, names: &[Name])
    requires { length marks.old.items ≡ 2048 }
    ensures whole { length marks.new.items ≡ 2048 }
    ensures kept { KeepsMarks marks.old.items marks.new.items }
    ensures marked { 1 < length names.now → (k : EntryKey) → Contains names.now k → HasMark marks.new.items k }
{
    if names.len() < 2 {
        return;
    }
    mark_names(marks, names);
}

/// The marks of the names of those lists that have more than one.
pub(crate) fn marks_asked(
    alloc: Global,
    lists: &[(usize, Predecessors)],
) -> Result<Vec<bool>, AllocError>
    ensures { IfOk result (λ v. AreAsked (lists_seen lists.now) v.items) }
{
    let mut marks = vec![in alloc; false; 2048]?;
    for list in lists {
        mark_list(&mut marks, &list.1);
    }
    Ok(marks)
}

/// Has a name its mark?
fn is_marked(marks: &[bool], name: &EntryKey) -> bool
    ensures { result ≡ slice_index_or marks.now (mark_of name.now) false }
{
    match marks.get(mark_of(name)) {
        Some(mark) => *mark,
        None => false,
    }
}

/// From now on the table has this at the key, if the key has its mark.
fn put_asked(
    table: &mut IndexMap<EntryKey, usize>,
    marks: &[bool],
    key: EntryKey,
    place: usize,
) -> Result<(), AllocError>
    ensures put { OnOk result (HasMark marks.now key → IsPut key place table.old table.new) }
    ensures kept { OnOk result (slice_index_or marks.now (mark_of key) false ≡ false
        → (k : EntryKey) → at table.new k ≡ at table.old k) }
{
    if is_marked(marks, &key) {
        put(table, key, place)?;
        return Ok(());
    }
    Ok(())
}

/// The places of those names of a chain that have their mark.
pub(crate) fn places_asked(
    alloc: Global,
    chain: &[EntryKey],
    marks: &[bool],
) -> Result<IndexMap<EntryKey, usize>, AllocError>
    requires { Once chain.now }
    ensures { IfOk result (λ t. (k : EntryKey) → HasMark marks.now k → at t k ≡ place_of same_entry chain.now k) }
{
    let mut table = IndexMap::new(alloc);
    for (i, key) in chain.iter().enumerate() {
        put_asked(&mut table, marks, *key, i)?;
    }
    Ok(table)
}
