//! Predecessors are resolved: what is noted of those that go comes in their place.
ghost use Rattle.std.specs.Prelude.{◌≡◌, IfOk, OnOk, Some};
ghost use Rattle.rd_graph.specs.Names.{same_entry};
ghost use Rattle.rd_graph.specs.Internal.Passes.{all_pushed};
ghost use Rattle.rd_graph.specs.Internal.Relisting.{AreMarked};
ghost use Rattle.rd_graph.specs.Internal.Tables.{fits_table};
ghost use Rattle.rd_graph.specs.Internal.Words.{in_place_by, note_at, resolved_by};

use crate::before::{Name, Predecessors};
use crate::gone::{Gone, number_of};
use crate::seen::{Seen, none_seen, push_all, push_new};
use rd_keys::EntryKey;
use std::alloc::{AllocError, Global};

/// What is noted at a number.
fn add_noted(
    alloc: Global,
    notes: &[Predecessors],
    number: usize,
    seen: &mut Seen,
) -> Result<(), AllocError>
    requires { fits_table seen.old.table seen.old.names.items }
    ensures names { OnOk result (seen.new.names.items
        ≡ all_pushed same_entry seen.old.names.items (note_at notes.now (Some number))) }
    ensures table { OnOk result (fits_table seen.new.table seen.new.names.items) }
{
    if number < notes.len() {
        return push_all(alloc, seen, &notes[number]);
    }
    Ok(())
}

/// A predecessor, or what is noted in its place where it goes.
fn add(
    alloc: Global,
    gone: &Gone,
    notes: &[Predecessors],
    seen: &mut Seen,
    key: EntryKey,
) -> Result<(), AllocError>
    requires marked { AreMarked gone.now.marks.items gone.now.names }
    requires table { fits_table seen.old.table seen.old.names.items }
    ensures names { OnOk result (seen.new.names.items
        ≡ all_pushed same_entry seen.old.names.items (in_place_by gone.now.names notes.now key)) }
    ensures table { OnOk result (fits_table seen.new.table seen.new.names.items) }
{
    match number_of(gone, key) {
        Some(number) => add_noted(alloc, notes, number, seen),
        None => push_new(alloc, seen, key),
    }
}

/// Predecessors, with what is noted in the place of those that go, each once.
pub(crate) fn resolve(
    alloc: Global,
    gone: &Gone,
    notes: &[Predecessors],
    before: &[Name],
) -> Result<Predecessors, AllocError>
    requires { AreMarked gone.now.marks.items gone.now.names }
    ensures { IfOk result (λ v. v.items ≡ resolved_by gone.now.names notes.now before.now) }
{
    let mut seen = none_seen(alloc);
    for key in before {
        add(alloc, gone, notes, &mut seen, key.key)?;
    }
    Ok(seen.names)
}
