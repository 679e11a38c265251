//! The names of entries, and whether each stands once.
ghost use Rattle.std.specs.Prelude.{◌≡◌, ◌++◌, ◌∷◌, [], not, OnOk, IfOk, IsTrue, IsFalse, if◌then◌else◌};
ghost use Rattle.std.specs.List.{list_any};
ghost use Rattle.rd_graph.specs.Orders.{Once};
ghost use Rattle.rd_graph.specs.Names.{same_entry};
ghost use Rattle.rd_wire.specs.Wires.{names};
ghost use Rattle.rd_wire.specs.Internal.Listed.{listed};

use crate::wire::{WireEntry, WireList};
use indexmap::IndexSet;
use rd_keys::EntryKey;
use std::alloc::{AllocError, Global};

/// Notes a name. Is it new?
fn note(seen: &mut IndexSet<EntryKey>, name: EntryKey) -> Result<bool, AllocError>
    ensures fresh { IfOk result (λ r. r ≡ not (list_any (same_entry name) seen.old.keys)) }
    ensures noted { OnOk result (seen.new.keys
        ≡ (if list_any (same_entry name) seen.old.keys then seen.old.keys else seen.old.keys ++ name ∷ [])) }
{
    let fresh = seen.insert(name)?;
    Ok(fresh)
}

/// The same, said of what stands once.
fn note_once(seen: &mut IndexSet<EntryKey>, name: EntryKey) -> Result<bool, AllocError>
    ensures noted { IfOk result (λ r. IsTrue r → seen.new.keys ≡ seen.old.keys ++ name ∷ []) }
    ensures once { IfOk result (λ r. IsTrue r → Once seen.old.keys → Once seen.new.keys) }
    ensures twice { IfOk result (λ r. IsFalse r → Once (seen.old.keys ++ name ∷ []) → ⊥) }
{
    let fresh = note(seen, name)?;
    Ok(fresh)
}

/// Notes the names of a list, up to one that is noted already. Is each new?
#[cycle(noting)]
fn note_names(seen: &mut IndexSet<EntryKey>, list: &WireList) -> Result<bool, AllocError>
    ensures noted { IfOk result (λ r. IsTrue r → seen.new.keys ≡ seen.old.keys ++ names list.now) }
    ensures once { IfOk result (λ r. IsTrue r → Once seen.old.keys → Once seen.new.keys) }
    ensures twice { IfOk result (λ r. IsFalse r → Once (seen.old.keys ++ names list.now) → ⊥) }
{
    note_all(seen, &list.entries)
}

/// The same of entries, from bottom to top, those in a group after its own name.
#[cycle(noting)]
fn note_all(seen: &mut IndexSet<EntryKey>, entries: &[WireEntry]) -> Result<bool, AllocError>
    ensures noted { IfOk result (λ r. IsTrue r → seen.new.keys ≡ seen.old.keys ++ names (listed entries.now)) }
    ensures once { IfOk result (λ r. IsTrue r → Once seen.old.keys → Once seen.new.keys) }
    ensures twice { IfOk result (λ r. IsFalse r → Once (seen.old.keys ++ names (listed entries.now)) → ⊥) }
{
    for entry in entries {
        let fresh = note_entry(seen, entry)?;
        if !fresh {
            return Ok(false);
        }
    }
    Ok(true)
}

#[cycle(noting)]
fn note_entry(seen: &mut IndexSet<EntryKey>, entry: &WireEntry) -> Result<bool, AllocError>
    ensures noted { IfOk result (λ r. IsTrue r → seen.new.keys ≡ seen.old.keys ++ names (listed (entry.now ∷ []))) }
    ensures once { IfOk result (λ r. IsTrue r → Once seen.old.keys → Once seen.new.keys) }
    ensures twice { IfOk result (λ r. IsFalse r → Once (seen.old.keys ++ names (listed (entry.now ∷ []))) → ⊥) }
{
    match entry {
        WireEntry::Leaf { owner, part, .. } => note_once(seen, EntryKey::Leaf(*owner, *part)),
        WireEntry::Group { key, inner, .. } => {
            let fresh = note_once(seen, EntryKey::Group(*key))?;
            if !fresh {
                return Ok(false);
            }
            note_names(seen, inner)
        }
    }
}

/// Does each name of a list stand once?
pub(crate) fn names_differ(alloc: Global, list: &WireList) -> Result<bool, AllocError>
    ensures once { IfOk result (λ r. IsTrue r → Once (names list.now)) }
    ensures twice { IfOk result (λ r. IsFalse r → Once (names list.now) → ⊥) }
{
    let mut seen = IndexSet::with_capacity(alloc, list.entries.len())?;
    note_names(&mut seen, list)
}
