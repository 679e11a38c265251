//! Names that are seen, each once: a list, and a table of them where there are more than a few.
ghost use Rattle.std.specs.Prelude.{◌≡◌, [], ◌∷◌, ◌++◌, IfOk, List, OnOk};
ghost use Rattle.rd_keys.specs.declared.entry.EntryKey.{EntryKey};
ghost use Rattle.rd_graph.specs.Names.{is_in, same_entry};
ghost use Rattle.rd_graph.specs.Internal.Passes.{all_pushed, pushed};
ghost use Rattle.rd_graph.specs.Internal.Tables.{fits_list, fits_table};

use crate::before::{Name, Predecessors, is_among, nothing, push};
use crate::tables::{has, put};
use indexmap::IndexMap;
use rd_keys::EntryKey;
use std::alloc::{AllocError, Global};

/// So many names are compared with each other; of more there is a table.
const FEW: usize = 4;

/// Names that differ, in their order. Where there are more than a few, there is a table of them.
#[derive(Drop)]
pub(crate) struct Seen {
    pub(crate) names: Predecessors,
    pub(crate) table: Option<IndexMap<EntryKey, usize>>,
}

/// As yet no name is seen.
pub(crate) fn none_seen(alloc: Global) -> Seen
    ensures names { result.names.items ≡ [] }
    ensures table { fits_table result.table result.names.items }
{
    Seen {
        names: nothing(alloc),
        table: None,
    }
}

/// Is a name seen?
fn is_seen(seen: &Seen, key: EntryKey) -> bool
    requires { fits_table seen.now.table seen.now.names.items }
    ensures { result ≡ is_in same_entry seen.now.names.items key }
{
    match &seen.table {
        Some(table) => has(table, key),
        None => is_among(&seen.names, key),
    }
}

/// A table of names.
fn table_of(alloc: Global, names: &[Name]) -> Result<IndexMap<EntryKey, usize>, AllocError>
    ensures { IfOk result (λ t. fits_list t names.now) }
{
    let mut table = IndexMap::new(alloc);
    for name in names {
        put(&mut table, name.key, 0)?;
    }
    Ok(table)
}

/// The last of some names comes into the table of those before it. A table is made where there are more than a few.
fn put_last(
    alloc: Global,
    table: &mut Option<IndexMap<EntryKey, usize>>,
    names: &[Name],
    key: EntryKey,
) -> Result<(), AllocError>
    ensures { (before : List EntryKey) → fits_table table.old before → names.now ≡ before ++ key ∷ []
        → OnOk result (fits_table table.new names.now) }
{
    if let Some(table) = table {
        return put(table, key, 0);
    }
    if FEW < names.len() {
        *table = Some(table_of(alloc, names)?);
    }
    Ok(())
}

/// Puts a name at the end, if it is not seen yet.
pub(crate) fn push_new(alloc: Global, seen: &mut Seen, key: EntryKey) -> Result<(), AllocError>
    requires { fits_table seen.old.table seen.old.names.items }
    ensures names { OnOk result (seen.new.names.items ≡ pushed same_entry seen.old.names.items key) }
    ensures table { OnOk result (fits_table seen.new.table seen.new.names.items) }
{
    if is_seen(seen, key) {
        return Ok(());
    }
    push(&mut seen.names, key)?;
    put_last(alloc, &mut seen.table, &seen.names, key)
}

/// Puts names at the end, those that are not seen yet.
pub(crate) fn push_all(alloc: Global, seen: &mut Seen, more: &[Name]) -> Result<(), AllocError>
    requires { fits_table seen.old.table seen.old.names.items }
    ensures names { OnOk result (seen.new.names.items ≡ all_pushed same_entry seen.old.names.items more.now) }
    ensures table { OnOk result (fits_table seen.new.table seen.new.names.items) }
{
    for key in more {
        push_new(alloc, seen, key.key)?;
    }
    Ok(())
}
