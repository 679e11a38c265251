//! Tables of names.
ghost use Rattle.std.specs.Prelude.{◌≡◌, OnOk, is_some};
ghost use Rattle.rd_graph.specs.Internal.Tables.{at};
ghost use Rattle.rd_graph.specs.Internal.Words.{IsPut};

use indexmap::IndexMap;
use rd_geom::NoMemory;
use rd_keys::EntryKey;

/// Is it one of the names?
pub(crate) fn has(names: &IndexMap<EntryKey, usize>, name: EntryKey) -> bool
    ensures { result ≡ is_some (at names.now name) }
{
    names.get(&name).is_some()
}

/// Adds a name.
pub(crate) fn put(
    names: &mut IndexMap<EntryKey, usize>,
    name: EntryKey,
    place: usize,
) -> Result<(), NoMemory>
    ensures { OnOk result (IsPut name place names.old names.new) }
{
    names.insert(name, place)?;
    Ok(())
}
