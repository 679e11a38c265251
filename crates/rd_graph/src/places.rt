//! The places of the names of a level.
ghost use Rattle.std.specs.Prelude.{◌≡◌, IfOk};
ghost use Rattle.rd_graph.specs.Names.{place_of, same_entry};
ghost use Rattle.rd_graph.specs.Orders.{Once};

use crate::tables::{find, places};
use indexmap::IndexMap;
use rd_keys::EntryKey;
use std::alloc::{AllocError, Global};
use std::marker::Model;

/// Names that differ, each with its place.
#[derive(Drop)]
pub struct Places {
    names: Vec<EntryKey>,
    table: IndexMap<EntryKey, usize>,
}

impl Model for Places {
    ghost use Rattle.std.specs.Prelude.{◌≡◌, List};
    ghost use Rattle.rd_keys.specs.declared.entry.EntryKey.{EntryKey};
    ghost use Rattle.rd_graph.specs.Internal.Tables.{at};
    ghost use Rattle.rd_graph.specs.Names.{place_of, same_entry};

    ghost Value = { List EntryKey };

    ghost view = { λ p. p.names.items };

    ghost invariant = { λ p. (k : EntryKey) → at p.table k ≡ place_of same_entry p.names.items k };
}

impl Places {
    /// The places of these names.
    pub fn new(alloc: Global, names: Vec<EntryKey>) -> Result<Places, AllocError>
        requires { Once names.items }
        ensures { IfOk result (λ p. p ≡ names.items) }
    {
        let table = places(alloc, &names, 0)?;
        Ok(Places { names, table })
    }

    /// The place of a name. None exactly where it is not one of them.
    pub fn find(&self, name: EntryKey) -> Option<usize>
        ensures { result ≡ place_of same_entry self.now name }
    {
        find(&self.table, name).copied()
    }
}
