//! The entries of a dump by the keys of their boxes.
ghost use Rattle.std.specs.Prelude.{◌≡◌, Some, IfOk, map};
ghost use Rattle.rd_tree.specs.Document.{Document, named};
ghost use Rattle.rd_check.specs.Rows.{row_of};
ghost use Rattle.rd_check.specs.Internal.Keyed as keyed;
ghost use Rattle.rd_check.specs.Internal.Lines.{row_name};
ghost use Rattle.rd_check.specs.Internal.Keyed.{shown, keyed_row, IsNamed};

use crate::around::Around;
use crate::row::{Row, What};
use rd_geom::NoMemory;
use rd_item::Leaf;
use rd_keys::{BoxKey, EntryKey};
use rd_tree::Tree;
use std::alloc::Global;
use std::sync::ledger::Ledger;

/// An entry: below how many groups it is, and a leaf or a group.
#[derive(Clone, Copy)]
pub(crate) struct Entry {
    pub(crate) depth: usize,
    pub(crate) what: Kind,
}

#[derive(Clone, Copy)]
pub(crate) enum Kind {
    Leaf(Leaf),
    Head { group: Around, entries: u64 },
}

/// The entries, or the place of the first whose id is that of no box.
#[derive(Drop)]
pub(crate) enum Named {
    Entries(Vec<Entry>),
    Unknown(usize),
}

fn entry_of(row: &Row, key: BoxKey) -> Entry
    ensures { (t : Document) → named (keyed.row_id (row_of row.now)) t.boxes ≡ Some key → shown result ≡ keyed_row t (row_of row.now) }
{
    let depth = row.depth as usize;
    let what = match row.what {
        What::Item(p) => Kind::Leaf(Leaf {
            owner: key,
            part: p.part,
            visible: p.visible,
            shape: p.shape,
            color: p.color,
            hits: p.hits,
        }),
        What::Group {
            opacity,
            blend,
            entries,
        } => Kind::Head {
            group: Around {
                key,
                opacity,
                blend,
            },
            entries,
        },
    };
    Entry { depth, what }
}

/// The entries of some lines, by the keys of a tree's boxes.
pub(crate) fn name_all<B: Ledger>(
    alloc: Global,
    tree: &Tree<B>,
    rows: &[Row],
) -> Result<Named, NoMemory>
    ensures { IfOk result (λ n. IsNamed tree.now (map row_of rows.now) n) }
{
    let mut entries = Vec::with_capacity(alloc, rows.len())?;
    for i in 0..rows.len() {
        let row = &rows[i];
        match tree.find(&row.id) {
            Some(key) => entries.push(entry_of(row, key))?,
            None => return Ok(Named::Unknown(i)),
        }
    }
    Ok(Named::Entries(entries))
}

/// The name of an entry.
pub(crate) fn name_of(entry: &Entry) -> EntryKey
    ensures { result ≡ row_name (shown entry.now) }
{
    match entry.what {
        Kind::Leaf(leaf) => EntryKey::Leaf(leaf.owner, leaf.part),
        Kind::Head { group, .. } => EntryKey::Group(group.key),
    }
}
