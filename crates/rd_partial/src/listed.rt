//! What a list that was painted before shows of touched boxes.
ghost use Rattle.std.specs.Prelude.{◌≡◌, ◌∷◌, [], IsTrue, OnOk, false};
ghost use Rattle.rd_keys.specs.Keys.{BoxKey as Box};
ghost use Rattle.rd_keys.specs.Ranges.{IsAmong};
ghost use Rattle.rd_list.specs.Blocks.{AreBlocked};
ghost use Rattle.rd_list.specs.Chunks.{Covers, Tells};
ghost use Rattle.rd_list.specs.EntryNames.{kept_leaves};
ghost use Rattle.rd_list.specs.KeptView.{kept_entries};
ghost use Rattle.rd_tree.specs.Document.{is_touched};
ghost use Rattle.rd_partial.specs.Invalid.{any_shows};
ghost use Rattle.rd_partial.specs.Internal.Touched.{Joins};

use rd_area::Area;
use rd_geom::NoMemory;
use rd_list::{Blocked, Chunk, Entry, Kept};
use rd_tree::Tree;
use std::sync::ledger::Ledger;

/// Adds what may be seen of the leaves of touched boxes in a list, and in its groups.
#[cycle(listing)]
pub(crate) fn add_list<A: Ledger, B: Ledger>(
    tree: &Tree<B>,
    area: &mut Area,
    list: &Kept<A>,
) -> Result<(), NoMemory>
    ensures { OnOk result (Joins (any_shows tree.now (kept_leaves list.now.entries)) area.old area.new) }
{
    add_level(tree, area, list.blocked())
}

/// The same of a level, block by block.
#[cycle(listing)]
fn add_level<A: Ledger, B: Ledger>(
    tree: &Tree<B>,
    area: &mut Area,
    level: Blocked<'_, A>,
) -> Result<(), NoMemory>
    requires { AreBlocked level }
    ensures { OnOk result (Joins (any_shows tree.now (kept_leaves (kept_entries level.entry.entries.now))) area.old area.new) }
{
    let entries = level.entries;
    let mut place = 0;
    for (i, block) in level.blocks.iter().enumerate() {
        let end = place + block.count;
        add_block(
            tree,
            area,
            block,
            level.eight(i, place),
            &entries[place..end],
        )?;
        place = end;
    }
    add_chunks(tree, area, level.rest(place), &entries[place..])
}

/// The same of the entries of a block, whose chunks are given.
#[cycle(listing)]
fn add_block<A: Ledger, B: Ledger>(
    tree: &Tree<B>,
    area: &mut Area,
    block: &Chunk,
    eight: &[Chunk],
    entries: &[Entry<A>],
) -> Result<(), NoMemory>
    requires told { block.now.is_open ≡ false → Tells block.now entries.now }
    requires covers { Covers eight.now entries.now }
    ensures { OnOk result (Joins (any_shows tree.now (kept_leaves (kept_entries entries.now))) area.old area.new) }
{
    if is_quiet(tree, block) {
        return Ok(());
    }
    add_chunks(tree, area, eight, entries)
}

/// The same of entries, chunk by chunk.
#[cycle(listing)]
fn add_chunks<A: Ledger, B: Ledger>(
    tree: &Tree<B>,
    area: &mut Area,
    chunks: &[Chunk],
    entries: &[Entry<A>],
) -> Result<(), NoMemory>
    requires { Covers chunks.now entries.now }
    ensures { OnOk result (Joins (any_shows tree.now (kept_leaves (kept_entries entries.now))) area.old area.new) }
{
    let mut place = 0;
    for chunk in chunks {
        let end = place + chunk.count;
        add_chunk(tree, area, chunk, &entries[place..end])?;
        place = end;
    }
    add_entries(tree, area, &entries[place..])?;
    Ok(())
}

/// Is no box of the chunk touched?
#[inline(always)]
fn is_quiet<B: Ledger>(tree: &Tree<B>, chunk: &Chunk) -> bool
    ensures open { IsTrue result → chunk.now.is_open ≡ false }
    ensures untouched { IsTrue result → (k : Box) → IsAmong chunk.now.told.keys k
        → is_touched k tree.now.boxes ≡ false }
{
    !chunk.is_open && tree.none_touched(chunk.told.keys)
}

/// The same of the entries of a chunk, which is passed over where no box of it is touched.
#[cycle(listing)]
fn add_chunk<A: Ledger, B: Ledger>(
    tree: &Tree<B>,
    area: &mut Area,
    chunk: &Chunk,
    entries: &[Entry<A>],
) -> Result<(), NoMemory>
    requires { chunk.now.is_open ≡ false → Tells chunk.now entries.now }
    ensures { OnOk result (Joins (any_shows tree.now (kept_leaves (kept_entries entries.now))) area.old area.new) }
{
    if is_quiet(tree, chunk) {
        return Ok(());
    }
    add_entries(tree, area, entries)
}

/// The same of some entries.
#[cycle(listing)]
fn add_entries<A: Ledger, B: Ledger>(
    tree: &Tree<B>,
    area: &mut Area,
    entries: &[Entry<A>],
) -> Result<(), NoMemory>
    ensures { OnOk result (Joins (any_shows tree.now (kept_leaves (kept_entries entries.now))) area.old area.new) }
{
    for entry in entries {
        add_entry(tree, area, entry)?;
    }
    Ok(())
}

#[cycle(listing)]
#[inline(always)]
fn add_entry<A: Ledger, B: Ledger>(
    tree: &Tree<B>,
    area: &mut Area,
    entry: &Entry<A>,
) -> Result<(), NoMemory>
    ensures { OnOk result (Joins (any_shows tree.now (kept_leaves (kept_entries (entry.now ∷ [])))) area.old area.new) }
{
    match entry {
        Entry::Leaf(item) => {
            if tree.touched(item.owner()) {
                area.add(item.visible())?;
            }
            Ok(())
        }
        Entry::Group(group) => add_list(tree, area, &group.inner),
    }
}
