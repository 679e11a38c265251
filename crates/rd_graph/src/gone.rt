//! The names of the nodes that go, each with its number among them.
ghost use Rattle.std.specs.Prelude.{◌≡◌, ℕ, ◌<◌, IfOk, true, false, slice_index_or, length, Contains};
ghost use Rattle.rd_graph.specs.Gathered.{gathered};
ghost use Rattle.rd_graph.specs.Graphs.{nodes as nodes_of};
ghost use Rattle.rd_graph.specs.Internal.Chunks.{HasKind, HasKindsOf};
ghost use Rattle.rd_graph.specs.Internal.Relisting.{AreMarked, AreNumbered, mark_of, some_gone};
ghost use Rattle.rd_graph.specs.Internal.Seen.{seen};
ghost use Rattle.rd_graph.specs.Internal.Tables.{at, fits_list, has_it};

use crate::before::Name;
use crate::chunks::with_kind;
use crate::graph::Node;
use crate::tables::{find, has, put};
use indexmap::IndexMap;
use rd_keys::EntryKey;
use std::alloc::{AllocError, Global};

/// The names that go, each with its number. The marks tell most others at once, and the kinds whole chunks of nodes.
#[derive(Drop)]
pub(crate) struct Gone {
    pub(crate) names: IndexMap<EntryKey, usize>,
    pub(crate) marks: Vec<bool>,
    pub(crate) kinds: u64,
}

/// Where a name has its mark.
pub(crate) fn mark_of(key: &EntryKey) -> usize
    ensures { result ≡ mark_of key.now }
{
    match key {
        EntryKey::Leaf(name, _) => name.slot as usize % 2048,
        EntryKey::Group(name) => name.slot as usize % 2048,
    }
}

/// A table of the names of the nodes at these places, each with its number.
fn names_at(
    alloc: Global,
    nodes: &[Node],
    gone: &[usize],
) -> Result<IndexMap<EntryKey, usize>, AllocError>
    requires { (k : ℕ) → k < length gone.now → slice_index_or gone.now k 0 < length nodes.now }
    ensures named { IfOk result (λ t. fits_list t (gathered gone.now (nodes_of (seen nodes.now)))) }
    ensures numbered { IfOk result (λ t. AreNumbered t (length gone.now)) }
{
    let mut table = IndexMap::with_capacity(alloc, gone.len())?;
    for (i, place) in gone.iter().enumerate() {
        put(&mut table, nodes[*place].key, i)?;
    }
    Ok(table)
}

/// The marks of the names of the nodes at these places. None are made where nothing goes.
fn marks_at(alloc: Global, nodes: &[Node], gone: &[usize]) -> Result<Vec<bool>, AllocError>
    requires { (k : ℕ) → k < length gone.now → slice_index_or gone.now k 0 < length nodes.now }
    ensures marked { IfOk result (λ v. (k : EntryKey)
        → Contains (gathered gone.now (nodes_of (seen nodes.now))) k → slice_index_or v.items (mark_of k) false ≡ true) }
    ensures whole { IfOk result (λ v. 0 < length gone.now → length v.items ≡ 2048) }
{
    if gone.is_empty() {
        return Ok(Vec::new(alloc));
    }
    let mut marks = vec![in alloc; false; 2048]?;
    for place in gone {
        marks[mark_of(&nodes[*place].key)] = true;
    }
    Ok(marks)
}

/// The kinds of the names of the nodes at these places.
fn kinds_at(nodes: &[Node], gone: &[usize]) -> u64
    requires { (k : ℕ) → k < length gone.now → slice_index_or gone.now k 0 < length nodes.now }
    ensures { (k : EntryKey) → Contains (gathered gone.now (nodes_of (seen nodes.now))) k → HasKind result k }
{
    let mut kinds = 0;
    for place in gone {
        kinds = with_kind(kinds, &nodes[*place].key);
    }
    kinds
}

/// The names of the nodes at these places, with their numbers, marks and kinds.
pub(crate) fn gone_at(alloc: Global, nodes: &[Node], gone: &[usize]) -> Result<Gone, AllocError>
    requires { (k : ℕ) → k < length gone.now → slice_index_or gone.now k 0 < length nodes.now }
    ensures marked { IfOk result (λ g. AreMarked g.marks.items g.names) }
    ensures whole { IfOk result (λ g. 0 < length gone.now → length g.marks.items ≡ 2048) }
    ensures kinds { IfOk result (λ g. HasKindsOf g.kinds g.names) }
    ensures named { IfOk result (λ g. fits_list g.names (gathered gone.now (nodes_of (seen nodes.now)))) }
    ensures numbered { IfOk result (λ g. AreNumbered g.names (length gone.now)) }
{
    let names = names_at(alloc, nodes, gone)?;
    let marks = marks_at(alloc, nodes, gone)?;
    let kinds = kinds_at(nodes, gone);
    Ok(Gone {
        names,
        marks,
        kinds,
    })
}

/// The number of a name that goes. None where it stays.
pub(crate) fn number_of(gone: &Gone, key: EntryKey) -> Option<usize>
    requires { AreMarked gone.now.marks.items gone.now.names }
    ensures { result ≡ at gone.now.names key }
{
    let mark = mark_of(&key);
    if gone.marks.len() <= mark {
        return None;
    }
    if !gone.marks[mark] {
        return None;
    }
    find(&gone.names, key).copied()
}

/// Does the name go?
pub(crate) fn goes(gone: &Gone, key: EntryKey) -> bool
    requires { AreMarked gone.now.marks.items gone.now.names }
    ensures { result ≡ has_it gone.now.names key }
{
    let mark = mark_of(&key);
    mark < gone.marks.len() && gone.marks[mark] && has(&gone.names, key)
}

/// Does one of the names go?
pub(crate) fn some_goes(gone: &Gone, keys: &[Name]) -> bool
    requires { AreMarked gone.now.marks.items gone.now.names }
    ensures { result ≡ some_gone (has_it gone.now.names) keys.now }
{
    for key in keys {
        if goes(gone, key.key) {
            return true;
        }
    }
    false
}
