//! The lists of predecessors that a merge changes.
ghost use Rattle.std.specs.Prelude.{◌≡◌, ℕ, ◌<◌, ◌≤◌, [], ◌∷◌, ◌++◌, IfOk, IfSome, OnOk, Some, true, false, if◌then◌else◌, slice_index_or, slice_set, length};
ghost use Rattle.rd_graph.specs.Patches.{AreRising, CanBePatched, IsRelisted, found_in};
ghost use Rattle.rd_graph.specs.Internal.Seen.{seen, seen_one};
ghost use Rattle.rd_graph.specs.Graphs.{IsInOrder, nodes as nodes_of};
ghost use Rattle.rd_graph.specs.Gathered.{gathered};
ghost use Rattle.rd_graph.specs.Names.{same_entry};
ghost use Rattle.rd_graph.specs.Orders.{Once};
ghost use Rattle.rd_graph.specs.Internal.Chains.{before_place};
ghost use Rattle.rd_graph.specs.Internal.Chunks.{HasKindsOf, IsInOne, Tells};
ghost use Rattle.rd_graph.specs.Internal.Patching.{lists_seen};
ghost use Rattle.rd_graph.specs.Internal.Relisting.{AddsAlong, AreMarked, AreNoted, AreNumbered, AreQuiet, GoesAlong, GoesAlongAt, Relists, has_all, has_mark, is_late, joined, keeps, listed, own, some_gone};
ghost use Rattle.rd_graph.specs.Internal.Tables.{at, fits_list, has_it};
ghost use Rattle.rd_graph.specs.Internal.Words.{NotesBy, note_at, resolved_by};

use crate::arranging::advance_past;
use crate::before::{Name, Predecessors, copied, is_among, nothing, push};
use crate::change::Change;
use crate::chunks::{chunk_end, is_apart};
use crate::gone::{Gone, goes, gone_at, mark_of, number_of, some_goes};
use crate::graph::Node;
use crate::resolving::resolve;
use rd_keys::EntryKey;
use std::alloc::{AllocError, Global};

/// What one pass over the nodes gives: notes of those that go, by their numbers, and new lists of late ones.
#[derive(Drop)]
struct Passed {
    notes: Vec<Predecessors>,
    lists: Vec<(usize, Predecessors)>,
}

/// As yet nothing is noted of so many names.
fn no_notes(alloc: Global, count: usize) -> Result<Vec<Predecessors>, AllocError>
    ensures len { IfOk result (λ v. length v.items ≡ count) }
    ensures none { IfOk result (λ v. (i : ℕ) → note_at v.items (Some i) ≡ []) }
{
    let mut notes = Vec::with_capacity(alloc, count)?;
    for _ in 0..count {
        notes.push(nothing(alloc))?;
    }
    Ok(notes)
}

/// From now on this is noted at a number.
fn put_note(notes: &mut Vec<Predecessors>, number: usize, before: Predecessors)
    requires { number < length notes.old.items }
    ensures { notes.new.items ≡ slice_set notes.old.items number before }
{
    notes[number] = before;
}

/// A node that goes is noted at its number.
fn note(
    alloc: Global,
    gone: &Gone,
    notes: &mut Vec<Predecessors>,
    number: usize,
    node: &Node,
) -> Result<(), AllocError>
    requires marked { AreMarked gone.now.marks.items gone.now.names }
    requires numbered { AreNumbered gone.now.names (length notes.old.items) }
    requires number { at gone.now.names node.now.key ≡ Some number }
    ensures notes { OnOk result (NotesBy gone.now.names true node.now.key
        (resolved_by gone.now.names notes.old.items node.now.before.items) notes.old.items notes.new.items) }
    ensures len { OnOk result (length notes.new.items ≡ length notes.old.items) }
{
    let before = resolve(alloc, gone, notes, &node.before)?;
    put_note(notes, number, before);
    Ok(())
}

/// Puts a list at the end, with the place of its node.
pub(crate) fn push_list(
    lists: &mut Vec<(usize, Predecessors)>,
    place: usize,
    before: Predecessors,
) -> Result<(), AllocError>
    ensures { OnOk result (lists_seen lists.new.items ≡ lists_seen lists.old.items ++ (place, before.items) ∷ []) }
{
    lists.push((place, before))?;
    Ok(())
}

/// A late node gets a new list.
fn relist(
    alloc: Global,
    gone: &Gone,
    notes: &[Predecessors],
    lists: &mut Vec<(usize, Predecessors)>,
    place: usize,
    node: &Node,
) -> Result<(), AllocError>
    requires { AreMarked gone.now.marks.items gone.now.names }
    ensures { OnOk result (lists_seen lists.new.items ≡ lists_seen lists.old.items
        ++ (place, resolved_by gone.now.names notes.now node.now.before.items) ∷ []) }
{
    let before = resolve(alloc, gone, notes, &node.before)?;
    push_list(lists, place, before)
}

/// A node that goes is noted, and a late one gets a new list.
fn pass(
    alloc: Global,
    gone: &Gone,
    notes: &mut Vec<Predecessors>,
    lists: &mut Vec<(usize, Predecessors)>,
    place: usize,
    node: &Node,
) -> Result<(), AllocError>
    requires marked { AreMarked gone.now.marks.items gone.now.names }
    requires numbered { AreNumbered gone.now.names (length notes.old.items) }
    ensures notes { OnOk result (NotesBy gone.now.names (has_it gone.now.names node.now.key) node.now.key
        (resolved_by gone.now.names notes.old.items node.now.before.items) notes.old.items notes.new.items) }
    ensures len { OnOk result (length notes.new.items ≡ length notes.old.items) }
    ensures lists { OnOk result (lists_seen lists.new.items ≡ lists_seen lists.old.items
        ++ (if is_late (has_it gone.now.names) (seen_one node.now)
        then (place, resolved_by gone.now.names notes.old.items node.now.before.items) ∷ []
        else [])) }
{
    if let Some(number) = number_of(gone, node.key) {
        note(alloc, gone, notes, number, node)?;
        return Ok(());
    }
    if !some_goes(gone, &node.before) {
        return Ok(());
    }
    relist(alloc, gone, notes, lists, place, node)?;
    Ok(())
}

/// Has a name the mark of one that goes?
#[inline(always)]
fn is_marked(marks: &[bool], name: &Name) -> bool
    requires { length marks.now ≡ 2048 }
    ensures { result ≡ has_mark marks.now name.now }
{
    marks[mark_of(&name.key)]
}

/// Has one of these names the mark of one that goes?
#[inline(always)]
fn any_marked(marks: &[bool], names: &[Name]) -> bool
    requires { length marks.now ≡ 2048 }
    ensures { result ≡ some_gone (has_mark marks.now) names.now }
{
    for name in names {
        if is_marked(marks, name) {
            return true;
        }
    }
    false
}

/// Has a predecessor of a node the mark of a name that goes?
#[inline(never)]
fn some_marked(marks: &[bool], node: &Node) -> bool
    requires { length marks.now ≡ 2048 }
    ensures { result ≡ some_gone (has_mark marks.now) node.now.before.items }
{
    any_marked(marks, &node.before)
}

/// Has a node one predecessor, without the mark of a name that goes?
#[inline(always)]
fn follows_one(marks: &[bool], node: &Node) -> bool
    requires { length marks.now ≡ 2048 }
    ensures { result ≡ true → some_gone (has_mark marks.now) node.now.before.items ≡ false }
{
    let before = node.before.as_slice();
    before.len() == 1 && !is_marked(marks, &before[0])
}

/// Has a node two predecessors, both without the mark of a name that goes?
#[inline(always)]
fn follows_two(marks: &[bool], node: &Node) -> bool
    requires { length marks.now ≡ 2048 }
    ensures { result ≡ true → some_gone (has_mark marks.now) node.now.before.items ≡ false }
{
    let before = node.before.as_slice();
    before.len() == 2 && !is_marked(marks, &before[0]) && !is_marked(marks, &before[1])
}

/// The place past a run of nodes that follow one node each, and past a run after it of nodes that follow two. None of
/// these nodes is late. Most nodes follow one.
#[inline(always)]
fn past_runs(nodes: &[Node], from: usize, end: usize, marks: &[bool]) -> usize
    requires marks { length marks.now ≡ 2048 }
    requires from { from ≤ end }
    requires end { end ≤ length nodes.now }
    ensures after { from ≤ result }
    ensures within { result ≤ end }
    ensures quiet { AreQuiet (has_mark marks.now) (seen nodes.now) from result }
{
    let mut place = from;
    while place < end && follows_one(marks, &nodes[place]) {
        place += 1;
    }
    while place < end && follows_two(marks, &nodes[place]) {
        place += 1;
    }
    place
}

/// The first place of a stretch of places whose node may be late, by its predecessors. The end of the stretch where there is none.
fn late_among(nodes: &[Node], from: usize, end: usize, marks: &[bool]) -> usize
    requires marks { length marks.now ≡ 2048 }
    requires from { from ≤ end }
    requires end { end ≤ length nodes.now }
    ensures after { from ≤ result }
    ensures within { result ≤ end }
    ensures quiet { AreQuiet (has_mark marks.now) (seen nodes.now) from result }
{
    let mut place = past_runs(nodes, from, end, marks);
    while place < end && !some_marked(marks, &nodes[place]) {
        place = past_runs(nodes, place + 1, end, marks);
    }
    place
}

/// The same. Nothing is looked at in a chunk that has no names of the kinds of those that go.
fn late_in_chunk(nodes: &[Node], chunks: &[u64], from: usize, end: usize, gone: &Gone) -> usize
    requires told { Tells chunks.now (seen nodes.now) }
    requires marked { AreMarked gone.now.marks.items gone.now.names }
    requires whole { length gone.now.marks.items ≡ 2048 }
    requires kinds { HasKindsOf gone.now.kinds gone.now.names }
    requires from { from ≤ end }
    requires end { end ≤ length nodes.now }
    requires one { IsInOne from end }
    ensures after { from ≤ result }
    ensures within { result ≤ end }
    ensures quiet { AreQuiet (has_it gone.now.names) (seen nodes.now) from result }
{
    if is_apart(chunks, from, gone.kinds) {
        return end;
    }
    late_among(nodes, from, end, &gone.marks)
}

/// The first place of a stretch of places whose node may be late. The end of the stretch where there is none.
#[inline(never)]
fn next_late(nodes: &[Node], chunks: &[u64], from: usize, end: usize, gone: &Gone) -> usize
    requires told { Tells chunks.now (seen nodes.now) }
    requires marked { AreMarked gone.now.marks.items gone.now.names }
    requires whole { length gone.now.marks.items ≡ 2048 }
    requires kinds { HasKindsOf gone.now.kinds gone.now.names }
    requires from { from ≤ end }
    requires end { end ≤ length nodes.now }
    ensures after { from ≤ result }
    ensures within { result ≤ end }
    ensures quiet { AreQuiet (has_it gone.now.names) (seen nodes.now) from result }
{
    let mut place = from;
    while place < end {
        let stop = chunk_end(place, end);
        place = late_in_chunk(nodes, chunks, place, stop, gone);
        if place < stop {
            return place;
        }
    }
    place
}

/// One of some places, or else the count of all.
fn place_or(places: &[usize], i: usize, count: usize) -> usize
    ensures { result ≡ slice_index_or places.now i count }
{
    match places.get(i) {
        Some(place) => *place,
        None => count,
    }
}

/// New lists of the nodes that stay, and of which a predecessor goes. Only the nodes that go, at these places, and
/// those that may be late are looked at.
fn pass_all(
    alloc: Global,
    nodes: &[Node],
    chunks: &[u64],
    places: &[usize],
    gone: &Gone,
) -> Result<Passed, AllocError>
    requires sound { IsInOrder (seen nodes.now) }
    requires told { Tells chunks.now (seen nodes.now) }
    requires rising { AreRising places.now }
    requires within { (k : ℕ) → k < length places.now → slice_index_or places.now k 0 < length nodes.now }
    requires named { fits_list gone.now.names (gathered places.now (nodes_of (seen nodes.now))) }
    requires marked { AreMarked gone.now.marks.items gone.now.names }
    requires whole { 0 < length places.now → length gone.now.marks.items ≡ 2048 }
    requires kinds { HasKindsOf gone.now.kinds gone.now.names }
    requires numbered { AreNumbered gone.now.names (length places.now) }
    ensures noted { IfOk result (λ p. AreNoted (has_it gone.now.names) (resolved_by gone.now.names p.notes.items)
        (seen nodes.now)) }
    ensures relisted { IfOk result (λ p. Relists (has_it gone.now.names) (seen nodes.now)
        (lists_seen p.lists.items)) }
{
    let mut notes = no_notes(alloc, places.len())?;
    let mut lists = Vec::new(alloc);
    let mut place = place_or(places, 0, nodes.len());
    let mut met = 1;
    while place < nodes.len() {
        pass(alloc, gone, &mut notes, &mut lists, place, &nodes[place])?;
        let stop = place_or(places, met, nodes.len());
        place = next_late(nodes, chunks, place + 1, stop, gone);
        met = advance_past(places, met, place);
    }
    Ok(Passed { notes, lists })
}

/// The name right before a place of a chain.
fn name_before(chain: &[EntryKey], i: usize) -> Option<EntryKey>
    requires { i < length chain.now }
    ensures { listed result ≡ before_place chain.now (Some i) }
{
    if i == 0 {
        return None;
    }
    Some(chain[i - 1])
}

/// Does a list have the edge from a name? So it does too where there is none.
fn has_edge(keys: &[Name], name: Option<EntryKey>) -> bool
    ensures { result ≡ has_all same_entry keys.now (listed name) }
{
    match name {
        Some(name) => is_among(keys, name),
        None => true,
    }
}

/// A list with the edge from a name, which it may have already.
fn with_edge(keys: Predecessors, name: Option<EntryKey>) -> Result<Predecessors, AllocError>
    ensures { IfOk result (λ v. v.items ≡ joined same_entry keys.items (listed name)) }
{
    let mut keys = keys;
    if has_edge(&keys, name) {
        return Ok(keys);
    }
    if let Some(name) = name {
        push(&mut keys, name)?;
    }
    Ok(keys)
}

/// What a node that stays has before the edge of the chain.
fn own(
    alloc: Global,
    gone: &Gone,
    notes: &[Predecessors],
    node: &Node,
) -> Result<Predecessors, AllocError>
    requires marked { AreMarked gone.now.marks.items gone.now.names }
    requires stays { has_it gone.now.names node.now.key ≡ false }
    ensures { IfOk result (λ v. v.items
        ≡ own (has_it gone.now.names) (resolved_by gone.now.names notes.now) (seen_one node.now)) }
{
    if some_goes(gone, &node.before) {
        return resolve(alloc, gone, notes, &node.before);
    }
    copied(alloc, &node.before)
}

/// Does a node that stays keep its list? It stays with all its predecessors, and has the edge of the chain.
fn keeps_list(gone: &Gone, node: &Node, name: Option<EntryKey>) -> bool
    requires marked { AreMarked gone.now.marks.items gone.now.names }
    requires stays { has_it gone.now.names node.now.key ≡ false }
    ensures { result ≡ keeps (has_it gone.now.names) same_entry (listed name) (seen_one node.now) }
{
    !some_goes(gone, &node.before) && has_edge(&node.before, name)
}

/// A node of the chain that stays, and does not keep the list that it has, gets a new one.
#[inline(never)]
fn relist_along(
    alloc: Global,
    gone: &Gone,
    notes: &[Predecessors],
    lists: &mut Vec<(usize, Predecessors)>,
    place: usize,
    node: &Node,
    name: Option<EntryKey>,
) -> Result<(), AllocError>
    requires marked { AreMarked gone.now.marks.items gone.now.names }
    requires stays { has_it gone.now.names node.now.key ≡ false }
    requires changes { keeps (has_it gone.now.names) same_entry (listed name) (seen_one node.now) ≡ false }
    ensures { OnOk result (AddsAlong (has_it gone.now.names) same_entry (resolved_by gone.now.names notes.now)
        (listed name) place (seen_one node.now) (lists_seen lists.old.items) (lists_seen lists.new.items)) }
{
    let before = own(alloc, gone, notes, node)?;
    let before = with_edge(before, name)?;
    push_list(lists, place, before)?;
    Ok(())
}

/// A node of the chain that stays gets a new list, unless it keeps the one that it has.
fn stay_along(
    alloc: Global,
    gone: &Gone,
    notes: &[Predecessors],
    lists: &mut Vec<(usize, Predecessors)>,
    place: usize,
    node: &Node,
    name: Option<EntryKey>,
) -> Result<(), AllocError>
    requires marked { AreMarked gone.now.marks.items gone.now.names }
    requires stays { has_it gone.now.names node.now.key ≡ false }
    ensures { OnOk result (AddsAlong (has_it gone.now.names) same_entry (resolved_by gone.now.names notes.now)
        (listed name) place (seen_one node.now) (lists_seen lists.old.items) (lists_seen lists.new.items)) }
{
    if keeps_list(gone, node, name) {
        return Ok(());
    }
    relist_along(alloc, gone, notes, lists, place, node, name)
}

/// A node of the chain that goes has the edge of the chain alone.
#[inline(never)]
fn lead_along(
    alloc: Global,
    gone: &Gone,
    notes: &[Predecessors],
    lists: &mut Vec<(usize, Predecessors)>,
    place: usize,
    node: &Node,
    name: Option<EntryKey>,
) -> Result<(), AllocError>
    requires { has_it gone.now.names node.now.key ≡ true }
    ensures { OnOk result (AddsAlong (has_it gone.now.names) same_entry (resolved_by gone.now.names notes.now)
        (listed name) place (seen_one node.now) (lists_seen lists.old.items) (lists_seen lists.new.items)) }
{
    let before = with_edge(nothing(alloc), name)?;
    push_list(lists, place, before)?;
    Ok(())
}

/// A node of the chain gets a new list, unless it keeps the one that it has. Where it goes it has the edge of the chain alone.
fn go_along(
    alloc: Global,
    gone: &Gone,
    notes: &[Predecessors],
    lists: &mut Vec<(usize, Predecessors)>,
    place: usize,
    node: &Node,
    name: Option<EntryKey>,
) -> Result<(), AllocError>
    requires { AreMarked gone.now.marks.items gone.now.names }
    ensures { OnOk result (AddsAlong (has_it gone.now.names) same_entry (resolved_by gone.now.names notes.now)
        (listed name) place (seen_one node.now) (lists_seen lists.old.items) (lists_seen lists.new.items)) }
{
    if goes(gone, node.key) {
        return lead_along(alloc, gone, notes, lists, place, node, name);
    }
    stay_along(alloc, gone, notes, lists, place, node, name)
}

/// The node of a name of the chain, if it is found at a place, gets a new list, unless it keeps the one that it has.
fn go_along_at(
    alloc: Global,
    nodes: &[Node],
    gone: &Gone,
    notes: &[Predecessors],
    lists: &mut Vec<(usize, Predecessors)>,
    place: Option<usize>,
    name: Option<EntryKey>,
) -> Result<(), AllocError>
    requires within { IfSome place (λ p. p < length nodes.now) }
    requires marked { AreMarked gone.now.marks.items gone.now.names }
    ensures { OnOk result (GoesAlongAt (has_it gone.now.names) same_entry (resolved_by gone.now.names notes.now)
        (listed name) place (seen nodes.now) (lists_seen lists.old.items) (lists_seen lists.new.items)) }
{
    if let Some(place) = place {
        go_along(alloc, gone, notes, lists, place, &nodes[place], name)?;
        return Ok(());
    }
    Ok(())
}

/// Each node of the chain that is found gets a new list, unless it keeps the one that it has.
fn go_along_all(
    alloc: Global,
    nodes: &[Node],
    gone: &Gone,
    notes: &[Predecessors],
    chain: &[EntryKey],
    found: &[Option<usize>],
    lists: &mut Vec<(usize, Predecessors)>,
) -> Result<(), AllocError>
    requires sound { IsInOrder (seen nodes.now) }
    requires once { Once chain.now }
    requires found_are { found.now ≡ found_in chain.now (seen nodes.now) }
    requires marked { AreMarked gone.now.marks.items gone.now.names }
    ensures { OnOk result (GoesAlong (has_it gone.now.names) same_entry (resolved_by gone.now.names notes.now)
        chain.now chain.now (seen nodes.now) (lists_seen lists.old.items) (lists_seen lists.new.items)) }
{
    if nodes.is_empty() {
        return Ok(());
    }
    for (i, place) in found.iter().enumerate() {
        let name = name_before(chain, i);
        go_along_at(alloc, nodes, gone, notes, lists, *place, name)?;
    }
    Ok(())
}

/// What one pass gave, and after it the new lists of the nodes of the chain.
fn led_along(
    alloc: Global,
    nodes: &[Node],
    gone: &Gone,
    chain: &[EntryKey],
    found: &[Option<usize>],
    passed: Passed,
) -> Result<Vec<(usize, Predecessors)>, AllocError>
    requires sound { IsInOrder (seen nodes.now) }
    requires once { Once chain.now }
    requires found_are { found.now ≡ found_in chain.now (seen nodes.now) }
    requires marked { AreMarked gone.now.marks.items gone.now.names }
    ensures { IfOk result (λ v. GoesAlong (has_it gone.now.names) same_entry (resolved_by gone.now.names passed.notes.items)
        chain.now chain.now (seen nodes.now) (lists_seen passed.lists.items) (lists_seen v.items)) }
{
    let mut lists = passed.lists;
    go_along_all(alloc, nodes, gone, &passed.notes, chain, found, &mut lists)?;
    Ok(lists)
}

/// New lists of predecessors, where it is known which names go.
fn changed_by(
    alloc: Global,
    nodes: &[Node],
    chunks: &[u64],
    places: &[usize],
    gone: &Gone,
    chain: &[EntryKey],
    found: &[Option<usize>],
) -> Result<Vec<(usize, Predecessors)>, AllocError>
    requires sound { IsInOrder (seen nodes.now) }
    requires told { Tells chunks.now (seen nodes.now) }
    requires can { CanBePatched places.now chain.now found.now (seen nodes.now) }
    requires named { fits_list gone.now.names (gathered places.now (nodes_of (seen nodes.now))) }
    requires marked { AreMarked gone.now.marks.items gone.now.names }
    requires whole { 0 < length places.now → length gone.now.marks.items ≡ 2048 }
    requires kinds { HasKindsOf gone.now.kinds gone.now.names }
    requires numbered { AreNumbered gone.now.names (length places.now) }
    ensures { IfOk result (λ v. IsRelisted places.now chain.now (seen nodes.now) (lists_seen v.items)) }
{
    let passed = pass_all(alloc, nodes, chunks, places, gone)?;
    led_along(alloc, nodes, gone, chain, found, passed)
}

/// New lists of predecessors with the places of their nodes: of the nodes that stand after one that goes, and of those of
/// the chain.
pub(crate) fn changed(
    alloc: Global,
    nodes: &[Node],
    chunks: &[u64],
    change: Change<'_>,
) -> Result<Vec<(usize, Predecessors)>, AllocError>
    requires sound { IsInOrder (seen nodes.now) }
    requires told { Tells chunks.now (seen nodes.now) }
    requires can { CanBePatched change.removed.now change.chain.now change.old_places.now (seen nodes.now) }
    ensures { IfOk result (λ v. IsRelisted change.entry.removed.now change.entry.chain.now (seen nodes.now) (lists_seen v.items)) }
{
    let places = change.removed;
    let gone = gone_at(alloc, nodes, places)?;
    changed_by(
        alloc,
        nodes,
        chunks,
        places,
        &gone,
        change.chain,
        change.old_places,
    )
}
