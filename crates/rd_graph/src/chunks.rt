//! Chunks of nodes: 64 that follow each other, and of which kinds the names before them are, so that a walk passes over all
//! of them at once.
ghost use Rattle.std.specs.Prelude.{◌≡◌, ℕ, ◌+◌, ◌-◌, ◌<◌, ◌≤◌, ◌^◌, ◌++◌, [], IfSome, true, length, option_map};
ghost use Rattle.rd_graph.specs.Gathered.{ArePlaces, IsLine, arranged, gathered};
ghost use Rattle.rd_graph.specs.Graphs.{Graph};
ghost use Rattle.rd_graph.specs.Patches.{IsStill, with_list};
ghost use Rattle.rd_graph.specs.Runs.{places_of};
ghost use Rattle.rd_graph.specs.Internal.Chunks.{HasAlong, HasKind, HasKinds, IsApart, IsInOne, IsMoved, KeepsKinds, Tells, TellsTo, kind_of};
ghost use Rattle.rd_graph.specs.Internal.Seen.{seen};

use crate::before::Name;
use crate::graph::Node;
use crate::runs::Run;
use rd_keys::EntryKey;
use std::alloc::{AllocError, Global};

/// How many nodes a graph has at least that has chunks.
const LEAST: usize = 128;

/// Of which of 64 kinds a name is. Those of slots that follow each other are mostly of one.
fn kind_of(key: &EntryKey) -> u32
    ensures { result ≡ kind_of key.now }
{
    match key {
        EntryKey::Leaf(name, _) => name.slot / 256 % 64,
        EntryKey::Group(name) => name.slot / 256 % 64,
    }
}

/// Kinds with that of a name.
#[inline(always)]
pub(crate) fn with_kind(kinds: u64, key: &EntryKey) -> u64
    ensures has { HasKind result key.now }
    ensures keeps { KeepsKinds kinds result }
{
    kinds | (1 << kind_of(key))
}

/// Kinds with those of some names.
#[inline(always)]
fn with_kinds(kinds: u64, names: &[Name]) -> u64
    ensures has { HasKinds result names.now }
    ensures keeps { KeepsKinds kinds result }
{
    let mut all = kinds;
    for name in names {
        all = with_kind(all, &name.key);
    }
    all
}

/// The kinds of the names before the nodes on a stretch of places.
fn kinds_along(nodes: &[Node], from: usize, to: usize) -> u64
    requires { to ≤ length nodes.now }
    ensures { HasAlong result (seen nodes.now) from to }
{
    let mut kinds = 0;
    for place in from..to {
        kinds = with_kinds(kinds, &nodes[place].before);
    }
    kinds
}

/// The end of the chunk of a place, or another end, if that comes first.
#[inline(always)]
pub(crate) fn chunk_end(place: usize, end: usize) -> usize
    requires { place < end }
    ensures after { place < result }
    ensures within { result ≤ end }
    ensures one { IsInOne place result }
{
    let left = 64 - place % 64;
    if end - place <= left {
        end
    } else {
        place + left
    }
}

/// Is no name of these kinds before a node of the chunk of a place?
#[inline(always)]
pub(crate) fn is_apart(chunks: &[u64], place: usize, kinds: u64) -> bool
    ensures { result ≡ true → IsApart chunks.now place kinds }
{
    let at = place / 64;
    at < chunks.len() && chunks[at] & kinds == 0
}

/// The node at a place has these names before it, and its chunk has their kinds too.
pub(crate) fn put_names(chunks: &mut Vec<u64>, place: usize, names: &[Name])
    ensures { (g : Graph EntryKey) → Tells chunks.old.items g → Tells chunks.new.items (with_list place names.now g) }
{
    let at = place / 64;
    if at < chunks.len() {
        chunks[at] = with_kinds(chunks[at], names);
    }
}

/// Puts the kinds of some nodes from a place on into its chunk, or a new one, if there is room for it.
fn put_kinds(chunks: &mut Vec<u64>, place: usize, kinds: u64)
    ensures { (g : Graph EntryKey) (end : ℕ) → IsInOne place end → HasAlong kinds g place end
        → TellsTo chunks.old.items g place → TellsTo chunks.new.items g end }
{
    let at = place / 64;
    if at < chunks.len() {
        chunks[at] |= kinds;
        return;
    }
    if place % 64 == 0 && at == chunks.len() && at < chunks.capacity() {
        chunks.push_reserved(kinds);
    }
}

/// The chunks of nodes, as far as there is room for them.
fn chunks_of(nodes: &[Node], room: Vec<u64>) -> Vec<u64>
    requires { room.items ≡ [] }
    ensures { Tells result.items (seen nodes.now) }
{
    let mut chunks = room;
    let mut place = 0;
    while place < nodes.len() {
        let end = chunk_end(place, nodes.len());
        put_kinds(&mut chunks, place, kinds_along(nodes, place, end));
        place = end;
    }
    chunks
}

/// The same, if they are made anew. Else those that there are.
pub(crate) fn renewed(chunks: Vec<u64>, is_anew: bool, nodes: &[Node], room: Vec<u64>) -> Vec<u64>
    requires { Tells chunks.items (seen nodes.now) }
    ensures { Tells result.items (seen nodes.now) }
{
    if is_anew && room.is_empty() {
        return chunks_of(nodes, room);
    }
    chunks
}

/// So many nodes, and of which kinds the names before them are.
#[derive(Clone, Copy)]
struct Part {
    count: usize,
    kinds: u64,
}

/// The old nodes from a place on that stand in its chunk.
fn old_part(chunks: &[u64], nodes: &[Node], place: usize, end: usize) -> Part
    requires told { Tells chunks.now (seen nodes.now) }
    requires some { place < end }
    requires within { end ≤ length nodes.now }
    ensures some { 0 < result.count }
    ensures within { place + result.count ≤ end }
    ensures told { HasAlong result.kinds (seen nodes.now) place (place + result.count) }
{
    let count = chunk_end(place, end) - place;
    match chunks.get(place / 64) {
        Some(kinds) => Part {
            count,
            kinds: *kinds,
        },
        None => Part {
            count,
            kinds: u64::MAX,
        },
    }
}

/// The nodes from a place on, at most so many, of which something is told. The made ones are counted on from the old ones.
fn part_at(chunks: &[u64], nodes: &[Node], made: &[Node], place: usize, most: usize) -> Part
    requires told { Tells chunks.now (seen nodes.now) }
    requires some { 0 < most }
    requires within { place + most ≤ length nodes.now + length made.now }
    ensures some { 0 < result.count }
    ensures within { result.count ≤ most }
    ensures told { HasAlong result.kinds (seen nodes.now ++ seen made.now) place (place + result.count) }
{
    if place < nodes.len() {
        return old_part(chunks, nodes, place, nodes.len().min(place + most));
    }
    let node = &made[place - nodes.len()];
    Part {
        count: 1,
        kinds: with_kinds(0, &node.before),
    }
}

/// Puts the kinds of the nodes of a run into chunks, as far as there is room for them. So many places come before it.
fn put_run(
    chunks: &mut Vec<u64>,
    had: &[u64],
    nodes: &[Node],
    made: &[Node],
    run: Run,
    start: usize,
)
    requires told { Tells had.now (seen nodes.now) }
    requires places { (k : ℕ) → k < run.count → run.from + k < length nodes.now + length made.now }
    requires few { start + run.count < 2 ^ 64 }
    ensures { (g : Graph EntryKey) → IsMoved (seen nodes.now ++ seen made.now) g run.from start run.count
        → TellsTo chunks.old.items g start → TellsTo chunks.new.items g (start + run.count) }
{
    let mut done = 0;
    while done < run.count {
        let place = start + done;
        let end = chunk_end(place, start + run.count);
        let part = part_at(had, nodes, made, run.from + done, end - place);
        put_kinds(chunks, place, part.kinds);
        done += part.count;
    }
}

/// The chunks of the nodes of a line of old and made ones, as far as there is room for them.
fn chunks_along(
    had: &[u64],
    nodes: &[Node],
    made: &[Node],
    runs: &[Run],
    room: Vec<u64>,
) -> Vec<u64>
    requires told { Tells had.now (seen nodes.now) }
    requires empty { room.items ≡ [] }
    requires places { ArePlaces (places_of runs.now) (length nodes.now + length made.now) }
    requires few { length (places_of runs.now) < 2 ^ 64 }
    ensures { Tells result.items (gathered (places_of runs.now) (seen nodes.now ++ seen made.now)) }
{
    let mut chunks = room;
    let mut start = 0;
    for run in runs {
        put_run(&mut chunks, had, nodes, made, *run, start);
        start += run.count;
    }
    chunks
}

/// The chunks as they are, or those of a line of old and made nodes. Where there is no room for these, there are none.
pub(crate) fn chunks_in_line(
    had: Vec<u64>,
    nodes: &[Node],
    made: &[Node],
    line: &Option<Vec<Run>>,
    room: Vec<u64>,
) -> Vec<u64>
    requires told { Tells had.items (seen nodes.now) }
    requires line { IsLine (option_map (λ l. places_of l.items) line.now) (length nodes.now + length made.now) }
    requires still { IsStill (option_map (λ l. places_of l.items) line.now) (seen made.now) }
    requires few { IfSome line.now (λ l. length (places_of l.items) < 2 ^ 64) }
    ensures { Tells result.items (arranged (option_map (λ l. places_of l.items) line.now) (seen nodes.now ++ seen made.now)) }
{
    let Some(runs) = line else {
        return had;
    };
    let mut room = room;
    room.clear();
    if room.capacity() == 0 {
        return room;
    }
    chunks_along(&had, nodes, made, runs, room)
}

/// Room for the chunks of so many nodes, if there are to be some. None for a few nodes.
pub(crate) fn chunk_room(
    alloc: Global,
    is_wanted: bool,
    count: usize,
) -> Result<Vec<u64>, AllocError> {
    if is_wanted && LEAST <= count {
        return Vec::with_capacity(alloc, count / 64 + 1);
    }
    Ok(Vec::new(alloc))
}

/// Have so many nodes not the chunks that they should have?
pub(crate) fn is_short(chunks: &[u64], count: usize) -> bool {
    LEAST <= count && chunks.len() < count / 64
}
