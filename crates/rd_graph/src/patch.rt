//! Patches: what a merge of a level changes in a graph, made before the first change.
ghost use Rattle.std.specs.Prelude.{◌≡◌, IfOk, option_map};
ghost use Rattle.rd_graph.specs.Runs.{places_of};
ghost use Rattle.rd_graph.specs.Patches.{CanBePatched, FitsPatch, IsPatched, patched, line_of};

use crate::applying::{in_line, put_lists};
use crate::arranging::arrange;
use crate::before::Predecessors;
use crate::change::Change;
use crate::changing::changed;
use crate::chunks::{chunk_room, chunks_in_line, is_short, renewed};
use crate::graph::{Node, OrderGraph};
use crate::making::{make, room};
use crate::runs::{Run, as_runs, aside_room};
use crate::thinning::{joined, thinned};
use crate::trimming::trimmed;
use rd_keys::EntryKey;
use std::alloc::{AllocError, Global};
use std::marker::Model;

/// New lists of predecessors by the places of their nodes, the nodes that are made, and the places of the result's nodes in their
/// order as runs, old and made ones counted through; none where every node stays at its place. There is room for the nodes of the
/// result; and there should be for those that are set aside, else they are moved in another way. So there should be for the chunks
/// of the nodes, if they are made anew, and if nodes move; else the graph has none.
#[derive(Drop)]
pub struct Patch {
    pub(crate) alloc: Global,
    pub(crate) lists: Vec<(usize, Predecessors)>,
    pub(crate) made: Vec<Node>,
    pub(crate) line: Option<Vec<Run>>,
    pub(crate) aside: Vec<Node>,
    pub(crate) room: Vec<Node>,
    pub(crate) new_chunks: Vec<u64>,
    pub(crate) moved_chunks: Vec<u64>,
}

impl Model for Patch {
    ghost use Rattle.std.specs.Prelude.{◌≡◌, option_map};
    ghost use Rattle.rd_keys.specs.declared.entry.EntryKey.{EntryKey};
    ghost use Rattle.rd_graph.specs.Patches.{PatchOf};
    ghost use Rattle.rd_graph.specs.Internal.Seen.{seen};
    ghost use Rattle.rd_graph.specs.Internal.Patching.{lists_seen, HasRoom};
    ghost use Rattle.rd_graph.specs.Runs.{places_of};

    ghost Value = { PatchOf EntryKey };

    ghost view = { λ p. (lists_seen p.lists.items, (seen p.made.items, option_map (λ l. places_of l.items) p.line)) };

    ghost invariant = { λ p. HasRoom p.line p.room };
}

impl Patch {
    /// The places of the result's nodes in their order, old and made ones counted through, as runs of places that follow each
    /// other. None where every node stays at its place.
    pub fn line(&self) -> Option<&[Run]>
        ensures { option_map (λ l. places_of l.now) result ≡ line_of self.now }
    {
        as_runs(&self.line)
    }
}

impl OrderGraph {
    /// Is it time to take away the edges that others imply? The larger a graph, the less often, since it takes longer.
    fn is_due(&self) -> bool {
        256 <= self.patches && self.nodes.len() / 64 <= self.patches
    }

    /// Is it time to make the chunks of the nodes anew? They tell less with each patch that moves nodes.
    fn is_worn(&self) -> bool {
        self.is_due() || 16 <= self.moves || is_short(&self.chunks, self.nodes.len())
    }

    /// The patch of a merge, over the edges of the graph as they are.
    fn patch_as_is(&self, alloc: Global, change: Change<'_>) -> Result<Patch, AllocError>
        requires { CanBePatched change.removed.now change.chain.now change.old_places.now self.now }
        ensures fits { IfOk result (λ p. FitsPatch p self.now) }
        ensures patched { IfOk result (λ p. IsPatched change.entry.removed.now change.entry.chain.now change.entry.old_places.now self.now p) }
    {
        let relisted = changed(alloc, &self.nodes, &self.chunks, change)?;
        let lists = trimmed(alloc, change.chain, relisted)?;
        let line = arrange(alloc, self, change)?;
        let made = make(alloc, change.chain, change.old_places)?;
        let aside = aside_room(alloc, as_runs(&line))?;
        let room = room(alloc, &line)?;
        let new_chunks = chunk_room(alloc, self.is_worn(), self.nodes.len())?;
        let moved_chunks = chunk_room(alloc, line.is_some(), self.nodes.len() + made.len())?;
        Ok(Patch {
            alloc,
            lists,
            made,
            line,
            aside,
            room,
            new_chunks,
            moved_chunks,
        })
    }

    /// The patch of a merge: without the nodes at some places, which rise, and with the nodes and the edges of a chain, whose names stand
    /// at the places `found`. It only reads the graph, and takes all memory that the change will need.
    pub fn patch(&self, alloc: Global, change: Change<'_>) -> Result<Patch, AllocError>
        requires { CanBePatched change.removed.now change.chain.now change.old_places.now self.now }
        ensures fits { IfOk result (λ p. FitsPatch p self.now) }
        ensures patched { IfOk result (λ p. IsPatched change.entry.removed.now change.entry.chain.now change.entry.old_places.now self.now p) }
    {
        if !self.is_due() {
            return self.patch_as_is(alloc, change);
        }
        let thin = thinned(alloc, &self.nodes)?;
        let graph = OrderGraph {
            nodes: thin.nodes,
            chunks: Vec::new(alloc),
            patches: 0,
            moves: 0,
        };
        let patch = graph.patch_as_is(alloc, change)?;
        let lists = joined(thin.lists, patch.lists)?;
        Ok(Patch {
            alloc,
            lists,
            made: patch.made,
            line: patch.line,
            aside: patch.aside,
            room: patch.room,
            new_chunks: patch.new_chunks,
            moved_chunks: patch.moved_chunks,
        })
    }

    /// The graph with its patch. It takes no memory.
    pub fn apply(self, patch: Patch) -> OrderGraph
        requires { FitsPatch patch self }
        ensures { result ≡ patched patch self }
    {
        let is_anew = self.is_worn();
        let patches = patches_after(self.is_due(), self.patches);
        let moves = moves_after(is_anew, self.moves, &patch.line);
        let mut nodes = self.nodes;
        let mut chunks = self.chunks;
        put_lists(&mut nodes, &mut chunks, patch.lists);
        let chunks = renewed(chunks, is_anew, &nodes, patch.new_chunks);
        let room = patch.moved_chunks;
        let chunks = chunks_in_line(chunks, &nodes, &patch.made, &patch.line, room);
        OrderGraph {
            nodes: in_line(
                patch.alloc,
                nodes,
                patch.made,
                patch.line,
                patch.aside,
                patch.room,
            ),
            chunks,
            patches,
            moves,
        }
    }
}

/// How many patches came since the edges that others imply went, after one more.
fn patches_after(is_due: bool, patches: usize) -> usize {
    if is_due { 0 } else { patches.wrapping_add(1) }
}

/// How many patches moved nodes since the chunks were made, after one more.
fn moves_after(is_anew: bool, moves: usize, line: &Option<Vec<Run>>) -> usize {
    let before = if is_anew { 0 } else { moves };
    before.wrapping_add(usize::from(line.is_some()))
}
