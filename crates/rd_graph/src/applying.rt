//! A patch is applied: nodes get new lists, and are moved to their places. Nothing takes memory.
ghost use Rattle.std.specs.Prelude.{◌≡◌, ◌<◌, ◌+◌, ◌++◌, vec_len, option_map};
ghost use Rattle.rd_graph.specs.Gathered.{arranged, IsLine};
ghost use Rattle.rd_graph.specs.Patches.{AreWithin, IsStill, with_list, with_lists};
ghost use Rattle.rd_graph.specs.Internal.Chunks.{Tells};
ghost use Rattle.rd_graph.specs.Internal.Patching.{lists_seen, HasRoom};
ghost use Rattle.rd_graph.specs.Internal.Seen.{seen};
ghost use Rattle.rd_graph.specs.Runs.{places_of};

use crate::before::{Predecessors, nothing};
use crate::chunks::put_names;
use crate::graph::Node;
use crate::moving::{Take, move_line};
use crate::runs::Run;
use std::alloc::Global;
use std::mem;

/// The node at a place has these predecessors, and its chunk has their kinds.
fn put_list(nodes: &mut Vec<Node>, chunks: &mut Vec<u64>, place: usize, before: Predecessors)
    requires { place < vec_len nodes.old }
    ensures put { seen nodes.new.items ≡ with_list place before.items (seen nodes.old.items) }
    ensures told { Tells chunks.old.items (seen nodes.old.items) → Tells chunks.new.items (seen nodes.new.items) }
{
    put_names(chunks, place, &before);
    let node = &mut nodes[place];
    node.before = before;
}

/// The nodes at these places have new lists of predecessors, and their chunks have the kinds of these.
pub(crate) fn put_lists(
    nodes: &mut Vec<Node>,
    chunks: &mut Vec<u64>,
    lists: Vec<(usize, Predecessors)>,
)
    requires within { AreWithin (lists_seen lists.items) (seen nodes.old.items) }
    requires told { Tells chunks.old.items (seen nodes.old.items) }
    ensures put { seen nodes.new.items ≡ with_lists (lists_seen lists.items) (seen nodes.old.items) }
    ensures told { Tells chunks.new.items (seen nodes.new.items) }
{
    for (place, before) in lists {
        put_list(nodes, chunks, place, before);
    }
}

impl Take for Node {
    /// What stays has no predecessors.
    fn take(&mut self, alloc: Global) -> Node {
        let before = mem::replace(&mut self.before, nothing(alloc));
        Node {
            key: self.key,
            before,
        }
    }
}

/// The nodes as they are, or old and made ones in a line; the made ones as they are, where the line is of them alone.
pub(crate) fn in_line(
    alloc: Global,
    nodes: Vec<Node>,
    made: Vec<Node>,
    line: Option<Vec<Run>>,
    aside: Vec<Node>,
    room: Vec<Node>,
) -> Vec<Node>
    requires line { IsLine (option_map (λ l. places_of l.items) line) (vec_len nodes + vec_len made) }
    requires still { IsStill (option_map (λ l. places_of l.items) line) (seen made.items) }
    requires room { HasRoom line room }
    ensures { seen result.items
        ≡ arranged (option_map (λ l. places_of l.items) line) (seen nodes.items ++ seen made.items) }
{
    match line {
        None => nodes,
        Some(line) => move_line(alloc, nodes, made, &line, aside, room),
    }
}
