//! Whether a line keeps the order of a graph.
ghost use Rattle.std.specs.Prelude.{◌≡◌, ◌↔◌, true, Contains};
ghost use Rattle.rd_graph.specs.Graphs.{GoesForward, Precedes};
ghost use Rattle.rd_graph.specs.Internal.Seen.{seen};
ghost use Rattle.rd_graph.specs.Orders.{Before, Once};

use crate::before::Name;
use crate::graph::Node;
use crate::places::Places;
use rd_keys::EntryKey;

/// Does one name come before another in a line?
fn is_before(line: &Places, a: EntryKey, b: EntryKey) -> bool
    requires { Once line.now }
    ensures { result ≡ true ↔ Before line.now a b }
{
    let Some(i) = line.find(a) else {
        return false;
    };
    let Some(j) = line.find(b) else {
        return false;
    };
    i < j
}

/// Do all these names come before another in a line?
fn are_before(line: &Places, names: &[Name], b: EntryKey) -> bool
    requires { Once line.now }
    ensures { result ≡ true ↔ ((a : EntryKey) → Contains names.now a → Before line.now a b) }
{
    for a in names {
        if !is_before(line, a.key, b) {
            return false;
        }
    }
    true
}

/// Do the direct predecessors of a node come before it in a line?
fn is_after(line: &Places, node: &Node) -> bool
    requires { Once line.now }
    ensures { result ≡ true
        ↔ ((a : EntryKey) → Contains node.now.before.items a → Before line.now a node.now.key) }
{
    are_before(line, &node.before, node.key)
}

/// Does each edge go forward in a line?
pub(crate) fn go_forward(line: &Places, nodes: &[Node]) -> bool
    requires { Once line.now }
    ensures { result ≡ true ↔ GoesForward (Precedes (seen nodes.now)) line.now }
{
    for node in nodes {
        if !is_after(line, node) {
            return false;
        }
    }
    true
}
