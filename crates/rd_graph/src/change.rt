//! What a merge changes in a graph.
use rd_keys::EntryKey;

/// A change of a graph: nodes go, and a chain of names comes.
#[derive(Clone, Copy)]
pub struct Change<'a> {
    /// The places of the nodes that go, in rising order.
    pub removed: &'a [usize],
    /// The names of the chain, each once.
    pub chain: &'a [EntryKey],
    /// Where each name of the chain stands in the graph, if it is there.
    pub old_places: &'a [Option<usize>],
}
