//! Laws of graphs of orders, each the contract of a function that does nothing.
ghost use Rattle.rd_graph.specs.Laws.{Stitching, Linking, Pruning, Lining, Patching};

/// Dropping nodes keeps reaching exactly, where their predecessors come in their place.
pub fn stitching<E>()
    ensures { Stitching E }
{}

/// The neighbours of a chain stand for the chain.
pub fn linking<E>()
    ensures { Linking E }
{}

/// Implied edges may go.
pub fn pruning<E>()
    ensures { Pruning E }
{}

/// The graph of a chain reaches along the chain.
pub fn lining<E>()
    ensures { Lining E }
{}

/// A merge of a level may be done by new lists of direct predecessors.
pub fn patching<E>()
    ensures { Patching E }
{}
