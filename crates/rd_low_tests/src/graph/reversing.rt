//! A chain that reverses two nodes in the middle of a line, by calls one after the other and by a patch.
use super::agreeing::named;
use super::checked::{by_calls, by_patch, distinct};
use rd_graph::OrderGraph;
use rd_keys::EntryKey;
use std::alloc::{AllocError, Global};

/// Ten nodes in a line, but for 4 and 5, of which neither comes before the other.
fn forked(
    alloc: Global,
    names: &[EntryKey],
    line: &[EntryKey],
) -> Result<Option<OrderGraph>, AllocError> {
    let keys = named(alloc, names, &[0, 1, 2, 3, 4, 6, 7, 8, 9])?;
    let keys = distinct(alloc, &keys)?;
    let graph = OrderGraph::linear(alloc, &keys)?;
    let chain = named(alloc, names, &[3, 5, 6])?;
    let chain = distinct(alloc, &chain)?;
    by_calls(alloc, &graph, &[], &chain, line)
}

/// Are the nodes of a graph these, in this order?
fn stands_so(alloc: Global, graph: &OrderGraph, line: &[EntryKey]) -> Result<bool, AllocError> {
    let order = graph.order(alloc)?;
    Ok(order.as_slice() == line)
}

/// A graph with a chain: does it stand in a line, made either way, and did the patch move nodes?
fn moves_to(
    alloc: Global,
    graph: OrderGraph,
    chain: &[EntryKey],
    line: &[EntryKey],
) -> Result<bool, AllocError> {
    let chain = distinct(alloc, chain)?;
    let called = by_calls(alloc, &graph, &[], &chain, line)?;
    let patched = by_patch(alloc, graph, &[], &chain, line)?;
    match (called, patched) {
        (Some(called), Some((patched, moves))) => {
            let called = stands_so(alloc, &called, line)?;
            let patched = stands_so(alloc, &patched, line)?;
            Ok(moves && called && patched)
        }
        (_, _) => Ok(false),
    }
}

/// Where 5 stands right before 4, does the chain 1, 4, 5, 8 turn these two round, and leave the others at their places?
pub(super) fn two_are_reversed(alloc: Global, names: &[EntryKey]) -> Result<bool, AllocError> {
    let line = named(alloc, names, &[0, 1, 2, 3, 5, 4, 6, 7, 8, 9])?;
    let Some(graph) = forked(alloc, names, &line)? else {
        return Ok(false);
    };
    if !stands_so(alloc, &graph, &line)? {
        return Ok(false);
    }
    let turned = named(alloc, names, &[0, 1, 2, 3, 4, 5, 6, 7, 8, 9])?;
    let chain = named(alloc, names, &[1, 4, 5, 8])?;
    moves_to(alloc, graph, &chain, &turned)
}
