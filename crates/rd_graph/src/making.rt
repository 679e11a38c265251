//! The nodes that a merge makes.
ghost use Rattle.std.specs.Prelude.{◌≡◌, [], ◌++◌, ◌<◌, IfOk, OnOk, Some, length};
ghost use Rattle.rd_graph.specs.Internal.Chains.{before_place};
ghost use Rattle.rd_graph.specs.Internal.MadeNodes.{made_at, made_after};
ghost use Rattle.rd_graph.specs.Internal.Patching.{HasRoom};
ghost use Rattle.rd_graph.specs.Internal.Seen.{seen};

use crate::before::{Predecessors, nothing, one};
use crate::graph::Node;
use crate::runs::{Run, as_runs, line_room};
use rd_keys::EntryKey;
use std::alloc::{AllocError, Global};

/// What comes right before a place of the chain.
fn before_at(alloc: Global, chain: &[EntryKey], i: usize) -> Predecessors
    requires { i < length chain.now }
    ensures { result.items ≡ before_place chain.now (Some i) }
{
    if i == 0 {
        return nothing(alloc);
    }
    one(alloc, chain[i - 1])
}

/// The node of a name of the chain, if the name was not found.
fn push_made(
    alloc: Global,
    made: &mut Vec<Node>,
    chain: &[EntryKey],
    i: usize,
    key: EntryKey,
    found: Option<usize>,
) -> Result<(), AllocError>
    requires { i < length chain.now }
    ensures { OnOk result (seen made.new.items ≡ seen made.old.items ++ made_at chain.now i key found) }
{
    if found.is_some() {
        return Ok(());
    }
    let before = before_at(alloc, chain, i);
    made.push(Node { key, before })?;
    Ok(())
}

/// How many names were not found.
fn missing(found: &[Option<usize>]) -> usize {
    let mut count: usize = 0;
    for place in found {
        count = count.wrapping_add(usize::from(place.is_none()));
    }
    count
}

/// The nodes of the names of the chain that were not found, each after the name before it in the chain.
pub(crate) fn make(
    alloc: Global,
    chain: &[EntryKey],
    found: &[Option<usize>],
) -> Result<Vec<Node>, AllocError>
    requires { length found.now ≡ length chain.now }
    ensures { IfOk result (λ v. seen v.items ≡ made_after [] chain.now found.now) }
{
    let mut made = Vec::with_capacity(alloc, missing(found))?;
    for (i, key) in chain.iter().enumerate() {
        push_made(alloc, &mut made, chain, i, *key, found[i])?;
    }
    Ok(made)
}

/// Room for the nodes of a line.
pub(crate) fn room(alloc: Global, line: &Option<Vec<Run>>) -> Result<Vec<Node>, AllocError>
    ensures { IfOk result (λ r. HasRoom line.now r) }
{
    line_room(alloc, as_runs(line))
}
