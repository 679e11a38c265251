//! Edges that others imply go from a graph.
ghost use Rattle.std.specs.Prelude.{◌≡◌, ◌++◌, IfOk, IfSome, OnOk};
ghost use Rattle.rd_graph.specs.Graphs.{nodes as nodes_of, IsInOrder};
ghost use Rattle.rd_graph.specs.Internal.Patching.{lists_seen};
ghost use Rattle.rd_graph.specs.Internal.Seen.{seen, seen_one};
ghost use Rattle.rd_graph.specs.Internal.Thinning.{AreImplied, Leaves, MayLeave, IsThinner, ThinsOne, IsThinned};

use crate::before::{Name, Predecessors, copied, is_among, nothing, push};
use crate::climbing::implied;
use crate::graph::Node;
use crate::places::Places;
use rd_keys::EntryKey;
use std::alloc::{AllocError, Global};

/// Nodes with fewer predecessors, and the lists of those that lost one, with their places.
#[derive(Drop)]
pub(crate) struct ThinNodes {
    pub(crate) nodes: Vec<Node>,
    pub(crate) lists: Vec<(usize, Predecessors)>,
}

/// Puts a name at the end, unless it is one of some names.
fn leave_one(names: &[Name], left: &mut Predecessors, key: EntryKey) -> Result<(), AllocError>
    ensures { OnOk result (MayLeave names.now key left.old.items left.new.items) }
{
    if is_among(names, key) {
        return Ok(());
    }
    push(left, key)?;
    Ok(())
}

/// A list without some names.
fn without(alloc: Global, list: &[Name], names: &[Name]) -> Result<Predecessors, AllocError>
    ensures { IfOk result (λ v. Leaves names.now list.now v.items) }
{
    let mut left = nothing(alloc);
    for key in list {
        leave_one(names, &mut left, key.key)?;
    }
    Ok(left)
}

/// A list of predecessors without those that others of it imply. None if it loses none.
fn thinner(
    alloc: Global,
    nodes: &[Node],
    places: &Places,
    list: &[Name],
) -> Result<Option<Predecessors>, AllocError>
    requires { places.now ≡ nodes_of (seen nodes.now) }
    ensures { IfOk result (λ l. IfSome l (λ v. IsThinner (seen nodes.now) v.items list.now)) }
{
    if list.len() < 2 {
        return Ok(None);
    }
    let names = implied(alloc, nodes, places, list)?;
    if names.is_empty() {
        return Ok(None);
    }
    let left = without(alloc, list, &names)?;
    Ok(Some(left))
}

/// Puts a node at the end, as it is or with fewer predecessors. Its list is put with the others, if it is new.
fn thin_one(
    alloc: Global,
    nodes: &[Node],
    places: &Places,
    thin: &mut Vec<Node>,
    lists: &mut Vec<(usize, Predecessors)>,
    place: usize,
    node: &Node,
) -> Result<(), AllocError>
    requires { places.now ≡ nodes_of (seen nodes.now) }
    ensures { OnOk result (ThinsOne (seen nodes.now) place (seen_one node.now) (seen thin.old.items)
        (seen thin.new.items) (lists_seen lists.old.items) (lists_seen lists.new.items)) }
{
    let key = node.key;
    match thinner(alloc, nodes, places, &node.before)? {
        Some(before) => {
            let again = copied(alloc, &before)?;
            lists.push((place, again))?;
            thin.push(Node { key, before })?;
            Ok(())
        }
        None => {
            let before = copied(alloc, &node.before)?;
            thin.push(Node { key, before })?;
            Ok(())
        }
    }
}

/// The names of nodes with their places.
fn places_of(alloc: Global, nodes: &[Node]) -> Result<Places, AllocError>
    requires { IsInOrder (seen nodes.now) }
    ensures { IfOk result (λ p. p ≡ nodes_of (seen nodes.now)) }
{
    let mut names = Vec::with_capacity(alloc, nodes.len())?;
    for node in nodes {
        names.push(node.key)?;
    }
    let places = Places::new(alloc, names)?;
    Ok(places)
}

/// Nodes, whose places are known, without those predecessors that short climbs find to be implied.
fn thinned_by(alloc: Global, nodes: &[Node], places: &Places) -> Result<ThinNodes, AllocError>
    requires { places.now ≡ nodes_of (seen nodes.now) }
    ensures { IfOk result (λ t. IsThinned (seen nodes.now) (seen t.nodes.items) (lists_seen t.lists.items)) }
{
    let mut thin = Vec::with_capacity(alloc, nodes.len())?;
    let mut lists = Vec::new(alloc);
    for place in 0..nodes.len() {
        let node = &nodes[place];
        thin_one(alloc, nodes, places, &mut thin, &mut lists, place, node)?;
    }
    Ok(ThinNodes { nodes: thin, lists })
}

/// Nodes without those predecessors that short climbs find to be implied.
pub(crate) fn thinned(alloc: Global, nodes: &[Node]) -> Result<ThinNodes, AllocError>
    requires { IsInOrder (seen nodes.now) }
    ensures { IfOk result (λ t. IsThinned (seen nodes.now) (seen t.nodes.items) (lists_seen t.lists.items)) }
{
    let places = places_of(alloc, nodes)?;
    thinned_by(alloc, nodes, &places)
}

/// Lists of predecessors, and after them others.
pub(crate) fn joined(
    lists: Vec<(usize, Predecessors)>,
    more: Vec<(usize, Predecessors)>,
) -> Result<Vec<(usize, Predecessors)>, AllocError>
    ensures { IfOk result (λ v. lists_seen v.items ≡ lists_seen lists.items ++ lists_seen more.items) }
{
    let mut all = lists;
    for (place, before) in more {
        all.push((place, before))?;
    }
    Ok(all)
}
