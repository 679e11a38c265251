//! Calls of graphs that first test what they ask for.
ghost use Rattle.std.specs.Prelude.{◌≡◌, ◌<◌, ◌+◌, ℕ, IfOk, OnOk, true, length, map, slice_index_or, Contains};
ghost use Rattle.rd_graph.specs.Gathered.{gathered};
ghost use Rattle.rd_graph.specs.Graphs.{Graph, Drops, GoTogether, IsLinear};
ghost use Rattle.rd_graph.specs.Names.{is_in, place_of, same_entry};
ghost use Rattle.rd_graph.specs.Orders.{Once};
ghost use Rattle.rd_graph.specs.Patches.{AreRising, found_in, is_gone};

use rd_graph::{Change, OrderGraph, Places};
use rd_keys::EntryKey;
use std::alloc::{AllocError, Global};

/// Have two entries one name?
fn is_same(a: &EntryKey, b: &EntryKey) -> bool
    ensures { result ≡ same_entry a.now b.now }
{
    a == b
}

/// Is the name one of these?
fn is_among(names: &[EntryKey], name: &EntryKey) -> bool
    ensures { result ≡ is_in same_entry names.now name.now }
{
    for other in names {
        if is_same(other, name) {
            return true;
        }
    }
    false
}

/// Puts a name at the end, if it is not there.
fn push_once(names: &mut Vec<EntryKey>, name: EntryKey) -> Result<(), AllocError>
    requires { Once names.old.items }
    ensures { OnOk result (Once names.new.items) }
{
    if !is_among(names, &name) {
        names.push(name)?;
    }
    Ok(())
}

/// The names, each once.
pub(super) fn distinct(alloc: Global, names: &[EntryKey]) -> Result<Vec<EntryKey>, AllocError>
    ensures { IfOk result (λ v. Once v.items) }
{
    let mut all = Vec::new(alloc);
    for name in names {
        push_once(&mut all, *name)?;
    }
    Ok(all)
}

/// Do a graph and a chain, which has a graph of its own, go forward in a line?
fn go_together(line: &Places, chain: &[EntryKey], graph: &OrderGraph, linear: &OrderGraph) -> bool
    requires once { Once line.now }
    requires linear { IsLinear chain.now linear.now }
    ensures { result ≡ true → GoTogether chain.now graph.now }
{
    graph.goes_forward(line) && linear.goes_forward(line)
}

/// Do a graph and a chain go forward in a line?
fn fit_together(
    alloc: Global,
    line: &[EntryKey],
    chain: &[EntryKey],
    graph: &OrderGraph,
) -> Result<bool, AllocError>
    requires { Once chain.now }
    ensures { IfOk result (λ b. b ≡ true → GoTogether chain.now graph.now) }
{
    let line = distinct(alloc, line)?;
    let line = Places::new(alloc, line)?;
    let linear = OrderGraph::linear(alloc, chain)?;
    Ok(go_together(&line, chain, graph, &linear))
}

/// A graph without some names and with a chain, by one call after the other.
/// None where the chain and what stays do not go forward in the line.
pub(super) fn by_calls(
    alloc: Global,
    graph: &OrderGraph,
    gone: &[EntryKey],
    chain: &[EntryKey],
    line: &[EntryKey],
) -> Result<Option<OrderGraph>, AllocError>
    requires { Once chain.now }
{
    let left = graph.drop_nodes(alloc, gone)?;
    if !fit_together(alloc, line, chain, &left)? {
        return Ok(None);
    }
    let graph = left.add_chain(alloc, chain)?;
    Ok(Some(graph))
}

/// Puts a place behind lower ones, if it is wanted.
fn push_if(places: &mut Vec<usize>, place: usize, is_wanted: bool) -> Result<(), AllocError>
    requires rising { AreRising places.old.items }
    requires below { (k : ℕ) → k < length places.old.items → slice_index_or places.old.items k 0 < place }
    ensures rising { OnOk result (AreRising places.new.items) }
    ensures below { OnOk result ((k : ℕ)
        → k < length places.new.items → slice_index_or places.new.items k 0 < place + 1) }
{
    if is_wanted {
        places.push(place)?;
    }
    Ok(())
}

/// The places of some names, in rising order.
fn places_of(
    alloc: Global,
    order: &[EntryKey],
    names: &[EntryKey],
) -> Result<Vec<usize>, AllocError>
    ensures rising { IfOk result (λ v. AreRising v.items) }
    ensures within { IfOk result (λ v. (k : ℕ)
        → k < length v.items → slice_index_or v.items k 0 < length order.now) }
{
    let mut places = Vec::new(alloc);
    for (place, key) in order.iter().enumerate() {
        push_if(&mut places, place, names.contains(key))?;
    }
    Ok(places)
}

/// The names at some places.
fn names_at(
    alloc: Global,
    order: &[EntryKey],
    places: &[usize],
) -> Result<Vec<EntryKey>, AllocError>
    requires { (k : ℕ) → k < length places.now → slice_index_or places.now k 0 < length order.now }
    ensures { IfOk result (λ v. v.items ≡ gathered places.now order.now) }
{
    let mut names = Vec::new(alloc);
    for place in places {
        names.push(order[*place])?;
    }
    Ok(names)
}

/// Where the names of a chain stand.
fn sought(
    alloc: Global,
    order: &Places,
    chain: &[EntryKey],
) -> Result<Vec<Option<usize>>, AllocError>
    ensures { IfOk result (λ v. v.items ≡ map (λ k. place_of same_entry order.now k) chain.now) }
{
    let mut found = Vec::new(alloc);
    for key in chain {
        found.push(order.find(*key))?;
    }
    Ok(found)
}

/// Where the names of a chain stand in a graph.
fn found(
    alloc: Global,
    graph: &OrderGraph,
    chain: &[EntryKey],
) -> Result<Vec<Option<usize>>, AllocError>
    ensures { IfOk result (λ v. v.items ≡ found_in chain.now graph.now) }
{
    let order = graph.order(alloc)?;
    let order = Places::new(alloc, order)?;
    sought(alloc, &order, chain)
}

/// Can the nodes at some places go, and a chain be put in?
fn can_change(
    alloc: Global,
    graph: &OrderGraph,
    gone: &[usize],
    chain: &[EntryKey],
    line: &[EntryKey],
) -> Result<bool, AllocError>
    requires within { (k : ℕ) → k < length gone.now → slice_index_or gone.now k 0 < length graph.now }
    requires once { Once chain.now }
    ensures { IfOk result (λ b. b ≡ true → (dropped : Graph EntryKey)
        → Drops (is_gone gone.now graph.now) graph.now dropped → GoTogether chain.now dropped) }
{
    let order = graph.order(alloc)?;
    let names = names_at(alloc, &order, gone)?;
    let left = graph.drop_nodes(alloc, &names)?;
    let fits = fit_together(alloc, line, chain, &left)?;
    Ok(fits)
}

/// The same by a patch, and whether nodes change their places.
/// None where the chain and what stays do not go forward in the line.
pub(super) fn by_patch(
    alloc: Global,
    graph: OrderGraph,
    gone: &[EntryKey],
    chain: &[EntryKey],
    line: &[EntryKey],
) -> Result<Option<(OrderGraph, bool)>, AllocError>
    requires { Once chain.now }
{
    let order = graph.order(alloc)?;
    let gone = places_of(alloc, &order, gone)?;
    if !can_change(alloc, &graph, &gone, chain, line)? {
        return Ok(None);
    }
    let found = found(alloc, &graph, chain)?;
    let change = Change {
        removed: &gone,
        chain,
        old_places: &found,
    };
    let patch = graph.patch(alloc, change)?;
    let moves = patch.line().is_some();
    Ok(Some((graph.apply(patch), moves)))
}
