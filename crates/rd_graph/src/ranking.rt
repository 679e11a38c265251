//! A line by ranks: nodes are sorted by their places among the names of the chain that stay.
ghost use Rattle.std.specs.Prelude.{◌≡◌, ◌+◌, ◌<◌, ◌++◌, ◌∷◌, [], IfOk, OnOk, length, if◌then◌else◌, ◌^◌};
ghost use Rattle.rd_graph.specs.Graphs.{IsInOrder};
ghost use Rattle.rd_graph.specs.Patches.{CanBePatched};
ghost use Rattle.rd_graph.specs.Internal.Seen.{seen};
ghost use Rattle.rd_graph.specs.Internal.Walks.{counted};
ghost use Rattle.rd_graph.specs.Internal.Ranks.{fixed, rank_after, loose_one, loose, spread, AreRankable, PutsRanked, AreByRank, IsLineOf};

use crate::change::Change;
use crate::counting::{Rankable, push_ranked};
use crate::graph::Node;
use crate::ranked::{RankedRun, places_alone, push_ranked_run, sort};
use crate::runs::Run;
use crate::stays::Stays;
use crate::walking::marks;
use rd_keys::EntryKey;
use std::alloc::{AllocError, Global};

/// Puts a name of the chain at the end, if it stays.
fn push_fixed(names: &mut Vec<EntryKey>, stays: bool, name: EntryKey) -> Result<(), AllocError>
    ensures { OnOk result (names.new.items ≡ names.old.items ++ (if stays then name ∷ [] else [])) }
{
    if stays {
        names.push(name)?;
    }
    Ok(())
}

/// The names of a chain that stay.
fn fixed_names(
    alloc: Global,
    stays: &Stays,
    places: &[usize],
    chain: &[EntryKey],
) -> Result<Vec<EntryKey>, AllocError>
    requires { length places.now ≡ length chain.now }
    ensures { IfOk result (λ v. v.items ≡ fixed stays.now places.now chain.now) }
{
    let mut names = Vec::new(alloc);
    for i in 0..places.len() {
        push_fixed(&mut names, stays.has(places[i]), chain[i])?;
    }
    Ok(names)
}

/// Puts a place of the chain at the end, if it stays.
fn push_if(places: &mut Vec<usize>, stays: bool, place: usize) -> Result<(), AllocError>
    ensures { OnOk result (places.new.items ≡ places.old.items ++ (if stays then place ∷ [] else [])) }
{
    if stays {
        places.push(place)?;
    }
    Ok(())
}

/// The places of the chain that stay.
fn fixed_places(alloc: Global, stays: &Stays, places: &[usize]) -> Result<Vec<usize>, AllocError>
    ensures { IfOk result (λ v. v.items ≡ fixed stays.now places.now places.now) }
{
    let mut some = Vec::new(alloc);
    for place in places {
        push_if(&mut some, stays.has(*place), *place)?;
    }
    Ok(some)
}

/// Puts a place of the chain at the end with its rank, unless it stays. Gives the rank of the next one.
fn push_loose(
    runs: &mut Vec<RankedRun>,
    stays: &Stays,
    rank: usize,
    place: usize,
) -> Result<usize, AllocError>
    requires { rank + 1 < 2 ^ 64 }
    ensures runs { OnOk result (spread runs.new.items ≡ spread runs.old.items ++ loose_one stays.now rank place) }
    ensures rank { IfOk result (λ r. r ≡ rank_after stays.now rank place) }
{
    if stays.has(place) {
        return Ok(rank + 1);
    }
    push_ranked_run(runs, rank, place, 1)?;
    Ok(rank)
}

/// The places of the chain that do not stay, with their ranks.
fn loose_runs(alloc: Global, stays: &Stays, places: &[usize]) -> Result<Vec<RankedRun>, AllocError>
    ensures { IfOk result (λ v. spread v.items ≡ loose stays.now 0 places.now) }
{
    let mut runs = Vec::new(alloc);
    let mut rank = 0;
    for place in places {
        rank = push_loose(&mut runs, stays, rank, *place)?;
    }
    Ok(runs)
}

/// Puts the places that stay at the end, with the ranks of their nodes among the names of a chain that stay.
fn push_nodes(
    alloc: Global,
    runs: &mut Vec<RankedRun>,
    nodes: &[Node],
    stays: &Stays,
    places: &[usize],
    chain: &[EntryKey],
) -> Result<(), AllocError>
    requires what { AreRankable nodes.now stays.now (fixed stays.now places.now places.now) (fixed stays.now places.now chain.now) }
    requires places { length places.now ≡ length chain.now }
    ensures { OnOk result (PutsRanked (fixed stays.now places.now chain.now) stays.now (seen nodes.now)
        (spread runs.old.items) (spread runs.new.items)) }
{
    let some = fixed_places(alloc, stays, places)?;
    let names = fixed_names(alloc, stays, places, chain)?;
    let what = Rankable {
        nodes,
        stays,
        places: &some,
        names: &names,
    };
    push_ranked(alloc, runs, what)
}

/// The places with their ranks, by their ranks.
fn sorted_runs(
    alloc: Global,
    nodes: &[Node],
    stays: &Stays,
    places: &[usize],
    chain: &[EntryKey],
) -> Result<Vec<RankedRun>, AllocError>
    requires what { AreRankable nodes.now stays.now (fixed stays.now places.now places.now) (fixed stays.now places.now chain.now) }
    requires places { length places.now ≡ length chain.now }
    ensures { IfOk result (λ v. AreByRank stays.now places.now chain.now (seen nodes.now) (spread v.items)) }
{
    let mut runs = loose_runs(alloc, stays, places)?;
    push_nodes(alloc, &mut runs, nodes, stays, places, chain)?;
    sort(&mut runs)?;
    Ok(runs)
}

/// The line by ranks.
pub(crate) fn ranked_line(
    alloc: Global,
    nodes: &[Node],
    change: Change<'_>,
    places: &[usize],
) -> Result<Vec<Run>, AllocError>
    requires sound { IsInOrder (seen nodes.now) }
    requires can { CanBePatched change.removed.now change.chain.now change.old_places.now (seen nodes.now) }
    requires places { places.now ≡ counted (length nodes.now) change.old_places.now }
    ensures { IfOk result (IsLineOf change.entry.removed.now change.entry.chain.now change.entry.old_places.now (seen nodes.now)) }
{
    let stays = marks(alloc, nodes.len(), change.removed)?;
    let runs = sorted_runs(alloc, nodes, &stays, places, change.chain)?;
    places_alone(alloc, &runs, nodes.len())
}
