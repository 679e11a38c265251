//! Places with their ranks among some names: where the places of the names rise, ranks are counted, and in the regions between,
//! ranks are labels.
ghost use Rattle.std.specs.Prelude.{◌≡◌, ℕ, ◌+◌, ◌-◌, ◌<◌, ◌≤◌, ◌^◌, ◌++◌, ◌∷◌, [], IfOk, OnOk, if◌then◌else◌, length, slice_index_or};
ghost use Rattle.rd_graph.specs.Graphs.{IsInOrder};
ghost use Rattle.rd_graph.specs.Orders.{Once};
ghost use Rattle.rd_graph.specs.Patches.{AreRising};
ghost use Rattle.rd_graph.specs.Internal.Seen.{seen};
ghost use Rattle.rd_graph.specs.Internal.Tables.{label_in};
ghost use Rattle.rd_graph.specs.Internal.Walks.{staying};
ghost use Rattle.rd_graph.specs.Internal.Regions.{AreLeast, IsCut, IsRegion};
ghost use Rattle.rd_graph.specs.Internal.Ranks.{counted_ranks, labelled_ranks, spread, AreRankable, PutsTo, PutsWithin, PutsRanked};

use crate::chain::label_nodes;
use crate::graph::Node;
use crate::ranked::{RankedRun, push_ranked_run, push_staying};
use crate::regions::{Cut, Region, least_from, next_cut, risen};
use crate::stays::Stays;
use crate::tables::label;
use indexmap::IndexMap;
use rd_keys::EntryKey;
use std::alloc::{AllocError, Global};

/// What is ranked: nodes, of which these stay, among names that stand at these places.
#[derive(Clone, Copy)]
pub(crate) struct Rankable<'a> {
    pub(crate) nodes: &'a [Node],
    pub(crate) stays: &'a Stays,
    pub(crate) places: &'a [usize],
    pub(crate) names: &'a [EntryKey],
}

/// Puts a place at the end with its rank, if it stays.
fn push_if(
    runs: &mut Vec<RankedRun>,
    stays: bool,
    rank: usize,
    place: usize,
) -> Result<(), AllocError>
    ensures { OnOk result (spread runs.new.items ≡ spread runs.old.items ++ (if stays then (rank, place) ∷ [] else [])) }
{
    if stays {
        push_ranked_run(runs, rank, place, 1)?;
    }
    Ok(())
}

/// Puts those places at the end that stay, of a stretch of places. Ranks begin at the least, and after each of some
/// places they are one higher.
fn push_counted(
    runs: &mut Vec<RankedRun>,
    stays: &Stays,
    some: &[usize],
    least: usize,
    from: usize,
    to: usize,
) -> Result<(), AllocError>
    requires rising { AreRising some.now }
    requires after { (k : ℕ) → k < length some.now → from ≤ slice_index_or some.now k 0 }
    requires before { (k : ℕ) → k < length some.now → slice_index_or some.now k 0 < to }
    requires to { to ≤ length stays.now }
    requires few { least + length some.now < 2 ^ 64 }
    requires next { from ≤ to }
    ensures { OnOk result (spread runs.new.items
        ≡ spread runs.old.items ++ counted_ranks least some.now (staying stays.now from (to - from))) }
{
    let mut place = from;
    for i in 0..some.len() {
        let next = some[i] + 1;
        push_staying(runs, stays, least + i, place, next)?;
        place = next;
    }
    push_staying(runs, stays, least + some.len(), place, to)
}

/// Puts those places of a region at the end that stay. Ranks begin at the first place of the chain that lies in it, and
/// are higher by the labels of the nodes.
fn push_labels(
    runs: &mut Vec<RankedRun>,
    nodes: &[Node],
    stays: &Stays,
    labels: &IndexMap<EntryKey, usize>,
    region: Region,
) -> Result<(), AllocError>
    requires next { region.from.met ≤ region.to.met }
    requires low { (k : EntryKey) → label_in labels.now (region.to.met - region.from.met) k ≤ region.to.met - region.from.met }
    requires to { region.to.place ≤ length nodes.now }
    ensures { OnOk result (spread runs.new.items ≡ spread runs.old.items ++ labelled_ranks region.from.met
        (label_in labels.now (region.to.met - region.from.met)) nodes.now (staying stays.now region.from.place (region.to.place - region.from.place))) }
{
    let last = region.to.met - region.from.met;
    for place in region.from.place..region.to.place {
        let label = label(labels, last, nodes[place].key);
        push_if(runs, stays.has(place), region.from.met + label, place)?;
    }
    Ok(())
}

/// Puts those places of a region at the end that stay, with ranks by the edges between its nodes.
fn push_within(
    alloc: Global,
    runs: &mut Vec<RankedRun>,
    what: Rankable<'_>,
    region: Region,
) -> Result<(), AllocError>
    requires what { AreRankable what.nodes.now what.stays.now what.places.now what.names.now }
    requires region { IsRegion what.places.now (length what.nodes.now) region }
    ensures { OnOk result (PutsWithin region what.entry.names.now what.entry.stays.now what.entry.nodes.now
        (spread runs.old.items) (spread runs.new.items)) }
{
    let inside = &what.nodes[region.from.place..region.to.place];
    let names = &what.names[region.from.met..region.to.met];
    let labels = label_nodes(alloc, inside, names)?;
    push_labels(runs, what.nodes, what.stays, &labels, region)
}

/// Puts the places that stay at the end up to a cut after another one, with their ranks: those up to which the places of the names
/// rise, and those of the region after them. All places before the cut have been put.
fn push_to_cut(
    alloc: Global,
    runs: &mut Vec<RankedRun>,
    what: Rankable<'_>,
    least: &[usize],
    from: Cut,
) -> Result<Cut, AllocError>
    requires what { AreRankable what.nodes.now what.stays.now what.places.now what.names.now }
    requires least { AreLeast what.places.now (length what.nodes.now) least.now }
    requires from { IsCut what.places.now (length what.nodes.now) from }
    requires some { from.met < length what.places.now }
    ensures cut { IfOk result (λ c. IsCut what.entry.places.now (length what.entry.nodes.now) c) }
    ensures more { IfOk result (λ c. from.met < c.met) }
    ensures to { IfOk result (λ c. (first : _) → PutsTo from what.entry.places.now what.entry.names.now what.entry.stays.now what.entry.nodes.now first (spread runs.old.items)
        → PutsTo c what.entry.places.now what.entry.names.now what.entry.stays.now what.entry.nodes.now first (spread runs.new.items)) }
{
    let end = what.nodes.len();
    let rise = risen(what.places, least, end, from);
    let some = &what.places[from.met..rise.met];
    push_counted(runs, what.stays, some, from.met, from.place, rise.place)?;
    if rise.met == what.places.len() {
        return Ok(rise);
    }
    let to = next_cut(what.places, least, end, rise);
    let region = Region { from: rise, to };
    push_within(alloc, runs, what, region)?;
    Ok(to)
}

/// Puts the places that stay at the end, with their ranks among some names, of which the places are known.
pub(crate) fn push_ranked(
    alloc: Global,
    runs: &mut Vec<RankedRun>,
    what: Rankable<'_>,
) -> Result<(), AllocError>
    requires { AreRankable what.nodes.now what.stays.now what.places.now what.names.now }
    ensures { OnOk result (PutsRanked what.entry.names.now what.entry.stays.now (seen what.entry.nodes.now)
        (spread runs.old.items) (spread runs.new.items)) }
{
    let end = what.nodes.len();
    let least = least_from(alloc, what.places, end)?;
    let mut cut = Cut { met: 0, place: 0 };
    while cut.met < what.places.len() {
        cut = push_to_cut(alloc, runs, what, &least, cut)?;
    }
    push_staying(runs, what.stays, cut.met, cut.place, end)
}
