//! Regions of places in which the places of a chain are out of order. Before them, between them and after them they rise.
ghost use Rattle.std.specs.Prelude.{◌≡◌, ℕ, ◌<◌, ◌≤◌, IfOk, length, slice_index_or};
ghost use Rattle.rd_graph.specs.Internal.Regions.{AreLeast, IsCut, RiseFrom};

use std::alloc::{AllocError, Global};

/// So many of some places lie before a place, and the others do not.
#[derive(Clone, Copy)]
pub(crate) struct Cut {
    pub(crate) met: usize,
    pub(crate) place: usize,
}

/// What lies between two cuts.
#[derive(Clone, Copy)]
pub(crate) struct Region {
    pub(crate) from: Cut,
    pub(crate) to: Cut,
}

/// Of some places below an end, from each one on the least, and the end after the last one.
pub(crate) fn least_from(
    alloc: Global,
    places: &[usize],
    end: usize,
) -> Result<Vec<usize>, AllocError>
    ensures { IfOk result (λ v. AreLeast places.now end v.items) }
{
    let mut least = vec![in alloc; end; places.len() + 1]?;
    for i in 0..places.len() {
        let at = places.len() - 1 - i;
        least[at] = least[at + 1].min(places[at]);
    }
    Ok(least)
}

/// The last cut up to which places rise from another one on.
pub(crate) fn risen(places: &[usize], least: &[usize], end: usize, from: Cut) -> Cut
    requires least { AreLeast places.now end least.now }
    requires from { IsCut places.now end from }
    ensures cut { IsCut places.now end result }
    ensures after { from.place ≤ result.place }
    ensures rises { RiseFrom places.now from.met result.met }
{
    let mut met = from.met;
    while met < places.len() && places[met] < least[met + 1] {
        met += 1;
    }
    Cut {
        met,
        place: least[met],
    }
}

/// The first cut after another one where not all places are met.
pub(crate) fn next_cut(places: &[usize], least: &[usize], end: usize, from: Cut) -> Cut
    requires least { AreLeast places.now end least.now }
    requires below { (k : ℕ) → k < length places.now → slice_index_or places.now k 0 < end }
    requires from { IsCut places.now end from }
    requires some { from.met < length places.now }
    ensures cut { IsCut places.now end result }
    ensures after { from.place ≤ result.place }
    ensures more { from.met < result.met }
{
    let mut met = from.met + 1;
    let mut place = places[from.met] + 1;
    while met < places.len() && least[met] < place {
        place = place.max(places[met] + 1);
        met += 1;
    }
    Cut { met, place }
}
