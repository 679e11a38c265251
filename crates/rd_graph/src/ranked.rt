//! Places with their ranks, as runs of places that follow each other and have one rank.
ghost use Rattle.std.specs.Prelude.{◌≡◌, ◌-◌, ◌≤◌, ◌++◌, ◌∷◌, [], IfOk, OnOk, IsPermutation, length, map};
ghost use Rattle.std.specs.List.Sorted.{IsNonDecreasingBy, IsStableByKey};
ghost use Rattle.std.specs.Ordering.{nat_cmp};
ghost use Rattle.rd_graph.specs.Runs.{places_of, up_from};
ghost use Rattle.rd_graph.specs.Internal.Walks.{staying};
ghost use Rattle.rd_graph.specs.Internal.Ranks.{alike, spread};

use crate::aside::set_aside;
use crate::runs::{Run, push_places};
use crate::stays::Stays;
use std::alloc::{AllocError, Global};

/// So many places that follow each other, and the first of them; and their rank.
#[derive(Clone, Copy)]
pub(crate) struct RankedRun {
    pub(crate) rank: usize,
    pub(crate) from: usize,
    pub(crate) count: usize,
}

/// Puts so many places from one on at the end, with one rank.
pub(crate) fn push_ranked_run(
    runs: &mut Vec<RankedRun>,
    rank: usize,
    from: usize,
    count: usize,
) -> Result<(), AllocError>
    ensures { OnOk result (spread runs.new.items ≡ spread runs.old.items ++ alike rank (up_from from count)) }
{
    runs.push(RankedRun { rank, from, count })?;
    Ok(())
}

/// Puts those places of a stretch at the end that stay, with one rank.
pub(crate) fn push_staying(
    runs: &mut Vec<RankedRun>,
    stays: &Stays,
    rank: usize,
    from: usize,
    to: usize,
) -> Result<(), AllocError>
    requires { to ≤ length stays.now }
    ensures { OnOk result (spread runs.new.items ≡ spread runs.old.items ++ alike rank (staying stays.now from (to - from))) }
{
    let mut place = from;
    while place < to {
        let first = stays.next_staying(place, to);
        let end = stays.next_gone(first, to);
        push_ranked_run(runs, rank, first, end - first)?;
        place = end;
    }
    Ok(())
}

/// The runs by their ranks, those of one rank as they stood.
pub(crate) fn sort(runs: &mut Vec<RankedRun>) -> Result<(), AllocError>
    ensures same { IsPermutation runs.old.items runs.new.items }
    ensures sorted { OnOk result (IsNonDecreasingBy (λ r. r.rank) runs.new.items) }
    ensures stable { IsStableByKey (λ r. r.rank) nat_cmp runs.old.items runs.new.items }
{
    runs.sort_by_key(|r| r.rank)?;
    Ok(())
}

/// The places alone, as runs, the first place `apart` of another kind not after those before it. What is not in its order is set
/// aside.
pub(crate) fn places_alone(
    alloc: Global,
    ranked: &[RankedRun],
    apart: usize,
) -> Result<Vec<Run>, AllocError>
    ensures { IfOk result (λ v. places_of v.items ≡ map (λ p. p.1) (spread ranked.now)) }
{
    let mut runs = Vec::new(alloc);
    for run in ranked {
        push_places(&mut runs, run.from, run.count, apart, false)?;
    }
    set_aside(alloc, &mut runs, apart)?;
    Ok(runs)
}
