//! Runs of old places that are set aside, so that the others rise and are taken in one pass.
ghost use Rattle.std.specs.Prelude.{◌≡◌, ◌+◌, ◌<◌, ◌≤◌, IfOk, OnOk, length};
ghost use Rattle.rd_graph.specs.Runs.{places_of};

use crate::regions::least_from;
use crate::runs::Run;
use std::alloc::{AllocError, Global};

/// Which runs of a stretch are set aside: those that come before a lower one, or those that come after a higher one.
#[derive(Clone, Copy)]
enum Side {
    Ahead,
    Behind,
}

/// Where a run of old places begins, of which there are so many, and zero for a made one.
#[inline(always)]
fn start_of(run: Run, old: usize) -> usize {
    if run.from < old { run.from } else { 0 }
}

/// Is a run of old places out of order? The least of those after it, and the most of those before it, are given.
#[inline(always)]
fn is_apart(run: Run, old: usize, side: Side, least: usize, most: usize) -> bool {
    run.from < old
        && match side {
            Side::Ahead => least < run.from,
            Side::Behind => run.from < most,
        }
}

/// The end of a stretch of runs from one on, whose old places come all before those of the runs after it.
fn stretch_end(runs: &[Run], least: &[usize], old: usize, from: usize) -> usize
    requires least { length least.now ≡ length runs.now + 1 }
    requires some { from < length runs.now }
    ensures more { from < result }
    ensures within { result ≤ length runs.now }
{
    let mut most = start_of(runs[from], old);
    let mut to = from + 1;
    while to < runs.len() && least[to] < most {
        most = most.max(start_of(runs[to], old));
        to += 1;
    }
    to
}

/// How many places of a stretch would be set aside.
fn count_apart(
    runs: &[Run],
    least: &[usize],
    old: usize,
    side: Side,
    from: usize,
    to: usize,
) -> usize
    requires least { length least.now ≡ length runs.now + 1 }
    requires within { to ≤ length runs.now }
{
    let mut most = 0;
    let mut count: usize = 0;
    for i in from..to {
        let run = runs[i];
        if is_apart(run, old, side, least[i + 1], most) {
            count = count.saturating_add(run.count);
        }
        most = most.max(start_of(run, old));
    }
    count
}

/// Sets a run aside, if it is to be.
fn put_if(runs: &mut Vec<Run>, at: usize, aside: bool)
    requires { at < length runs.old.items }
    ensures places { places_of runs.new.items ≡ places_of runs.old.items }
    ensures len { length runs.new.items ≡ length runs.old.items }
{
    if aside {
        let run = runs[at];
        runs[at] = Run {
            from: run.from,
            count: run.count,
            aside,
        };
    }
}

/// Sets runs of a stretch aside.
fn put_stretch(runs: &mut Vec<Run>, least: &[usize], old: usize, side: Side, from: usize, to: usize)
    requires least { length least.now ≡ length runs.old.items + 1 }
    requires within { to ≤ length runs.old.items }
    ensures places { places_of runs.new.items ≡ places_of runs.old.items }
    ensures len { length runs.new.items ≡ length runs.old.items }
{
    let mut most = 0;
    for i in from..to {
        let run = runs[i];
        put_if(runs, i, is_apart(run, old, side, least[i + 1], most));
        most = most.max(start_of(run, old));
    }
}

/// Sets runs of a stretch aside, on the side where they are fewer places.
fn put_fewer(runs: &mut Vec<Run>, least: &[usize], old: usize, from: usize, to: usize)
    requires least { length least.now ≡ length runs.old.items + 1 }
    requires within { to ≤ length runs.old.items }
    ensures places { places_of runs.new.items ≡ places_of runs.old.items }
    ensures len { length runs.new.items ≡ length runs.old.items }
{
    let ahead = count_apart(runs, least, old, Side::Ahead, from, to);
    let behind = count_apart(runs, least, old, Side::Behind, from, to);
    if ahead <= behind {
        put_stretch(runs, least, old, Side::Ahead, from, to);
        return;
    }
    put_stretch(runs, least, old, Side::Behind, from, to);
}

/// Where each run begins.
fn starts_of(alloc: Global, runs: &[Run]) -> Result<Vec<usize>, AllocError>
    ensures { IfOk result (λ v. length v.items ≡ length runs.now) }
{
    let mut starts = Vec::with_capacity(alloc, runs.len())?;
    for run in runs {
        starts.push(run.from)?;
    }
    Ok(starts)
}

/// Sets runs of old places aside, of which there are so many, so that the others rise: stretch by stretch those that are fewer.
pub(crate) fn set_aside(alloc: Global, runs: &mut Vec<Run>, old: usize) -> Result<(), AllocError>
    ensures { OnOk result (places_of runs.new.items ≡ places_of runs.old.items) }
{
    let starts = starts_of(alloc, runs)?;
    let least = least_from(alloc, &starts, old)?;
    let mut from = 0;
    while from < runs.len() {
        let to = stretch_end(runs, &least, old, from);
        if from + 1 < to {
            put_fewer(runs, &least, old, from, to);
        }
        from = to;
    }
    Ok(())
}
