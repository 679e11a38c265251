//! Places as runs of places that follow each other.
ghost use Rattle.std.specs.Prelude.{◌≡◌, ◌^◌, ◌+◌, ◌-◌, ◌<◌, ◌++◌, ◌∷◌, [], IsTrue, OnOk, IfOk, length, min, option_map};
ghost use Rattle.rd_graph.specs.Runs.{HasLineRoom, places_aside, places_of, up_from};

use std::alloc::{AllocError, Global};

/// So many places that follow each other, and the first of them; and whether what stands there is set aside before the
/// rest is moved, since its place is not in the order of the others.
#[derive(Clone, Copy)]
pub struct Run {
    pub from: usize,
    pub count: usize,
    pub aside: bool,
}

/// Puts so many places from one on at the end.
pub(crate) fn push_run(
    runs: &mut Vec<Run>,
    from: usize,
    count: usize,
    aside: bool,
) -> Result<(), AllocError>
    ensures { OnOk result (places_of runs.new.items ≡ places_of runs.old.items ++ up_from from count) }
{
    if count == 0 {
        return Ok(());
    }
    runs.push(Run { from, count, aside })?;
    Ok(())
}

/// Does a place follow a run, and may so many from it on be of the run? The first place `apart` of another kind may not, nor what is
/// set aside where the run is not.
fn goes_on(run: Run, place: usize, count: usize, apart: usize, aside: bool) -> bool
    ensures next { IsTrue result → place ≡ run.from + run.count }
    ensures few { IsTrue result → run.count + count < 2 ^ 64 }
{
    place != apart
        && run.aside == aside
        && run.from <= place
        && place - run.from == run.count
        && count <= usize::MAX - run.count
}

/// Puts so many places from one on at the end, with the run before them where they go on with it.
pub(crate) fn push_places(
    runs: &mut Vec<Run>,
    place: usize,
    count: usize,
    apart: usize,
    aside: bool,
) -> Result<(), AllocError>
    ensures { OnOk result (places_of runs.new.items ≡ places_of runs.old.items ++ up_from place count) }
{
    let len = runs.len();
    if len == 0 {
        return push_run(runs, place, count, aside);
    }
    let last = runs[len - 1];
    if goes_on(last, place, count, apart, aside) {
        runs[len - 1] = Run {
            from: last.from,
            count: last.count + count,
            aside,
        };
        return Ok(());
    }
    push_run(runs, place, count, aside)
}

/// Puts a place at the end.
pub(crate) fn push_place(
    runs: &mut Vec<Run>,
    place: usize,
    apart: usize,
    aside: bool,
) -> Result<(), AllocError>
    ensures { OnOk result (places_of runs.new.items ≡ places_of runs.old.items ++ place ∷ []) }
{
    push_places(runs, place, 1, apart, aside)
}

/// How many places there are, or else the greatest number.
fn count_of(runs: &[Run]) -> usize
    ensures { result ≡ min (length (places_of runs.now)) (2 ^ 64 - 1) }
{
    let mut count: usize = 0;
    for run in runs {
        count = count.saturating_add(run.count);
    }
    count
}

/// How many of a run's places are set aside.
fn aside_of(run: Run) -> usize
    ensures { result ≡ length (places_aside (run ∷ [])) }
{
    if run.aside { run.count } else { 0 }
}

/// How many places there are of runs that are set aside, or else the greatest number.
pub(crate) fn count_aside(runs: &[Run]) -> usize
    ensures { result ≡ min (length (places_aside runs.now)) (2 ^ 64 - 1) }
{
    let mut count: usize = 0;
    for run in runs {
        count = count.saturating_add(aside_of(*run));
    }
    count
}

/// The runs of a line, where there is one.
pub(crate) fn as_runs(line: &Option<Vec<Run>>) -> Option<&[Run]>
    ensures { option_map (λ l. places_of l.now) result ≡ option_map (λ l. places_of l.items) line.now }
{
    match line {
        Some(line) => Some(line),
        None => None,
    }
}

/// Empty room for the elements of a line, where there is one, and for a sixteenth more, which may come later.
pub fn line_room<T>(alloc: Global, line: Option<&[Run]>) -> Result<Vec<T>, AllocError>
    ensures { IfOk result (λ r. HasLineRoom (option_map (λ l. places_of l.now) line.entry) r) }
{
    match line {
        Some(line) => {
            let count = count_of(line);
            Vec::with_capacity(alloc, count.saturating_add(count / 16))
        }
        None => Ok(Vec::new(alloc)),
    }
}

/// Room for those that are set aside before they are moved.
pub fn aside_room<T>(alloc: Global, line: Option<&[Run]>) -> Result<Vec<T>, AllocError> {
    match line {
        Some(line) => Vec::with_capacity(alloc, count_aside(line)),
        None => Ok(Vec::new(alloc)),
    }
}
