//! A line whose runs rise is made where its old elements stand, window by window: up to a run whose elements stand at their place,
//! those that stay close up, those that come change places with those that go, and then from the last run on those that stay go over
//! them to their places. Nothing takes memory.
ghost use Rattle.std.specs.Prelude.{◌≡◌, ◌<◌, ◌≤◌, ◌+◌, ◌-◌, ◌^◌, ◌++◌, List, true, take, drop, vec_len, vec_capacity, length, slice_range};
ghost use Rattle.rd_graph.specs.Runs.{RunsRise, places_aside, woven};
ghost use Rattle.rd_graph.specs.Internal.InPlace as spec;
ghost use Rattle.rd_graph.specs.Internal.InPlace.{AreWhole, IsClosed, IsWindow, StayersRise, coming, count_all, count_coming, count_staying, staying};

use crate::lining_up::{move_from, move_run};
use crate::runs::Run;

/// Does a run over so many old elements have such elements, which stay?
fn stays(run: Run, old: usize) -> bool
    ensures { result ≡ spec.stays old run }
{
    !run.aside && run.from < old
}

/// How many elements move at most where a line over so many old elements is made in place: those of each run that stays, once over
/// what goes before it and once over what comes, since the last run that is in its place.
fn moved(runs: &[Run], old: usize) -> usize {
    let mut place = 0usize;
    let mut stay = 0usize;
    let mut all = 0usize;
    for run in runs {
        if stays(*run, old) {
            if run.from == place {
                stay = place.saturating_add(run.count);
            } else {
                all = all.saturating_add(turn_cost(run.from, stay, run.count));
                all = all.saturating_add(turn_cost(place, stay, run.count));
                stay = stay.saturating_add(run.count);
            }
        }
        place = place.saturating_add(run.count);
    }
    all
}

/// How many elements a turn moves, where so many go over those from one place up to another.
fn turn_cost(end: usize, start: usize, count: usize) -> usize {
    if end <= start {
        return 0;
    }
    (end - start).saturating_add(count)
}

/// Over how many runs a line is made in place where that moves up to twice as many elements as there are.
const FEW: usize = 32;

/// Are few elements moved where a line is made in place, and is there room for those that come after the old ones?
pub(crate) fn is_near<T>(old: &Vec<T>, made: &Vec<T>, aside: &Vec<T>, runs: &[Run]) -> bool
    ensures { result ≡ true → vec_len old.now + (vec_len made.now + vec_len aside.now) ≤ vec_capacity old.now }
{
    let come = made.len().saturating_add(aside.len());
    if come > old.capacity() - old.len() {
        return false;
    }
    let moved = moved(runs, old.len());
    moved <= old.len() || (runs.len() <= FEW && moved / 2 <= old.len())
}

/// The elements from `place` up to `middle` come after those from there up to `end`.
fn turn<T>(elements: &mut [T], place: usize, middle: usize, end: usize)
    requires first { place ≤ middle }
    requires then { middle ≤ end }
    requires within { end ≤ length elements.old }
    ensures turned { elements.new ≡ take place elements.old
        ++ (slice_range elements.old middle end ++ (slice_range elements.old place middle ++ drop end elements.old)) }
    ensures len { length elements.new ≡ length elements.old }
{
    elements[place..end].rotate_left(middle - place);
}

/// The same of elements in memory that may hold more.
fn turn_in<T: Drop>(elements: &mut Vec<T>, place: usize, middle: usize, end: usize)
    requires first { place ≤ middle }
    requires then { middle ≤ end }
    requires within { end ≤ vec_len elements.old }
    ensures turned { (ws xs ys zs : List T) → elements.old.items ≡ ws ++ (xs ++ (ys ++ zs))
        → length ws ≡ place → place + length xs ≡ middle → middle + length ys ≡ end
        → elements.new.items ≡ ws ++ (ys ++ (xs ++ zs)) }
    ensures len { vec_len elements.new ≡ vec_len elements.old }
    ensures room { vec_capacity elements.new ≡ vec_capacity elements.old }
{
    if place == middle {
        return;
    }
    if middle == end {
        return;
    }
    turn(elements, place, middle, end);
}

/// So many runs, before one whose elements stand at their place, or all of them; where those of their elements end that stay, which have
/// closed up; and where the old elements end.
#[derive(Clone, Copy)]
struct Window {
    runs: usize,
    stay: usize,
    end: usize,
}

/// The elements that stay close up from a place on, as far as a window goes.
fn close_up<T: Drop>(elements: &mut Vec<T>, old: usize, first: usize, runs: &[Run]) -> Window
    requires rise { StayersRise old first runs.now }
    requires first { first ≤ old }
    requires old { old ≤ vec_len elements.old }
    requires few { first + count_all old runs.now < 2 ^ 64 }
    ensures stay { result.stay ≡ first + count_staying old (take result.runs runs.now) }
    ensures end { IsWindow old first runs.now result.runs result.end }
    ensures closed { (part was rest made : List T) → elements.old.items ≡ part ++ (drop first was ++ rest) → length part ≡ first
        → length was ≡ old → IsClosed part (staying old (take result.runs runs.now) (was ++ made)) (result.end - result.stay)
        (drop result.end was ++ rest) elements.new.items }
    ensures len { vec_len elements.new ≡ vec_len elements.old }
    ensures room { vec_capacity elements.new ≡ vec_capacity elements.old }
{
    let mut place = first;
    let mut stay = first;
    for i in 0..runs.len() {
        let run = runs[i];
        if !stays(run, old) {
            place += run.count;
            continue;
        }
        if run.from == place {
            return Window {
                runs: i,
                stay,
                end: place,
            };
        }
        turn_in(elements, stay, run.from, run.from + run.count);
        stay += run.count;
        place += run.count;
    }
    Window {
        runs: runs.len(),
        stay,
        end: old,
    }
}

/// So many elements from a place on change places with as many from another one on.
fn swap<T>(elements: &mut [T], first: usize, other: usize, count: usize)
    requires first { first + count ≤ other }
    requires other { other + count ≤ length elements.old }
    ensures swapped { (us xs vs ys zs : List T) → elements.old ≡ us ++ (xs ++ (vs ++ (ys ++ zs)))
        → length us ≡ first → length xs ≡ count → first + count + length vs ≡ other → length ys ≡ count
        → elements.new ≡ us ++ (ys ++ (vs ++ (xs ++ zs))) }
    ensures len { length elements.new ≡ length elements.old }
{
    let (left, right) = elements.split_at_mut(other);
    left[first..first + count].swap_with_slice(&mut right[..count]);
}

/// The same of elements in memory that may hold more.
fn swap_in<T: Drop>(elements: &mut Vec<T>, first: usize, other: usize, count: usize)
    requires first { first + count ≤ other }
    requires other { other + count ≤ vec_len elements.old }
    ensures swapped { (us xs vs ys zs : List T) → elements.old.items ≡ us ++ (xs ++ (vs ++ (ys ++ zs)))
        → length us ≡ first → length xs ≡ count → first + count + length vs ≡ other → length ys ≡ count
        → elements.new.items ≡ us ++ (ys ++ (vs ++ (xs ++ zs))) }
    ensures len { vec_len elements.new ≡ vec_len elements.old }
    ensures room { vec_capacity elements.new ≡ vec_capacity elements.old }
{
    if count == 0 {
        return;
    }
    swap(elements, first, other, count);
}

/// The elements that come are put at the end, in the order of the line, which is over so many old ones.
fn put_at_end<T: Drop>(elements: &mut Vec<T>, old: usize, made: Vec<T>, aside: Vec<T>, runs: &[Run])
    requires rising { RunsRise old (vec_len made) 0 0 runs.now }
    requires aside { vec_len aside ≡ length (places_aside runs.now) }
    requires room { vec_len elements.old + (vec_len made + vec_len aside) ≤ vec_capacity elements.old }
    ensures put { (xs : List T) → length xs ≡ old
        → elements.new.items ≡ elements.old.items ++ coming old runs.now (xs ++ made.items) aside.items }
    ensures len { vec_len elements.new ≡ vec_len elements.old + count_coming old runs.now }
{
    let mut made_rest = made.into_iter();
    let mut aside_rest = aside.into_iter();
    let mut next_made = 0;
    for run in runs {
        if run.aside {
            move_run(&mut aside_rest, run.count, elements);
            continue;
        }
        if run.from < old {
            continue;
        }
        let place = run.from - old;
        next_made = move_from(&mut made_rest, next_made, place, run.count, elements);
    }
}

/// From the last run on, the elements that stay go over those that come to their places. Those that stay end at a place, and so many come.
fn spread_out<T: Drop>(elements: &mut Vec<T>, old: usize, end: usize, come: usize, runs: &[Run])
    requires stay { count_staying old runs.now ≤ end }
    requires come { come ≡ count_coming old runs.now }
    requires within { end + come ≤ vec_len elements.old }
    ensures spread { (part xs ys rest : List T) → AreWhole runs.now xs ys → length part + count_staying old runs.now ≡ end
        → elements.old.items ≡ part ++ (staying old runs.now xs ++ (coming old runs.now xs ys ++ rest))
        → elements.new.items ≡ part ++ (woven runs.now xs ys ++ rest) }
    ensures len { vec_len elements.new ≡ vec_len elements.old }
    ensures room { vec_capacity elements.new ≡ vec_capacity elements.old }
{
    let mut stay = end;
    let mut come = come;
    let mut left = runs.len();
    while 0 < left && 0 < come {
        left -= 1;
        let run = runs[left];
        if stays(run, old) {
            stay -= run.count;
            let middle = stay + run.count;
            turn_in(elements, stay, middle, middle + come);
            continue;
        }
        come -= run.count;
    }
}

/// The same of the last runs: those that come end the elements, from another place on, and those that go stand between.
fn spread_last<T: Drop>(elements: &mut Vec<T>, old: usize, stay: usize, next: usize, runs: &[Run])
    requires stay { count_staying old runs.now ≤ stay }
    requires next { stay ≤ next }
    requires come { vec_len elements.old ≡ next + count_coming old runs.now }
    ensures { (part xs ys gone : List T) → AreWhole runs.now xs ys → length part + count_staying old runs.now ≡ stay
        → stay + length gone ≡ next → elements.old.items ≡ part ++ (staying old runs.now xs ++ (gone ++ coming old runs.now xs ys))
        → elements.new.items ≡ part ++ woven runs.now xs ys }
{
    let end = elements.len();
    let come = end - next;
    turn_in(elements, stay, next, end);
    spread_out(elements, old, stay, come, runs);
    elements.truncate(stay + come);
}

/// The old elements become those of a line, with made ones, and those that are set aside.
pub(crate) fn line_up_in_place<T: Drop>(
    elements: &mut Vec<T>,
    made: Vec<T>,
    aside: Vec<T>,
    runs: &[Run],
)
    requires rising { RunsRise (vec_len elements.old) (vec_len made) 0 0 runs.now }
    requires aside { vec_len aside ≡ length (places_aside runs.now) }
    requires room { vec_len elements.old + (vec_len made + vec_len aside) ≤ vec_capacity elements.old }
    ensures { elements.new.items ≡ woven runs.now (elements.old.items ++ made.items) aside.items }
{
    let old = elements.len();
    put_at_end(elements, old, made, aside, runs);
    let mut first = 0;
    let mut next = old;
    let mut from = 0;
    loop {
        let rest = &runs[from..];
        let window = close_up(elements, old, first, rest);
        if window.runs == rest.len() {
            spread_last(elements, old, window.stay, next, rest);
            return;
        }
        let come = window.end - window.stay;
        swap_in(elements, window.stay, next, come);
        spread_out(elements, old, window.stay, come, &rest[..window.runs]);
        next += come;
        first = window.end + rest[window.runs].count;
        from += window.runs + 1;
    }
}
