//! Lines in which the runs of old elements rise, and those of made ones: both are taken in one pass, and nothing takes memory.
ghost use Rattle.std.specs.Prelude.{◌≡◌, ◌<◌, ◌≤◌, ◌+◌, ◌-◌, ◌^◌, ◌++◌, true, take, drop, vec_len, vec_capacity, length};
ghost use Rattle.std.specs.Vec.Iter.{into_iter_items};
ghost use Rattle.rd_graph.specs.Runs.{RunsRise, places_aside, places_of, up_from, woven};

use crate::runs::{Run, count_aside};
use std::alloc::Global;
use std::vec::IntoIter;

/// Do the runs of old elements rise, and those of made ones, which are counted on from this many old ones? Each run is of
/// one kind, and there are so many made ones. A run that is set aside may be of any places.
pub(crate) fn is_rising(runs: &[Run], old: usize, made: usize) -> bool
    ensures { result ≡ true → RunsRise old made 0 0 runs.now }
{
    let mut next_old = 0;
    let mut next_made = 0;
    for run in runs {
        if run.aside {
            continue;
        }
        if run.from < old {
            if run.from < next_old || old - run.from < run.count {
                return false;
            }
            next_old = run.from + run.count;
            continue;
        }
        let place = run.from - old;
        if place < next_made || made < place || made - place < run.count {
            return false;
        }
        next_made = place + run.count;
    }
    true
}

/// Are the runs one of all of so many made elements in their order, where there are no old ones?
pub(crate) fn is_all_made(runs: &[Run], old: usize, made: usize) -> bool
    ensures none { result ≡ true → old ≡ 0 }
    ensures all { result ≡ true → places_of runs.now ≡ up_from 0 made }
{
    old == 0 && runs.len() == 1 && runs[0].from == 0 && runs[0].count == made
}

/// Is nothing there as yet, and room for what is set aside?
pub(crate) fn has_room_aside<T>(runs: &[Run], aside: &Vec<T>) -> bool
    ensures none { result ≡ true → vec_len aside.now ≡ 0 }
    ensures room { result ≡ true → length (places_aside runs.now) ≤ vec_capacity aside.now }
{
    aside.is_empty() && count_aside(runs) <= aside.capacity()
}

/// Drops the next so many elements.
fn pass_over<T: Drop>(rest: &mut IntoIter<T, Global>, passed: usize)
    ensures { into_iter_items rest.new ≡ drop passed (into_iter_items rest.old) }
{
    for _ in 0..passed {
        let _passed = rest.next();
    }
}

/// Moves the next element to the end of `room`, which has capacity for it.
#[inline(always)]
fn move_next<T: Drop>(rest: &mut IntoIter<T, Global>, room: &mut Vec<T>)
    requires some { 0 < length (into_iter_items rest.old) }
    requires room { vec_len room.old < vec_capacity room.old }
    ensures left { into_iter_items rest.new ≡ drop 1 (into_iter_items rest.old) }
    ensures moved { room.new.items ≡ room.old.items ++ take 1 (into_iter_items rest.old) }
    ensures len { vec_len room.new ≡ vec_len room.old + 1 }
    ensures room { vec_capacity room.old ≤ vec_capacity room.new }
{
    match rest.next() {
        Some(x) => room.push_reserved(x),
        None => unreachable!(),
    }
}

/// Moves the next so many elements to the end of `room`, which has capacity for them.
pub(crate) fn move_run<T: Drop>(rest: &mut IntoIter<T, Global>, count: usize, room: &mut Vec<T>)
    requires rest { count ≤ length (into_iter_items rest.old) }
    requires room { vec_len room.old + count ≤ vec_capacity room.old }
    ensures left { into_iter_items rest.new ≡ drop count (into_iter_items rest.old) }
    ensures moved { room.new.items ≡ room.old.items ++ take count (into_iter_items rest.old) }
    ensures len { vec_len room.new ≡ vec_len room.old + count }
    ensures room { vec_capacity room.old ≤ vec_capacity room.new }
{
    for _ in 0..count {
        move_next(rest, room);
    }
}

/// Drops the elements from the next one, at a place, up to one at another place, and moves so many from there on to the end of
/// `room`, which has capacity for them. Says at which place the next one is then.
pub(crate) fn move_from<T: Drop>(
    rest: &mut IntoIter<T, Global>,
    next: usize,
    place: usize,
    count: usize,
    room: &mut Vec<T>,
) -> usize
    requires next { next ≤ place }
    requires rest { place - next + count ≤ length (into_iter_items rest.old) }
    requires room { vec_len room.old + count ≤ vec_capacity room.old }
    requires fits { place + count < 2 ^ 64 }
    ensures next { result ≡ place + count }
    ensures left { into_iter_items rest.new ≡ drop count (drop (place - next) (into_iter_items rest.old)) }
    ensures moved { room.new.items ≡ room.old.items ++ take count (drop (place - next) (into_iter_items rest.old)) }
    ensures len { vec_len room.new ≡ vec_len room.old + count }
    ensures room { vec_capacity room.old ≤ vec_capacity room.new }
{
    pass_over(rest, place - next);
    move_run(rest, count, room);
    place + count
}

/// Moves old and made elements, each in rising order, and those that are set aside in theirs, to the end of `room`, which
/// has capacity for them.
pub(crate) fn gather_rising<T: Drop>(
    old: Vec<T>,
    made: Vec<T>,
    aside: Vec<T>,
    runs: &[Run],
    room: &mut Vec<T>,
)
    requires rising { RunsRise (vec_len old) (vec_len made) 0 0 runs.now }
    requires aside { vec_len aside ≡ length (places_aside runs.now) }
    requires room { vec_len room.old + length (places_of runs.now) ≤ vec_capacity room.old }
    ensures { room.new.items ≡ room.old.items ++ woven runs.now (old.items ++ made.items) aside.items }
{
    let end = old.len();
    let mut old_rest = old.into_iter();
    let mut made_rest = made.into_iter();
    let mut aside_rest = aside.into_iter();
    let mut next_old = 0;
    let mut next_made = 0;
    for run in runs {
        if run.aside {
            move_run(&mut aside_rest, run.count, room);
            continue;
        }
        if run.from < end {
            next_old = move_from(&mut old_rest, next_old, run.from, run.count, room);
            continue;
        }
        let place = run.from - end;
        next_made = move_from(&mut made_rest, next_made, place, run.count, room);
    }
}
