//! Elements of a level are moved to their places in a line, and nothing takes memory.
ghost use Rattle.std.specs.Prelude.{◌≡◌, ℕ, ◌<◌, ◌≤◌, ◌+◌, ◌++◌, ◌∷◌, [], slice_index_or, vec_len, vec_capacity, length};
ghost use Rattle.rd_graph.specs.Gathered.{gathered, ArePlaces};
ghost use Rattle.rd_graph.specs.Internal.Taking.{KeepsBut, KeepsOthers, KeepsOutside};
ghost use Rattle.rd_graph.specs.Runs.{RunsRise, places_aside, places_of, up_from, woven};

use crate::in_place::{is_near, line_up_in_place};
use crate::lining_up::{gather_rising, has_room_aside, is_all_made, is_rising};
use crate::runs::Run;
use std::alloc::Global;

/// What can be taken out of its place, where something stays that holds no memory.
pub trait Take {
    /// Takes it out of its place.
    fn take(&mut self, alloc: Global) -> Self
        ensures { result ≡ self.old };
}

/// Takes the element at a place.
pub fn take_at<T: Take + Drop>(alloc: Global, elements: &mut Vec<T>, i: usize) -> T
    requires { i < vec_len elements.old }
    ensures taken { result ≡ slice_index_or elements.old.items i result }
    ensures kept { KeepsOthers i elements.old.items elements.new.items }
{
    elements[i].take(alloc)
}

/// Takes an old element or a made one, the made ones counted on from the old ones.
fn take_one<T: Take + Drop>(alloc: Global, old: &mut Vec<T>, made: &mut Vec<T>, i: usize) -> T
    requires { i < vec_len old.old + vec_len made.old }
    ensures taken { result ≡ slice_index_or (old.old.items ++ made.old.items) i result }
    ensures kept { KeepsOthers i (old.old.items ++ made.old.items) (old.new.items ++ made.new.items) }
    ensures old { vec_len old.new ≡ vec_len old.old }
    ensures made { vec_len made.new ≡ vec_len made.old }
{
    if i < old.len() {
        return take_at(alloc, old, i);
    }
    let place = i - old.len();
    take_at(alloc, made, place)
}

/// Moves so many old and made elements from a place on to the end of `room`, which has capacity for them.
fn gather_run<T: Take + Drop>(
    alloc: Global,
    old: &mut Vec<T>,
    made: &mut Vec<T>,
    run: Run,
    room: &mut Vec<T>,
)
    requires places { (k : ℕ) → k < run.count → run.from + k < vec_len old.old + vec_len made.old }
    requires room { vec_len room.old + run.count ≤ vec_capacity room.old }
    ensures moved { room.new.items
        ≡ room.old.items ++ gathered (up_from run.from run.count) (old.old.items ++ made.old.items) }
    ensures others { KeepsOutside run.from run.count (old.old.items ++ made.old.items) (old.new.items ++ made.new.items) }
    ensures old { vec_len old.new ≡ vec_len old.old }
    ensures made { vec_len made.new ≡ vec_len made.old }
    ensures len { vec_len room.new ≡ vec_len room.old + run.count }
    ensures room { vec_capacity room.old ≤ vec_capacity room.new }
{
    for i in 0..run.count {
        room.push_reserved(take_one(alloc, old, made, run.from + i));
    }
}

/// Moves old and made elements to the end of `room`, which has capacity for them.
fn gather<T: Take + Drop>(
    alloc: Global,
    old: &mut Vec<T>,
    made: &mut Vec<T>,
    runs: &[Run],
    room: &mut Vec<T>,
)
    requires places { ArePlaces (places_of runs.now) (vec_len old.old + vec_len made.old) }
    requires room { vec_len room.old + length (places_of runs.now) ≤ vec_capacity room.old }
    ensures { room.new.items ≡ room.old.items ++ gathered (places_of runs.now) (old.old.items ++ made.old.items) }
{
    for run in runs {
        gather_run(alloc, old, made, *run, room);
    }
}

/// Sets the elements of a run aside, if that is said of it.
fn set_run_aside<T: Take + Drop>(
    alloc: Global,
    old: &mut Vec<T>,
    made: &mut Vec<T>,
    run: Run,
    aside: &mut Vec<T>,
)
    requires places { (k : ℕ) → k < run.count → run.from + k < vec_len old.old + vec_len made.old }
    requires room { vec_len aside.old + length (places_aside (run ∷ [])) ≤ vec_capacity aside.old }
    ensures moved { aside.new.items
        ≡ aside.old.items ++ gathered (places_aside (run ∷ [])) (old.old.items ++ made.old.items) }
    ensures others { KeepsBut (places_aside (run ∷ [])) (old.old.items ++ made.old.items) (old.new.items ++ made.new.items) }
    ensures old { vec_len old.new ≡ vec_len old.old }
    ensures made { vec_len made.new ≡ vec_len made.old }
    ensures len { vec_len aside.new ≡ vec_len aside.old + length (places_aside (run ∷ [])) }
    ensures room { vec_capacity aside.old ≤ vec_capacity aside.new }
{
    if run.aside {
        gather_run(alloc, old, made, run, aside);
    }
}

/// Sets elements aside: those of the runs of which that is said.
fn set_aside<T: Take + Drop>(
    alloc: Global,
    old: &mut Vec<T>,
    made: &mut Vec<T>,
    runs: &[Run],
    aside: &mut Vec<T>,
)
    requires places { ArePlaces (places_of runs.now) (vec_len old.old + vec_len made.old) }
    requires room { vec_len aside.old + length (places_aside runs.now) ≤ vec_capacity aside.old }
    ensures moved { aside.new.items
        ≡ aside.old.items ++ gathered (places_aside runs.now) (old.old.items ++ made.old.items) }
    ensures others { KeepsBut (places_aside runs.now) (old.old.items ++ made.old.items) (old.new.items ++ made.new.items) }
    ensures old { vec_len old.new ≡ vec_len old.old }
    ensures made { vec_len made.new ≡ vec_len made.old }
    ensures len { vec_len aside.new ≡ vec_len aside.old + length (places_aside runs.now) }
{
    for run in runs {
        set_run_aside(alloc, old, made, *run, aside);
    }
}

/// Old elements and made ones of a line in which each rise, but for those that are set aside. They stay where they are, where few
/// of them move; else they are moved into room in one pass.
fn line_up<T: Take + Drop>(
    mut old: Vec<T>,
    made: Vec<T>,
    aside: Vec<T>,
    runs: &[Run],
    mut room: Vec<T>,
) -> Vec<T>
    requires rising { RunsRise (vec_len old) (vec_len made) 0 0 runs.now }
    requires aside { vec_len aside ≡ length (places_aside runs.now) }
    requires empty { room.items ≡ [] }
    requires room { vec_len room + length (places_of runs.now) ≤ vec_capacity room }
    ensures { result.items ≡ woven runs.now (old.items ++ made.items) aside.items }
{
    if is_near(&old, &made, &aside, runs) {
        line_up_in_place(&mut old, made, aside, runs);
        return old;
    }
    gather_rising(old, made, aside, runs, &mut room);
    room
}

/// Old elements and made ones, counted on from them, at the places of a line. They come into room that is empty and has capacity
/// for them, or stay where they are, and some are set aside before, where there is room for that; the made ones stay as they are,
/// where the line is of them alone.
pub fn move_line<T: Take + Drop>(
    alloc: Global,
    mut old: Vec<T>,
    mut made: Vec<T>,
    line: &[Run],
    mut aside: Vec<T>,
    mut room: Vec<T>,
) -> Vec<T>
    requires places { ArePlaces (places_of line.now) (vec_len old + vec_len made) }
    requires empty { vec_len room ≡ 0 }
    requires room { length (places_of line.now) ≤ vec_capacity room }
    ensures { result.items ≡ gathered (places_of line.now) (old.items ++ made.items) }
{
    if is_all_made(line, old.len(), made.len()) {
        return made;
    }
    if is_rising(line, old.len(), made.len()) && has_room_aside(line, &aside) {
        set_aside(alloc, &mut old, &mut made, line, &mut aside);
        return line_up(old, made, aside, line, room);
    }
    gather(alloc, &mut old, &mut made, line, &mut room);
    room
}
