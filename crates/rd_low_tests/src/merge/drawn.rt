//! Merges of drawn levels beside a matrix of what reaches what.
ghost use Rattle.std.specs.Prelude.{◌≡◌};
ghost use Rattle.rd_low_tests.specs.DrawnLevels.{IsHeld};

use super::INK;
use super::checked::{TouchedBoxes, edited, is_among, tested};
use crate::drawing::Draws;
use crate::matrix::{COUNT, Matrix};
use rd_geom::{Rect, Steps, meets};
use rd_item::Item;
use rd_keys::{BoxKey, Part};
use rd_list::{Entry, Kept};
use std::alloc::Global;
use std::process::Abort;
use std::sync::ledger::Ledger;

/// How many merges are drawn.
const MERGES: u64 = 300;

/// What reaches what, and which merge made the leaf of each box.
#[derive(Drop)]
struct Model {
    matrix: Matrix,
    made: Vec<u64>,
}

/// The number of a box.
fn number_of(every: &[(BoxKey, Rect)], owner: BoxKey) -> u8 {
    for number in 0..COUNT {
        if let Some(spot) = every.get(usize::from(number)) {
            if spot.0.is(owner) {
                return number;
            }
        }
    }
    COUNT
}

/// The number comes last.
fn push_number(rt: &impl Abort, list: &mut Vec<u8>, number: u8) {
    list.push(number).expect(rt, "room for a number");
}

/// The key comes last.
fn push_key(rt: &impl Abort, list: &mut Vec<BoxKey>, key: BoxKey) {
    list.push(key).expect(rt, "room for a key");
}

/// The numbers of the boxes of spots, as far as they are of an area.
fn numbers_in(
    rt: &impl Abort,
    alloc: Global,
    every: &[(BoxKey, Rect)],
    spots: &[(BoxKey, Rect)],
    area: &[BoxKey],
) -> Vec<u8> {
    let mut all = Vec::new(alloc);
    for spot in spots {
        if is_among(area, spot.0) {
            push_number(rt, &mut all, number_of(every, spot.0));
        }
    }
    all
}

/// Some of the boxes, each with a chance of one in three.
fn some_boxes(
    rt: &impl Abort,
    alloc: Global,
    every: &[(BoxKey, Rect)],
    draws: &mut Draws,
) -> Vec<BoxKey> {
    let mut all = Vec::new(alloc);
    for spot in every {
        if draws.below(3) == 0 {
            push_key(rt, &mut all, spot.0);
        }
    }
    all
}

/// Does a rectangle meet that of one of these boxes?
fn is_near(every: &[(BoxKey, Rect)], keys: &[BoxKey], rect: Rect) -> bool {
    for spot in every {
        if is_among(keys, spot.0) && meets(rect, spot.1) {
            return true;
        }
    }
    false
}

/// Those boxes that meet touched ones, and some others.
fn area_round(
    rt: &impl Abort,
    alloc: Global,
    every: &[(BoxKey, Rect)],
    touched: &[BoxKey],
    draws: &mut Draws,
) -> Vec<BoxKey> {
    let mut all = some_boxes(rt, alloc, every, draws);
    for spot in every {
        if is_near(every, touched, spot.1) {
            push_key(rt, &mut all, spot.0);
        }
    }
    all
}

/// Was a leaf made by the merge that is noted for its box?
fn is_made(at: u64, made: &[u64], number: u8) -> bool {
    match made.get(usize::from(number)) {
        Some(noted) => at == *noted,
        None => false,
    }
}

/// The number of the box of a leaf, if it was made when it is noted.
fn leaf_number<A: Ledger>(every: &[(BoxKey, Rect)], item: &Item<A>, made: &[u64]) -> u8 {
    let number = number_of(every, item.owner());
    if item.part() == Part::Back && is_made(item.made_at(), made, number) {
        number
    } else {
        COUNT
    }
}

/// The numbers of the boxes of a level. A group has none.
fn numbers<A: Ledger>(
    rt: &impl Abort,
    alloc: Global,
    every: &[(BoxKey, Rect)],
    entries: &[Entry<A>],
    made: &[u64],
) -> Vec<u8> {
    let mut all = Vec::new(alloc);
    for entry in entries {
        let number = match entry {
            Entry::Leaf(item) => leaf_number(every, item, made),
            Entry::Group(_) => COUNT,
        };
        push_number(rt, &mut all, number);
    }
    all
}

/// How often a number stands in a list.
fn times(list: &[u8], number: u8) -> usize {
    let mut count: usize = 0;
    for other in list {
        if *other == number {
            count = count.wrapping_add(1);
        }
    }
    count
}

/// Has the list the boxes of a matrix, each once?
fn has_all(list: &[u8], matrix: &Matrix) -> bool {
    for number in 0..COUNT {
        if times(list, number) != usize::from(matrix.has(number)) {
            return false;
        }
    }
    times(list, COUNT) == 0
}

/// Does something come before a place in the list, though what stands there reaches it?
fn comes_late(list: &[u8], place: usize, number: u8, matrix: &Matrix) -> bool {
    for (i, other) in list.iter().enumerate() {
        if i < place && matrix.reaches(number, *other) {
            return true;
        }
    }
    false
}

/// Does what reaches another come before it?
fn is_forward(list: &[u8], matrix: &Matrix) -> bool {
    for (place, number) in list.iter().enumerate() {
        if comes_late(list, place, *number, matrix) {
            return false;
        }
    }
    true
}

/// Are there two of which neither reaches the other?
fn is_free(matrix: &Matrix) -> bool {
    for a in 0..COUNT {
        for b in 0..COUNT {
            let are_there = a != b && matrix.has(a) && matrix.has(b);
            if are_there && !matrix.reaches(a, b) && !matrix.reaches(b, a) {
                return true;
            }
        }
    }
    false
}

/// Notes the merge that makes these leaves.
fn note(made: &mut Vec<u64>, list: &[u8], at: u64) {
    for number in list {
        let place = usize::from(*number);
        if place < made.len() {
            made[place] = at;
        }
    }
}

/// Takes the touched boxes out of a matrix.
fn drop_touched(matrix: &mut Matrix, every: &[(BoxKey, Rect)], touched: &[BoxKey]) {
    for key in touched {
        matrix.drop_number(number_of(every, *key));
    }
}

/// The same merge of the model.
fn change(model: &mut Model, every: &[(BoxKey, Rect)], touched: &[BoxKey], chain: &[u8], at: u64) {
    drop_touched(&mut model.matrix, every, touched);
    model.matrix.link(chain);
    note(&mut model.made, chain, at);
}

/// Has a level the leaves of the model, in an order that goes along with it?
fn agrees<A: Ledger>(
    rt: &impl Abort,
    alloc: Global,
    every: &[(BoxKey, Rect)],
    kept: &Kept<A>,
    model: &Model,
) -> bool {
    let list = numbers(rt, alloc, every, kept.entries(), &model.made);
    has_all(&list, &model.matrix) && is_forward(&list, &model.matrix)
}

/// Is each entry in a chunk of which something is said?
fn is_in_chunks<A: Ledger>(kept: &Kept<A>) -> bool {
    let (chunks, entries) = kept.chunked();
    let mut covered: usize = 0;
    for chunk in chunks {
        if chunk.is_open {
            return false;
        }
        covered = covered.wrapping_add(chunk.count);
    }
    covered == entries.len()
}

/// One drawn merge of a level, which can be made and agrees.
fn next<A: Ledger>(
    rt: &impl Abort,
    alloc: Global,
    every: &[(BoxKey, Rect)],
    draws: &mut Draws,
    kept: Kept<A>,
    spots: &[(BoxKey, Rect)],
    model: &mut Model,
    at: u64,
    made: &mut Steps<A>,
) -> (Kept<A>, Vec<(BoxKey, Rect)>)
    requires { IsHeld INK kept spots.now }
    ensures { IsHeld INK result.0 result.1.items }
{
    let touched = TouchedBoxes {
        keys: some_boxes(rt, alloc, every, draws),
    };
    let next = edited(alloc, spots, every, &touched.keys, draws).expect(rt, "spots");
    let area = area_round(rt, alloc, every, &touched.keys, draws);
    let chain = numbers_in(rt, alloc, every, &next, &area);
    let merged = tested(alloc, kept, spots, &next, &touched, &area, at, made).expect(rt, "memory");
    let kept = merged.expect(rt, "a merge that can be made");
    change(model, every, &touched.keys, &chain, at);
    assert!(rt; agrees(rt, alloc, every, &kept, model), "merge {at}");
    assert!(rt; is_in_chunks(&kept), "chunks of merge {at}");
    (kept, next)
}

/// A matrix of no boxes, and no notes.
fn empty_model(rt: &impl Abort, alloc: Global) -> Model {
    Model {
        matrix: Matrix::new(alloc).expect(rt, "a matrix"),
        made: vec![in alloc; 0; 10].expect(rt, "notes"),
    }
}

/// Drawn merges, one after another. After how many of them do two leaves stand of which neither reaches the other?
pub(super) fn compare<A: Ledger>(
    rt: &impl Abort,
    alloc: Global,
    every: &[(BoxKey, Rect)],
    made: &mut Steps<A>,
) -> u64 {
    let mut free: u64 = 0;
    let mut draws = Draws::new(1);
    let mut model = empty_model(rt, alloc);
    let mut kept = Kept::empty();
    let mut spots = Vec::new(alloc);
    for at in 0..MERGES {
        let (joined, now) = next(
            rt, alloc, every, &mut draws, kept, &spots, &mut model, at, made,
        );
        kept = joined;
        spots = now;
        free = free.wrapping_add(u64::from(is_free(&model.matrix)));
    }
    free
}
