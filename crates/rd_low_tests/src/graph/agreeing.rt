//! Graphs beside a matrix, over many drawn changes.
use super::changes::Change;
use super::checked::{by_calls, by_patch, distinct};
use crate::drawing::Draws;
use crate::matrix::{COUNT, Matrix};
use rd_graph::{OrderGraph, Places};
use rd_keys::EntryKey;
use std::alloc::{AllocError, Global};

pub(super) const LEVELS: u32 = 2;

pub(super) const CHANGES: u32 = 300;

/// A level as calls one after the other make it, as patches make it, and as a matrix.
#[derive(Drop)]
struct Level {
    called: OrderGraph,
    patched: OrderGraph,
    matrix: Matrix,
}

/// How many changes agreed, and in how many of these nodes changed their places.
#[derive(Drop)]
pub(super) struct Tally {
    pub(super) agreed: u32,
    pub(super) moved: u32,
}

/// The names of some numbers.
pub(super) fn named(
    alloc: Global,
    names: &[EntryKey],
    numbers: &[u8],
) -> Result<Vec<EntryKey>, AllocError> {
    let mut all = Vec::new(alloc);
    for number in numbers {
        if let Some(name) = names.get(usize::from(*number)) {
            all.push(*name)?;
        }
    }
    Ok(all)
}

/// The names of all numbers but two.
fn others(
    alloc: Global,
    names: &[EntryKey],
    one: u8,
    other: u8,
) -> Result<Vec<EntryKey>, AllocError> {
    let mut all = Vec::new(alloc);
    for (number, name) in names.iter().enumerate() {
        if number != usize::from(one) && number != usize::from(other) {
            all.push(*name)?;
        }
    }
    Ok(all)
}

/// Does a number reach another in a graph? Where all others are gone, the other cannot come first then.
fn reaches(
    alloc: Global,
    names: &[EntryKey],
    graph: &OrderGraph,
    number: u8,
    other: u8,
) -> Result<bool, AllocError> {
    let gone = others(alloc, names, number, other)?;
    let left = graph.drop_nodes(alloc, &gone)?;
    let line = named(alloc, names, &[other, number])?;
    let line = distinct(alloc, &line)?;
    let line = Places::new(alloc, line)?;
    Ok(!left.goes_forward(&line))
}

/// Has a graph the same numbers as a matrix?
fn has_same(
    alloc: Global,
    names: &[EntryKey],
    graph: &OrderGraph,
    matrix: &Matrix,
) -> Result<bool, AllocError> {
    let order = graph.order(alloc)?;
    for number in 0..COUNT {
        let is_there = match names.get(usize::from(number)) {
            Some(name) => order.contains(name),
            None => false,
        };
        if is_there != matrix.has(number) {
            return Ok(false);
        }
    }
    Ok(true)
}

/// Does the same reach a number in a graph and in a matrix?
fn is_reached_alike(
    alloc: Global,
    names: &[EntryKey],
    graph: &OrderGraph,
    matrix: &Matrix,
    number: u8,
) -> Result<bool, AllocError> {
    for other in 0..COUNT {
        if reaches(alloc, names, graph, other, number)? != matrix.reaches(other, number) {
            return Ok(false);
        }
    }
    Ok(true)
}

/// Does a number reach another in a graph exactly where it does in a matrix?
fn agrees(
    alloc: Global,
    names: &[EntryKey],
    graph: &OrderGraph,
    matrix: &Matrix,
) -> Result<bool, AllocError> {
    for number in 0..COUNT {
        if !is_reached_alike(alloc, names, graph, matrix, number)? {
            return Ok(false);
        }
    }
    has_same(alloc, names, graph, matrix)
}

/// A level of one line.
fn first(alloc: Global, names: &[EntryKey], draws: &mut Draws) -> Result<Level, AllocError> {
    let line = draws.start(alloc)?;
    let keys = named(alloc, names, &line)?;
    let keys = distinct(alloc, &keys)?;
    let called = OrderGraph::linear(alloc, &keys)?;
    let patched = OrderGraph::linear(alloc, &keys)?;
    let mut matrix = Matrix::new(alloc)?;
    matrix.link(&line);
    Ok(Level {
        called,
        patched,
        matrix,
    })
}

/// The two graphs of a level with a change, and whether the patch moves nodes. None where a call cannot be made.
fn with_change(
    alloc: Global,
    names: &[EntryKey],
    level: Level,
    change: &Change,
) -> Result<Option<(Level, bool)>, AllocError> {
    let gone = named(alloc, names, &change.gone)?;
    let chain = named(alloc, names, &change.chain)?;
    let chain = distinct(alloc, &chain)?;
    let line = named(alloc, names, &change.line)?;
    let called = by_calls(alloc, &level.called, &gone, &chain, &line)?;
    let patched = by_patch(alloc, level.patched, &gone, &chain, &line)?;
    match (called, patched) {
        (Some(called), Some((patched, moves))) => {
            let level = Level {
                called,
                patched,
                matrix: level.matrix,
            };
            Ok(Some((level, moves)))
        }
        (_, _) => Ok(None),
    }
}

/// Do both graphs of a level agree with its matrix?
fn both_agree(alloc: Global, names: &[EntryKey], level: &Level) -> Result<bool, AllocError> {
    let called = agrees(alloc, names, &level.called, &level.matrix)?;
    let patched = agrees(alloc, names, &level.patched, &level.matrix)?;
    Ok(called && patched)
}

/// A level with one drawn change. None where it does not agree.
fn next(
    alloc: Global,
    names: &[EntryKey],
    draws: &mut Draws,
    mut level: Level,
) -> Result<Option<(Level, bool)>, AllocError> {
    let change = draws.change(alloc, &mut level.matrix)?;
    match with_change(alloc, names, level, &change)? {
        Some((level, moves)) => {
            if both_agree(alloc, names, &level)? {
                return Ok(Some((level, moves)));
            }
            Ok(None)
        }
        None => Ok(None),
    }
}

/// Drawn changes of one level, one after another, as long as they agree.
fn compare(
    alloc: Global,
    names: &[EntryKey],
    draws: &mut Draws,
    tally: &mut Tally,
) -> Result<(), AllocError> {
    let mut level = first(alloc, names, draws)?;
    for _ in 0..CHANGES {
        match next(alloc, names, draws, level)? {
            Some((changed, moves)) => {
                tally.agreed = tally.agreed.wrapping_add(1);
                tally.moved = tally.moved.wrapping_add(u32::from(moves));
                level = changed;
            }
            None => return Ok(()),
        }
    }
    Ok(())
}

/// Drawn changes of many levels.
pub(super) fn compare_all(alloc: Global, names: &[EntryKey]) -> Result<Tally, AllocError> {
    let mut tally = Tally {
        agreed: 0,
        moved: 0,
    };
    let mut draws = Draws::new(1);
    for _ in 0..LEVELS {
        compare(alloc, names, &mut draws, &mut tally)?;
    }
    Ok(tally)
}
