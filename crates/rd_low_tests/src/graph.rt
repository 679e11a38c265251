//! A small graph with each of its calls, worked out by hand, and graphs beside a matrix.

mod agreeing;
mod changes;
mod checked;
mod reversing;

use agreeing::{CHANGES, LEVELS, compare_all};
use rd_graph::{OrderGraph, Places};
use rd_keys::{Arena, BoxKey, BoxMark, EntryKey, Part};
use reversing::two_are_reversed;
use std::alloc::{AllocError, Global};
use std::test::Fail;

// The line back, content is joined with the chain border, content, outline: content is third and outline last, since back and
// border come before content. Without content the outline still comes after both.
fn joined(alloc: Global, owner: BoxKey) -> Result<bool, AllocError> {
    let back = EntryKey::Leaf(owner, Part::Back);
    let border = EntryKey::Leaf(owner, Part::Border);
    let content = EntryKey::Leaf(owner, Part::Content);
    let outline = EntryKey::Leaf(owner, Part::Outline);
    let line = OrderGraph::linear(alloc, &[back, content])?;
    let graph = line.add_chain(alloc, &[border, content, outline])?;
    let order = graph.order(alloc)?;
    let whole = order.len() == 4 && order[2] == content && order[3] == outline;
    let left = graph.drop_nodes(alloc, &[content])?.order(alloc)?;
    Ok(whole && left.len() == 3 && left[2] == outline)
}

// Of the names outline, back: back has the place 1, and border has none.
fn placed(alloc: Global, owner: BoxKey) -> Result<bool, AllocError> {
    let mut names = Vec::with_capacity(alloc, 2)?;
    names.push(EntryKey::Leaf(owner, Part::Outline))?;
    names.push(EntryKey::Leaf(owner, Part::Back))?;
    let places = Places::new(alloc, names)?;
    let second = places.find(EntryKey::Leaf(owner, Part::Back)) == Some(1);
    Ok(second && places.find(EntryKey::Leaf(owner, Part::Border)).is_none())
}

#[test]
fn a_chain_joins_a_line(rt: HostRuntime) -> Result<(), Fail> {
    let mut boxes = Arena::<u8, BoxMark>::starting_at(rt.alloc(), 1, 0);
    match boxes.insert(0) {
        Ok(owner) => {
            assert!(rt; joined(rt.alloc(), owner)?);
            assert!(rt; placed(rt.alloc(), owner)?);
        }
        Err(_) => assert!(rt; false),
    }
    Ok(())
}

// The names of the entries of two boxes.
fn ten_names(alloc: Global, one: BoxKey, other: BoxKey) -> Result<Vec<EntryKey>, AllocError> {
    let mut names = Vec::with_capacity(alloc, 10)?;
    for owner in [one, other] {
        for part in [Part::Back, Part::Border, Part::Content, Part::Outline] {
            names.push(EntryKey::Leaf(owner, part))?;
        }
        names.push(EntryKey::Group(owner))?;
    }
    Ok(names)
}

// Many changes, each by calls one after the other and by a patch, reach the same as by brute force.
#[test]
fn drawn_changes_agree(rt: HostRuntime) -> Result<(), Fail> {
    let mut boxes = Arena::<u8, BoxMark>::starting_at(rt.alloc(), 2, 0);
    match (boxes.insert(0), boxes.insert(0)) {
        (Ok(one), Ok(other)) => {
            let names = ten_names(rt.alloc(), one, other)?;
            let tally = compare_all(rt.alloc(), &names)?;
            assert_eq!(rt; tally.agreed, LEVELS * CHANGES);
            assert!(rt; tally.moved > 0);
            assert!(rt; tally.moved < tally.agreed);
        }
        (_, _) => assert!(rt; false),
    }
    Ok(())
}

// In the middle of a line two nodes change their places, and the others on both sides stay.
#[test]
fn the_middle_is_reversed(rt: HostRuntime) -> Result<(), Fail> {
    let mut boxes = Arena::<u8, BoxMark>::starting_at(rt.alloc(), 2, 0);
    match (boxes.insert(0), boxes.insert(0)) {
        (Ok(one), Ok(other)) => {
            let names = ten_names(rt.alloc(), one, other)?;
            assert!(rt; two_are_reversed(rt.alloc(), &names)?);
        }
        (_, _) => assert!(rt; false),
    }
    Ok(())
}
