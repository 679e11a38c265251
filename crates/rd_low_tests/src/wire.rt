//! Wires by hand.

use rd_geom::{NoMemory, Px, Size};
use rd_keys::BoxKey;
use rd_list::Kept;
use rd_wire::{WireFault, decode, encode, hit, pixel};
use std::alloc::Global;
use std::marker::Brand;
use std::sync::ledger::Ledger;

/// One white leaf on a canvas of one pixel: the letters, the canvas, the count, and the leaf.
const ONE: [u8; 83] = [
    0x52, 0x44, 0x4c, 0x31, 0, 1, 0, 1, 0, 0, 0, 1, 1, 0, 0, 0, 0, 0, 0, 0, 0, 0, 0, 0, 0, 0, 0, 0,
    0, 0, 0, 0, 0, 1, 0, 0, 0, 1, 0, 0, 0, 0, 0, 0, 0, 0, 0, 0, 0, 1, 0, 0, 0, 1, 0, 0, 0, 0, 0, 0,
    0, 0, 0, 0, 0, 0, 0, 0, 0, 0, 255, 255, 255, 255, 1, 0, 0, 0, 0, 0, 0, 0, 1,
];

fn is_form(alloc: Global, bytes: &[u8]) -> bool {
    matches!(decode(alloc, bytes), Err(WireFault::Form))
}

// The bytes with another one at a place.
fn changed(alloc: Global, bytes: &[u8], place: usize, byte: u8) -> Result<Vec<u8>, NoMemory> {
    let mut other = Vec::from_slice(alloc, bytes)?;
    if place < other.len() {
        other[place] = byte;
    }
    Ok(other)
}

// The spelling of one leaf has one pixel, and the box 0 is hit there.
fn is_read(alloc: Global) -> bool {
    let Ok(wire) = decode(alloc, &ONE) else {
        return false;
    };
    let one = wire.size == Size { w: 1, h: 1 } && wire.list.entries.len() == 1;
    let pixels = pixel(&wire, 0, 0) == Some(Px::WHITE)
        && pixel(&wire, 1, 0).is_none()
        && pixel(&wire, 0, -1).is_none();
    let hits = hit(&wire, 0, 0) == Some(BoxKey::new(0, 0)) && hit(&wire, 1, 0).is_none();
    one && pixels && hits
}

#[test]
fn one_leaf_is_read(rt: HostRuntime) {
    assert!(rt; is_read(rt.alloc()));
}

// Are the bytes refused with each of these changes? The last letter; no width; neither a leaf nor a group; part 4; an empty
// visible rectangle; one out of the outer rectangle; an inner one of a column without a row; a flag of 2; four billion entries.
fn are_refused(alloc: Global) -> bool {
    let changes = [
        (3, 0x32),
        (5, 0),
        (12, 3),
        (21, 4),
        (33, 0),
        (33, 2),
        (65, 1),
        (74, 2),
        (8, 255),
    ];
    let mut refused = is_form(alloc, &[]) && is_form(alloc, &ONE[..82]);
    for (place, byte) in changes {
        refused = refused
            && match changed(alloc, &ONE, place, byte) {
                Ok(other) => is_form(alloc, &other),
                Err(_) => false,
            };
    }
    refused
}

// A wire of a group without entries.
const NO_ENTRY: [u8; 27] = [
    0x52, 0x44, 0x4c, 0x31, 0, 1, 0, 1, 0, 0, 0, 1, 2, 0, 0, 0, 0, 0, 0, 0, 0, 255, 0, 0, 0, 0, 0,
];

#[test]
fn other_bytes_are_refused(rt: HostRuntime) {
    assert!(rt; are_refused(rt.alloc()));
    assert!(rt; is_form(rt.alloc(), &NO_ENTRY));
}

// The leaf twice, the second time of the box of this slot, and these bytes behind them.
fn two(alloc: Global, slot: u8, behind: &[u8]) -> Result<Vec<u8>, NoMemory> {
    let mut bytes = Vec::from_slice(alloc, &ONE)?;
    bytes.extend_from_slice(&ONE[12..])?;
    let bytes = changed(alloc, &bytes, 11, 2)?;
    let mut bytes = changed(alloc, &bytes, 87, slot)?;
    bytes.extend_from_slice(behind)?;
    Ok(bytes)
}

#[test]
fn a_key_stands_once(rt: HostRuntime) {
    let twice = two(rt.alloc(), 0, &[]).expect(&rt, "there is memory");
    assert!(rt; is_form(rt.alloc(), &twice));
    let once = two(rt.alloc(), 1, &[]).expect(&rt, "there is memory");
    assert!(rt; decode(rt.alloc(), &once).is_ok());
    let longer = two(rt.alloc(), 1, &[0]).expect(&rt, "there is memory");
    assert!(rt; is_form(rt.alloc(), &longer));
}

// A wire of one leaf in so many groups, each in the next.
fn nested(alloc: Global, groups: u32) -> Result<Vec<u8>, NoMemory> {
    let mut bytes = Vec::from_slice(alloc, &ONE[..12])?;
    for i in 0..groups {
        bytes.push(2)?;
        bytes.extend_from_slice(&i.to_be_bytes())?;
        bytes.extend_from_slice(&[0, 0, 0, 0, 255, 0, 0, 0, 0, 1])?;
    }
    bytes.extend_from_slice(&ONE[12..])?;
    Ok(bytes)
}

#[test]
fn groups_are_no_deeper_than_256(rt: HostRuntime) {
    let deep = nested(rt.alloc(), 256).expect(&rt, "there is memory");
    assert!(rt; decode(rt.alloc(), &deep).is_ok());
    let deeper = nested(rt.alloc(), 257).expect(&rt, "there is memory");
    assert!(rt; is_form(rt.alloc(), &deeper));
}

fn no_entry<A: Ledger>(alloc: Global) -> Result<Vec<u8>, NoMemory> {
    let list: Kept<A> = Kept::empty();
    encode(alloc, list.view(), Size { w: 3, h: 258 })
}

#[test]
fn a_list_without_entries_is_written(rt: HostRuntime) {
    let bytes = no_entry::<Brand>(rt.alloc()).expect(&rt, "there is memory");
    assert!(rt; bytes.as_slice() == [0x52, 0x44, 0x4c, 0x31, 0, 3, 1, 2, 0, 0, 0, 0].as_slice());
}
