//! The slots and generations of keys, by hand.

use rd_keys::*;

#[test]
fn the_last_generation_is_retired(rt: HostRuntime) {
    let mut arena: Arena<u8, BoxMark> = Arena::starting_at(rt.alloc(), 2, u32::MAX);
    let Ok(first) = arena.insert(10) else {
        panic!(&rt; "no memory")
    };
    assert_eq!(rt; first.generation, u32::MAX);
    assert_eq!(rt; arena.remove(first), Some(10));
    assert_eq!(rt; arena.retired(), 1);
    assert_eq!(rt; arena.live(), 0);
    assert!(rt; arena.get(first).is_none());
    let Ok(second) = arena.insert(20) else {
        panic!(&rt; "no memory")
    };
    assert!(rt; second.slot != first.slot);
    match arena.insert(30) {
        Err(Refused::Full(value)) => assert_eq!(rt; value, 30),
        _ => panic!(&rt; "not full"),
    }
}

#[test]
fn a_slot_gives_its_next_key(rt: HostRuntime) {
    let mut arena: Arena<u8, BoxMark> = Arena::new(rt.alloc(), 1);
    let Ok(first) = arena.insert(1) else {
        panic!(&rt; "no memory")
    };
    assert_eq!(rt; first.generation, 0);
    assert_eq!(rt; arena.remove(first), Some(1));
    let Ok(second) = arena.insert(2) else {
        panic!(&rt; "no memory")
    };
    assert_eq!(rt; second.slot, first.slot);
    assert_eq!(rt; second.generation(), 1);
    assert!(rt; second.is(Key::new(first.slot(), 1)) && !second.is(first));
    assert!(rt; arena.get(first).is_none());
    assert_eq!(rt; arena.get(second).copied(), Some(2));
    if let Some(value) = arena.get_mut(second) {
        *value = 3;
    }
    assert_eq!(rt; arena.get(second).copied(), Some(3));
}
