//! Hits by hand.

ghost use Rattle.std.specs.Prelude.{◌≡◌, ◌<◌};

use rd_geom::{Blend, Color, Rect, Steps};
use rd_graph::OrderGraph;
use rd_hit::hit;
use rd_item::{Item, Leaf, Shape};
use rd_keys::{BoxKey, Key, Part};
use rd_list::{Chunks, Entry, Group, Kept, Level};
use std::alloc::Global;
use std::marker::Brand;
use std::sync::ledger::{Blank, Ledger};

fn part_of<A: Ledger>(
    slot: u32,
    part: Part,
    x: i32,
    hits: bool,
    made: &mut Steps<A>,
) -> Option<Entry<A>> {
    let outer = Rect::new(x, 0, 4, 4)?;
    if outer.is_empty() {
        return None;
    }
    let shape = Shape {
        outer,
        inner: Rect::EMPTY,
    };
    let owner = Key::new(slot, 0);
    let leaf = Leaf {
        owner,
        part,
        visible: outer,
        shape,
        color: Color::TRANSPARENT,
        hits,
    };
    Some(Entry::Leaf(Item::make(leaf, 1, made)))
}

// The list of these entries.
fn list_of<A: Ledger>(alloc: Global, entries: Vec<Entry<A>>) -> Option<Kept<A>> {
    let level = Level {
        entries,
        graph: OrderGraph::empty(alloc),
        chunks: Chunks::none(alloc),
    };
    Kept::new(alloc, level).ok()
}

// From bottom to top: box 1 on columns 0 to 3; in a group box 2 on columns 2 to 5;
// box 3 on columns 3 to 6, which takes no hits; the outline of box 4 on columns 0 to 3.
fn scene<A: Ledger>(alloc: Global, made: &mut Steps<A>) -> Option<Kept<A>> {
    let mut entries = Vec::new(alloc);
    entries.push(part_of(1, Part::Back, 0, true, made)?).ok()?;
    let mut inner = Vec::new(alloc);
    inner.push(part_of(2, Part::Back, 2, true, made)?).ok()?;
    let inner = list_of(alloc, inner)?;
    entries
        .push(Entry::Group(Group {
            key: Key::new(2, 0),
            opacity: 0,
            blend: Blend::Normal,
            inner,
        }))
        .ok()?;
    entries.push(part_of(3, Part::Back, 3, false, made)?).ok()?;
    entries
        .push(part_of(4, Part::Outline, 0, true, made)?)
        .ok()?;
    list_of(alloc, entries)
}

fn is_hit_right<A: Ledger>(list: &Kept<A>) -> bool {
    let key = |slot: u32| Some(BoxKey::new(slot, 0));
    let table = [
        (0, 0, key(1)),
        (2, 0, key(2)),
        (3, 3, key(2)),
        (5, 1, key(2)),
        (6, 1, None),
        (0, 4, None),
        (-1, 0, None),
    ];
    let mut right = true;
    for (x, y, want) in table {
        right = right && hit(list.view(), x, y) == want;
    }
    right
}

// Is each hit of the scene the right one?
fn are_right<A: Ledger>(alloc: Global, blank: Blank) -> bool
    requires name { blank.name ≡ A.name }
    requires parts { blank.parts ≡ A.parts }
    requires some { 0 < blank.parts }
{
    let mut made = Steps::<A>::new(blank);
    match scene(alloc, &mut made) {
        Some(list) => is_hit_right(&list),
        None => false,
    }
}

#[test]
fn the_topmost_is_hit(rt: HostRuntime) {
    let right = are_right::<Brand>(rt.alloc(), Blank::new(1));
    assert!(rt; right);
}
