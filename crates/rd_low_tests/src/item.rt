//! One item with each of its calls.

ghost use Rattle.std.specs.Prelude.{◌≡◌, ◌<◌};

use rd_geom::{Color, Rect, Steps};
use rd_item::{Item, Leaf, Shape};
use rd_keys::{Arena, BoxKey, BoxMark, EntryKey, Part};
use std::marker::Brand;
use std::sync::ledger::{Blank, Ledger};

const RED: Color = Color {
    r: 255,
    g: 0,
    b: 0,
    a: 255,
};

// The border of a box of 4 by 4 pixels, one pixel wide, has the values that it was made with.
fn has_its_values<A: Ledger>(owner: BoxKey, blank: Blank) -> bool
    requires name { blank.name ≡ A.name }
    requires parts { blank.parts ≡ A.parts }
    requires some { 0 < blank.parts }
{
    let mut made = Steps::<A>::new(blank);
    let inner = Rect::new(1, 1, 2, 2).unwrap_or(Rect::EMPTY);
    match Rect::new(0, 0, 4, 4) {
        Some(outer) => {
            let leaf = Leaf {
                owner,
                part: Part::Border,
                visible: outer,
                shape: Shape { outer, inner },
                color: RED,
                hits: true,
            };
            let item = Item::make(leaf, 7, &mut made);
            let named = item.key() == EntryKey::Leaf(owner, Part::Border)
                && item.owner() == owner
                && item.part() == Part::Border;
            let painted = item.color() == RED
                && item.visible() == outer
                && item.shape().inner == inner;
            let covered = item.covers(0, 3) && !item.covers(1, 1) && !item.covers(4, 3);
            named && painted && covered && item.hits() && item.made_at() == 7
        }
        None => false,
    }
}

#[test]
fn an_item_has_the_values_given(rt: HostRuntime) {
    let mut boxes = Arena::<u8, BoxMark>::starting_at(rt.alloc(), 1, 0);
    match boxes.insert(0) {
        Ok(owner) => assert!(rt; has_its_values::<Brand>(owner, Blank::new(1))),
        Err(_) => assert!(rt; false),
    }
}
