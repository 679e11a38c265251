//! A small new list as a kept one, worked out by hand.
ghost use Rattle.std.specs.Prelude.{◌≡◌, ◌<◌, ◌++◌, ◌∷◌, [], true, false};
ghost use Rattle.rd_geom.specs.Plane.{has_none};
ghost use Rattle.rd_list.specs.Apart.{LevelsApart};
ghost use Rattle.rd_list.specs.Entries as list;
ghost use Rattle.rd_list.specs.Entries.{◌▷◌};
ghost use Rattle.rd_list.specs.EntryNames.{entry_names, new_leaves};
ghost use Rattle.rd_list.specs.NewView.{new_entries};

use super::rects::rect_of;
use rd_geom::{Blend, Color, Rect, Steps};
use rd_graph::OrderGraph;
use rd_item::{Item, Leaf, Shape};
use rd_keys::{Arena, BoxKey, BoxMark, Part};
use rd_list::{Entry, Kept, NewEntry, NewList};
use std::alloc::Global;
use std::marker::Brand;
use std::process::Abort;
use std::sync::ledger::{Blank, Ledger};

const INK: Color = Color {
    r: 0,
    g: 0,
    b: 0,
    a: 255,
};

fn leaf<A: Ledger>(owner: BoxKey, part: Part, rect: Rect, made: &mut Steps<A>) -> NewEntry<A>
    requires { has_none rect ≡ false }
    ensures { new_entries (result ∷ []) ≡ list.one_leaf (record {
      leaf = record { owner = owner; part = part; visible = rect; shape = record { outer = rect; inner = rect }; color = INK; hits = true };
      made_at = 1;
    }) }
{
    let shape = Shape {
        outer: rect,
        inner: rect,
    };
    let leaf = Leaf {
        owner,
        part,
        visible: rect,
        shape,
        color: INK,
        hits: true,
    };
    NewEntry::Leaf(Item::make(leaf, 1, made))
}

/// The entry comes last.
fn put<A: Ledger>(rt: &impl Abort, entries: &mut Vec<NewEntry<A>>, entry: NewEntry<A>)
    ensures { entries.new.items ≡ entries.old.items ++ entry ∷ [] }
{
    entries.push(entry).expect(rt, "room for an entry");
}

/// A list of a run and another on top of it.
pub(super) fn in_two<A: Ledger>(
    rt: &impl Abort,
    alloc: Global,
    low: Vec<NewEntry<A>>,
    high: Vec<NewEntry<A>>,
) -> NewList<A>
    ensures { result ≡ new_entries low.items ▷ new_entries high.items }
{
    let mut list = NewList::empty(alloc);
    list.push_run(low).expect(rt, "room for a run");
    list.push_run(high).expect(rt, "room for a run");
    list
}

// The back of a box, and a group with its border and its content.
fn nested<A: Ledger>(
    rt: &impl Abort,
    alloc: Global,
    owner: BoxKey,
    rect: Rect,
    made: &mut Steps<A>,
) -> NewList<A>
    requires { has_none rect ≡ false }
    ensures { LevelsApart entry_names (new_leaves result) }
{
    let mut inside = Vec::new(alloc);
    put(rt, &mut inside, leaf(owner, Part::Border, rect, made));
    put(rt, &mut inside, leaf(owner, Part::Content, rect, made));
    let mut entries = Vec::new(alloc);
    put(rt, &mut entries, leaf(owner, Part::Back, rect, made));
    let group = NewEntry::Group {
        key: owner,
        opacity: 128,
        blend: Blend::Screen,
        inner: in_two(rt, alloc, inside, Vec::new(alloc)),
    };
    let mut top = Vec::new(alloc);
    put(rt, &mut top, group);
    in_two(rt, alloc, entries, top)
}

// The graph of a level has so many names.
fn has_names<A: Ledger>(rt: &impl Abort, alloc: Global, list: &Kept<A>, names: usize) {
    let graph = list.graph().expect(rt, "a graph");
    let order = graph.order(alloc).expect(rt, "an order");
    assert_eq!(rt; order.len(), names);
}

// Two entries in a chain, of which the second is a group of two in a chain.
fn is_nested<A: Ledger>(rt: &impl Abort, alloc: Global, kept: &Kept<A>) {
    has_names(rt, alloc, kept, 2);
    let entries = kept.entries();
    assert_eq!(rt; entries.len(), 2);
    match &entries[1] {
        Entry::Leaf(_) => panic!(rt; "no group"),
        Entry::Group(group) => {
            has_names(rt, alloc, &group.inner, 2);
            assert_eq!(rt; group.opacity, 128);
            assert_eq!(rt; group.blend, Blend::Screen);
            assert_eq!(rt; group.inner.entries().len(), 2);
        }
    }
}

fn lines_up<A: Ledger>(rt: &impl Abort, alloc: Global, owner: BoxKey, blank: Blank)
    requires name { blank.name ≡ A.name }
    requires parts { blank.parts ≡ A.parts }
    requires some { 0 < blank.parts }
{
    let mut made = Steps::<A>::new(blank);
    let rect = rect_of(rt, [0, 0, 4, 4]);
    assert!(rt; !rect.is_empty());
    let list = nested(rt, alloc, owner, rect, &mut made);
    let kept = Kept::linear(alloc, list).expect(rt, "a kept list");
    is_nested(rt, alloc, &kept);
}

#[test]
fn a_new_list_is_kept(rt: HostRuntime) {
    let mut boxes = Arena::<u8, BoxMark>::starting_at(rt.alloc(), 1, 0);
    match boxes.insert(0) {
        Ok(owner) => lines_up::<Brand>(&rt, rt.alloc(), owner, Blank::new(1)),
        Err(_) => panic!(&rt; "no room for a box"),
    }
}
