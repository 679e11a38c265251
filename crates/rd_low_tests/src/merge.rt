//! Merges of small lists, worked out by hand, and of drawn levels beside a matrix.
ghost use Rattle.std.specs.Prelude.{◌≡◌, ◌<◌, ◌++◌, ◌||◌, ◌∷◌, [], true, false, IfOk};
ghost use Rattle.rd_geom.specs.Plane.{has_none};
ghost use Rattle.rd_keys.specs.Keys.{same_key};
ghost use Rattle.rd_list.specs.Entries as list;
ghost use Rattle.rd_list.specs.NewView.{new_entries};
ghost use Rattle.rd_low_tests.specs.SampleLists.{IsFirst, late_list, one_item, part_list, whole_list};

mod checked;
mod drawn;

use super::list::in_two;
use super::rects::rect_of;
use drawn::compare;
use rd_geom::{Blend, Color, Rect, Steps};
use rd_item::{Item, Leaf, Shape};
use rd_keys::{Arena, BoxKey, BoxMark, KeyRange, Part};
use rd_list::{Entry, Kept, NewEntry, NewList};
use rd_merge::{Touches, merge};
use std::alloc::{AllocError, Global};
use std::marker::Brand;
use std::process::Abort;
use std::sync::ledger::{Blank, Ledger};

const INK: Color = Color {
    r: 0,
    g: 0,
    b: 0,
    a: 255,
};

/// One box is touched, or every box.
#[derive(Drop)]
struct Only {
    all: bool,
    key: BoxKey,
}

impl Touches for Only {
    ghost is_touched = { λ t k. t.all || same_key t.key k };

    fn touches(&self, key: BoxKey) -> bool {
        self.all || self.key.is(key)
    }

    fn none_touched(&self, _keys: KeyRange) -> bool {
        false
    }
}

fn leaf<A: Ledger>(
    owner: BoxKey,
    part: Part,
    rect: Rect,
    at: u64,
    made: &mut Steps<A>,
) -> NewEntry<A>
    requires { has_none rect ≡ false }
    ensures { new_entries (result ∷ []) ≡ list.one_leaf (one_item owner part rect INK at) }
{
    let shape = Shape {
        outer: rect,
        inner: rect,
    };
    let leaf = Leaf {
        owner,
        part,
        visible: rect,
        shape,
        color: INK,
        hits: true,
    };
    NewEntry::Leaf(Item::make(leaf, at, made))
}

/// The entry comes last.
fn put<A: Ledger>(rt: &impl Abort, entries: &mut Vec<NewEntry<A>>, entry: NewEntry<A>)
    ensures { entries.new.items ≡ entries.old.items ++ entry ∷ [] }
{
    entries.push(entry).expect(rt, "room for an entry");
}

fn whole<A: Ledger>(
    rt: &impl Abort,
    alloc: Global,
    one: BoxKey,
    other: BoxKey,
    outside: Rect,
    inside: Rect,
    made: &mut Steps<A>,
) -> NewList<A>
    requires outside { has_none outside ≡ false }
    requires inside { has_none inside ≡ false }
    ensures { result ≡ whole_list one other outside inside INK }
{
    let mut inner = Vec::new(alloc);
    put(rt, &mut inner, leaf(one, Part::Border, inside, 1, made));
    let mut upper = Vec::new(alloc);
    put(rt, &mut upper, leaf(other, Part::Back, inside, 1, made));
    let mut entries = Vec::new(alloc);
    put(rt, &mut entries, leaf(one, Part::Back, outside, 1, made));
    put(
        rt,
        &mut entries,
        NewEntry::Group {
            key: one,
            opacity: 128,
            blend: Blend::Multiply,
            inner: in_two(rt, alloc, inner, upper),
        },
    );
    let mut top = Vec::new(alloc);
    put(rt, &mut top, leaf(one, Part::Content, outside, 1, made));
    in_two(rt, alloc, entries, top)
}

fn part<A: Ledger>(
    rt: &impl Abort,
    alloc: Global,
    one: BoxKey,
    other: BoxKey,
    inside: Rect,
    made: &mut Steps<A>,
) -> NewList<A>
    requires { has_none inside ≡ false }
    ensures { result ≡ part_list one other inside INK }
{
    let mut inner = Vec::new(alloc);
    put(rt, &mut inner, leaf(one, Part::Border, inside, 2, made));
    put(rt, &mut inner, leaf(other, Part::Back, inside, 2, made));
    let mut entries = Vec::new(alloc);
    put(
        rt,
        &mut entries,
        NewEntry::Group {
            key: one,
            opacity: 128,
            blend: Blend::Multiply,
            inner: in_two(rt, alloc, inner, Vec::new(alloc)),
        },
    );
    in_two(rt, alloc, entries, Vec::new(alloc))
}

fn is_leaf<A: Ledger>(entry: &Entry<A>, owner: BoxKey, part: Part, at: u64) -> bool {
    match entry {
        Entry::Leaf(item) => item.owner() == owner && item.part() == part && item.made_at() == at,
        Entry::Group(_) => false,
    }
}

// The back and the content stay as they were. In the group the other box was touched, and the border lies in the same area.
fn is_as_worked<A: Ledger>(kept: &Kept<A>, one: BoxKey, other: BoxKey) -> bool {
    let entries = kept.entries();
    if entries.len() != 3 {
        return false;
    }
    let back = is_leaf(&entries[0], one, Part::Back, 1);
    let content = is_leaf(&entries[2], one, Part::Content, 1);
    match &entries[1] {
        Entry::Leaf(_) => false,
        Entry::Group(group) => {
            let inside = group.inner.entries();
            back && content
                && group.opacity == 128
                && group.blend == Blend::Multiply
                && inside.len() == 2
                && is_leaf(&inside[0], one, Part::Border, 2)
                && is_leaf(&inside[1], other, Part::Back, 2)
        }
    }
}

fn late<A: Ledger>(
    rt: &impl Abort,
    alloc: Global,
    one: BoxKey,
    other: BoxKey,
    outside: Rect,
    inside: Rect,
    made: &mut Steps<A>,
) -> NewList<A>
    requires outside { has_none outside ≡ false }
    requires inside { has_none inside ≡ false }
    ensures { result ≡ late_list one other outside inside INK }
{
    let mut inner = Vec::new(alloc);
    put(rt, &mut inner, leaf(other, Part::Back, inside, 2, made));
    let mut entries = Vec::new(alloc);
    put(
        rt,
        &mut entries,
        NewEntry::Group {
            key: one,
            opacity: 128,
            blend: Blend::Multiply,
            inner: in_two(rt, alloc, inner, Vec::new(alloc)),
        },
    );
    let mut top = Vec::new(alloc);
    put(rt, &mut top, leaf(other, Part::Content, inside, 2, made));
    put(rt, &mut top, leaf(one, Part::Content, outside, 2, made));
    in_two(rt, alloc, entries, top)
}

// Two entries of one box and a group of one leaf between them.
fn is_lessened<A: Ledger>(kept: &Kept<A>, one: BoxKey) -> bool {
    let entries = kept.entries();
    if entries.len() != 3 {
        return false;
    }
    let back = is_leaf(&entries[0], one, Part::Back, 1);
    let content = is_leaf(&entries[2], one, Part::Content, 1);
    match &entries[1] {
        Entry::Leaf(_) => false,
        Entry::Group(group) => {
            let inside = group.inner.entries();
            back && content && inside.len() == 1 && is_leaf(&inside[0], one, Part::Border, 1)
        }
    }
}

// The content of the other box has come between the group and the content of the first one.
fn is_widened<A: Ledger>(kept: &Kept<A>, one: BoxKey, other: BoxKey) -> bool {
    let entries = kept.entries();
    if entries.len() != 4 {
        return false;
    }
    let back = is_leaf(&entries[0], one, Part::Back, 1);
    let between = is_leaf(&entries[2], other, Part::Content, 2);
    let content = is_leaf(&entries[3], one, Part::Content, 2);
    match &entries[1] {
        Entry::Leaf(_) => false,
        Entry::Group(group) => {
            let inside = group.inner.entries();
            let border = inside.len() == 2 && is_leaf(&inside[0], one, Part::Border, 1);
            back && between && content && border && is_leaf(&inside[1], other, Part::Back, 2)
        }
    }
}

// A first merge of nothing with the whole list.
fn first<A: Ledger>(
    rt: &impl Abort,
    alloc: Global,
    one: BoxKey,
    other: BoxKey,
    outside: Rect,
    inside: Rect,
    made: &mut Steps<A>,
) -> Result<Kept<A>, AllocError>
    requires outside { has_none outside ≡ false }
    requires inside { has_none inside ≡ false }
    requires apart { same_key other one ≡ false }
    ensures { IfOk result (IsFirst one other outside inside INK) }
{
    let list = whole(rt, alloc, one, other, outside, inside, made);
    let all = Only {
        all: true,
        key: other,
    };
    match merge(alloc, Kept::empty(), list, &all) {
        Ok(kept) => Ok(kept),
        Err((_, e)) => Err(e),
    }
}

// What the first merge gives.
fn begun<A: Ledger>(
    rt: &impl Abort,
    alloc: Global,
    one: BoxKey,
    other: BoxKey,
    outside: Rect,
    inside: Rect,
    made: &mut Steps<A>,
) -> Kept<A>
    requires outside { has_none outside ≡ false }
    requires inside { has_none inside ≡ false }
    requires apart { same_key other one ≡ false }
    ensures { IsFirst one other outside inside INK result }
{
    first(rt, alloc, one, other, outside, inside, made).expect(rt, "a first merge")
}

// A second merge where the other box was touched.
fn merged_twice<A: Ledger>(
    rt: &impl Abort,
    alloc: Global,
    one: BoxKey,
    other: BoxKey,
    outside: Rect,
    inside: Rect,
    made: &mut Steps<A>,
) -> Result<bool, AllocError>
    requires outside { has_none outside ≡ false }
    requires inside { has_none inside ≡ false }
    requires apart { same_key other one ≡ false }
{
    let kept = begun(rt, alloc, one, other, outside, inside, made);
    let second = part(rt, alloc, one, other, inside, made);
    let touched = Only {
        all: false,
        key: other,
    };
    match merge(alloc, kept, second, &touched) {
        Ok(kept) => Ok(is_as_worked(&kept, one, other)),
        Err((_, e)) => Err(e),
    }
}

// A second merge where the other box has gone, and nothing is new.
fn merged_to_less<A: Ledger>(
    rt: &impl Abort,
    alloc: Global,
    one: BoxKey,
    other: BoxKey,
    outside: Rect,
    inside: Rect,
    made: &mut Steps<A>,
) -> Result<bool, AllocError>
    requires outside { has_none outside ≡ false }
    requires inside { has_none inside ≡ false }
    requires apart { same_key other one ≡ false }
{
    let kept = begun(rt, alloc, one, other, outside, inside, made);
    let touched = Only {
        all: false,
        key: other,
    };
    match merge(alloc, kept, NewList::empty(alloc), &touched) {
        Ok(kept) => Ok(is_lessened(&kept, one)),
        Err((_, e)) => Err(e),
    }
}

// A second merge where a new entry comes between two that stand already.
fn merged_to_more<A: Ledger>(
    rt: &impl Abort,
    alloc: Global,
    one: BoxKey,
    other: BoxKey,
    outside: Rect,
    inside: Rect,
    made: &mut Steps<A>,
) -> Result<bool, AllocError>
    requires outside { has_none outside ≡ false }
    requires inside { has_none inside ≡ false }
    requires apart { same_key other one ≡ false }
{
    let kept = begun(rt, alloc, one, other, outside, inside, made);
    let second = late(rt, alloc, one, other, outside, inside, made);
    let touched = Only {
        all: false,
        key: other,
    };
    match merge(alloc, kept, second, &touched) {
        Ok(kept) => Ok(is_widened(&kept, one, other)),
        Err((_, e)) => Err(e),
    }
}

// A rectangle of 4 by 4 at the upper edge.
fn at(rt: &impl Abort, x: i32) -> Rect
    ensures { has_none result ≡ false }
{
    let rect = rect_of(rt, [x, 0, 4, 4]);
    assert!(rt; !rect.is_empty());
    rect
}

// The three second merges.
fn merges<A: Ledger>(rt: &impl Abort, alloc: Global, one: BoxKey, other: BoxKey, blank: Blank)
    requires name { blank.name ≡ A.name }
    requires parts { blank.parts ≡ A.parts }
    requires some { 0 < blank.parts }
{
    let mut made = Steps::<A>::new(blank);
    assert!(rt; !other.is(one));
    let outside = at(rt, 0);
    let inside = at(rt, 8);
    let twice = merged_twice(rt, alloc, one, other, outside, inside, &mut made);
    assert!(rt; twice.expect(rt, "a second merge"));
    let less = merged_to_less(rt, alloc, one, other, outside, inside, &mut made);
    assert!(rt; less.expect(rt, "a second merge"));
    let more = merged_to_more(rt, alloc, one, other, outside, inside, &mut made);
    assert!(rt; more.expect(rt, "a second merge"));
}

// A new box.
fn new_box(rt: &impl Abort, boxes: &mut Arena<u8, BoxMark>) -> BoxKey {
    match boxes.insert(0) {
        Ok(key) => key,
        Err(_) => panic!(rt; "no room for a box"),
    }
}

#[test]
fn small_merges(rt: HostRuntime) {
    let mut boxes = Arena::<u8, BoxMark>::starting_at(rt.alloc(), 2, 0);
    let one = new_box(&rt, &mut boxes);
    let other = new_box(&rt, &mut boxes);
    merges::<Brand>(&rt, rt.alloc(), one, other, Blank::new(1));
}

// The spots of so many new boxes in a row, each of which overlaps the next one.
fn row(rt: &impl Abort, alloc: Global, count: u8) -> Vec<(BoxKey, Rect)> {
    let mut boxes = Arena::<u8, BoxMark>::starting_at(alloc, u32::from(count), 0);
    let mut all = Vec::new(alloc);
    for number in 0..count {
        let spot = (new_box(rt, &mut boxes), at(rt, i32::from(number) * 3));
        all.push(spot).expect(rt, "room for a spot");
    }
    all
}

fn drawn_merges<A: Ledger>(
    rt: &impl Abort,
    alloc: Global,
    every: &[(BoxKey, Rect)],
    blank: Blank,
) -> u64
    requires name { blank.name ≡ A.name }
    requires parts { blank.parts ≡ A.parts }
    requires some { 0 < blank.parts }
{
    let mut made = Steps::<A>::new(blank);
    compare(rt, alloc, every, &mut made)
}

// Many merges of drawn levels give what brute force gives.
#[test]
fn drawn_merges_agree(rt: HostRuntime) {
    let every = row(&rt, rt.alloc(), 10);
    let free = drawn_merges::<Brand>(&rt, rt.alloc(), &every, Blank::new(1));
    assert!(rt; free > 0);
}
