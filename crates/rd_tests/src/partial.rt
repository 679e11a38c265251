//! The lists and the area of a small document, worked out by hand from the ten steps.
ghost use Rattle.std.specs.Prelude.{◌≡◌, ◌<◌};

use super::planting::{Row, add, box_of, id_of, rect_of, root_alone};
use rd_area::Area;
use rd_geom::{Color, Sides, Size, Steps};
use rd_graph::OrderGraph;
use rd_keys::{BoxKey, Part};
use rd_list::{Chunks, Entry, Group, Kept, Level, NewEntry, NewList, PlainEntry};
use rd_partial::{build, build_all, touched_area};
use rd_style::{Display, Floating, Position, Style, fits_rect};
use rd_tree::Tree;
use std::alloc::Global;
use std::marker::Brand;
use std::process::Abort;
use std::sync::ledger::{Blank, Ledger};

const CANVAS: Size = Size { w: 10, h: 10 };

const GREEN: Color = Color {
    r: 0,
    g: 255,
    b: 0,
    a: 255,
};

fn layer(position: Position, z: Option<i32>) -> Style {
    Style {
        position,
        z,
        ..Style::plain()
    }
}

/// A translucent layer of level 1.
fn over() -> Style {
    Style {
        opacity: 128,
        ..layer(Position::Relative, Some(1))
    }
}

/// An inline box with a content.
fn inline() -> Style {
    Style {
        display: Display::Inline,
        content: Some(GREEN),
        ..Style::plain()
    }
}

/// A float.
fn float() -> Style {
    Style {
        float: Floating::Left,
        ..Style::plain()
    }
}

/// A block with a border, a content and an outline.
fn block() -> Style {
    Style {
        border_width: Sides {
            top: 1,
            right: 1,
            bottom: 1,
            left: 1,
        },
        content: Some(GREEN),
        outline_width: 1,
        ..Style::plain()
    }
}

/// A box in the left upper corner.
fn near<'a>(id: &'a str, parent: &'a str, style: Style) -> Row<'a> {
    Row {
        id,
        parent,
        rect: [0, 0, 4, 4],
        style,
    }
}

/// Layers of four levels, one of them in a layer at auto, one in a float and one translucent; an inline box, a float and a
/// block with a border, a content and an outline.
fn planted<B: Ledger>(rt: &impl Abort, alloc: Global) -> Tree<B> {
    let auto = layer(Position::Relative, None);
    let rows = [
        near("p", "root", over()),
        near("a", "root", auto),
        near("d", "a", layer(Position::Absolute, Some(-1))),
        near("i", "root", inline()),
        near("f", "root", float()),
        near("g", "f", auto),
        Row {
            id: "k",
            parent: "root",
            rect: [6, 6, 3, 3],
            style: block(),
        },
        near("n", "root", layer(Position::Relative, Some(-2))),
        near("z", "root", layer(Position::Relative, Some(0))),
    ];
    let root = rect_of(rt, [0, 0, 10, 10]);
    let mut tree = root_alone(rt, alloc, 10, "root", root, &Style::plain());
    for row in rows {
        add(rt, alloc, &mut tree, &row);
    }
    tree
}

/// The text comes at the end of another.
fn say(rt: &impl Abort, out: &mut String, text: &str) {
    out.push_str(text).expect(rt, "a longer text");
}

/// The letter of a part, after an id.
fn letter(part: Part) -> &'static str {
    match part {
        Part::Back => "- ",
        Part::Border => "b ",
        Part::Content => "c ",
        Part::Outline => "o ",
    }
}

/// A group of the translucent layer begins, or another one.
fn mark(opacity: u8) -> &'static str {
    if opacity == 128 { "( " } else { "? " }
}

/// The id of a box, and a letter for its part.
fn put<B: Ledger>(rt: &impl Abort, tree: &Tree<B>, owner: BoxKey, part: Part, out: &mut String) {
    if let Some(id) = tree.id(owner) {
        say(rt, out, id.text());
    }
    say(rt, out, letter(part));
}

/// The leaves right in a new list.
fn new_leaves<A: Ledger, B: Ledger>(
    rt: &impl Abort,
    tree: &Tree<B>,
    list: &NewList<A>,
    out: &mut String,
) {
    for run in &list.runs {
        for entry in run {
            if let NewEntry::Leaf(item) = entry {
                put(rt, tree, item.owner(), item.part(), out);
            }
        }
    }
}

/// A new list in words; of a group the leaves right in it.
fn new_words<A: Ledger, B: Ledger>(
    rt: &impl Abort,
    tree: &Tree<B>,
    list: &NewList<A>,
    out: &mut String,
) {
    for run in &list.runs {
        for entry in run {
            match entry {
                NewEntry::Leaf(item) => put(rt, tree, item.owner(), item.part(), out),
                NewEntry::Group { opacity, inner, .. } => {
                    say(rt, out, mark(*opacity));
                    new_leaves(rt, tree, inner, out);
                    say(rt, out, ") ");
                }
            }
        }
    }
}

/// The leaves right in a plain list.
fn plain_leaves<B: Ledger>(
    rt: &impl Abort,
    tree: &Tree<B>,
    entries: &[PlainEntry],
    out: &mut String,
) {
    for entry in entries {
        if let PlainEntry::Leaf(leaf) = entry {
            put(rt, tree, leaf.owner, leaf.part, out);
        }
    }
}

/// A plain list in words; of a group the leaves right in it.
fn plain_words<B: Ledger>(
    rt: &impl Abort,
    tree: &Tree<B>,
    entries: &[PlainEntry],
    out: &mut String,
) {
    for entry in entries {
        match entry {
            PlainEntry::Leaf(leaf) => put(rt, tree, leaf.owner, leaf.part, out),
            PlainEntry::Group { opacity, inner, .. } => {
                say(rt, out, mark(*opacity));
                plain_leaves(rt, tree, &inner.entries, out);
                say(rt, out, ") ");
            }
        }
    }
}

fn kept_entry<A: Ledger>(entry: NewEntry<A>) -> Entry<A> {
    match entry {
        NewEntry::Leaf(item) => Entry::Leaf(item),
        NewEntry::Group {
            key,
            opacity,
            blend,
            inner: _inner,
        } => Entry::Group(Group {
            key,
            opacity,
            blend,
            inner: Kept::empty(),
        }),
    }
}

/// A list as a kept one, without what is in its groups.
fn kept<A: Ledger>(rt: &impl Abort, alloc: Global, list: NewList<A>) -> Kept<A> {
    let mut entries = Vec::new(alloc);
    for run in list.runs {
        for entry in run {
            entries
                .push(kept_entry(entry))
                .expect(rt, "room for an entry");
        }
    }
    let level = Level {
        entries,
        graph: OrderGraph::empty(alloc),
        chunks: Chunks::none(alloc),
    };
    Kept::new(alloc, level).expect(rt, "a level")
}

/// The area that is to be painted anew.
fn area_of<A: Ledger, B: Ledger>(
    rt: &impl Abort,
    alloc: Global,
    tree: &Tree<B>,
    list: &Kept<A>,
    looks: &mut Steps<B>,
) -> Area {
    touched_area(alloc, tree, list.view(), looks).expect(rt, "an area")
}

/// In a settled tree nothing is painted anew.
fn settled<A: Ledger, B: Ledger>(
    rt: &impl Abort,
    alloc: Global,
    tree: &mut Tree<B>,
    list: &Kept<A>,
    looks: &mut Steps<B>,
) {
    tree.settle();
    let area = area_of(rt, alloc, tree, list, looks);
    assert_eq!(rt; area.count(), 0);
}

/// The block gets another rectangle.
fn place_block<B: Ledger>(rt: &impl Abort, alloc: Global, tree: &mut Tree<B>) {
    let key = box_of(rt, tree, &id_of(rt, alloc, "k"));
    let rect = rect_of(rt, [0, 8, 1, 1]);
    assert!(rt; fits_rect(rect));
    tree.place(key, rect);
}

/// The block moves: where it was and where it is now is painted anew, each with its outline.
fn moved<A: Ledger, B: Ledger>(
    rt: &impl Abort,
    alloc: Global,
    tree: &mut Tree<B>,
    list: &Kept<A>,
    looks: &mut Steps<B>,
) {
    settled(rt, alloc, tree, list, looks);
    place_block(rt, alloc, tree);
    let area = area_of(rt, alloc, tree, list, looks);
    assert_eq!(rt; area.count(), 31);
    for (x, y) in [(5, 5), (9, 9), (0, 7), (1, 9)] {
        assert!(rt; area.holds(x, y), "the pixel {x} {y}");
    }
    for (x, y) in [(2, 7), (4, 9), (0, 6)] {
        assert!(rt; !area.holds(x, y), "the pixel {x} {y}");
    }
}

/// The whole list in words.
const WHOLE: &str = "root- n- d- k- kb f- i- ic kc a- g- z- ( p- ) ko ";

/// A new list has these words.
fn has_words<A: Ledger, B: Ledger>(
    rt: &impl Abort,
    alloc: Global,
    tree: &Tree<B>,
    list: &NewList<A>,
    want: &str,
) {
    let mut words = String::new(alloc);
    new_words(rt, tree, list, &mut words);
    assert_eq!(rt; words.as_str(), want);
}

/// The whole list.
fn whole<A: Ledger, B: Ledger>(
    rt: &impl Abort,
    alloc: Global,
    tree: &Tree<B>,
    made: &mut Steps<A>,
    looks: &mut Steps<B>,
) -> NewList<A> {
    let all = build_all(alloc, tree, 7, made, looks).expect(rt, "a list");
    has_words(rt, alloc, tree, &all, WHOLE);
    all
}

/// The same from the plain program.
fn plainly<B: Ledger>(rt: &impl Abort, alloc: Global, tree: &Tree<B>, looks: &mut Steps<B>) {
    let plain = rd_stack::fresh_list(alloc, tree, looks).expect(rt, "a plain list");
    let mut words = String::new(alloc);
    plain_words(rt, tree, &plain.entries, &mut words);
    assert_eq!(rt; words.as_str(), WHOLE);
}

/// The left upper pixel of the block.
fn one_pixel(rt: &impl Abort, alloc: Global) -> Area {
    let mut area = Area::none(alloc, CANVAS).expect(rt, "an area");
    area.add(rect_of(rt, [6, 6, 1, 1]))
        .expect(rt, "a larger area");
    area
}

/// The part of the list in that pixel, of which the outline lies outside.
fn in_one_pixel<A: Ledger, B: Ledger>(
    rt: &impl Abort,
    alloc: Global,
    tree: &Tree<B>,
    made: &mut Steps<A>,
    looks: &mut Steps<B>,
) {
    assert!(rt; tree.canvas() == CANVAS);
    let area = one_pixel(rt, alloc);
    let part = build(alloc, tree, &area, 8, made, looks).expect(rt, "a list");
    has_words(rt, alloc, tree, &part, "root- k- kb ko ");
}

/// The lists of the document, and its area where the block moves.
fn lists<A: Ledger, B: Ledger>(
    rt: &impl Abort,
    alloc: Global,
    made: &mut Steps<A>,
    looks: &mut Steps<B>,
) {
    let mut tree: Tree<B> = planted(rt, alloc);
    let all = whole(rt, alloc, &tree, made, looks);
    plainly(rt, alloc, &tree, looks);
    in_one_pixel(rt, alloc, &tree, made, looks);
    let list = kept(rt, alloc, all);
    moved(rt, alloc, &mut tree, &list, looks);
}

fn with_ledgers<A: Ledger, B: Ledger>(rt: &impl Abort, alloc: Global, one: Blank, two: Blank)
    requires one_name { one.name ≡ A.name }
    requires one_parts { one.parts ≡ A.parts }
    requires one_some { 0 < one.parts }
    requires two_name { two.name ≡ B.name }
    requires two_parts { two.parts ≡ B.parts }
    requires two_some { 0 < two.parts }
{
    let mut made = Steps::<A>::new(one);
    let mut looks = Steps::<B>::new(two);
    lists(rt, alloc, &mut made, &mut looks);
}

#[test]
fn in_the_order_of_the_ten_steps(rt: HostRuntime) {
    with_ledgers::<Brand, Brand>(&rt, rt.alloc(), Blank::new(1), Blank::new(1));
}
