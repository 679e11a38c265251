//! Lines as docs/FORMATS.md has them, worked out from there.

ghost use Rattle.std.specs.Prelude.{◌≡◌, ◌<◌, ◌∷◌, []};
ghost use Rattle.rd_list.specs.KeptView.{kept_entries};

use super::planting::{id_of, rect_of, root_alone};
use rd_geom::{Blend, Color, Rect, Steps};
use rd_graph::OrderGraph;
use rd_item::{Item, Leaf, Shape};
use rd_keys::Part;
use rd_list::{Chunks, Entry, Group, Kept, Level};
use rd_report::{Answer, Totals, digest, push_dump, push_line, push_summary};
use rd_style::Style;
use rd_tree::{BoxKey, Tree};
use std::alloc::Global;
use std::marker::Brand;
use std::process::Abort;
use std::sync::ledger::{Blank, Ledger};

const BLACK: Color = Color {
    r: 0,
    g: 0,
    b: 0,
    a: 255,
};

const ORANGE: Color = Color {
    r: 255,
    g: 10,
    b: 0,
    a: 255,
};

/// The digest of the bytes `abc` (FIPS 180-4, its first example).
const OF_ABC: [u8; 32] = [
    0xba, 0x78, 0x16, 0xbf, 0x8f, 0x01, 0xcf, 0xea, 0x41, 0x41, 0x40, 0xde, 0x5d, 0xae, 0x22, 0x23,
    0xb0, 0x03, 0x61, 0xa3, 0x96, 0x17, 0x7a, 0x9c, 0xb4, 0x10, 0xff, 0x61, 0xf2, 0x00, 0x15, 0xad,
];

#[test]
fn a_digest_is_that_of_the_standard(rt: HostRuntime) {
    assert!(rt; digest("abc".as_bytes()) == OF_ABC);
}

/// The line of an answer comes at the end of a text.
fn say(rt: &impl Abort, alloc: Global, text: &mut String, answer: &Answer) {
    push_line(alloc, text, answer).expect(rt, "a line");
}

#[test]
fn each_answer_has_its_line(rt: HostRuntime) {
    let alloc = rt.alloc();
    let id = id_of(&rt, alloc, "a-1");
    let painted = Answer::Painted {
        number: 2,
        built: 3,
        kept: 1,
        area: 16,
    };
    let mut text = String::new(alloc);
    for answer in [
        Answer::Done,
        Answer::Refused(9),
        painted,
        Answer::Hit(Some(&id)),
        Answer::Hit(None),
        Answer::Pixel(Some(ORANGE)),
        Answer::Pixel(None),
        Answer::Shot(OF_ABC),
        Answer::Undone(Some(3)),
        Answer::Undone(None),
    ] {
        say(&rt, alloc, &mut text, &answer);
    }
    assert_eq!(rt;
        text.as_str(),
        "ok\nrefused 9\npaint 2 built 3 kept 1 area 16\nhit a-1\nhit none\n\
pixel ff0a00\npixel none\nshot ba7816bf8f01cfea414140de5dae2223b00361a396177a9cb410ff61f20015ad\nundone 3\nundo none\n"
    );
}

#[test]
fn a_storm_has_four_lines(rt: HostRuntime) {
    let alloc = rt.alloc();
    let mut text = String::new(alloc);
    let totals = Totals {
        seed: 18446744073709551615,
        boxes: 300,
        edits: 200,
        accepted: 150,
        refused: 50,
        paints: 22,
        built: 1234,
        area: 98765,
        digest: OF_ABC,
    };
    push_summary(alloc, &mut text, &totals).expect(&rt, "four lines");
    assert_eq!(rt;
        text.as_str(),
        "storm seed 18446744073709551615 boxes 300 edits 200\naccepted 150 refused 50\n\
paints 22 built 1234 area 98765\nfinal ba7816bf8f01cfea414140de5dae2223b00361a396177a9cb410ff61f20015ad\n"
    );
}

/// A black background of one pixel.
fn leaf<A: Ledger>(rt: &impl Abort, owner: BoxKey, made: &mut Steps<A>) -> Item<A> {
    let pixel = rect_of(rt, [0, 0, 1, 1]);
    assert!(rt; !pixel.is_empty());
    let full = Shape {
        outer: pixel,
        inner: Rect::EMPTY,
    };
    let leaf = Leaf {
        owner,
        part: Part::Back,
        visible: pixel,
        shape: full,
        color: BLACK,
        hits: true,
    };
    Item::make(leaf, 1, made)
}

/// The list of one entry.
fn list_of<A: Ledger>(rt: &impl Abort, alloc: Global, entry: Entry<A>) -> Kept<A>
    ensures { result.entries ≡ kept_entries (entry ∷ []) }
{
    let level = Level {
        entries: vec![in alloc; entry].expect(rt, "an entry"),
        graph: OrderGraph::empty(alloc),
        chunks: Chunks::none(alloc),
    };
    Kept::new(alloc, level).expect(rt, "a level")
}

/// The dump of a list with one group, which has one leaf.
fn dumped<A: Ledger, B: Ledger>(
    rt: &impl Abort,
    alloc: Global,
    tree: &Tree<B>,
    made: &mut Steps<A>,
) -> String {
    let item = leaf(rt, tree.root(), made);
    let inner = list_of(rt, alloc, Entry::Leaf(item));
    let group = Group {
        key: tree.root(),
        opacity: 128,
        blend: Blend::Multiply,
        inner,
    };
    let list = list_of(rt, alloc, Entry::Group(group));
    let mut text = String::new(alloc);
    push_dump(&mut text, list.view(), tree).expect(rt, "a dump");
    text
}

/// The same, of the leaf and the group of a root alone.
fn with_ledgers<A: Ledger, B: Ledger>(rt: &impl Abort, alloc: Global, blank: Blank) -> String
    requires name { blank.name ≡ A.name }
    requires parts { blank.parts ≡ A.parts }
    requires some { 0 < blank.parts }
{
    let mut made = Steps::<A>::new(blank);
    let pixel = rect_of(rt, [0, 0, 1, 1]);
    let tree: Tree<B> = root_alone(rt, alloc, 1, "root", pixel, &Style::plain());
    dumped(rt, alloc, &tree, &mut made)
}

#[test]
fn a_group_is_dumped_with_its_item(rt: HostRuntime) {
    let text = with_ledgers::<Brand, Brand>(&rt, rt.alloc(), Blank::new(1));
    assert_eq!(rt;
        text.as_str(),
        "dump 1\ngroup 0 root 128 1 multiply\n\
item 1 root back 0 0 1 1 0 0 1 1 0 0 0 0 000000ff auto 1\n"
    );
}
