//! The plain program on small documents, of which every pixel and hit was worked out by hand.
ghost use Rattle.std.specs.Prelude.{◌≡◌, ◌<◌};

use super::planting::{Row, add, id_of, rect_of, root_alone};
use rd_geom::{Blend, Color, Sides, Steps};
use rd_keys::Part;
use rd_list::{PlainList, plain_hit, plain_pixel};
use rd_stack::{
    BoxPath, Visit, fresh_list, is_atom, is_blended_layer, is_context, is_float, is_in_line,
    is_layer, is_local, leaf_at, look_at, under,
};
use rd_style::{Display, Floating, Overflow, Pointer, Position, Style, Visibility};
use rd_tree::{BoxKey, Tree};
use std::alloc::Global;
use std::marker::Brand;
use std::process::Abort;
use std::sync::ledger::{Blank, Ledger};

/// A document, how many entries its list has outside groups, some pixels of it and some hits.
#[derive(Clone, Copy)]
struct Case<'a> {
    name: &'a str,
    side: i32,
    rows: &'a [Row<'a>],
    entries: usize,
    pixels: &'a [(i32, i32, [u8; 3])],
    hits: &'a [(i32, i32, &'a str)],
}

const RED: Color = Color {
    r: 255,
    g: 0,
    b: 0,
    a: 255,
};

const GREEN: Color = Color {
    r: 0,
    g: 255,
    b: 0,
    a: 255,
};

const BLUE: Color = Color {
    r: 0,
    g: 0,
    b: 255,
    a: 255,
};

const WHITE: Color = Color {
    r: 255,
    g: 255,
    b: 255,
    a: 255,
};

const BLACK: Color = Color {
    r: 0,
    g: 0,
    b: 0,
    a: 255,
};

fn of_color(color: Color) -> Style {
    let mut s = Style::plain();
    s.background = color;
    s
}

fn at_position(color: Color, position: Position, z: Option<i32>) -> Style {
    let mut s = of_color(color);
    s.position = position;
    s.z = z;
    s
}

fn translucent(color: Color, opacity: u8) -> Style {
    let mut s = of_color(color);
    s.opacity = opacity;
    s
}

/// The first row is the root.
fn planted<B: Ledger>(rt: &impl Abort, alloc: Global, side: i32, rows: &[Row]) -> Tree<B> {
    let (first, rest) = rows.split_first().expect(rt, "a root");
    let rect = rect_of(rt, first.rect);
    let mut tree = root_alone(rt, alloc, side, first.id, rect, &first.style);
    for row in rest {
        add(rt, alloc, &mut tree, row);
    }
    tree
}

/// Is it the box of this id, or none where the id is empty?
fn is_box<B: Ledger>(tree: &Tree<B>, found: Option<BoxKey>, id: &str) -> bool {
    let Some(key) = found else {
        return id.is_empty();
    };
    match tree.id(key) {
        Some(there) => there.text() == id,
        None => false,
    }
}

/// The list has the pixels of the document.
fn have_pixels(rt: &impl Abort, list: &PlainList, case: &Case) {
    for (x, y, want) in case.pixels {
        let px = plain_pixel(list, *x, *y);
        assert_eq!(rt; [px.r(), px.g(), px.b()], *want, "pixel of {}", case.name);
    }
}

/// The list has the hits of the document.
fn have_hits<B: Ledger>(rt: &impl Abort, tree: &Tree<B>, list: &PlainList, case: &Case) {
    for (x, y, want) in case.hits {
        let hit = plain_hit(list, *x, *y);
        assert!(rt; is_box(tree, hit, want), "hit of {}", case.name);
    }
}

/// The list of the document has its entries, its pixels and its hits.
fn check<B: Ledger>(rt: &impl Abort, alloc: Global, case: &Case, looks: &mut Steps<B>) {
    let tree: Tree<B> = planted(rt, alloc, case.side, case.rows);
    let list = fresh_list(alloc, &tree, looks).expect(rt, "a list");
    assert_eq!(rt;
        list.entries.len(),
        case.entries,
        "entries of {}",
        case.name
    );
    have_pixels(rt, &list, case);
    have_hits(rt, &tree, &list, case);
}

fn white(side: i32) -> Row<'static> {
    Row {
        id: "root",
        parent: "",
        rect: [0, 0, side, side],
        style: of_color(WHITE),
    }
}

fn a_box<'a>(id: &'a str, parent: &'a str, rect: [i32; 4], style: Style) -> Row<'a> {
    Row {
        id,
        parent,
        rect,
        style,
    }
}

/// A translucent box alone, one in another, one whose children lie apart, and the root.
fn groups<B: Ledger>(rt: &impl Abort, alloc: Global, looks: &mut Steps<B>) {
    let alone = Case {
        name: "a translucent box",
        side: 1,
        rows: &[
            white(1),
            a_box("g", "root", [0, 0, 1, 1], translucent(RED, 128)),
        ],
        entries: 2,
        pixels: &[(0, 0, [255, 127, 127])],
        hits: &[(0, 0, "g")],
    };
    check(rt, alloc, &alone, looks);
    let nested = Case {
        name: "a group in a group",
        side: 1,
        rows: &[
            white(1),
            a_box("h", "root", [0, 0, 0, 0], translucent(BLACK, 128)),
            a_box("g", "h", [0, 0, 1, 1], translucent(RED, 128)),
        ],
        entries: 2,
        pixels: &[(0, 0, [255, 191, 191])],
        hits: &[(0, 0, "g"), (1, 1, "")],
    };
    check(rt, alloc, &nested, looks);
    let apart = Case {
        name: "a group of boxes that lie apart",
        side: 10,
        rows: &[
            white(10),
            a_box("G", "root", [0, 0, 0, 0], translucent(BLACK, 128)),
            a_box("c1", "G", [0, 0, 2, 2], of_color(RED)),
            a_box("K", "root", [4, 0, 2, 2], of_color(GREEN)),
            a_box("c2", "G", [8, 0, 2, 2], of_color(RED)),
        ],
        entries: 3,
        pixels: &[
            (0, 0, [255, 127, 127]),
            (3, 0, [255, 255, 255]),
            (4, 0, [0, 255, 0]),
            (8, 0, [255, 127, 127]),
        ],
        hits: &[(1, 1, "c1"), (4, 0, "K"), (8, 0, "c2"), (8, 2, "root")],
    };
    check(rt, alloc, &apart, looks);
    let root = Case {
        name: "a translucent root",
        side: 1,
        rows: &[a_box("root", "", [0, 0, 1, 1], translucent(BLACK, 128))],
        entries: 1,
        pixels: &[(0, 0, [127, 127, 127])],
        hits: &[(0, 0, "root")],
    };
    check(rt, alloc, &root, looks);
}

/// A float lies above a block's border and under its content; its positioned child lies above both.
fn floats<B: Ledger>(rt: &impl Abort, alloc: Global, looks: &mut Steps<B>) {
    let mut float = of_color(RED);
    float.float = Floating::Left;
    let mut bordered = of_color(BLUE);
    bordered.border_width = Sides {
        top: 1,
        right: 1,
        bottom: 1,
        left: 1,
    };
    bordered.content = Some(GREEN);
    let beside = Case {
        name: "a float before a block",
        side: 10,
        rows: &[
            white(10),
            a_box("f", "root", [0, 0, 4, 4], float),
            a_box("d", "root", [0, 0, 4, 4], bordered),
        ],
        entries: 5,
        pixels: &[(0, 0, [255, 0, 0]), (1, 1, [0, 255, 0])],
        hits: &[(0, 0, "f"), (1, 1, "d")],
    };
    check(rt, alloc, &beside, looks);
    let mut text = Style::plain();
    text.content = Some(GREEN);
    let inside = Case {
        name: "a positioned child of a float",
        side: 10,
        rows: &[
            white(10),
            a_box("f", "root", [0, 0, 4, 4], float),
            a_box(
                "m",
                "f",
                [0, 0, 4, 4],
                at_position(BLUE, Position::Relative, None),
            ),
            a_box("t", "root", [0, 0, 4, 4], text),
        ],
        entries: 5,
        pixels: &[(1, 1, [0, 0, 255])],
        hits: &[(1, 1, "m"), (5, 5, "root")],
    };
    check(rt, alloc, &inside, looks);
}

/// The children of negative level lie above the background of a block, and below that of an inline box.
fn contexts<B: Ledger>(rt: &impl Abort, alloc: Global, looks: &mut Steps<B>) {
    let block = at_position(RED, Position::Relative, Some(0));
    let mut inline = block;
    inline.display = Display::Inline;
    let below = at_position(BLUE, Position::Relative, Some(-1));
    for (style, want) in [(inline, [255, 0, 0]), (block, [0, 0, 255])] {
        let case = Case {
            name: "a child of negative level",
            side: 10,
            rows: &[
                white(10),
                a_box("i", "root", [0, 0, 4, 4], style),
                a_box("n", "i", [0, 0, 4, 4], below),
            ],
            entries: 3,
            pixels: &[(1, 1, want)],
            hits: &[],
        };
        check(rt, alloc, &case, looks);
    }
    let highest = at_position(RED, Position::Relative, Some(2147483647));
    let zero = at_position(GREEN, Position::Relative, Some(0));
    let auto = at_position(BLUE, Position::Relative, None);
    let lowest = at_position(BLACK, Position::Relative, Some(-2147483648));
    let levels = Case {
        name: "four levels",
        side: 10,
        rows: &[
            white(10),
            a_box("p", "root", [0, 0, 2, 2], highest),
            a_box("q", "root", [0, 0, 3, 3], zero),
            a_box("r", "root", [0, 0, 4, 4], auto),
            a_box("s", "root", [0, 0, 5, 5], lowest),
        ],
        entries: 5,
        pixels: &[
            (4, 4, [0, 0, 0]),
            (3, 3, [0, 0, 255]),
            (2, 2, [0, 0, 255]),
            (1, 1, [255, 0, 0]),
        ],
        hits: &[(4, 4, "s"), (2, 2, "r"), (0, 0, "p")],
    };
    check(rt, alloc, &levels, looks);
}

/// An absolute or fixed box is clipped only by boxes on its containing chain.
fn clips<B: Ledger>(rt: &impl Abort, alloc: Global, looks: &mut Steps<B>) {
    let mut hidden = of_color(RED);
    hidden.overflow = Overflow::Hidden;
    let mut relative = hidden;
    relative.position = Position::Relative;
    let absolute = at_position(BLUE, Position::Absolute, None);
    let fixed = at_position(BLUE, Position::Fixed, None);
    for (outer, inner, want) in [
        (hidden, absolute, [0, 0, 255]),
        (relative, absolute, [255, 255, 255]),
        (relative, fixed, [0, 0, 255]),
    ] {
        let case = Case {
            name: "a box in a clipping one",
            side: 10,
            rows: &[
                white(10),
                a_box("q", "root", [0, 0, 4, 4], outer),
                a_box("a", "q", [2, 2, 6, 6], inner),
            ],
            entries: 3,
            pixels: &[(6, 6, want), (1, 1, [255, 0, 0]), (3, 3, [0, 0, 255])],
            hits: &[],
        };
        check(rt, alloc, &case, looks);
    }
}

/// A hidden box has no leaves, and a box without pointer events takes no hit.
fn unseen<B: Ledger>(rt: &impl Abort, alloc: Global, looks: &mut Steps<B>) {
    let mut passed = Style::plain();
    passed.pointer = Pointer::Off;
    let hits = Case {
        name: "pointer events",
        side: 10,
        rows: &[
            white(10),
            a_box("u", "root", [0, 0, 4, 4], of_color(RED)),
            a_box("o", "root", [0, 0, 4, 4], passed),
            a_box("v", "root", [5, 5, 2, 2], Style::plain()),
        ],
        entries: 4,
        pixels: &[(1, 1, [255, 0, 0]), (5, 5, [255, 255, 255])],
        hits: &[(1, 1, "u"), (5, 5, "v"), (10, 0, ""), (-1, 0, "")],
    };
    check(rt, alloc, &hits, looks);
    let mut hidden = of_color(RED);
    hidden.visibility = Visibility::Hidden;
    let case = Case {
        name: "a hidden box",
        side: 10,
        rows: &[
            white(10),
            a_box("H", "root", [0, 0, 4, 4], hidden),
            a_box("k", "H", [1, 1, 2, 2], of_color(GREEN)),
        ],
        entries: 2,
        pixels: &[(0, 0, [255, 255, 255]), (1, 1, [0, 255, 0])],
        hits: &[(0, 0, "root"), (1, 1, "k")],
    };
    check(rt, alloc, &case, looks);
}

/// A box of the tree with those above it.
fn path_to<B: Ledger>(
    rt: &impl Abort,
    alloc: Global,
    tree: &Tree<B>,
    above: Option<&BoxPath>,
    id: &str,
    looks: &mut Steps<B>,
) -> BoxPath {
    let key = tree.find(&id_of(rt, alloc, id)).expect(rt, "a box");
    let Visit {
        here,
        first_child: _,
        next_sibling: _,
    } = look_at(tree, key, looks).expect(rt, "a visit");
    match above {
        Some(parent) => BoxPath {
            above: under(alloc, &parent.here, &parent.above).expect(rt, "boxes above"),
            here,
        },
        None => BoxPath {
            above: Vec::new(alloc),
            here,
        },
    }
}

/// A float in a layer has text and an atomic inline in a line; a blended layer stands in it too.
fn classes<B: Ledger>(rt: &impl Abort, alloc: Global, looks: &mut Steps<B>) {
    let mut floating = of_color(GREEN);
    floating.float = Floating::Left;
    let mut inline = of_color(BLUE);
    inline.display = Display::Inline;
    let mut atomic = of_color(BLACK);
    atomic.display = Display::InlineBlock;
    let mut blended = at_position(RED, Position::Relative, Some(1));
    blended.blend = Blend::Multiply;
    let tree: Tree<B> = planted(
        rt,
        alloc,
        10,
        &[
            white(10),
            a_box(
                "layer",
                "root",
                [0, 0, 9, 9],
                at_position(RED, Position::Relative, Some(0)),
            ),
            a_box("float", "layer", [1, 1, 8, 8], floating),
            a_box("text", "float", [2, 2, 4, 4], inline),
            a_box("atom", "text", [3, 3, 2, 2], atomic),
            a_box("blended", "layer", [7, 7, 2, 2], blended),
        ],
    );
    let root = path_to(rt, alloc, &tree, None, "root", looks);
    let layer = path_to(rt, alloc, &tree, Some(&root), "layer", looks);
    let float = path_to(rt, alloc, &tree, Some(&layer), "float", looks);
    let text = path_to(rt, alloc, &tree, Some(&float), "text", looks);
    let atom = path_to(rt, alloc, &tree, Some(&text), "atom", looks);
    let mixed = path_to(rt, alloc, &tree, Some(&layer), "blended", looks);
    assert!(rt; is_context(&root) && is_context(&layer) && !is_context(&float));
    assert!(rt; is_float(&float) && !is_float(&text) && is_atom(&atom) && !is_atom(&text));
    assert!(rt; is_layer(&root, &layer) && !is_layer(&layer, &float));
    assert!(rt; is_blended_layer(&layer, &mixed) && !is_blended_layer(&root, &layer));
    assert!(rt; is_local(&layer, &float) && !is_local(&layer, &text) && is_local(&float, &atom));
    assert!(rt; is_in_line(&float, &float, &atom) && is_in_line(&float, &text, &atom));
    assert!(rt; !is_in_line(&layer, &layer, &atom));
    let canvas = rect_of(rt, [0, 0, 10, 10]);
    let leaf = leaf_at(&canvas, &atom, Part::Back).expect(rt, "a leaf");
    assert!(rt; leaf.visible == rect_of(rt, [3, 3, 2, 2]) && leaf.color == BLACK);
    assert!(rt; leaf_at(&canvas, &atom, Part::Border).is_none());
}

fn all_scenes<B: Ledger>(rt: &impl Abort, alloc: Global, blank: Blank)
    requires name { blank.name ≡ B.name }
    requires parts { blank.parts ≡ B.parts }
    requires some { 0 < blank.parts }
{
    let mut looks = Steps::<B>::new(blank);
    groups(rt, alloc, &mut looks);
    floats(rt, alloc, &mut looks);
    contexts(rt, alloc, &mut looks);
    clips(rt, alloc, &mut looks);
    unseen(rt, alloc, &mut looks);
    classes(rt, alloc, &mut looks);
}

#[test]
fn scenes(rt: HostRuntime) {
    all_scenes::<Brand>(&rt, rt.alloc(), Blank::new(1));
}
