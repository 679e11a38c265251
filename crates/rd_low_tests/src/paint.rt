//! Spans that are lent, and a list with groups on a canvas with marked pixels.

ghost use Rattle.std.specs.Prelude.{◌≡◌, ◌<◌, ◌≤◌, ◌∷◌, []};
ghost use Rattle.rd_list.specs.KeptView.{kept_entries};
ghost use Rattle.rd_list.specs.Views.{levels};
ghost use Rattle.rd_paint.specs.Pictures.{size_of};

use rd_area::Area;
use rd_geom::{Blend, Color, NoMemory, Px, Rect, Size, Steps, px_of};
use rd_graph::OrderGraph;
use rd_item::{Item, Leaf, Shape};
use rd_keys::{Key, Part};
use rd_list::{Chunks, Entry, Group, Kept, Level};
use rd_paint::{Buffers, Canvas, paint_span, repaint};
use std::alloc::Global;
use std::marker::Brand;
use std::process::Abort;
use std::sync::ledger::{Blank, Ledger};

// On a canvas of 4 by 2: the pixels 1 1 and 2 1 are lent and made clear, and no other changes.
#[test]
fn a_span_is_written(rt: HostRuntime) {
    let mut canvas = Canvas::new(rt.alloc(), Size { w: 4, h: 2 }).expect(&rt, "a canvas");
    let span = canvas.span_mut(1, 1, 3);
    assert_eq!(rt; span.len(), 2);
    for p in span.iter_mut() {
        *p = Px::CLEAR;
    }
    assert!(rt; canvas.span_mut(0, 4, 4).is_empty());
    let table = [
        (0, 1, Some(Px::WHITE)),
        (1, 1, Some(Px::CLEAR)),
        (2, 1, Some(Px::CLEAR)),
        (3, 1, Some(Px::WHITE)),
        (1, 0, Some(Px::WHITE)),
        (4, 0, None),
        (0, 2, None),
        (-1, 0, None),
    ];
    for (x, y, want) in table {
        assert!(rt; canvas.pixel(x, y) == want);
    }
}

const fn color(r: u8, g: u8, b: u8, a: u8) -> Color {
    Color { r, g, b, a }
}

// A leaf of some columns and four rows.
fn columns<A: Ledger>(
    rt: &impl Abort,
    x: i32,
    w: i32,
    color: Color,
    made: &mut Steps<A>,
) -> Item<A> {
    let outer = Rect::new(x, 0, w, 4).expect(rt, "some columns");
    assert!(rt; !outer.is_empty());
    let shape = Shape {
        outer,
        inner: Rect::EMPTY,
    };
    let leaf = Leaf {
        owner: Key::new(0, 0),
        part: Part::Back,
        visible: outer,
        shape,
        color,
        hits: true,
    };
    Item::make(leaf, 1, made)
}

// The list of these entries.
fn list_of<A: Ledger>(rt: &impl Abort, alloc: Global, entries: Vec<Entry<A>>) -> Kept<A>
    ensures { levels result.entries ≡ levels (kept_entries entries.items) }
{
    let level = Level {
        entries,
        graph: OrderGraph::empty(alloc),
        chunks: Chunks::none(alloc),
    };
    Kept::new(alloc, level).expect(rt, "a level")
}

fn faded<A: Ledger>(rt: &impl Abort, alloc: Global, opacity: u8, entries: Vec<Entry<A>>) -> Group<A>
    ensures { levels result.inner.entries ≡ levels (kept_entries entries.items) }
{
    Group {
        key: Key::new(0, 0),
        opacity,
        blend: Blend::Normal,
        inner: list_of(rt, alloc, entries),
    }
}

// A group of opacity 128 with one entry.
fn half<A: Ledger>(rt: &impl Abort, alloc: Global, entry: Entry<A>) -> Group<A>
    ensures { levels result.inner.entries ≡ levels (kept_entries (entry ∷ [])) }
{
    let mut entries = Vec::new(alloc);
    match entries.push(entry) {
        Ok(()) => faded(rt, alloc, 128, entries),
        Err(_) => panic!(rt; "no room for an entry"),
    }
}

// The entry comes last, or there is no memory for it.
fn push<A: Ledger>(list: &mut Vec<Entry<A>>, entry: Entry<A>) -> Result<(), NoMemory>
    requires list { levels (kept_entries list.old.items) ≤ 3 }
    requires entry { levels (kept_entries (entry ∷ [])) ≤ 3 }
    ensures { levels (kept_entries list.new.items) ≤ 3 }
{
    list.push(entry)?;
    Ok(())
}

// The entry comes last.
fn put<A: Ledger>(rt: &impl Abort, list: &mut Vec<Entry<A>>, entry: Entry<A>)
    requires list { levels (kept_entries list.old.items) ≤ 3 }
    requires entry { levels (kept_entries (entry ∷ [])) ≤ 3 }
    ensures { levels (kept_entries list.new.items) ≤ 3 }
{
    push(list, entry).expect(rt, "room for an entry");
}

// On column 1 red in a group of opacity 128, and on column 2 the same in one more such group.
fn put_red<A: Ledger>(rt: &impl Abort, alloc: Global, list: &mut Vec<Entry<A>>, made: &mut Steps<A>)
    requires { levels (kept_entries list.old.items) ≤ 3 }
    ensures { levels (kept_entries list.new.items) ≤ 3 }
{
    let one = columns(rt, 1, 1, color(255, 0, 0, 255), made);
    let one = half(rt, alloc, Entry::Leaf(one));
    put(rt, list, Entry::Group(one));
    let two = columns(rt, 2, 1, color(255, 0, 0, 255), made);
    let two = half(rt, alloc, Entry::Leaf(two));
    let two = half(rt, alloc, Entry::Group(two));
    put(rt, list, Entry::Group(two));
}

// On one column orange in a group of a blend mode.
fn put_orange<A: Ledger>(
    rt: &impl Abort,
    alloc: Global,
    list: &mut Vec<Entry<A>>,
    column: i32,
    blend: Blend,
    made: &mut Steps<A>,
)
    requires { levels (kept_entries list.old.items) ≤ 3 }
    ensures { levels (kept_entries list.new.items) ≤ 3 }
{
    let leaf = columns(rt, column, 1, color(192, 128, 64, 255), made);
    let mut group = half(rt, alloc, Entry::Leaf(leaf));
    group.opacity = 255;
    group.blend = blend;
    put(rt, list, Entry::Group(group));
}

// On a white root of six columns those of `put_red`, and on column 4 green of opacity 128. Orange screens white on column 3, and
// multiplies the green.
fn scene<A: Ledger>(rt: &impl Abort, alloc: Global, made: &mut Steps<A>) -> Kept<A>
    ensures { levels result.entries ≤ 3 }
{
    let mut entries = Vec::new(alloc);
    let root = columns(rt, 0, 6, color(255, 255, 255, 255), made);
    put(rt, &mut entries, Entry::Leaf(root));
    put_red(rt, alloc, &mut entries, made);
    let green = columns(rt, 4, 1, color(0, 255, 0, 128), made);
    put(rt, &mut entries, Entry::Leaf(green));
    put_orange(rt, alloc, &mut entries, 3, Blend::Screen, made);
    put_orange(rt, alloc, &mut entries, 4, Blend::Multiply, made);
    list_of(rt, alloc, entries)
}

const SIZE: Size = Size { w: 6, h: 4 };

// A pixel of these channels on white is opaque.
fn opaque(r: u8, g: u8, b: u8) -> Option<Px> {
    Some(px_of(color(r, g, b, 255)))
}

// Makes room for so many entries, if a number is given.
fn room_for(buffers: &mut Buffers, entries: Option<usize>) -> Result<(), NoMemory>
    ensures { buffers.new ≡ buffers.old }
{
    match entries {
        Some(entries) => buffers.make_room(entries),
        None => Ok(()),
    }
}

// A clear canvas.
fn cleared(rt: &impl Abort, alloc: Global) -> Canvas
    ensures { size_of result ≡ SIZE }
{
    let mut canvas = Canvas::new(alloc, SIZE).expect(rt, "a canvas");
    for row in 0..4usize {
        for p in canvas.span_mut(row as i32, 0, 6).iter_mut() {
            *p = Px::CLEAR;
        }
    }
    canvas
}

// Columns 0 to 4 of rows 1 and 2.
fn area(rt: &impl Abort, alloc: Global) -> Area
    ensures { result.size ≡ SIZE }
{
    let mut area = Area::none(alloc, SIZE).expect(rt, "an area");
    area.add(Rect::new(0, 1, 5, 2).unwrap_or(Rect::EMPTY))
        .expect(rt, "a larger area");
    area
}

// Buffers with room for so many entries, or with none.
fn buffers_for(rt: &impl Abort, alloc: Global, entries: Option<usize>) -> Buffers
    ensures size { result.size ≡ SIZE }
    ensures rows { result.rows ≡ 2 }
{
    let mut buffers = Buffers::new(alloc, SIZE, 2).expect(rt, "buffers");
    room_for(&mut buffers, entries).expect(rt, "room for entries");
    buffers
}

// Paints columns 0 to 4 of rows 1 and 2 of a clear canvas, with room for so many entries, or with none.
fn painted<A: Ledger>(
    rt: &impl Abort,
    alloc: Global,
    list: &Kept<A>,
    entries: Option<usize>,
) -> Canvas
    requires { levels list.now.entries ≤ 3 }
{
    let mut canvas = cleared(rt, alloc);
    let area = area(rt, alloc);
    let mut buffers = buffers_for(rt, alloc, entries);
    repaint(&mut canvas, list.view(), &area, &mut buffers);
    canvas
}

// The pixels at y = 2 by hand; the others of the canvas stay clear.
fn is_right(canvas: &Canvas) -> bool {
    let table = [
        (0, 2, opaque(255, 255, 255)),
        (1, 2, opaque(255, 127, 127)),
        (2, 2, opaque(255, 191, 191)),
        (3, 2, opaque(255, 255, 255)),
        (4, 2, opaque(96, 128, 32)),
        (4, 1, opaque(96, 128, 32)),
        (5, 2, Some(Px::CLEAR)),
        (1, 0, Some(Px::CLEAR)),
        (1, 3, Some(Px::CLEAR)),
    ];
    let mut right = true;
    for (x, y, want) in table {
        right = right && canvas.pixel(x, y) == want;
    }
    right
}

// With no room for picks, and with room for those of all its entries.
fn are_right<A: Ledger>(rt: &impl Abort, alloc: Global, list: &Kept<A>)
    requires { levels list.now.entries ≤ 3 }
{
    for entries in [None, Some(11)] {
        let canvas = painted(rt, alloc, list, entries);
        assert!(rt; is_right(&canvas));
    }
}

// The scene is painted right.
fn is_painted<A: Ledger>(rt: &impl Abort, alloc: Global, blank: Blank)
    requires name { blank.name ≡ A.name }
    requires parts { blank.parts ≡ A.parts }
    requires some { 0 < blank.parts }
{
    let mut made = Steps::<A>::new(blank);
    let list = scene(rt, alloc, &mut made);
    are_right(rt, alloc, &list);
}

#[test]
fn groups_are_painted(rt: HostRuntime) {
    is_painted::<Brand>(&rt, rt.alloc(), Blank::new(1));
}
