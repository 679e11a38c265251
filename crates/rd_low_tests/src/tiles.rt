//! Tiles of a canvas of 100 by 100 pixels: which are painted, and from which entry on.

ghost use Rattle.std.specs.Prelude.{◌≡◌, ◌≤◌, ◌<◌};
ghost use Rattle.rd_list.specs.KeptView.{kept_entries};
ghost use Rattle.rd_list.specs.Views.{levels};

use rd_area::Area;
use rd_geom::{Color, NoMemory, Px, Rect, Size, Steps, px_of};
use rd_graph::OrderGraph;
use rd_item::{Item, Leaf, Shape};
use rd_keys::{Key, Part};
use rd_list::{Chunks, Entry, Kept, Level};
use rd_paint::{Buffers, Canvas};
use rd_tiles::{TileCanvas, cover};
use std::alloc::Global;
use std::marker::Brand;
use std::process::Abort;
use std::sync::ledger::{Blank, Ledger};

const SIZE: Size = Size { w: 100, h: 100 };

const WHITE: Color = Color {
    r: 255,
    g: 255,
    b: 255,
    a: 255,
};

const RED: Color = Color {
    r: 255,
    g: 0,
    b: 0,
    a: 255,
};

const BLUE: Color = Color {
    r: 0,
    g: 0,
    b: 255,
    a: 255,
};

fn green(a: u8) -> Color {
    Color {
        r: 0,
        g: 255,
        b: 0,
        a,
    }
}

fn square(rt: &impl Abort, side: i32) -> Rect {
    Rect::new(0, 0, side, side).expect(rt, "a square")
}

// A full leaf in the upper left corner.
fn leaf<A: Ledger>(rt: &impl Abort, side: i32, color: Color, made: &mut Steps<A>) -> Item<A> {
    let outer = square(rt, side);
    assert!(rt; !outer.is_empty());
    let shape = Shape {
        outer,
        inner: Rect::EMPTY,
    };
    let leaf = Leaf {
        owner: Key::new(0, 0),
        part: Part::Back,
        visible: outer,
        shape,
        color,
        hits: true,
    };
    Item::make(leaf, 1, made)
}

// The entry comes last, or there is no memory for it.
fn push<A: Ledger>(list: &mut Vec<Entry<A>>, item: Item<A>) -> Result<(), NoMemory>
    requires { levels (kept_entries list.old.items) ≤ 1 }
    ensures { levels (kept_entries list.new.items) ≤ 1 }
{
    list.push(Entry::Leaf(item))?;
    Ok(())
}

// Leaves of these sides and colours, from bottom to top.
fn list_of<A: Ledger>(
    rt: &impl Abort,
    alloc: Global,
    leaves: &[(i32, Color)],
    made: &mut Steps<A>,
) -> Kept<A>
    ensures { levels result.entries ≤ 1 }
{
    let mut entries = Vec::new(alloc);
    for (side, color) in leaves {
        let item = leaf(rt, *side, *color, made);
        push(&mut entries, item).expect(rt, "room for an entry");
    }
    let level = Level {
        entries,
        graph: OrderGraph::empty(alloc),
        chunks: Chunks::none(alloc),
    };
    Kept::new(alloc, level).expect(rt, "a level")
}

// The square of so many pixels in the upper left corner.
fn area(rt: &impl Abort, alloc: Global, side: i32) -> Area
    ensures { result.size ≡ SIZE }
{
    let mut area = Area::none(alloc, SIZE).expect(rt, "an area");
    area.add(square(rt, side)).expect(rt, "a larger area");
    area
}

// Repaints the square of so many pixels of a white canvas with a square of ten pixels in it; how many tiles that are.
fn repainted<A: Ledger>(
    rt: &impl Abort,
    alloc: Global,
    tiles: &mut TileCanvas,
    ink: Color,
    side: i32,
    number: u64,
    made: &mut Steps<A>,
) -> u32
    requires { tiles.old.size ≡ SIZE }
    ensures { tiles.new.size ≡ SIZE }
{
    let mut buffers = Buffers::new(alloc, SIZE, 0).expect(rt, "buffers");
    let list = list_of(rt, alloc, &[(100, WHITE), (10, ink)], made);
    let some = area(rt, alloc, side);
    tiles.repaint_tiles(list.view(), &some, &mut buffers, number)
}

// Paints a red square and then a blue one in its place.
fn painted_twice<A: Ledger>(rt: &impl Abort, alloc: Global, made: &mut Steps<A>) -> TileCanvas
    ensures { result.size ≡ SIZE }
{
    let mut tiles = TileCanvas::new(alloc, SIZE).expect(rt, "tiles");
    let all = repainted(rt, alloc, &mut tiles, RED, 100, 1, made);
    assert!(rt; all == 4);
    let some = repainted(rt, alloc, &mut tiles, BLUE, 10, 2, made);
    assert!(rt; some == 1);
    tiles
}

fn are_right(tiles: &TileCanvas) -> bool {
    let stamps = [
        (0, 0, Some(2)),
        (1, 0, Some(1)),
        (0, 1, Some(1)),
        (1, 1, Some(1)),
        (2, 0, None),
        (0, 2, None),
    ];
    let mut right = tiles.columns() == 2 && tiles.rows() == 2;
    for (column, row, want) in stamps {
        right = right && tiles.stamp(column, row) == want;
    }
    right && tiles.tile(1, 1) == Rect::new(64, 64, 36, 36) && tiles.tile(2, 1).is_none()
}

// The canvas gets the pixels of the tiles.
fn is_copied(rt: &impl Abort, alloc: Global, tiles: &TileCanvas) -> bool
    requires { tiles.now.size ≡ SIZE }
{
    let mut canvas = Canvas::new(alloc, SIZE).expect(rt, "a canvas");
    tiles.copy_to(&mut canvas);
    let table = [
        (0, 0, Some(px_of(BLUE))),
        (9, 9, Some(px_of(BLUE))),
        (10, 9, Some(Px::WHITE)),
        (99, 99, Some(Px::WHITE)),
        (100, 0, None),
        (0, -1, None),
    ];
    let mut right = true;
    for (x, y, want) in table {
        right = right && tiles.pixel(x, y) == want && canvas.pixel(x, y) == want;
    }
    right && tiles.pixels(1, 0).map_or(0, |pixels| pixels.len()) == 36 * 64
}

fn tiles_repainted<A: Ledger>(rt: &impl Abort, alloc: Global, items: Blank)
    requires name { items.name ≡ A.name }
    requires parts { items.parts ≡ A.parts }
    requires some { 0 < items.parts }
{
    let mut made = Steps::<A>::new(items);
    let tiles = painted_twice(rt, alloc, &mut made);
    assert!(rt; are_right(&tiles));
    assert!(rt; is_copied(rt, alloc, &tiles));
}

#[test]
fn tiles_are_repainted(rt: HostRuntime) {
    tiles_repainted::<Brand>(&rt, rt.alloc(), Blank::new(1));
}

// The cover of a tile where 64 pixels across and down in a colour lie on white, and 5 in red on them.
fn cover_of<A: Ledger>(
    rt: &impl Abort,
    alloc: Global,
    tile: Rect,
    middle: Color,
    made: &mut Steps<A>,
) -> usize {
    let list = list_of(rt, alloc, &[(100, WHITE), (64, middle), (5, RED)], made);
    cover(list.view(), tile)
}

fn covers<A: Ledger>(rt: &impl Abort, alloc: Global, items: Blank)
    requires name { items.name ≡ A.name }
    requires parts { items.parts ≡ A.parts }
    requires some { 0 < items.parts }
{
    let mut made = Steps::<A>::new(items);
    let left = square(rt, 64);
    let right = Rect::new(64, 0, 36, 64).expect(rt, "a tile");
    assert!(rt; cover_of(rt, alloc, left, green(255), &mut made) == 1);
    assert!(rt; cover_of(rt, alloc, right, green(255), &mut made) == 0);
    assert!(rt; cover_of(rt, alloc, left, green(128), &mut made) == 0);
    assert!(rt; cover_of(rt, alloc, right, green(128), &mut made) == 0);
}

#[test]
fn an_opaque_leaf_covers_a_tile(rt: HostRuntime) {
    covers::<Brand>(&rt, rt.alloc(), Blank::new(1));
}
