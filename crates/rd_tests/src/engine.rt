//! An engine without memory: what an insertion or a paint that is refused leaves, and what the next one does. A small scene that is
//! painted, edited and painted again, worked out by hand.
ghost use Rattle.std.specs.Prelude.{◌≡◌, ◌<◌};

use super::planting::{id_of, rect_of};
use rd_edits::Edit;
use rd_engine::{Engine, PaintNote};
use rd_geom::{Color, NoMemory, Px, Rect, Size, Steps};
use rd_item::Item;
use rd_list::Entry;
use rd_style::{Style, StyleChange, fits, fits_rect};
use rd_tree::{Id, Tree};
use std::alloc::Global;
use std::marker::Brand;
use std::process::Abort;
use std::sync::ledger::{Blank, Ledger};

const WHITE: Color = Color {
    r: 255,
    g: 255,
    b: 255,
    a: 255,
};

const RED: Color = Color {
    r: 255,
    g: 0,
    b: 0,
    a: 255,
};

const GREEN: Color = Color {
    r: 0,
    g: 255,
    b: 0,
    a: 255,
};

const BLUE: Color = Color {
    r: 0,
    g: 0,
    b: 255,
    a: 255,
};

/// What an engine shows: its list, its canvas and how its root looks as numbers that change with them, and the rest as it is.
#[derive(Clone, Copy, PartialEq, Eq, Debug)]
struct Shown {
    list: u64,
    canvas: u64,
    root: u64,
    paints: u64,
    pending: bool,
}

/// A number that changes with another one, and with what came before it.
fn mixed(sum: u64, more: u64) -> u64 {
    sum.wrapping_mul(1_099_511_628_211)
        .wrapping_add(more)
        .wrapping_add(1)
}

fn with_rect(sum: u64, r: Rect) -> u64 {
    let corner = mixed(
        mixed(sum, u64::from(r.x().unsigned_abs())),
        u64::from(r.y().unsigned_abs()),
    );
    mixed(
        mixed(corner, u64::from(r.w().unsigned_abs())),
        u64::from(r.h().unsigned_abs()),
    )
}

fn with_item<A: Ledger>(sum: u64, item: &Item<A>) -> u64 {
    let owner = item.owner();
    let named = mixed(
        mixed(sum, u64::from(owner.slot())),
        u64::from(owner.generation()),
    );
    let color = item.color();
    let coloured = mixed(mixed(named, u64::from(color.r)), u64::from(color.b));
    with_rect(mixed(coloured, item.made_at()), item.visible())
}

/// With an entry of a group, in which there is no other group.
fn with_inner<A: Ledger>(sum: u64, entry: &Entry<A>) -> u64 {
    match entry {
        Entry::Leaf(item) => with_item(sum, item),
        Entry::Group(_) => mixed(sum, 0),
    }
}

fn with_all_inner<A: Ledger>(sum: u64, entries: &[Entry<A>]) -> u64 {
    let mut sum = mixed(sum, entries.len() as u64);
    for entry in entries {
        sum = with_inner(sum, entry);
    }
    sum
}

fn with_entry<A: Ledger>(sum: u64, entry: &Entry<A>) -> u64 {
    match entry {
        Entry::Leaf(item) => with_item(sum, item),
        Entry::Group(group) => with_all_inner(
            mixed(sum, u64::from(group.opacity)),
            group.inner.entries(),
        ),
    }
}

fn of_list<A: Ledger>(entries: &[Entry<A>]) -> u64 {
    let mut sum = 0;
    for entry in entries {
        sum = with_entry(sum, entry);
    }
    sum
}

fn of_pixels(pixels: &[Px]) -> u64 {
    let mut sum = 0;
    for px in pixels {
        let warm = mixed(mixed(sum, u64::from(px.r())), u64::from(px.g()));
        sum = mixed(mixed(warm, u64::from(px.b())), u64::from(px.a()));
    }
    sum
}

fn of_root<B: Ledger>(tree: &Tree<B>, looks: &mut Steps<B>) -> u64 {
    match tree.look(tree.root(), looks) {
        Some(view) => {
            let touched = mixed(u64::from(view.touched), u64::from(view.touched_below));
            with_rect(mixed(touched, u64::from(view.children)), view.hull)
        }
        None => 0,
    }
}

fn shown_by<A: Ledger, B: Ledger>(engine: &Engine<A, B>, looks: &mut Steps<B>) -> Shown {
    Shown {
        list: of_list(engine.view().entries()),
        canvas: of_pixels(engine.canvas().pixels()),
        root: of_root(engine.tree(), looks),
        paints: engine.paints(),
        pending: engine.pending(),
    }
}

fn filled(background: Color, opacity: u8) -> Style {
    Style {
        background,
        opacity,
        ..Style::plain()
    }
}

/// An id, sought once more where there is no memory.
fn id_again(rt: &impl Abort, alloc: Global, text: &str) -> Id {
    match Id::new(alloc, text) {
        Ok(id) => id,
        Err(_) => id_of(rt, alloc, text),
    }
}

/// A white root alone, on a canvas of 10 by 10 pixels.
fn begun_once<A: Ledger, B: Ledger>(
    rt: &impl Abort,
    alloc: Global,
) -> Result<Engine<A, B>, NoMemory> {
    let id = id_again(rt, alloc, "root");
    let rect = rect_of(rt, [0, 0, 10, 10]);
    let style = filled(WHITE, 255);
    assert!(rt; fits_rect(rect));
    assert!(rt; fits(&style));
    let tree = Tree::new(alloc, Size { w: 10, h: 10 }, id, rect, style)?;
    Engine::new(alloc, tree)
}

fn begun<A: Ledger, B: Ledger>(rt: &impl Abort, alloc: Global) -> Engine<A, B> {
    match begun_once(rt, alloc) {
        Ok(engine) => engine,
        Err(_) => begun_once(rt, alloc).expect(rt, "memory for an engine"),
    }
}

/// A red box comes last below another one. Where that is refused nothing changes, and it is done when it is asked again.
fn insert<A: Ledger, B: Ledger>(
    rt: &impl Abort,
    alloc: Global,
    engine: &mut Engine<A, B>,
    looks: &mut Steps<B>,
    names: [&str; 2],
    rect: [i32; 4],
    opacity: u8,
) {
    let edit = Edit::Insert {
        id: id_again(rt, alloc, names[0]),
        parent: id_again(rt, alloc, names[1]),
        before: None,
        rect: rect_of(rt, rect),
        style: filled(RED, opacity),
    };
    let before = shown_by(engine, looks);
    if engine.edit(&edit).is_err() {
        assert!(rt; shown_by(engine, looks) == before);
        assert!(rt; engine.edit(&edit).is_ok());
    }
    assert!(rt; engine.pending());
}

/// A paint. Where it is refused nothing changes, and it is done when it is asked again: its note.
fn painted<A: Ledger, B: Ledger>(
    rt: &impl Abort,
    engine: &mut Engine<A, B>,
    made: &mut Steps<A>,
    looks: &mut Steps<B>,
) -> PaintNote {
    assert!(rt; engine.paints() < u64::MAX);
    let before = shown_by(engine, looks);
    match engine.paint(made, looks) {
        Ok(note) => note,
        Err(_) => {
            assert!(rt; shown_by(engine, looks) == before);
            engine.paint(made, looks).expect(rt, "memory for a paint")
        }
    }
}

fn note_of(number: u64, built: u64, kept: u64, area: u64) -> PaintNote {
    PaintNote {
        number,
        built,
        kept,
        area,
    }
}

/// A box and a group are put in and painted, then a box comes into the group, apart from all else, and is painted; then nothing
/// is left to paint.
fn inserted_and_painted<A: Ledger, B: Ledger>(
    rt: &impl Abort,
    alloc: Global,
    items: Blank,
    boxes: Blank,
)
    requires items_name { items.name ≡ A.name }
    requires items_parts { items.parts ≡ A.parts }
    requires items_some { 0 < items.parts }
    requires boxes_name { boxes.name ≡ B.name }
    requires boxes_parts { boxes.parts ≡ B.parts }
    requires boxes_some { 0 < boxes.parts }
{
    let mut made = Steps::<A>::new(items);
    let mut looks = Steps::<B>::new(boxes);
    let mut engine = begun::<A, B>(rt, alloc);
    insert(
        rt,
        alloc,
        &mut engine,
        &mut looks,
        ["a", "root"],
        [1, 1, 4, 4],
        255,
    );
    insert(
        rt,
        alloc,
        &mut engine,
        &mut looks,
        ["b", "root"],
        [3, 3, 4, 4],
        128,
    );
    let first = painted(rt, &mut engine, &mut made, &mut looks);
    assert!(rt; first == note_of(1, 3, 0, 100));
    insert(
        rt,
        alloc,
        &mut engine,
        &mut looks,
        ["c", "b"],
        [8, 8, 2, 2],
        255,
    );
    let second = painted(rt, &mut engine, &mut made, &mut looks);
    assert!(rt; second == note_of(2, 2, 2, 4));
    let third = painted(rt, &mut engine, &mut made, &mut looks);
    assert!(rt; third == note_of(3, 0, 4, 0));
}

#[test]
fn what_is_refused_changes_nothing(rt: HostRuntime) {
    inserted_and_painted::<Brand, Brand>(&rt, rt.alloc(), Blank::new(1), Blank::new(1));
}

/// A box of one colour comes last below the root.
fn put_box<A: Ledger, B: Ledger>(
    rt: &impl Abort,
    alloc: Global,
    engine: &mut Engine<A, B>,
    id: &str,
    rect: [i32; 4],
    background: Color,
) {
    let edit = Edit::Insert {
        id: id_of(rt, alloc, id),
        parent: id_of(rt, alloc, "root"),
        before: None,
        rect: rect_of(rt, rect),
        style: filled(background, 255),
    };
    assert!(rt; engine.edit(&edit).is_ok());
    assert!(rt; engine.pending());
}

/// A box gets another colour.
fn recolor<A: Ledger, B: Ledger>(
    rt: &impl Abort,
    alloc: Global,
    engine: &mut Engine<A, B>,
    id: &str,
    background: Color,
) {
    let edit = Edit::SetStyle {
        id: id_of(rt, alloc, id),
        change: StyleChange {
            background: Some(background),
            ..StyleChange::none()
        },
    };
    assert!(rt; engine.edit(&edit).is_ok());
    assert!(rt; engine.pending());
}

/// Two boxes that overlap and one apart from them; the lower of the two gets another colour.
fn painted_twice<A: Ledger, B: Ledger>(rt: &impl Abort, alloc: Global, items: Blank, boxes: Blank)
    requires items_name { items.name ≡ A.name }
    requires items_parts { items.parts ≡ A.parts }
    requires items_some { 0 < items.parts }
    requires boxes_name { boxes.name ≡ B.name }
    requires boxes_parts { boxes.parts ≡ B.parts }
    requires boxes_some { 0 < boxes.parts }
{
    let mut made = Steps::<A>::new(items);
    let mut looks = Steps::<B>::new(boxes);
    let mut engine = begun::<A, B>(rt, alloc);
    put_box(rt, alloc, &mut engine, "a", [1, 1, 4, 4], RED);
    put_box(rt, alloc, &mut engine, "b", [3, 3, 4, 4], GREEN);
    put_box(rt, alloc, &mut engine, "c", [8, 8, 2, 2], BLUE);
    assert!(rt; engine.last_area().is_none());
    let first = painted(rt, &mut engine, &mut made, &mut looks);
    assert!(rt; first == note_of(1, 4, 0, 100));
    recolor(rt, alloc, &mut engine, "a", BLUE);
    let second = painted(rt, &mut engine, &mut made, &mut looks);
    assert!(rt; second == note_of(2, 3, 1, 16));
    assert!(rt; !engine.pending());
    assert!(rt; engine.last_area().map_or(0, |area| area.count()) == 16);
    let over = engine.tree().find(&id_of(rt, alloc, "b"));
    assert!(rt; over.is_some() && engine.hit(4, 4) == over && engine.hit(10, 4).is_none());
    assert!(rt; engine.pixel(4, 4) == Some(GREEN) && engine.pixel(2, 2) == Some(BLUE));
    assert!(rt; engine.pixel(0, 0) == Some(WHITE) && engine.pixel(9, 9) == Some(BLUE));
    assert!(rt; engine.pixel(10, 0).is_none() && engine.canvas().pixel(0, -1).is_none());
    assert!(rt; engine.view().leaves() == 4);
}

#[test]
fn a_scene_is_painted_anew_where_it_changed(rt: HostRuntime) {
    painted_twice::<Brand, Brand>(&rt, rt.alloc(), Blank::new(1), Blank::new(1));
}

/// An engine whose paints nobody counts.
#[test]
fn a_paint_needs_no_ledger(rt: HostRuntime) {
    let alloc = rt.alloc();
    let mut engine = begun::<Brand, Brand>(&rt, alloc);
    put_box(&rt, alloc, &mut engine, "a", [1, 1, 4, 4], RED);
    assert!(rt; engine.paints() < u64::MAX);
    let note = engine.paint(&mut Steps::idle(), &mut Steps::idle());
    assert!(rt; note.is_ok_and(|note| note == note_of(1, 2, 0, 100)));
    assert!(rt; engine.pixel(2, 2) == Some(RED));
}
