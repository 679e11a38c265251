//! What no clause says: that each edit can be done, and which number each refusal has.

use super::planting::{id_of, rect_of, root_alone};
use rd_edits::{Edit, apply};
use rd_geom::Rect;
use rd_style::{Style, StyleChange};
use rd_tree::{Id, Tree};
use std::alloc::Global;
use std::marker::Brand;
use std::process::Abort;
use std::sync::ledger::Ledger;

/// The number of the refusal, or 0.
fn number<B: Ledger>(tree: &mut Tree<B>, edit: &Edit) -> u8 {
    match apply(tree, edit) {
        Ok(()) => 0,
        Err(fault) => fault.number(),
    }
}

/// The root alone, on a canvas of 10 by 10.
fn planted<B: Ledger>(rt: &impl Abort, alloc: Global) -> Tree<B> {
    let rect = rect_of(rt, [0, 0, 10, 10]);
    root_alone(rt, alloc, 10, "root", rect, &Style::plain())
}

/// A rectangle within the limits.
fn near(rt: &impl Abort) -> Rect {
    rect_of(rt, [7, 7, 2, 2])
}

/// A rectangle that is wider than the limits.
fn wide(rt: &impl Abort) -> Rect {
    rect_of(rt, [0, 0, 1_000_001, 1])
}

/// The box before which another one comes, if one is named.
fn before_of(rt: &impl Abort, alloc: Global, before: Option<&str>) -> Option<Id> {
    match before {
        Some(before) => Some(id_of(rt, alloc, before)),
        None => None,
    }
}

/// A new box of a plain style.
fn insertion(
    rt: &impl Abort,
    alloc: Global,
    id: &str,
    parent: &str,
    before: Option<&str>,
    rect: Rect,
) -> Edit {
    Edit::Insert {
        id: id_of(rt, alloc, id),
        parent: id_of(rt, alloc, parent),
        before: before_of(rt, alloc, before),
        rect,
        style: Style::plain(),
    }
}

/// A box goes.
fn removal(rt: &impl Abort, alloc: Global, id: &str) -> Edit {
    Edit::Remove {
        id: id_of(rt, alloc, id),
    }
}

/// A box goes below another one.
fn movement(rt: &impl Abort, alloc: Global, id: &str, parent: &str, before: Option<&str>) -> Edit {
    Edit::Move {
        id: id_of(rt, alloc, id),
        parent: id_of(rt, alloc, parent),
        before: before_of(rt, alloc, before),
    }
}

/// A box gets another rectangle.
fn placement(rt: &impl Abort, alloc: Global, id: &str, rect: Rect) -> Edit {
    Edit::SetRect {
        id: id_of(rt, alloc, id),
        rect,
    }
}

/// A change that names the outline's width.
fn outlined(width: u16) -> StyleChange {
    StyleChange {
        position: None,
        z: None,
        opacity: None,
        overflow: None,
        display: None,
        float: None,
        background: None,
        border_width: None,
        border_color: None,
        content: None,
        outline_width: Some(width),
        outline_color: None,
        visibility: None,
        pointer: None,
        blend: None,
        isolation: None,
    }
}

/// A box gets another width of its outline.
fn restyling(rt: &impl Abort, alloc: Global, id: &str, width: u16) -> Edit {
    Edit::SetStyle {
        id: id_of(rt, alloc, id),
        change: outlined(width),
    }
}

/// A box is shifted to the right.
fn shifting(rt: &impl Abort, alloc: Global, id: &str, dx: i32) -> Edit {
    Edit::Shift {
        id: id_of(rt, alloc, id),
        dx,
        dy: 0,
    }
}

/// What a box clips is scrolled.
fn scrolling(rt: &impl Abort, alloc: Global, id: &str, x: i32, y: i32) -> Edit {
    Edit::Scroll {
        id: id_of(rt, alloc, id),
        x,
        y,
    }
}

/// An edit is refused with this number, or done where it is 0.
fn gives<B: Ledger>(rt: &impl Abort, tree: &mut Tree<B>, edit: Edit, want: u8, id: &str) {
    let given = number(tree, &edit);
    assert_eq!(rt; given, want, "{id}");
}

/// A box, its parent, the box before which it comes, if any, and the number of the refusal.
type Place = (&'static str, &'static str, Option<&'static str>, u8);

/// An insertion of a box of this rectangle gives this number.
fn inserts<B: Ledger>(
    rt: &impl Abort,
    alloc: Global,
    tree: &mut Tree<B>,
    place: &Place,
    rect: Rect,
) {
    let (id, parent, before, want) = place;
    let edit = insertion(rt, alloc, id, parent, *before, rect);
    gives(rt, tree, edit, *want, id);
}

/// Insertions, one after another, give these numbers.
fn insert_each<B: Ledger>(rt: &impl Abort, alloc: Global, tree: &mut Tree<B>, places: &[Place]) {
    let rect = near(rt);
    for place in places {
        inserts(rt, alloc, tree, place, rect);
    }
}

/// A removal gives this number.
fn removes<B: Ledger>(rt: &impl Abort, alloc: Global, tree: &mut Tree<B>, id: &str, want: u8) {
    let edit = removal(rt, alloc, id);
    gives(rt, tree, edit, want, id);
}

/// A move gives this number.
fn moves<B: Ledger>(rt: &impl Abort, alloc: Global, tree: &mut Tree<B>, place: &Place) {
    let (id, parent, before, want) = place;
    let edit = movement(rt, alloc, id, parent, *before);
    gives(rt, tree, edit, *want, id);
}

/// Moves, one after another, give these numbers.
fn move_each<B: Ledger>(rt: &impl Abort, alloc: Global, tree: &mut Tree<B>, places: &[Place]) {
    for place in places {
        moves(rt, alloc, tree, place);
    }
}

/// A box, its new rectangle, width and shift, and the number of the refusal of each.
type Change = (&'static str, Rect, u16, i32, u8);

/// A change of the rectangle, one of the style and a shift give this number.
fn changes<B: Ledger>(rt: &impl Abort, alloc: Global, tree: &mut Tree<B>, change: &Change) {
    let (id, rect, width, dx, want) = change;
    let edit = placement(rt, alloc, id, *rect);
    gives(rt, tree, edit, *want, id);
    let edit = restyling(rt, alloc, id, *width);
    gives(rt, tree, edit, *want, id);
    let edit = shifting(rt, alloc, id, *dx);
    gives(rt, tree, edit, *want, id);
}

#[test]
fn boxes_more(rt: HostRuntime) {
    let alloc = rt.alloc();
    let mut tree = planted::<Brand>(&rt, alloc);
    let near = near(&rt);
    let wide = wide(&rt);
    let rows: [(Place, Rect); 10] = [
        (("A", "root", None, 0), near),
        (("B", "root", None, 0), near),
        (("C", "root", Some("B"), 0), near),
        (("X", "Z", Some("Z"), 2), wide),
        (("B", "A", Some("C"), 5), wide),
        (("X", "A", Some("Z"), 5), near),
        (("X", "A", Some("A"), 5), near),
        (("B", "root", None, 6), wide),
        (("X", "A", None, 9), wide),
        (("X", "A", None, 0), near),
    ];
    for (place, rect) in &rows {
        inserts(&rt, alloc, &mut tree, place, *rect);
    }
}

#[test]
fn boxes_fewer(rt: HostRuntime) {
    let alloc = rt.alloc();
    let mut tree = planted::<Brand>(&rt, alloc);
    let there: [Place; 3] = [
        ("A", "root", None, 0),
        ("A1", "A", None, 0),
        ("B", "root", None, 0),
    ];
    insert_each(&rt, alloc, &mut tree, &there);
    for (id, want) in [
        ("Z", 1),
        ("root", 3),
        ("A", 0),
        ("A", 1),
        ("A1", 1),
        ("B", 0),
    ] {
        removes(&rt, alloc, &mut tree, id, want);
    }
    let again: [Place; 3] = [
        ("B", "A", None, 2),
        ("A1", "root", None, 0),
        ("A", "A1", None, 0),
    ];
    insert_each(&rt, alloc, &mut tree, &again);
}

#[test]
fn boxes_elsewhere(rt: HostRuntime) {
    let alloc = rt.alloc();
    let mut tree = planted::<Brand>(&rt, alloc);
    let there: [Place; 4] = [
        ("A", "root", None, 0),
        ("A1", "A", None, 0),
        ("B", "root", None, 0),
        ("C", "root", None, 0),
    ];
    insert_each(&rt, alloc, &mut tree, &there);
    let places: [Place; 19] = [
        ("Z", "Y", None, 1),
        ("Z", "root", Some("Y"), 1),
        ("A", "Z", Some("Y"), 2),
        ("root", "Z", None, 2),
        ("root", "A", Some("Z"), 3),
        ("A", "A", Some("Z"), 4),
        ("A", "A1", None, 4),
        ("A", "root", Some("Z"), 5),
        ("A", "root", Some("A1"), 5),
        ("A", "root", Some("A"), 5),
        ("A", "B", Some("C"), 5),
        ("A", "root", None, 0),
        ("C", "root", Some("B"), 0),
        ("A", "B", None, 0),
        ("C", "B", Some("A"), 0),
        ("C", "root", Some("A"), 5),
        ("B", "A1", None, 4),
        ("A1", "root", Some("B"), 0),
        ("B", "A1", None, 0),
    ];
    move_each(&rt, alloc, &mut tree, &places);
}

#[test]
fn boxes_changed(rt: HostRuntime) {
    let alloc = rt.alloc();
    let mut tree = planted::<Brand>(&rt, alloc);
    let near = near(&rt);
    let wide = wide(&rt);
    inserts(&rt, alloc, &mut tree, &("C", "root", None, 0), near);
    let rows: [Change; 4] = [
        ("Z", near, 1, 0, 1),
        ("Z", wide, 1001, 2_000_000, 1),
        ("C", wide, 1001, 999_994, 9),
        ("C", near, 1000, 999_993, 0),
    ];
    for change in &rows {
        changes(&rt, alloc, &mut tree, change);
    }
}

/// A box, its scroll offset, and the number of the refusal.
type Scrolled = (&'static str, i32, i32, u8);

/// A scroll offset gives this number.
fn scrolls<B: Ledger>(rt: &impl Abort, alloc: Global, tree: &mut Tree<B>, scrolled: &Scrolled) {
    let (id, x, y, want) = scrolled;
    let edit = scrolling(rt, alloc, id, *x, *y);
    gives(rt, tree, edit, *want, id);
}

#[test]
fn boxes_scrolled(rt: HostRuntime) {
    let alloc = rt.alloc();
    let mut tree = planted::<Brand>(&rt, alloc);
    let near = near(&rt);
    inserts(&rt, alloc, &mut tree, &("C", "root", None, 0), near);
    let rows: [Scrolled; 6] = [
        ("Z", 1_000_001, 0, 1),
        ("C", 1_000_001, 0, 9),
        ("C", 0, -1_000_001, 9),
        ("C", -1_000_000, 1_000_000, 0),
        ("root", 3, -3, 0),
        ("C", 0, 0, 0),
    ];
    for scrolled in &rows {
        scrolls(&rt, alloc, &mut tree, scrolled);
    }
}

/// The id of the box of this number.
fn numbered(rt: &impl Abort, alloc: Global, number: u32) -> String {
    if number == 1 {
        return String::from_str(alloc, "root").expect(rt, "a text");
    }
    let text = format!(in alloc; "d{number}");
    text.expect(rt, "a text")
}

/// A box of this number comes last below that of another, or is refused with this number.
fn grow<B: Ledger>(
    rt: &impl Abort,
    alloc: Global,
    tree: &mut Tree<B>,
    parent: u32,
    number: u32,
    want: u8,
) {
    let rect = rect_of(rt, [0, 0, 1, 1]);
    let parent = numbered(rt, alloc, parent);
    let id = numbered(rt, alloc, number);
    let edit = insertion(rt, alloc, id.as_str(), parent.as_str(), None, rect);
    gives(rt, tree, edit, want, id.as_str());
}

/// So many boxes: each below the one before it, or all below the root.
fn grown<B: Ledger>(rt: &impl Abort, alloc: Global, boxes: u32, deep: bool) -> Tree<B> {
    let mut tree = planted::<B>(rt, alloc);
    for last in 1..boxes {
        let parent = if deep { last } else { 1 };
        grow(rt, alloc, &mut tree, parent, last + 1, 0);
    }
    tree
}

#[test]
fn levels_and_boxes(rt: HostRuntime) {
    let alloc = rt.alloc();
    let mut deep = grown::<Brand>(&rt, alloc, 256, true);
    grow(&rt, alloc, &mut deep, 256, 257, 7);
    let mut flat = grown::<Brand>(&rt, alloc, 20_000, false);
    grow(&rt, alloc, &mut flat, 1, 20_001, 8);
}

#[test]
fn levels_that_move(rt: HostRuntime) {
    let alloc = rt.alloc();
    let mut tree = grown::<Brand>(&rt, alloc, 256, true);
    let there: [Place; 2] = [("p", "root", None, 0), ("q", "p", None, 0)];
    insert_each(&rt, alloc, &mut tree, &there);
    let places: [Place; 7] = [
        ("p", "d256", None, 7),
        ("p", "d255", Some("p"), 5),
        ("p", "d255", Some("d256"), 7),
        ("p", "d254", Some("d255"), 0),
        ("q", "d256", None, 7),
        ("q", "d255", None, 0),
        ("p", "d255", Some("q"), 0),
    ];
    move_each(&rt, alloc, &mut tree, &places);
}
