//! What no clause says of undos: that each can be done, and that boxes come back where they stood.
ghost use Rattle.std.specs.Prelude.{◌≡◌, ◌<◌};

use super::planting::{id_of, rect_of, root_alone};
use rd_edits::{Edit, apply, verdict};
use rd_geom::Steps;
use rd_style::Style;
use rd_tree::{BoxKey, Tree};
use rd_undo::{Step, Undo};
use std::alloc::Global;
use std::marker::Brand;
use std::process::Abort;
use std::sync::ledger::{Blank, Ledger};

/// The root alone, on a canvas of 10 by 10.
fn planted<B: Ledger>(rt: &impl Abort, alloc: Global) -> Tree<B> {
    let rect = rect_of(rt, [0, 0, 10, 10]);
    root_alone(rt, alloc, 10, "root", rect, &Style::plain())
}

/// A new box of a plain style, last among its siblings.
fn insertion(rt: &impl Abort, alloc: Global, id: &str, parent: &str, x: i32) -> Edit {
    Edit::Insert {
        id: id_of(rt, alloc, id),
        parent: id_of(rt, alloc, parent),
        before: None,
        rect: rect_of(rt, [x, 0, 1, 1]),
        style: Style::plain(),
    }
}

/// Does an edit, and keeps what undoes it.
fn does<B: Ledger>(
    rt: &impl Abort,
    alloc: Global,
    tree: &mut Tree<B>,
    undo: &mut Undo,
    edit: &Edit,
    looks: &mut Steps<B>,
) {
    assert!(rt; verdict(tree, edit).is_none());
    let step = Step::prepare(alloc, tree, edit, looks).expect(rt, "a step");
    apply(tree, edit).expect(rt, "an edit");
    let _ = undo.push(step);
}

/// Takes the newest step back. How many edits that took.
fn undoes<B: Ledger>(rt: &impl Abort, tree: &mut Tree<B>, undo: &mut Undo) -> usize {
    let Some(step) = undo.pop() else {
        return 0;
    };
    for edit in step.edits() {
        apply(tree, edit).expect(rt, "an edit");
    }
    step.edits().len()
}

fn key_of<B: Ledger>(rt: &impl Abort, alloc: Global, tree: &Tree<B>, id: &str) -> BoxKey {
    let id = id_of(rt, alloc, id);
    tree.find(&id).expect(rt, "a box of this id")
}

/// The box is there, with this left edge, and the next sibling is this one.
fn stands<B: Ledger>(
    rt: &impl Abort,
    alloc: Global,
    tree: &Tree<B>,
    id: &str,
    x: i32,
    next: &str,
    looks: &mut Steps<B>,
) {
    let key = key_of(rt, alloc, tree, id);
    let Some(view) = tree.look(key, looks) else {
        assert!(rt; false);
        return;
    };
    assert_eq!(rt; view.rect.x(), x);
    match view.next_sibling {
        Some(sibling) => assert!(rt; sibling.is(key_of(rt, alloc, tree, next))),
        None => assert_eq!(rt; next, ""),
    }
}

/// The box is scrolled so far to the right.
fn scrolls<B: Ledger>(
    rt: &impl Abort,
    alloc: Global,
    tree: &Tree<B>,
    id: &str,
    x: i32,
    looks: &mut Steps<B>,
) {
    let key = key_of(rt, alloc, tree, id);
    let Some(view) = tree.look(key, looks) else {
        assert!(rt; false);
        return;
    };
    assert_eq!(rt; view.scroll.x, x);
}

fn all<B: Ledger>(rt: &impl Abort, alloc: Global, blank: Blank)
    requires name { blank.name ≡ B.name }
    requires parts { blank.parts ≡ B.parts }
    requires some { 0 < blank.parts }
{
    let mut looks = Steps::<B>::new(blank);
    let mut tree = planted::<B>(rt, alloc);
    let mut undo = Undo::new(alloc, 8).expect(rt, "an undo");
    for (id, parent, x) in [
        ("a", "root", 1),
        ("b", "root", 2),
        ("a1", "a", 3),
        ("a2", "a", 4),
        ("a11", "a1", 5),
    ] {
        does(
            rt,
            alloc,
            &mut tree,
            &mut undo,
            &insertion(rt, alloc, id, parent, x),
            &mut looks,
        );
    }
    let shift = Edit::Shift {
        id: id_of(rt, alloc, "a"),
        dx: 7,
        dy: 0,
    };
    does(rt, alloc, &mut tree, &mut undo, &shift, &mut looks);
    let scroll = Edit::Scroll {
        id: id_of(rt, alloc, "a1"),
        x: 3,
        y: -2,
    };
    does(rt, alloc, &mut tree, &mut undo, &scroll, &mut looks);
    let gone = Edit::Remove {
        id: id_of(rt, alloc, "a"),
    };
    does(rt, alloc, &mut tree, &mut undo, &gone, &mut looks);
    assert_eq!(rt; tree.boxes(), 2);
    assert_eq!(rt; undoes(rt, &mut tree, &mut undo), 5);
    stands(rt, alloc, &tree, "a", 8, "b", &mut looks);
    stands(rt, alloc, &tree, "a1", 10, "a2", &mut looks);
    stands(rt, alloc, &tree, "a11", 12, "", &mut looks);
    scrolls(rt, alloc, &tree, "a1", 3, &mut looks);
    assert_eq!(rt; undoes(rt, &mut tree, &mut undo), 1);
    scrolls(rt, alloc, &tree, "a1", 0, &mut looks);
    assert_eq!(rt; undoes(rt, &mut tree, &mut undo), 1);
    stands(rt, alloc, &tree, "a2", 4, "", &mut looks);
    for _ in 0..5 {
        assert_eq!(rt; undoes(rt, &mut tree, &mut undo), 1);
    }
    assert_eq!(rt; tree.boxes(), 1);
    assert_eq!(rt; undoes(rt, &mut tree, &mut undo), 0);
}

#[test]
fn boxes_come_back(rt: HostRuntime) {
    all::<Brand>(&rt, rt.alloc(), Blank::new(1));
}
