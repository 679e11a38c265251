//! A small tree, whose boxes and marks were worked out by hand.
ghost use Rattle.std.specs.Prelude.{◌≡◌, ◌<◌};

use super::planting::{box_of, id_of, put, rect_of, root_alone};
use rd_geom::Steps;
use rd_keys::KeyRange;
use rd_style::{Style, fits_rect};
use rd_tree::{BoxKey, BoxView, Id, IdFault, MAX_DEPTH, Tree};
use std::alloc::Global;
use std::marker::Brand;
use std::process::Abort;
use std::sync::ledger::{Blank, Ledger};

/// The text is an id.
fn is_id(rt: &impl Abort, alloc: Global, text: &str) {
    let id = id_of(rt, alloc, text);
    assert_eq!(rt; id.text(), text);
}

/// The text is refused for its form.
fn is_off_form(rt: &impl Abort, alloc: Global, text: &str) {
    let made = Id::new(alloc, text);
    assert!(rt;
        matches!(&made, Err(IdFault::Form)),
        "this is an id: {text}"
    );
}

#[test]
fn the_form_of_ids(rt: HostRuntime) {
    for text in [
        "a",
        "A-b_c.9:z",
        "0123456789012345678901234567890123456789012345678901234567890123",
    ] {
        is_id(&rt, rt.alloc(), text);
    }
    for text in [
        "",
        "a b",
        "é",
        "a/b",
        "01234567890123456789012345678901234567890123456789012345678901234",
    ] {
        is_off_form(&rt, rt.alloc(), text);
    }
}

/// The ids of the boxes.
#[derive(Drop)]
struct Names {
    top: Id,
    a: Id,
    b: Id,
    c: Id,
}

/// The ids of a root and three boxes.
fn ids(rt: &impl Abort, alloc: Global) -> Names {
    Names {
        top: id_of(rt, alloc, "root"),
        a: id_of(rt, alloc, "A"),
        b: id_of(rt, alloc, "B"),
        c: id_of(rt, alloc, "C"),
    }
}

/// The root alone, on a canvas of 10 by 10.
fn planted<B: Ledger>(rt: &impl Abort, alloc: Global) -> Tree<B> {
    let rect = rect_of(rt, [0, 0, 10, 10]);
    root_alone(rt, alloc, 10, "root", rect, &Style::plain())
}

/// A box as large as the root comes last below another.
fn put_plain<B: Ledger>(rt: &impl Abort, tree: &mut Tree<B>, parent: &Id, id: &Id) -> BoxKey {
    let rect = rect_of(rt, [0, 0, 10, 10]);
    put(rt, tree, parent, id, rect, &Style::plain())
}

/// A box comes below the root, and is touched.
fn insert_one<B: Ledger>(rt: &impl Abort, tree: &mut Tree<B>, names: &Names) -> BoxKey {
    assert!(rt; tree.find(&names.a).is_none());
    let key = put_plain(rt, tree, &names.top, &names.a);
    assert_eq!(rt; tree.find(&names.a), Some(key));
    assert_eq!(rt; tree.boxes(), 2);
    assert_eq!(rt; tree.retired(), 0);
    assert!(rt; tree.touched(key));
    key
}

/// What a look at the box gives.
fn look_at<'a, B: Ledger>(
    rt: &impl Abort,
    tree: &'a Tree<B>,
    looks: &mut Steps<B>,
    key: BoxKey,
) -> BoxView<'a> {
    match tree.look(key, looks) {
        Some(view) => view,
        None => panic!(rt; "the box is gone"),
    }
}

/// The marks are cleared, and the root has the box as its first child.
fn settle_two<B: Ledger>(rt: &impl Abort, tree: &mut Tree<B>, looks: &mut Steps<B>, key: BoxKey) {
    let root = tree.root();
    tree.settle();
    assert!(rt; !tree.touched(key));
    assert!(rt; !tree.touched(root));
    let view = look_at(rt, tree, looks, root);
    assert!(rt; view.is_root);
    assert!(rt; view.first_child == Some(key));
}

/// The box with this id goes, with all below it.
fn take<B: Ledger>(rt: &impl Abort, tree: &mut Tree<B>, id: &Id) {
    let key = box_of(rt, tree, id);
    assert!(rt; !key.is(tree.root()));
    tree.remove(key);
}

/// A box goes to the last place below another.
fn move_last<B: Ledger>(rt: &impl Abort, tree: &mut Tree<B>, id: &Id, parent: &Id) {
    let key = box_of(rt, tree, id);
    let parent = box_of(rt, tree, parent);
    assert!(rt; !key.is(tree.root()));
    assert!(rt; !tree.inside(parent, key));
    assert!(rt;
        u64::from(tree.depth(parent)) + u64::from(tree.height(key)) <= u64::from(MAX_DEPTH)
    );
    tree.relink(key, parent, None);
}

/// A box goes before a child of another.
fn move_before<B: Ledger>(rt: &impl Abort, tree: &mut Tree<B>, id: &Id, parent: &Id, before: &Id) {
    let key = box_of(rt, tree, id);
    let parent = box_of(rt, tree, parent);
    let before = box_of(rt, tree, before);
    assert!(rt; !key.is(tree.root()));
    assert!(rt; !tree.inside(parent, key));
    assert!(rt;
        u64::from(tree.depth(parent)) + u64::from(tree.height(key)) <= u64::from(MAX_DEPTH)
    );
    assert!(rt; tree.is_child(before, parent));
    assert!(rt; !before.is(key));
    tree.relink(key, parent, Some(before));
}

/// A look at the box tells this first child and this next sibling.
fn shows<B: Ledger>(
    rt: &impl Abort,
    tree: &Tree<B>,
    looks: &mut Steps<B>,
    key: BoxKey,
    first: Option<BoxKey>,
    next: Option<BoxKey>,
) {
    let view = look_at(rt, tree, looks, key);
    assert!(rt; view.first_child == first);
    assert!(rt; view.next_sibling == next);
}

/// The key is not live, and no box has the id.
fn gone<B: Ledger>(rt: &impl Abort, tree: &Tree<B>, looks: &mut Steps<B>, key: BoxKey, id: &Id) {
    assert!(rt; tree.find(id).is_none());
    assert!(rt; tree.touched(key));
    assert!(rt; tree.look(key, looks).is_none());
}

/// The range of the root and A is quiet once the marks are cleared, until A is touched.
fn quiet_two<B: Ledger>(rt: &impl Abort, tree: &mut Tree<B>, names: &Names, key: BoxKey) {
    let keys = KeyRange::one(tree.root()).joined(KeyRange::one(key));
    tree.settle();
    assert!(rt; tree.none_touched(keys));
    lay(rt, tree, &names.a, [0, 0, 10, 10]);
    assert!(rt; !tree.none_touched(keys));
    tree.settle();
    assert!(rt; tree.none_touched(keys));
}

/// Two boxes come below A and go again: their keys are dead then, and stay dead where an id comes back.
fn remove_two<B: Ledger>(rt: &impl Abort, tree: &mut Tree<B>, looks: &mut Steps<B>, names: &Names) {
    let upper = put_plain(rt, tree, &names.a, &names.b);
    let lower = put_plain(rt, tree, &names.b, &names.c);
    tree.settle();
    assert_eq!(rt; tree.boxes(), 4);
    take(rt, tree, &names.b);
    assert_eq!(rt; tree.boxes(), 2);
    gone(rt, tree, looks, upper, &names.b);
    gone(rt, tree, looks, lower, &names.c);
    let again = put_plain(rt, tree, &names.a, &names.b);
    assert!(rt; !again.is(upper));
    assert!(rt; !again.is(lower));
    take(rt, tree, &names.b);
}

/// B comes after A, then before A, and then A below B.
fn move_two<B: Ledger>(rt: &impl Abort, tree: &mut Tree<B>, looks: &mut Steps<B>, names: &Names) {
    let root = box_of(rt, tree, &names.top);
    let first = box_of(rt, tree, &names.a);
    let second = put_plain(rt, tree, &names.top, &names.b);
    shows(rt, tree, looks, root, Some(first), None);
    shows(rt, tree, looks, first, None, Some(second));
    tree.settle();
    move_before(rt, tree, &names.b, &names.top, &names.a);
    shows(rt, tree, looks, root, Some(second), None);
    shows(rt, tree, looks, second, None, Some(first));
    shows(rt, tree, looks, first, None, None);
    assert!(rt; tree.touched(second));
    assert!(rt; !tree.touched(first));
    move_last(rt, tree, &names.a, &names.b);
    shows(rt, tree, looks, root, Some(second), None);
    shows(rt, tree, looks, second, Some(first), None);
    shows(rt, tree, looks, first, None, None);
}

/// A look at the box tells so many children, this hull, and how many boxes below it were touched.
fn is_near<B: Ledger>(
    rt: &impl Abort,
    tree: &Tree<B>,
    looks: &mut Steps<B>,
    key: BoxKey,
    children: u32,
    hull: [i32; 4],
    touched_below: u32,
) {
    let view = look_at(rt, tree, looks, key);
    assert_eq!(rt; view.children, children);
    assert!(rt; view.hull == rect_of(rt, hull));
    assert_eq!(rt; view.touched_below, touched_below);
}

/// The box with this id gets another rectangle.
fn lay<B: Ledger>(rt: &impl Abort, tree: &mut Tree<B>, id: &Id, rect: [i32; 4]) {
    let key = box_of(rt, tree, id);
    let rect = rect_of(rt, rect);
    assert!(rt; fits_rect(rect));
    tree.place(key, rect);
}

/// From the root over B to A: what looks tell once A is moved, laid elsewhere and removed.
fn near_three<B: Ledger>(rt: &impl Abort, tree: &mut Tree<B>, looks: &mut Steps<B>, names: &Names) {
    let root = box_of(rt, tree, &names.top);
    let upper = box_of(rt, tree, &names.b);
    let lower = box_of(rt, tree, &names.a);
    is_near(rt, tree, looks, root, 1, [0, 0, 10, 10], 2);
    is_near(rt, tree, looks, upper, 1, [0, 0, 10, 10], 1);
    is_near(rt, tree, looks, lower, 0, [0, 0, 10, 10], 0);
    tree.settle();
    is_near(rt, tree, looks, root, 1, [0, 0, 10, 10], 0);
    lay(rt, tree, &names.a, [20, 5, 10, 10]);
    is_near(rt, tree, looks, root, 1, [0, 0, 30, 15], 1);
    is_near(rt, tree, looks, upper, 1, [0, 0, 30, 15], 1);
    is_near(rt, tree, looks, lower, 0, [20, 5, 10, 10], 0);
    lay(rt, tree, &names.a, [12, 5, 2, 2]);
    is_near(rt, tree, looks, root, 1, [0, 0, 14, 10], 1);
    move_last(rt, tree, &names.a, &names.top);
    is_near(rt, tree, looks, root, 2, [0, 0, 14, 10], 1);
    is_near(rt, tree, looks, upper, 0, [0, 0, 10, 10], 0);
    take(rt, tree, &names.a);
    is_near(rt, tree, looks, root, 1, [0, 0, 10, 10], 0);
}

/// One tree, from its planting on.
fn all<B: Ledger>(rt: &impl Abort, alloc: Global, blank: Blank)
    requires name { blank.name ≡ B.name }
    requires parts { blank.parts ≡ B.parts }
    requires some { 0 < blank.parts }
{
    let mut looks = Steps::<B>::new(blank);
    let names = ids(rt, alloc);
    let mut tree = planted(rt, alloc);
    let key = insert_one(rt, &mut tree, &names);
    settle_two(rt, &mut tree, &mut looks, key);
    quiet_two(rt, &mut tree, &names, key);
    remove_two(rt, &mut tree, &mut looks, &names);
    move_two(rt, &mut tree, &mut looks, &names);
    near_three(rt, &mut tree, &mut looks, &names);
}

#[test]
fn a_small_tree(rt: HostRuntime) {
    all::<Brand>(&rt, rt.alloc(), Blank::new(1));
}
