//! The leaves over a pixel of a small document, each with its way, worked out by hand.
ghost use Rattle.std.specs.Prelude.{◌≡◌, ◌<◌};

use super::last::read_text;
use rd_geom::Steps;
use rd_run::last_tree;
use rd_trace::{Reason, Traced, hit_of, reason_of, takes_hit, traced};
use rd_tree::{BoxKey, Tree};
use std::alloc::Global;
use std::marker::Brand;
use std::process::Abort;
use std::sync::ledger::{Blank, Ledger};

/// A page with a float, a block that has content, and two layers.
const PAGE: &str = r##"{"version":2,"canvas":{"w":20,"h":20},"boxes":[
{"id":"page","parent":null,"rect":[0,0,20,20],"style":{"background":"#808080"}},
{"id":"side","parent":"page","rect":[2,2,8,8],"style":{"background":"#808080","float":"left"}},
{"id":"text","parent":"page","rect":[2,2,8,8],"style":{"background":"#808080","content":"#808080"}},
{"id":"badge","parent":"page","rect":[2,2,8,8],"style":{"background":"#808080","position":"relative","z-index":3}},
{"id":"below","parent":"page","rect":[2,2,8,8],"style":{"background":"#808080","position":"relative","z-index":2}}],
"script":[]}"##;

/// A leaf over the pixel: its box, and the step of the box that paints it, and of the one that this box comes in.
#[derive(Clone, Copy)]
struct Told<'a> {
    id: &'a str,
    inner: u8,
    outer: u8,
}

fn one_told(id: &str, inner: u8, outer: u8) -> Told<'_> {
    Told { id, inner, outer }
}

/// Is it the box of this id?
fn is_box<B: Ledger>(tree: &Tree<B>, key: BoxKey, id: &str) -> bool {
    match tree.id(key) {
        Some(there) => there.text() == id,
        None => false,
    }
}

/// The numbers of the innermost and of the outermost step of a way.
fn ends_of(rt: &impl Abort, t: &Traced) -> (u8, u8) {
    let first = t.way.first().expect(rt, "a place");
    let last = t.way.last().expect(rt, "a place");
    (first.step.number(), last.step.number())
}

/// Each leaf is as it is told, from bottom to top.
fn are_told<B: Ledger>(rt: &impl Abort, tree: &Tree<B>, leaves: &[Traced], want: &[Told]) {
    assert_eq!(rt; leaves.len(), want.len());
    for (i, told) in want.iter().enumerate() {
        let t = leaves.get(i).expect(rt, "a leaf");
        assert!(rt; is_box(tree, t.leaf.owner, told.id), "the box {}", told.id);
        assert_eq!(rt;
            ends_of(rt, t),
            (told.inner, told.outer),
            "steps of {}",
            told.id
        );
        assert!(rt; takes_hit(t), "the hit of {}", told.id);
    }
}

/// The topmost leaf is that of the box which is hit, and it is above the next by its level.
fn badge_is_hit<B: Ledger>(rt: &impl Abort, alloc: Global, tree: &Tree<B>, leaves: &[Traced]) {
    let hit = hit_of(leaves).expect(rt, "a hit");
    assert!(rt; is_box(tree, hit, "badge"));
    let top = leaves.first().expect(rt, "a leaf");
    let next = leaves.get(1).expect(rt, "a leaf");
    let reason = reason_of(alloc, top, next).expect(rt, "a reason");
    assert!(rt; matches!(reason, Reason::Levels { .. }));
}

fn a_pixel<A: Ledger, B: Ledger>(rt: &impl Abort, alloc: Global, items: Blank, boxes: Blank)
    requires items_name { items.name ≡ A.name }
    requires items_parts { items.parts ≡ A.parts }
    requires items_some { 0 < items.parts }
    requires boxes_name { boxes.name ≡ B.name }
    requires boxes_parts { boxes.parts ≡ B.parts }
    requires boxes_some { 0 < boxes.parts }
{
    let mut made = Steps::<A>::new(items);
    let mut looks = Steps::<B>::new(boxes);
    let read = read_text(rt, alloc, PAGE);
    assert!(rt; read.is_ok());
    if let Ok(script) = read {
        let tree = last_tree(alloc, &script, &mut made, &mut looks).expect(rt, "a tree");
        let mut leaves = traced(alloc, &tree, 5, 5, &mut looks).expect(rt, "leaves");
        let want = [
            one_told("page", 1, 1),
            one_told("text", 4, 4),
            one_told("side", 2, 5),
            one_told("text", 7, 7),
            one_told("below", 2, 9),
            one_told("badge", 2, 9),
        ];
        are_told(rt, &tree, &leaves, &want);
        leaves.reverse();
        badge_is_hit(rt, alloc, &tree, &leaves);
    }
}

#[test]
fn leaves_with_their_ways(rt: HostRuntime) {
    a_pixel::<Brand, Brand>(&rt, rt.alloc(), Blank::new(1), Blank::new(1));
}
