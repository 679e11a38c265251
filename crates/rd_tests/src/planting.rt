//! Trees that tests plant, box by box. What cannot be done ends the test, so that no function has a refusal to hand on.
ghost use Rattle.std.specs.Prelude.{◌≡◌, true};
ghost use Rattle.rd_tree.specs.Document.{contains};

use rd_geom::{Rect, Size};
use rd_style::{Style, fits, fits_rect};
use rd_tree::{BoxKey, Id, MAX_BOXES, MAX_DEPTH, Tree};
use std::alloc::Global;
use std::process::Abort;
use std::sync::ledger::Ledger;

/// A box below another one.
#[derive(Clone, Copy)]
pub(super) struct Row<'a> {
    pub(super) id: &'a str,
    pub(super) parent: &'a str,
    pub(super) rect: [i32; 4],
    pub(super) style: Style,
}

/// The rectangle of this corner and this size.
pub(super) fn rect_of(rt: &impl Abort, r: [i32; 4]) -> Rect {
    Rect::new(r[0], r[1], r[2], r[3]).expect(rt, "a rectangle")
}

/// The id of this text.
pub(super) fn id_of(rt: &impl Abort, alloc: Global, text: &str) -> Id {
    Id::new(alloc, text).expect(rt, "an id")
}

/// A root alone, on a square canvas.
pub(super) fn root_alone<B: Ledger>(
    rt: &impl Abort,
    alloc: Global,
    side: i32,
    id: &str,
    rect: Rect,
    style: &Style,
) -> Tree<B> {
    assert!(rt; 1 <= side && side <= 4096);
    assert!(rt; fits_rect(rect));
    assert!(rt; fits(style));
    let id = id_of(rt, alloc, id);
    Tree::new(alloc, Size { w: side, h: side }, id, rect, *style).expect(rt, "a tree")
}

/// The box with this id.
pub(super) fn box_of<B: Ledger>(rt: &impl Abort, tree: &Tree<B>, id: &Id) -> BoxKey
    ensures { contains tree.now result ≡ true }
{
    tree.find(id).expect(rt, "a box of this id")
}

/// A box with this id comes last below another.
pub(super) fn put<B: Ledger>(
    rt: &impl Abort,
    tree: &mut Tree<B>,
    parent: &Id,
    id: &Id,
    rect: Rect,
    style: &Style,
) -> BoxKey {
    assert!(rt; fits_rect(rect));
    assert!(rt; fits(style));
    assert!(rt; tree.find(id).is_none());
    assert!(rt; u64::from(tree.boxes()) + u64::from(tree.retired()) < u64::from(MAX_BOXES));
    let parent = box_of(rt, tree, parent);
    assert!(rt; u64::from(tree.depth(parent)) < u64::from(MAX_DEPTH));
    tree.insert(parent, None, id, rect, *style)
        .expect(rt, "a box")
}

/// The box comes last below its parent.
pub(super) fn add<B: Ledger>(rt: &impl Abort, alloc: Global, tree: &mut Tree<B>, row: &Row) {
    let parent = id_of(rt, alloc, row.parent);
    let id = id_of(rt, alloc, row.id);
    put(rt, tree, &parent, &id, rect_of(rt, row.rect), &row.style);
}
