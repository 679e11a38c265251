//! A script that is read, and the tree at its end.
ghost use Rattle.std.specs.Prelude.{◌≡◌, ◌<◌};

use rd_geom::{Rect, Steps};
use rd_io::MemorySource;
use rd_run::{Status, last_tree, number_in, read_input};
use rd_scene::Script;
use rd_stack::{Visit, look_at};
use rd_tree::{Id, Tree};
use std::alloc::Global;
use std::marker::Brand;
use std::process::Abort;
use std::sync::ledger::{Blank, Ledger};

/// Two edits of which the later one is taken back, and an edit that is refused.
const UNDONE: &str = r##"{"version":2,"canvas":{"w":10,"h":10},"boxes":[
{"id":"root","parent":null,"rect":[0,0,10,10],"style":{"background":"#ffffff"}},
{"id":"p","parent":"root","rect":[0,0,4,4],"style":{}},
{"id":"q","parent":"root","rect":[2,2,4,4],"style":{}}],
"script":[{"do":"rect","id":"q","rect":[1,1,3,3]},{"do":"remove","id":"p"},{"do":"paint"},{"do":"undo"},
{"do":"remove","id":"r"},{"do":"dump"}]}"##;

/// The script that a text is.
pub(crate) fn read_text(rt: &impl Abort, alloc: Global, text: &str) -> Result<Script, Status> {
    let bytes = Vec::from_slice(alloc, text.as_bytes()).expect(rt, "bytes");
    let mut source = MemorySource::new(bytes, Vec::new(alloc));
    read_input(alloc, &mut source)
}

/// Where the box of an id is drawn.
fn rect_in<B: Ledger>(
    rt: &impl Abort,
    alloc: Global,
    tree: &Tree<B>,
    id: &str,
    looks: &mut Steps<B>,
) -> Option<Rect> {
    let key = tree.find(&Id::new(alloc, id).expect(rt, "an id"))?;
    let Visit {
        here,
        first_child: _,
        next_sibling: _,
    } = look_at(tree, key, looks)?;
    Some(here.rect())
}

fn edits_and_undos<A: Ledger, B: Ledger>(rt: &impl Abort, alloc: Global, items: Blank, boxes: Blank)
    requires items_name { items.name ≡ A.name }
    requires items_parts { items.parts ≡ A.parts }
    requires items_some { 0 < items.parts }
    requires boxes_name { boxes.name ≡ B.name }
    requires boxes_parts { boxes.parts ≡ B.parts }
    requires boxes_some { 0 < boxes.parts }
{
    let mut made = Steps::<A>::new(items);
    let mut looks = Steps::<B>::new(boxes);
    let read = read_text(rt, alloc, UNDONE);
    assert!(rt; read.is_ok());
    if let Ok(script) = read {
        let tree = last_tree(alloc, &script, &mut made, &mut looks).expect(rt, "a tree");
        assert!(rt; tree.boxes() == 3);
        let p = rect_in(rt, alloc, &tree, "p", &mut looks);
        let q = rect_in(rt, alloc, &tree, "q", &mut looks);
        assert!(rt; p.is_some() && p == Rect::new(0, 0, 4, 4));
        assert!(rt; q.is_some() && q == Rect::new(1, 1, 3, 3));
    }
}

#[test]
fn the_last_tree_is_that_after_edits_and_undos(rt: HostRuntime) {
    edits_and_undos::<Brand, Brand>(&rt, rt.alloc(), Blank::new(1), Blank::new(1));
}

#[test]
fn a_text_that_is_no_script_has_a_status(rt: HostRuntime) {
    let alloc = rt.alloc();
    assert!(rt; matches!(read_text(&rt, alloc, "{"), Err(Status::NotJson)));
    assert!(rt; matches!(read_text(&rt, alloc, "[]"), Err(Status::Form { .. })));
}

#[test]
fn a_number_lies_between_two(rt: HostRuntime) {
    assert!(rt; number_in("7", 1, 7) == Some(7) && number_in("07", 1, 7) == Some(7));
    assert!(rt; number_in("0", 1, 7).is_none() && number_in("8", 1, 7).is_none());
    assert!(rt; number_in("", 0, 7).is_none() && number_in("1x", 0, 100).is_none());
}
