//! Blocks over the chunks of a level of 330 leaves: the first eight chunks have one, the rest none.
ghost use Rattle.std.specs.Prelude.{◌≡◌, ◌<◌, []};
ghost use Rattle.rd_list.specs.Chunks.{AreCovered};

use rd_geom::{Color, Rect, Steps};
use rd_graph::OrderGraph;
use rd_item::{Item, Leaf, Shape};
use rd_keys::{Key, Part};
use rd_list::{Chunks, Entry, FIRST_BLOCK, FIRST_CHUNK, Kept, Level, renew_chunks, replace_entry};
use std::alloc::Global;
use std::marker::Brand;
use std::process::Abort;
use std::sync::ledger::{Blank, Ledger};

const LEAVES: i32 = 330;

// A leaf of one pixel in a row.
fn leaf_at<A: Ledger>(rt: &impl Abort, row: i32, made: &mut Steps<A>) -> Item<A> {
    let outer = Rect::new(0, row, 1, 1).expect(rt, "a pixel");
    assert!(rt; !outer.is_empty());
    let shape = Shape {
        outer,
        inner: Rect::EMPTY,
    };
    let leaf = Leaf {
        owner: Key::new(0, 0),
        part: Part::Back,
        visible: outer,
        shape,
        color: Color {
            r: 0,
            g: 0,
            b: 0,
            a: 255,
        },
        hits: true,
    };
    Item::make(leaf, 1, made)
}

// Leaves one below the other.
fn column<A: Ledger>(rt: &impl Abort, alloc: Global, made: &mut Steps<A>) -> Vec<Entry<A>> {
    let mut entries = Vec::new(alloc);
    for row in 0..LEAVES {
        let item = leaf_at(rt, row, made);
        entries
            .push(Entry::Leaf(item))
            .expect(rt, "room for an entry");
    }
    entries
}

// Room for so many chunks and blocks.
fn room(rt: &impl Abort, alloc: Global, chunks: usize, blocks: usize) -> Chunks
    ensures chunks { result.chunks.items ≡ [] }
    ensures blocks { result.blocks.items ≡ [] }
{
    Chunks {
        chunks: Vec::with_capacity(alloc, chunks).expect(rt, "room for chunks"),
        blocks: Vec::with_capacity(alloc, blocks).expect(rt, "room for blocks"),
    }
}

// Nothing is said any more of the chunk of a place, nor of its block.
fn opened<A: Ledger>(mut chunks: Chunks, entries: &[Entry<A>], place: usize) -> Chunks
    requires { AreCovered chunks entries.now }
    ensures { AreCovered result entries.now }
{
    replace_entry::<A>(&mut chunks, FIRST_BLOCK, place, None);
    chunks
}

// How many chunks there are, how many of them are open, and the same of blocks.
fn counted(chunks: &Chunks) -> (usize, usize, usize, usize) {
    let open = chunks.chunks.iter().filter(|c| c.is_open).count();
    let open_blocks = chunks.blocks.iter().filter(|b| b.is_open).count();
    (chunks.chunks.len(), open, chunks.blocks.len(), open_blocks)
}

// The first block of a list is of the first 256 leaves.
fn is_block<A: Ledger>(list: &Kept<A>) -> bool {
    let level = list.blocked();
    match level.block_at(FIRST_CHUNK) {
        None => false,
        Some(block) => {
            block.count == 256
                && block.told.leaves == 256
                && Rect::new(0, 0, 1, 256) == Some(block.told.hull)
        }
    }
}

// Ten chunks of 32 leaves and one of ten. One chunk is opened, and with it the block, and both are told anew without room.
fn renewed<A: Ledger>(rt: &impl Abort, alloc: Global, entries: &[Entry<A>]) -> Chunks
    ensures { AreCovered result entries.now }
{
    let chunks = renew_chunks(room(rt, alloc, 20, 2), entries, Chunks::none(alloc));
    assert!(rt; counted(&chunks) == (11, 0, 1, 0));
    let chunks = opened(chunks, entries, 40);
    assert!(rt; counted(&chunks) == (11, 1, 1, 1));
    let chunks = renew_chunks(Chunks::none(alloc), entries, chunks);
    assert!(rt; counted(&chunks) == (11, 0, 1, 0));
    chunks
}

// The list of leaves has such a block.
fn has_block<A: Ledger>(rt: &impl Abort, alloc: Global, entries: Vec<Entry<A>>) {
    let chunks = renewed(rt, alloc, &entries);
    let level = Level {
        entries,
        graph: OrderGraph::empty(alloc),
        chunks,
    };
    let list = Kept::new(alloc, level).expect(rt, "a level");
    assert!(rt; is_block(&list));
}

fn are_told<A: Ledger>(rt: &impl Abort, alloc: Global, blank: Blank)
    requires name { blank.name ≡ A.name }
    requires parts { blank.parts ≡ A.parts }
    requires some { 0 < blank.parts }
{
    let mut made = Steps::<A>::new(blank);
    let entries = column(rt, alloc, &mut made);
    has_block(rt, alloc, entries);
}

#[test]
fn a_block_tells_of_eight_chunks(rt: HostRuntime) {
    are_told::<Brand>(&rt, rt.alloc(), Blank::new(1));
}
