//! What is told of leaves that follow each other: their edges, widened leaf by leaf, and what is told by them once at the end.
ghost use Rattle.std.specs.Prelude.{IfSome, List, ◌≡◌, ◌≤◌, length, take};
ghost use Rattle.rd_list.specs.declared.kept.Entry.{Entry as KeptEntry};
ghost use Rattle.rd_list.specs.declared.kept.Entry.TheVariants as variants;
ghost use Rattle.rd_list.specs.Chunks.{IsTold};
ghost use Rattle.rd_list.specs.Internal.Edged.{AreInside, IsFurther, IsInside, IsSpanned};

use crate::kept::Entry;
use crate::told::{ChunkBounds, NOTHING};
use rd_geom::{MAX_REACH, Rect};
use rd_item::Item;
use rd_keys::KeyRange;
use std::sync::ledger::Ledger;

/// The first column and row in which anything of some leaves may be seen, the first ones past all of it, in canvas pixels, and the range of
/// the names of their boxes; and by which paint the newest of them was made.
#[derive(Clone, Copy)]
pub(crate) struct Edges {
    left: i32,
    top: i32,
    right: i32,
    bottom: i32,
    keys: KeyRange,
    newest: u64,
}

/// The edges of no leaf.
const NOWHERE: Edges = Edges {
    left: MAX_REACH,
    top: MAX_REACH,
    right: -MAX_REACH,
    bottom: -MAX_REACH,
    keys: KeyRange::NONE,
    newest: 0,
};

/// So many leaves, and their edges.
#[derive(Clone, Copy)]
pub(crate) struct Leaves {
    pub(crate) count: usize,
    pub(crate) edges: Edges,
}

/// The edges of some leaves and of one more.
#[inline(always)]
fn widened<A: Ledger>(edges: Edges, item: &Item<A>) -> Edges
    ensures before { IsFurther edges result }
    ensures leaf { (e : KeptEntry A) → e ≡ variants.Leaf item.now → IsInside result e }
{
    let seen = item.visible();
    Edges {
        left: edges.left.min(seen.x()),
        top: edges.top.min(seen.y()),
        right: edges.right.max(seen.right()),
        bottom: edges.bottom.max(seen.bottom()),
        keys: edges.keys.joined(KeyRange::one(item.owner())),
        newest: edges.newest.max(item.made_at()),
    }
}

/// The leaves among the first entries, at most so many, up to the first group.
pub(crate) fn first_leaves<A: Ledger>(entries: &[Entry<A>], most: usize) -> Leaves
    ensures within { result.count ≤ length entries.now }
    ensures inside { AreInside result.edges (take result.count entries.now) }
{
    let most = most.min(entries.len());
    let mut edges = NOWHERE;
    let mut count = 0;
    while count < most {
        match &entries[count] {
            Entry::Leaf(item) => edges = widened(edges, item),
            Entry::Group(_) => return Leaves { count, edges },
        }
        count += 1;
    }
    Leaves { count, edges }
}

/// The rectangle between edges. None where they reach further than one may.
fn spanned(edges: &Edges) -> Option<Rect>
    ensures { IfSome result (IsSpanned edges.now) }
{
    let wide = edges.right.checked_sub(edges.left)?;
    let high = edges.bottom.checked_sub(edges.top)?;
    Rect::new(edges.left, edges.top, wide, high)
}

/// What is told of leaves by their edges. None where these reach further than a rectangle may.
pub(crate) fn leaves_told<A: Ledger>(leaves: &Leaves) -> Option<ChunkBounds>
    ensures { (es : List (KeptEntry A)) → AreInside leaves.now.edges es → length es ≡ leaves.now.count → IfSome result (λ t. IsTold t es) }
{
    if leaves.count == 0 {
        return Some(NOTHING);
    }
    Some(ChunkBounds {
        hull: spanned(&leaves.edges)?,
        leaves: leaves.count,
        keys: leaves.edges.keys,
        newest: leaves.edges.newest,
    })
}
