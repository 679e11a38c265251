//! Groups to go into, although the new level does not name them: something of their lists goes, a leaf of a touched box, in a group or
//! outside, or a group without entries.
ghost use Rattle.std.specs.Prelude.{◌≡◌, ◌∷◌, ◌&&◌, [], not, false};
ghost use Rattle.rd_list.specs.Chunks.{Covers, Tells};
ghost use Rattle.rd_list.specs.Entries.{is_empty};
ghost use Rattle.rd_list.specs.EntryNames.{kept_leaves};
ghost use Rattle.rd_list.specs.KeptView.{kept_entries};
ghost use Rattle.rd_merge.specs.Internal.Looks.{goes_inside, has_touched};

use crate::going::Touches;
use crate::passing::stands_still;
use rd_list::{Chunk, Entry, Kept};
use std::sync::ledger::Ledger;

/// Is there no entry?
fn has_none<A: Ledger>(entries: &[Entry<A>]) -> bool
    ensures { result ≡ is_empty (kept_leaves (kept_entries entries.now)) }
{
    entries.is_empty()
}

/// Does something of a list go?
#[cycle(leaving)]
fn goes_in<A: Ledger, T: Touches>(list: &Kept<A>, tree: &T) -> bool
    ensures { result ≡ has_touched (T.is_touched tree.now) list.now.entries }
{
    let (chunks, entries) = list.chunked();
    goes_by(chunks, entries, tree)
}

/// The same of a level, chunk by chunk.
#[cycle(leaving)]
fn goes_by<A: Ledger, T: Touches>(chunks: &[Chunk], entries: &[Entry<A>], tree: &T) -> bool
    requires { Covers chunks.now entries.now }
    ensures { result ≡ has_touched (T.is_touched tree.now) (kept_entries entries.now) }
{
    let mut place = 0;
    for chunk in chunks {
        let end = place + chunk.count;
        if goes_in_chunk(chunk, &entries[place..end], tree) {
            return true;
        }
        place = end;
    }
    any_goes(&entries[place..], tree)
}

/// The same of the entries of a chunk, which is passed where none of its boxes is touched.
#[cycle(leaving)]
#[inline(always)]
fn goes_in_chunk<A: Ledger, T: Touches>(chunk: &Chunk, entries: &[Entry<A>], tree: &T) -> bool
    requires { chunk.now.is_open ≡ false → Tells chunk.now entries.now }
    ensures { result ≡ has_touched (T.is_touched tree.now) (kept_entries entries.now) }
{
    if stands_still(chunk, tree) {
        return false;
    }
    any_goes(entries, tree)
}

/// The same of some entries.
#[cycle(leaving)]
fn any_goes<A: Ledger, T: Touches>(entries: &[Entry<A>], tree: &T) -> bool
    ensures { result ≡ has_touched (T.is_touched tree.now) (kept_entries entries.now) }
{
    for entry in entries {
        if goes_at(entry, tree) {
            return true;
        }
    }
    false
}

#[cycle(leaving)]
fn goes_at<A: Ledger, T: Touches>(entry: &Entry<A>, tree: &T) -> bool
    ensures { result ≡ has_touched (T.is_touched tree.now) (kept_entries (entry.now ∷ [])) }
{
    match entry {
        Entry::Leaf(item) => tree.touches(item.owner()),
        Entry::Group(group) => has_none(group.inner.entries()) || goes_in(&group.inner, tree),
    }
}

/// Is it a group of which something goes?
fn goes_inside<A: Ledger, T: Touches>(entry: &Entry<A>, tree: &T) -> bool
    ensures { result ≡ goes_inside (T.is_touched tree.now) entry.now }
{
    match entry {
        Entry::Leaf(_) => false,
        Entry::Group(group) => goes_in(&group.inner, tree),
    }
}

/// Is it a group to go into, although the new level does not name it?
pub(crate) fn is_inner<A: Ledger, T: Touches>(
    stays: bool,
    is_new: bool,
    entry: &Entry<A>,
    tree: &T,
) -> bool
    ensures { result ≡ (stays && not is_new && goes_inside (T.is_touched tree.now) entry.now) }
{
    stays && !is_new && goes_inside(entry, tree)
}
