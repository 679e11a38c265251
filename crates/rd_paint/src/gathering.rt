//! Picks of all entries of a list that may show in an area.

ghost use Rattle.std.specs.Prelude.{◌^◌, ◌≤◌, ◌<◌, ◌∷◌, [], IfSome, length, take};
ghost use Rattle.rd_list.specs.Blocks.{AreBlocked};
ghost use Rattle.rd_list.specs.Displayed.{shown};
ghost use Rattle.rd_list.specs.Entries as list;
ghost use Rattle.rd_list.specs.Entries.{flat};
ghost use Rattle.rd_list.specs.EntryNames.{kept_leaves};
ghost use Rattle.rd_list.specs.KeptView.{kept_entries};
ghost use Rattle.rd_list.specs.Views.{levels};
ghost use Rattle.rd_list.specs.Wrappers.{Wrapper};
ghost use Rattle.rd_paint.specs.Internal.Picks.{InAreaWithin, IsClosed, SameWhere, ShowsFor, picked};
ghost use Rattle.rd_paint.specs.Since.{AreMadeSince};

use crate::picks::{MOST, Pick, put};
use crate::skipping::{Sight, next_within};
use rd_item::Item;
use rd_list::{Blocked, Entry, FIRST_CHUNK, Kept};
use std::sync::ledger::Ledger;

/// Writes picks of the entries that may show in the area, as far as it is in these columns of these rows, and says how
/// many; None where there is too little room. A block, a chunk or a leaf outside of them costs no more than to see that.
#[cycle(gathering)]
pub(crate) fn gather<A: Ledger>(
    level: Blocked<'_, A>,
    sight: Sight<'_>,
    room: &mut [Pick],
) -> Option<usize>
    requires few { length room.old < 2 ^ 32 }
    requires covers { AreBlocked level }
    requires since { AreMadeSince sight.area.now sight.since (flat (kept_entries level.entries.now)) }
    ensures within { IfSome result (λ n. n ≤ length room.old) }
    ensures same { IfSome result (λ n. SameWhere (InAreaWithin sight.entry.area.now sight.entry.columns sight.entry.rows)
        (picked (take n room.new) (shown level.entry.entries.now)) (shown level.entry.entries.now)) }
    ensures levels { IfSome result (λ n. levels (picked (take n room.new) (shown level.entry.entries.now))
        ≤ levels (shown level.entry.entries.now)) }
{
    let entries = level.entries;
    let mut count = 0;
    let mut seek = FIRST_CHUNK;
    let mut i = next_within(level, sight, &mut seek, 0);
    while i < entries.len() {
        let more = gather_one(&entries[i], i, sight, &mut room[count..])?;
        count += more;
        i = next_within(level, sight, &mut seek, i + 1);
    }
    Some(count)
}

/// Writes picks of the entry at a place.
#[cycle(gathering)]
#[inline(always)]
fn gather_one<A: Ledger>(
    entry: &Entry<A>,
    place: usize,
    sight: Sight<'_>,
    room: &mut [Pick],
) -> Option<usize>
    requires few { length room.old < 2 ^ 32 }
    requires since { AreMadeSince sight.area.now sight.since (flat (kept_entries (entry.now ∷ []))) }
    ensures within { IfSome result (λ n. n ≤ length room.old) }
    ensures closed { IfSome result (λ n. IsClosed (take n room.new)) }
    ensures same { IfSome result (λ n. ShowsFor (InAreaWithin sight.entry.area.now sight.entry.columns sight.entry.rows) place
        (shown (entry.now ∷ [])) (shown (entry.now ∷ [])) (take n room.new)) }
{
    match entry {
        Entry::Leaf(item) => gather_item(item, place, sight, room),
        Entry::Group(group) => gather_group(&group.inner, place, sight, room),
    }
}

#[inline(always)]
fn gather_item<A: Ledger>(
    item: &Item<A>,
    place: usize,
    sight: Sight<'_>,
    room: &mut [Pick],
) -> Option<usize>
    ensures within { IfSome result (λ n. n ≤ length room.old) }
    ensures closed { IfSome result (λ n. IsClosed (take n room.new)) }
    ensures same { IfSome result (λ n. ShowsFor (InAreaWithin sight.entry.area.now sight.entry.columns sight.entry.rows) place (list.leaf item.now.leaf list.nil)
        (list.leaf item.now.leaf list.nil) (take n room.new)) }
{
    if !sight.area.meets(item.visible()) {
        return Some(0);
    }
    if room.is_empty() || place > MOST {
        return None;
    }
    Some(put(room, place as u32, 0))
}

/// Writes the pick of a group with those of its list; none where none of them may show.
#[cycle(gathering)]
fn gather_group<A: Ledger>(
    inner: &Kept<A>,
    place: usize,
    sight: Sight<'_>,
    room: &mut [Pick],
) -> Option<usize>
    requires few { length room.old < 2 ^ 32 }
    requires since { AreMadeSince sight.area.now sight.since (flat inner.now.entries) }
    ensures within { IfSome result (λ n. n ≤ length room.old) }
    ensures closed { IfSome result (λ n. IsClosed (take n room.new)) }
    ensures same { IfSome result (λ n. (w : Wrapper) → ShowsFor (InAreaWithin sight.entry.area.now sight.entry.columns sight.entry.rows) place
        (list.group w (kept_leaves inner.now.entries) list.nil)
        (list.group w (kept_leaves inner.now.entries) list.nil) (take n room.new)) }
{
    if room.is_empty() || place > MOST {
        return None;
    }
    let inside = gather(inner.blocked(), sight, &mut room[1..])?;
    if inside == 0 {
        return Some(0);
    }
    Some(put(room, place as u32, inside))
}
