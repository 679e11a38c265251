//! Entries of a level are moved to their places, and nothing takes memory.
ghost use Rattle.std.specs.Prelude.{◌≡◌, ◌<◌, ◌≤◌, ◌+◌, ◌∷◌, ◌++◌, [], slice_set, vec_len, vec_capacity, option_map};
ghost use Rattle.rd_graph.specs.Gathered.{arranged, IsLine};
ghost use Rattle.rd_graph.specs.Runs.{HasLineRoom, places_of};
ghost use Rattle.rd_list.specs.Entries.{◌▷◌};
ghost use Rattle.rd_list.specs.declared.kept.Entry.TheVariants as variants;
ghost use Rattle.rd_list.specs.KeptView.{kept_entries};
ghost use Rattle.rd_merge.specs.Plans.{arranged_entries, IsPlace, one_made, put_entry};
ghost use Rattle.rd_merge.specs.Internal.Moving.{NoneMade, PutsAt};

use rd_graph::{Run, move_line};
use rd_item::Item;
use rd_list::Entry;
use std::alloc::Global;
use std::sync::ledger::Ledger;

/// Puts an entry on top, where there is room for it.
fn push_made<A: Ledger>(made: &mut Vec<Entry<A>>, entry: Entry<A>)
    requires { vec_len made.old < vec_capacity made.old }
    ensures put { made.new.items ≡ made.old.items ++ entry ∷ [] }
    ensures len { vec_len made.new ≡ vec_len made.old + 1 }
    ensures room { vec_capacity made.old ≤ vec_capacity made.new }
{
    made.push_reserved(entry);
}

/// Puts an entry at its place, or on top of the ones that are made.
#[inline(always)]
pub(crate) fn put<A: Ledger>(
    entries: &mut Vec<Entry<A>>,
    made: &mut Vec<Entry<A>>,
    place: Option<usize>,
    entry: Entry<A>,
)
    requires place { IsPlace place (vec_len entries.old) }
    requires room { vec_len made.old + one_made place ≤ vec_capacity made.old }
    ensures put { kept_entries entries.new.items ▷ kept_entries made.new.items
        ≡ put_entry place (kept_entries (entry ∷ [])) (kept_entries entries.old.items ▷ kept_entries made.old.items) }
    ensures there { PutsAt place entry entries.old.items entries.new.items }
    ensures entries { vec_len entries.new ≡ vec_len entries.old }
    ensures made { vec_len made.new ≡ vec_len made.old + one_made place }
    ensures room { vec_capacity made.old ≤ vec_capacity made.new }
{
    match place {
        None => push_made(made, entry),
        Some(i) => entries[i] = entry,
    }
}

/// Puts a leaf at a place: its item, where a leaf stands there.
#[inline(always)]
pub(crate) fn put_item_at<A: Ledger>(entries: &mut Vec<Entry<A>>, i: usize, item: Item<A>)
    requires { i < vec_len entries.old }
    ensures put { entries.new.items ≡ slice_set entries.old.items i (variants.Leaf item) }
    ensures len { vec_len entries.new ≡ vec_len entries.old }
{
    match &mut entries[i] {
        Entry::Leaf(old) => *old = item,
        Entry::Group(_) => entries[i] = Entry::Leaf(item),
    }
}

/// The entries as they are, or old and made ones in a line; the made ones as they are, where the line is of them alone.
pub(crate) fn in_line<A: Ledger>(
    alloc: Global,
    entries: Vec<Entry<A>>,
    made: Vec<Entry<A>>,
    line: Option<&[Run]>,
    aside: Vec<Entry<A>>,
    room: Vec<Entry<A>>,
) -> Vec<Entry<A>>
    requires line { IsLine (option_map (λ l. places_of l.now) line) (vec_len entries + vec_len made) }
    requires still { NoneMade (option_map (λ l. places_of l.now) line) (vec_len made) }
    requires room { HasLineRoom (option_map (λ l. places_of l.now) line) room }
    ensures entries { kept_entries result.items
        ≡ arranged_entries (option_map (λ l. places_of l.now) line.entry) (kept_entries entries.items ▷ kept_entries made.items) }
    ensures items { result.items ≡ arranged (option_map (λ l. places_of l.now) line.entry) (entries.items ++ made.items) }
{
    match line {
        None => entries,
        Some(line) => move_line(alloc, entries, made, line, aside, room),
    }
}
