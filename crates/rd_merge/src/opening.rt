//! New entries are taken one after another, and groups out of their places.
ghost use Rattle.std.specs.Prelude.{◌≡◌, ◌<◌, ◌≤◌, ◌+◌, ◌∷◌, [], true, Some, is_some, vec_len, vec_capacity};
ghost use Rattle.rd_list.specs.Entries as list;
ghost use Rattle.rd_list.specs.Entries.{◌▷◌};
ghost use Rattle.rd_list.specs.KeptView.{kept_entries};
ghost use Rattle.rd_list.specs.NewView.{new_entries};
ghost use Rattle.rd_list.specs.Views.{group_at};
ghost use Rattle.rd_list.specs.Wrappers.{wrapper};
ghost use Rattle.rd_merge.specs.Plans.{IsGroupPlace, IsNamed, IsPlace, first_leaf, first_list, first_wrapper, later, left_for, list_for, old_list, size_of, wrapper_at, wrapper_for};
ghost use Rattle.rd_merge.specs.Internal.Moving.{ChangesAt, IsSameBut};
ghost use Rattle.rd_merge.specs.Internal.Untaken.{untaken};

use crate::taking::NewEntries;
use rd_geom::Blend;
use rd_graph::take_at;
use rd_item::Item;
use rd_keys::BoxKey;
use rd_list::{Entry, Group, Kept, NewEntry, NewList};
use std::alloc::Global;
use std::sync::ledger::Ledger;

/// What a new list says of a group, and the group's new list.
#[derive(Drop)]
struct NewGroup<A: Ledger> {
    key: BoxKey,
    opacity: u8,
    blend: Blend,
    inner: NewList<A>,
}

/// What is said of a group, and what it is made of: the list that was kept in it and the new one.
#[derive(Drop)]
pub(crate) struct GroupMerge<A: Ledger> {
    pub(crate) key: BoxKey,
    pub(crate) opacity: u8,
    pub(crate) blend: Blend,
    pub(crate) kept: Kept<A>,
    pub(crate) new: NewList<A>,
}

/// The item of a new leaf.
fn as_item<A: Ledger>(entry: NewEntry<A>) -> Item<A>
    requires { size_of (first_leaf (new_entries (entry ∷ []))) ≡ 1 }
    ensures { list.leaf result list.nil ≡ first_leaf (new_entries (entry ∷ [])) }
{
    match entry {
        NewEntry::Leaf(item) => item,
        NewEntry::Group { .. } => unreachable!(),
    }
}

/// The item of the next new entry, which is a leaf.
pub(crate) fn next_item<A: Ledger>(fresh: &mut NewEntries<A>) -> Item<A>
    requires { size_of (first_leaf (untaken fresh.old)) ≡ 1 }
    ensures leaf { list.leaf result list.nil ≡ first_leaf (untaken fresh.old) }
    ensures left { untaken fresh.new ≡ later (untaken fresh.old) }
{
    fresh.turn();
    match fresh.run.next() {
        Some(entry) => as_item(entry),
        None => unreachable!(),
    }
}

/// Puts the next new entry, which is a leaf, on top of the ones that are made. There is room for it.
#[inline(always)]
pub(crate) fn push_next<A: Ledger>(made: &mut Vec<Entry<A>>, fresh: &mut NewEntries<A>)
    requires leaf { size_of (first_leaf (untaken fresh.old)) ≡ 1 }
    requires room { vec_len made.old < vec_capacity made.old }
    ensures put { kept_entries made.new.items ≡ kept_entries made.old.items ▷ first_leaf (untaken fresh.old) }
    ensures left { untaken fresh.new ≡ later (untaken fresh.old) }
    ensures len { vec_len made.new ≡ vec_len made.old + 1 }
    ensures room { vec_capacity made.old ≤ vec_capacity made.new }
{
    let item = next_item(fresh);
    made.push_reserved(Entry::Leaf(item));
}

/// The next new entry, which is a group.
fn next_group<A: Ledger>(fresh: &mut NewEntries<A>) -> NewGroup<A>
    requires { is_some (first_wrapper (untaken fresh.old)) ≡ true }
    ensures named { first_wrapper (untaken fresh.old)
        ≡ Some (wrapper result.key result.opacity result.blend) }
    ensures inner { result.inner ≡ first_list (untaken fresh.old) }
    ensures left { untaken fresh.new ≡ later (untaken fresh.old) }
{
    fresh.turn();
    match fresh.run.next() {
        Some(NewEntry::Leaf(_)) => unreachable!(),
        Some(
            NewEntry::Group {
                key,
                opacity,
                blend,
                inner,
            },
        ) => NewGroup {
            key,
            opacity,
            blend,
            inner,
        },
        None => unreachable!(),
    }
}

/// The group at a place, taken out of it.
fn take_group<A: Ledger>(alloc: Global, entries: &mut Vec<Entry<A>>, place: usize) -> Group<A>
    requires { is_some (group_at place (kept_entries entries.old.items)) ≡ true }
    ensures named { wrapper_at place (kept_entries entries.old.items) ≡ Some (wrapper result.key result.opacity result.blend) }
    ensures inner { group_at place (kept_entries entries.old.items) ≡ Some result.inner }
    ensures others { IsSameBut (Some place) (kept_entries entries.old.items) (kept_entries entries.new.items) }
    ensures rest { ChangesAt (Some place) entries.old.items entries.new.items }
    ensures len { vec_len entries.new ≡ vec_len entries.old }
{
    match take_at(alloc, entries, place) {
        Entry::Leaf(_) => unreachable!(),
        Entry::Group(group) => group,
    }
}

/// What a step needs of its group: taken out of its place, where it has one, and of the next new entry, where that goes into it.
pub(crate) fn open<A: Ledger>(
    alloc: Global,
    entries: &mut Vec<Entry<A>>,
    fresh: &mut NewEntries<A>,
    old: Option<usize>,
    is_new: bool,
) -> GroupMerge<A>
    requires group { IsGroupPlace old (kept_entries entries.old.items) }
    requires named { IsNamed is_new old (untaken fresh.old) }
    ensures named { wrapper_for is_new old (kept_entries entries.old.items) (untaken fresh.old)
        ≡ Some (wrapper result.key result.opacity result.blend) }
    ensures kept { result.kept ≡ old_list old (kept_entries entries.old.items) }
    ensures new { result.new ≡ list_for is_new (untaken fresh.old) }
    ensures left { untaken fresh.new
        ≡ left_for is_new (untaken fresh.old) }
    ensures others { IsSameBut old (kept_entries entries.old.items) (kept_entries entries.new.items) }
    ensures rest { ChangesAt old entries.old.items entries.new.items }
    ensures len { vec_len entries.new ≡ vec_len entries.old }
{
    let Some(place) = old else {
        let NewGroup {
            key,
            opacity,
            blend,
            inner,
        } = next_group(fresh);
        return GroupMerge {
            key,
            opacity,
            blend,
            kept: Kept::empty(),
            new: inner,
        };
    };
    let group = take_group(alloc, entries, place);
    if is_new {
        let NewGroup {
            key,
            opacity,
            blend,
            inner,
        } = next_group(fresh);
        return GroupMerge {
            key,
            opacity,
            blend,
            kept: group.inner,
            new: inner,
        };
    }
    GroupMerge {
        key: group.key,
        opacity: group.opacity,
        blend: group.blend,
        kept: group.inner,
        new: NewList::empty(alloc),
    }
}
