//! How many leaves and entries a new list has, counted in one pass.
ghost use Rattle.std.specs.Prelude.{IsTrue, ◌≡◌, ◌<◌, ◌≤◌, ◌+◌, ◌∷◌, [], length};
ghost use Rattle.rd_list.specs.Entries.{flat};
ghost use Rattle.rd_list.specs.NewView.{new_entries, in_runs};
ghost use Rattle.rd_engine.specs.Internal.Counting.{AreLeaves, IsCount, IsCountOf};

use rd_list::{NewEntry, NewList};
use std::sync::ledger::Ledger;

/// How many leaves there are, in groups and outside, and how many entries, or else the greatest number.
#[derive(Clone, Copy)]
pub(crate) struct Counts {
    pub(crate) leaves: u64,
    pub(crate) entries: usize,
}

/// So many leaves, in no group.
#[inline(always)]
fn leaves(count: usize) -> Counts
    ensures { IsCountOf result count count }
{
    Counts {
        leaves: count as u64,
        entries: count,
    }
}

/// Of two lists that come together.
#[inline(always)]
fn joined(first: Counts, second: Counts) -> Counts
    requires { first.leaves + second.leaves < 4294967296 }
    ensures { IsCountOf result (first.leaves + second.leaves) (first.entries + second.entries) }
{
    Counts {
        leaves: first.leaves + second.leaves,
        entries: first.entries.saturating_add(second.entries),
    }
}

/// The leaves and entries of a list, in groups and outside.
#[cycle(counting)]
pub(crate) fn counts_of<A: Ledger>(list: &NewList<A>) -> Counts
    requires { length (flat list.now) < 4294967296 }
    ensures { IsCount result list.now }
{
    counts_in(&list.runs)
}

/// Those of runs.
#[cycle(counting)]
fn counts_in<A: Ledger>(runs: &[Vec<NewEntry<A>>]) -> Counts
    requires { length (flat (in_runs runs.now)) < 4294967296 }
    ensures { IsCount result (in_runs runs.now) }
{
    let mut counts = leaves(0);
    for run in runs {
        counts = joined(counts, counts_among(run));
    }
    counts
}

/// Those of one run: its leaves are passed over, up to the next group.
#[cycle(counting)]
fn counts_among<A: Ledger>(entries: &[NewEntry<A>]) -> Counts
    requires { length (flat (new_entries entries.now)) < 4294967296 }
    ensures { IsCount result (new_entries entries.now) }
{
    let mut i = next_group(entries, 0);
    let mut counts = leaves(i);
    while i < entries.len() {
        counts = joined(counts, counts_at(&entries[i]));
        let next = next_group(entries, i + 1);
        counts = joined(counts, leaves(next - (i + 1)));
        i = next;
    }
    counts
}

/// Those of one entry.
#[cycle(counting)]
fn counts_at<A: Ledger>(entry: &NewEntry<A>) -> Counts
    requires { length (flat (new_entries (entry.now ∷ []))) < 4294967296 }
    ensures { IsCount result (new_entries (entry.now ∷ [])) }
{
    match entry {
        NewEntry::Leaf(_) => leaves(1),
        NewEntry::Group { inner, .. } => {
            let counts = counts_of(inner);
            Counts {
                leaves: counts.leaves,
                entries: counts.entries.saturating_add(1),
            }
        }
    }
}

/// Is the entry a leaf?
#[inline(always)]
fn is_leaf<A: Ledger>(entry: &NewEntry<A>) -> bool
    ensures { IsTrue result → AreLeaves (entry.now ∷ []) 0 1 }
{
    match entry {
        NewEntry::Leaf(_) => true,
        NewEntry::Group { .. } => false,
    }
}

/// Are the four entries from place `i` on leaves?
#[inline(always)]
fn are_leaves<A: Ledger>(entries: &[NewEntry<A>], i: usize) -> bool
    requires { i + 4 ≤ length entries.now }
    ensures { IsTrue result → AreLeaves entries.now i (i + 4) }
{
    if !is_leaf(&entries[i]) {
        return false;
    }
    if !is_leaf(&entries[i + 1]) {
        return false;
    }
    if !is_leaf(&entries[i + 2]) {
        return false;
    }
    is_leaf(&entries[i + 3])
}

/// The place of the next group, or how many entries there are: those from place `from` up to it are leaves.
fn next_group<A: Ledger>(entries: &[NewEntry<A>], from: usize) -> usize
    requires { from ≤ length entries.now }
    ensures within { result ≤ length entries.now }
    ensures leaves { AreLeaves entries.now from result }
{
    let mut i = from;
    while entries.len() - i >= 4 && are_leaves(entries, i) {
        i += 4;
    }
    while i < entries.len() && is_leaf(&entries[i]) {
        i += 1;
    }
    i
}
