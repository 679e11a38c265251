//! The second half of a merge: entries are put at their places in the kept list, and nothing takes memory.
ghost use Rattle.std.specs.Prelude.{◌≡◌, ◌≤◌, ◌+◌, ◌∷◌, [], vec_len, vec_capacity};
ghost use Rattle.rd_list.specs.Entries.{◌▷◌};
ghost use Rattle.rd_list.specs.Blocks.{IsAtBoth};
ghost use Rattle.rd_list.specs.Chunks.{AreCovered};
ghost use Rattle.rd_list.specs.KeptView.{kept_entries};
ghost use Rattle.rd_merge.specs.Plans.{IsGroupPlace, IsNamed, PlacesFit, StepsFit, filled, grouped_as, left_for, list_for, made_count, old_list, stepped, wrapper_for};
ghost use Rattle.rd_merge.specs.PlanView.{steps_seen};
ghost use Rattle.rd_merge.specs.Internal.Moving.{ChangesAt, IsSameBut, left_after};
ghost use Rattle.rd_merge.specs.Internal.Untaken.{untaken};

use crate::chunking::{clear, in_line_chunks, put_in_chunk, put_item_in_chunk};
use crate::moving::in_line;
use crate::opening::{next_item, open, push_next};
use crate::plan::{Plan, Step};
use crate::taking::NewEntries;
use rd_list::{BlockCursor, Chunks, Entry, FIRST_BLOCK, Group, Kept, Level, NewList, renew_chunks};
use std::sync::ledger::Ledger;

/// The plan, filled from the two lists: new entries are put at their places, and the rest stays where it is unless the plan has a line.
/// It takes no memory.
#[cycle(finishing)]
pub fn finish<A: Ledger>(kept: Kept<A>, new: NewList<A>, plan: Plan<A>) -> Kept<A>
    requires { PlacesFit plan kept new }
    ensures { result ≡ filled plan kept new }
{
    let Plan {
        alloc,
        patch,
        steps,
        mut made,
        aside,
        room,
        parts,
        chunks,
        mut level,
    } = plan;
    let Level {
        mut entries,
        graph,
        chunks: mut had,
    } = kept.into_level(alloc);
    let mut seek = FIRST_BLOCK;
    let mut fresh = NewEntries::new(alloc, new);
    for step in steps {
        seek = finish_step(&mut had, seek, &mut entries, &mut made, &mut fresh, step);
    }
    let had = in_line_chunks(had, &entries, &made, patch.line(), parts);
    let entries = in_line(alloc, entries, made, patch.line(), aside, room);
    let chunks = renew_chunks(chunks, &entries, had);
    *level = Level {
        entries,
        graph: graph.apply(patch),
        chunks,
    };
    Kept::of(level)
}

/// One step: an entry is put at its place, or on top of the ones that are made.
#[cycle(finishing)]
fn finish_step<A: Ledger>(
    chunks: &mut Chunks,
    last: BlockCursor,
    entries: &mut Vec<Entry<A>>,
    made: &mut Vec<Entry<A>>,
    fresh: &mut NewEntries<A>,
    step: Step<A>,
) -> BlockCursor
    requires fits { StepsFit (vec_len entries.old) (steps_seen (step ∷ []))
        (kept_entries entries.old.items ▷ kept_entries made.old.items) (untaken fresh.old) }
    requires room { vec_len made.old + made_count (steps_seen (step ∷ [])) ≤ vec_capacity made.old }
    requires at { IsAtBoth chunks.old last }
    requires covers { AreCovered chunks.old entries.old.items }
    ensures stepped { kept_entries entries.new.items ▷ kept_entries made.new.items
        ≡ stepped (steps_seen (step ∷ []))
        (kept_entries entries.old.items ▷ kept_entries made.old.items) (untaken fresh.old) }
    ensures left { untaken fresh.new
        ≡ left_after (steps_seen (step ∷ [])) (untaken fresh.old) }
    ensures entries { vec_len entries.new ≡ vec_len entries.old }
    ensures made { vec_len made.new ≡ vec_len made.old + made_count (steps_seen (step ∷ [])) }
    ensures room { vec_capacity made.old ≤ vec_capacity made.new }
    ensures at { IsAtBoth chunks.new result }
    ensures covers { AreCovered chunks.new entries.new.items }
{
    match step {
        Step::Leaf(None) => {
            push_next(made, fresh);
            last
        }
        Step::Leaf(Some(place)) => {
            let item = next_item(fresh);
            put_item_in_chunk(chunks, last, entries, place, item)
        }
        Step::Group { old, is_new, plan } => {
            let seek = clear::<A>(chunks, last, old);
            let entry = finish_group(entries, fresh, old, is_new, Box::into_inner(plan));
            put_in_chunk(chunks, seek, entries, made, old, entry)
        }
    }
}

/// The group of a step, taken out of its place, where it has one, and joined with what is new in it.
#[cycle(finishing)]
#[inline(never)]
fn finish_group<A: Ledger>(
    entries: &mut Vec<Entry<A>>,
    fresh: &mut NewEntries<A>,
    old: Option<usize>,
    is_new: bool,
    plan: Plan<A>,
) -> Entry<A>
    requires group { IsGroupPlace old (kept_entries entries.old.items) }
    requires named { IsNamed is_new old (untaken fresh.old) }
    requires fits { PlacesFit plan (old_list old (kept_entries entries.old.items))
        (list_for is_new (untaken fresh.old)) }
    ensures made { kept_entries (result ∷ []) ≡ grouped_as
        (wrapper_for is_new old (kept_entries entries.old.items) (untaken fresh.old))
        (filled plan (old_list old (kept_entries entries.old.items)) (list_for is_new (untaken fresh.old))) }
    ensures left { untaken fresh.new
        ≡ left_for is_new (untaken fresh.old) }
    ensures others { IsSameBut old (kept_entries entries.old.items) (kept_entries entries.new.items) }
    ensures rest { ChangesAt old entries.old.items entries.new.items }
    ensures len { vec_len entries.new ≡ vec_len entries.old }
{
    let group = open(plan.alloc, entries, fresh, old, is_new);
    let inner = finish(group.kept, group.new, plan);
    Entry::Group(Group {
        key: group.key,
        opacity: group.opacity,
        blend: group.blend,
        inner,
    })
}
