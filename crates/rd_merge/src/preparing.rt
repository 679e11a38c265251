//! The first half of a merge: all memory is taken, and nothing is changed.
ghost use Rattle.std.specs.Prelude.{◌≡◌, ◌<◌, ◌≤◌, ◌∷◌, [], Some, IfOk, OnOk, length, map, slice_index_or};
ghost use Rattle.rd_graph.specs.Patches.{CanBePatched, FitsPatch, IsPatched, line_of};
ghost use Rattle.rd_graph.specs.Runs.{HasLineRoom};
ghost use Rattle.rd_list.specs.Entries as list;
ghost use Rattle.rd_list.specs.EntryNames.{new_names};
ghost use Rattle.rd_list.specs.NewView.{new_entries, in_runs};
ghost use Rattle.rd_merge.specs.Going.{is_untouched};
ghost use Rattle.rd_merge.specs.Internal.Fitting.{FitsFor};
ghost use Rattle.rd_merge.specs.Merging.{CanBeMerged, IsPlan, MergedInto, StandsAfter};
ghost use Rattle.rd_merge.specs.Plans.{PlacesFit, filled, made_count, old_list};
ghost use Rattle.rd_merge.specs.PlanView.{steps_seen};
ghost use Rattle.rd_merge.specs.Internal.Adding.{AddsSteps};
ghost use Rattle.rd_merge.specs.Internal.Planning.{EntriesFit, GroupFits, GroupsFit, InnerSteps, IsGroupStep, NewSteps, place_in};

use crate::going::Touches;
use crate::looking::look;
use crate::plan::{Plan, Step};
use rd_graph::{Change, OrderGraph, Patch, aside_room, line_room};
use rd_list::{Chunks, Entry, Kept, Level, NewEntry, NewList, new_keys};
use std::alloc::{AllocError, Global};
use std::sync::ledger::Ledger;

/// The plan of a merge: the kept list without the leaves of touched boxes, joined with the new list.
/// It reads the lists alone, and takes all memory that the change will need.
pub fn prepare<A: Ledger, T: Touches>(
    alloc: Global,
    kept: &Kept<A>,
    new: &NewList<A>,
    tree: &T,
) -> Result<Plan<A>, AllocError>
    requires { CanBeMerged (T.is_touched tree.now) kept.now new.now }
    ensures fits { IfOk result (λ p. PlacesFit p kept.now new.now) }
    ensures merged { IfOk result (λ p.
        MergedInto (T.is_touched tree.now) kept.now new.now (filled p kept.now new.now)) }
    ensures stands { IfOk result (λ p.
        StandsAfter (T.is_touched tree.now) kept.now new.now (filled p kept.now new.now)) }
{
    let plan = plan_level(alloc, kept, new, tree)?;
    Ok(plan)
}

/// The patch of the graph of a level. That of a level without room is empty.
fn patch_of<A: Ledger>(
    alloc: Global,
    kept: &Kept<A>,
    change: Change<'_>,
) -> Result<Patch, AllocError>
    requires { CanBePatched change.removed.now change.chain.now change.old_places.now kept.now.graph }
    ensures fits { IfOk result (λ p. FitsPatch p kept.now.graph) }
    ensures patched { IfOk result (λ p. IsPatched change.entry.removed.now change.entry.chain.now change.entry.old_places.now kept.now.graph p) }
{
    match kept.graph() {
        Some(graph) => graph.patch(alloc, change),
        None => OrderGraph::empty(alloc).patch(alloc, change),
    }
}

/// Room for the entries of a patch's line, if there is one.
fn entry_room<A: Ledger>(alloc: Global, patch: &Patch) -> Result<Vec<Entry<A>>, AllocError>
    ensures { IfOk result (λ r. HasLineRoom (line_of patch.now) r) }
{
    line_room(alloc, patch.line())
}

/// Into how many runs the entries go.
fn run_count(patch: &Patch) -> usize {
    match patch.line() {
        Some(line) => line.len(),
        None => 0,
    }
}

/// Room for so many chunks, and for no blocks.
fn room_for(alloc: Global, chunks: usize) -> Result<Chunks, AllocError>
    ensures chunks { IfOk result (λ c. c.chunks.items ≡ []) }
    ensures blocks { IfOk result (λ c. c.blocks.items ≡ []) }
{
    Ok(Chunks {
        chunks: Vec::with_capacity(alloc, chunks)?,
        blocks: Vec::new(alloc),
    })
}

/// Room for so many chunks, and for their blocks.
fn blocked_room(alloc: Global, chunks: usize) -> Result<Chunks, AllocError>
    ensures chunks { IfOk result (λ c. c.chunks.items ≡ []) }
    ensures blocks { IfOk result (λ c. c.blocks.items ≡ []) }
{
    Ok(Chunks {
        chunks: Vec::with_capacity(alloc, chunks)?,
        blocks: Vec::with_capacity(alloc, chunks / 8)?,
    })
}

/// Room for what so many chunks say of the entries of a line, if there is one.
fn part_room(alloc: Global, patch: &Patch, had: usize) -> Result<Chunks, AllocError>
    ensures chunks { IfOk result (λ c. c.chunks.items ≡ []) }
    ensures blocks { IfOk result (λ c. c.blocks.items ≡ []) }
{
    match patch.line() {
        Some(line) => room_for(alloc, line.len().saturating_mul(2).saturating_add(had)),
        None => Ok(Chunks::none(alloc)),
    }
}

/// Room for the chunks of the result: those that were there, two more for each run of a line, one for each sixteen of so many steps, and
/// two for each of so many groups.
fn chunk_room(
    alloc: Global,
    patch: &Patch,
    had: usize,
    steps: usize,
    groups: usize,
) -> Result<Chunks, AllocError>
    ensures chunks { IfOk result (λ c. c.chunks.items ≡ []) }
    ensures blocks { IfOk result (λ c. c.blocks.items ≡ []) }
{
    let pairs = run_count(patch).saturating_add(groups).saturating_add(1);
    let singles = had.saturating_add(steps / 16);
    blocked_room(alloc, singles.saturating_add(pairs.saturating_mul(2)))
}

/// The plan of a patch and of steps, with room for all that these need: at most so many entries are made, so many steps are those of
/// groups, and the level had so many chunks.
fn with_room<A: Ledger>(
    alloc: Global,
    patch: Patch,
    steps: Vec<Step<A>>,
    made: usize,
    groups: usize,
    had: usize,
) -> Result<Plan<A>, AllocError>
    requires { made_count (steps_seen steps.items) ≤ made }
    ensures { IfOk result (λ p. p ≡ record { patch = patch; steps = steps_seen steps.items }) }
{
    let made = Vec::with_capacity(alloc, made)?;
    let aside = aside_room(alloc, patch.line())?;
    let room = entry_room(alloc, &patch)?;
    let parts = part_room(alloc, &patch, had)?;
    let chunks = chunk_room(alloc, &patch, had, steps.len(), groups)?;
    let level = Box::new(alloc, Level::empty(alloc))?;
    Ok(Plan {
        alloc,
        patch,
        steps,
        made,
        aside,
        room,
        parts,
        chunks,
        level,
    })
}

/// Steps, and how many of them are those of groups.
#[derive(Drop)]
struct Planned<A: Ledger> {
    steps: Vec<Step<A>>,
    groups: usize,
}

#[cycle(planning)]
fn plan_level<A: Ledger, T: Touches>(
    alloc: Global,
    kept: &Kept<A>,
    new: &NewList<A>,
    tree: &T,
) -> Result<Plan<A>, AllocError>
    requires { FitsFor (is_untouched (T.is_touched tree.now)) kept.now new.now }
    ensures { IfOk result (IsPlan (T.is_touched tree.now) kept.now new.now) }
{
    let names = new_keys(alloc, new)?;
    let level = kept.blocked();
    let looked = look(alloc, level, &names, tree)?;
    let change = Change {
        removed: &looked.gone,
        chain: &names,
        old_places: &looked.found,
    };
    let patch = patch_of(alloc, kept, change)?;
    let planned = plan_entries(alloc, kept, &new.runs, &looked.found, tree)?;
    let mut steps = planned.steps;
    let mut inner = plan_groups(alloc, kept, &looked.inner, tree)?;
    steps.append(&mut inner)?;
    let groups = planned.groups.saturating_add(looked.inner.len());
    let plan = with_room(alloc, patch, steps, names.len(), groups, level.chunks.len())?;
    Ok(plan)
}

/// The steps of the entries of these runs of a new level, which have these places in the kept one. Groups that the new
/// level does not name and in which nothing is touched have no step: they stand as they were. The groups among the entries are counted.
#[cycle(planning)]
fn plan_entries<A: Ledger, T: Touches>(
    alloc: Global,
    kept: &Kept<A>,
    runs: &[Vec<NewEntry<A>>],
    found: &[Option<usize>],
    tree: &T,
) -> Result<Planned<A>, AllocError>
    requires fit { EntriesFit (T.is_touched tree.now) kept.now.entries (in_runs runs.now) }
    requires found { found.now
        ≡ map (λ k. place_in (T.is_touched tree.now) kept.now.entries k) (new_names (in_runs runs.now)) }
    ensures { IfOk result (λ p.
        NewSteps (T.is_touched tree.now) kept.now.entries (in_runs runs.now) (steps_seen p.steps.items)) }
{
    let steps = Vec::with_capacity(alloc, found.len())?;
    let mut planned = Planned { steps, groups: 0 };
    let mut rest = found;
    for run in runs {
        let (here, after) = rest.split_at(run.len());
        push_run(alloc, kept, run, here, tree, &mut planned)?;
        rest = after;
    }
    Ok(planned)
}

/// The steps of the entries of a run, which have these places in the kept level, come after others.
#[cycle(planning)]
fn push_run<A: Ledger, T: Touches>(
    alloc: Global,
    kept: &Kept<A>,
    new: &[NewEntry<A>],
    found: &[Option<usize>],
    tree: &T,
    planned: &mut Planned<A>,
) -> Result<(), AllocError>
    requires fit { EntriesFit (T.is_touched tree.now) kept.now.entries (new_entries new.now) }
    requires found { found.now
        ≡ map (λ k. place_in (T.is_touched tree.now) kept.now.entries k) (new_names (new_entries new.now)) }
    ensures { OnOk result (
        AddsSteps (T.is_touched tree.now) kept.now.entries (new_entries new.now) planned.old.steps.items planned.new.steps.items) }
{
    for (i, entry) in new.iter().enumerate() {
        push_step(alloc, kept, entry, found[i], tree, planned)?;
    }
    Ok(())
}

/// The step of a new entry, which has this place in the kept level, comes after others.
#[cycle(planning)]
#[inline(always)]
fn push_step<A: Ledger, T: Touches>(
    alloc: Global,
    kept: &Kept<A>,
    entry: &NewEntry<A>,
    place: Option<usize>,
    tree: &T,
    planned: &mut Planned<A>,
) -> Result<(), AllocError>
    requires fit { EntriesFit (T.is_touched tree.now) kept.now.entries (new_entries (entry.now ∷ [])) }
    requires place { place ∷ []
        ≡ map (λ k. place_in (T.is_touched tree.now) kept.now.entries k) (new_names (new_entries (entry.now ∷ []))) }
    ensures { OnOk result (
        AddsSteps (T.is_touched tree.now) kept.now.entries (new_entries (entry.now ∷ []))
        planned.old.steps.items planned.new.steps.items) }
{
    match entry {
        NewEntry::Leaf(_) => planned.steps.push(Step::Leaf(place))?,
        NewEntry::Group { inner, .. } => {
            let step = plan_group_step(alloc, kept, place, inner, tree)?;
            planned.groups = planned.groups.saturating_add(1);
            planned.steps.push(step)?;
        }
    }
    Ok(())
}

/// The step of a new group with this list, which has this place in the kept level.
#[cycle(planning)]
#[inline(never)]
fn plan_group_step<A: Ledger, T: Touches>(
    alloc: Global,
    kept: &Kept<A>,
    place: Option<usize>,
    inner: &NewList<A>,
    tree: &T,
) -> Result<Step<A>, AllocError>
    requires { GroupFits (T.is_touched tree.now) kept.now.entries place inner.now }
    ensures { IfOk result (λ s.
        IsGroupStep (T.is_touched tree.now) kept.now.entries place inner.now (steps_seen (s ∷ []))) }
{
    let plan = Box::new(alloc, plan_new_group(alloc, kept, place, inner, tree)?)?;
    Ok(Step::Group {
        old: place,
        is_new: true,
        plan,
    })
}

/// The entry at a place.
fn entry_at<A: Ledger>(entries: &[Entry<A>], place: usize) -> &Entry<A>
    requires { place < length entries.now }
    ensures { result.now ≡ slice_index_or entries.now place result.now }
{
    &entries[place]
}

/// The plan of the merge of a group's new list with the group at a place of the kept level, if there is one.
#[cycle(planning)]
fn plan_new_group<A: Ledger, T: Touches>(
    alloc: Global,
    kept: &Kept<A>,
    place: Option<usize>,
    new: &NewList<A>,
    tree: &T,
) -> Result<Plan<A>, AllocError>
    requires { GroupFits (T.is_touched tree.now) kept.now.entries place new.now }
    ensures { IfOk result (IsPlan (T.is_touched tree.now) (old_list place kept.now.entries) new.now) }
{
    let Some(place) = place else {
        let none = Kept::empty();
        return plan_level(alloc, &none, new, tree);
    };
    match entry_at(kept.entries(), place) {
        Entry::Leaf(_) => unreachable!(),
        Entry::Group(group) => plan_level(alloc, &group.inner, new, tree),
    }
}

/// The steps of the groups at these places, into which no new entry goes.
#[cycle(planning)]
fn plan_groups<A: Ledger, T: Touches>(
    alloc: Global,
    kept: &Kept<A>,
    places: &[usize],
    tree: &T,
) -> Result<Vec<Step<A>>, AllocError>
    requires { GroupsFit (T.is_touched tree.now) kept.now.entries places.now }
    ensures { IfOk result (λ v. InnerSteps (T.is_touched tree.now) kept.now.entries places.now (steps_seen v.items)) }
{
    let mut steps = Vec::with_capacity(alloc, places.len())?;
    for place in places {
        let step = plan_kept_group(alloc, kept, *place, tree)?;
        steps.push(step)?;
    }
    Ok(steps)
}

/// The step of the group at a place, into which no new entry goes.
#[cycle(planning)]
fn plan_kept_group<A: Ledger, T: Touches>(
    alloc: Global,
    kept: &Kept<A>,
    place: usize,
    tree: &T,
) -> Result<Step<A>, AllocError>
    requires { GroupFits (T.is_touched tree.now) kept.now.entries (Some place) list.nil }
    ensures { IfOk result (λ s.
        InnerSteps (T.is_touched tree.now) kept.now.entries (place ∷ []) (steps_seen (s ∷ []))) }
{
    match entry_at(kept.entries(), place) {
        Entry::Leaf(_) => unreachable!(),
        Entry::Group(group) => {
            let none = NewList::empty(alloc);
            let plan = Box::new(alloc, plan_level(alloc, &group.inner, &none, tree)?)?;
            Ok(Step::Group {
                old: Some(place),
                is_new: false,
                plan,
            })
        }
    }
}
