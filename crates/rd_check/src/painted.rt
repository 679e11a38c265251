//! The leaves of a fresh list in its order.
ghost use Rattle.std.specs.Prelude.{◌≡◌, ◌∷◌, [], IfOk, OnOk};
ghost use Rattle.rd_list.specs.Entries.{routes};
ghost use Rattle.rd_list.specs.EntryNames.{new_leaves};
ghost use Rattle.rd_list.specs.NewView.{new_entries, in_runs};
ghost use Rattle.rd_check.specs.Internal.Rounds.{ways_in, CanAdd, IsAdded};

use crate::around::{Around, Found, Rounds};
use rd_geom::NoMemory;
use rd_item::{Item, Leaf};
use rd_list::{NewEntry, NewList};
use std::alloc::Global;
use std::sync::ledger::Ledger;

/// The leaves of a list in its order, with the groups round each.
#[derive(Drop)]
pub(crate) struct Painted {
    pub(crate) rounds: Rounds,
    pub(crate) leaves: Vec<Found>,
}

fn leaf_of<A: Ledger>(item: &Item<A>) -> Leaf
    ensures { result ≡ item.now.leaf }
{
    Leaf {
        owner: item.owner(),
        part: item.part(),
        visible: item.visible(),
        shape: item.shape(),
        color: item.color(),
        hits: item.hits(),
    }
}

impl Painted {
    pub(crate) fn of<A: Ledger>(alloc: Global, list: &NewList<A>) -> Result<Painted, NoMemory>
        ensures { IfOk result (λ p. ways_in p ≡ routes [] (new_leaves list.now)) }
    {
        let rounds = Rounds::new(alloc)?;
        let leaves = Vec::new(alloc);
        let mut painted = Painted { rounds, leaves };
        add_list(alloc, &mut painted, 0, list)?;
        Ok(painted)
    }
}

/// Puts the leaves of a list on top of others, below the groups of a row.
#[cycle(painted)]
fn add_list<A: Ledger>(
    alloc: Global,
    painted: &mut Painted,
    round: usize,
    list: &NewList<A>,
) -> Result<(), NoMemory>
    ensures { OnOk result (CanAdd round painted.old → IsAdded round list.now painted.old painted.new) }
{
    add_runs(alloc, painted, round, &list.runs)
}

#[cycle(painted)]
fn add_runs<A: Ledger>(
    alloc: Global,
    painted: &mut Painted,
    round: usize,
    runs: &[Vec<NewEntry<A>>],
) -> Result<(), NoMemory>
    ensures { OnOk result (CanAdd round painted.old → IsAdded round (in_runs runs.now) painted.old painted.new) }
{
    for run in runs {
        add_run(alloc, painted, round, run)?;
    }
    Ok(())
}

#[cycle(painted)]
fn add_run<A: Ledger>(
    alloc: Global,
    painted: &mut Painted,
    round: usize,
    run: &[NewEntry<A>],
) -> Result<(), NoMemory>
    ensures { OnOk result (CanAdd round painted.old → IsAdded round (new_entries run.now) painted.old painted.new) }
{
    for entry in run {
        add_entry(alloc, painted, round, entry)?;
    }
    Ok(())
}

#[cycle(painted)]
fn add_entry<A: Ledger>(
    alloc: Global,
    painted: &mut Painted,
    round: usize,
    entry: &NewEntry<A>,
) -> Result<(), NoMemory>
    ensures { OnOk result (CanAdd round painted.old → IsAdded round (new_entries (entry.now ∷ [])) painted.old painted.new) }
{
    match entry {
        NewEntry::Leaf(item) => {
            let leaf = leaf_of(item);
            painted.leaves.push(Found { round, leaf })?;
            Ok(())
        }
        NewEntry::Group {
            key,
            opacity,
            blend,
            inner,
        } => {
            let group = Around {
                key: *key,
                opacity: *opacity,
                blend: *blend,
            };
            let within = painted.rounds.within(alloc, round, group)?;
            add_list(alloc, painted, within, inner)
        }
    }
}
