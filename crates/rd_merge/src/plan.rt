//! Plans: all that a merge needs, made before the first change.
ghost use Rattle.std.specs.Prelude.{◌≡◌};

use rd_graph::Patch;
use rd_list::{Chunks, Entry, Level};
use std::alloc::Global;
use std::marker::Model;
use std::sync::ledger::Ledger;

/// What a merge does at a level: the patch of its graph, what is put where, and room for the entries that are made, for those that are
/// set aside and for the line, for what chunks say of the line and then of the result, and for the level itself.
#[derive(Drop)]
#[cycle(plan)]
pub struct Plan<A: Ledger> {
    pub(crate) alloc: Global,
    pub(crate) patch: Patch,
    pub(crate) steps: Vec<Step<A>>,
    pub(crate) made: Vec<Entry<A>>,
    pub(crate) aside: Vec<Entry<A>>,
    pub(crate) room: Vec<Entry<A>>,
    pub(crate) parts: Chunks,
    pub(crate) chunks: Chunks,
    pub(crate) level: Box<Level<A>>,
}

/// The next new leaf goes to a place of the level, or is made. Or there is something to do in a group: at a place of the level, or it is made; the next
/// new entry goes into it, or only what is touched goes out of it.
#[derive(Drop)]
#[cycle(plan)]
pub enum Step<A: Ledger> {
    Leaf(Option<usize>),
    Group {
        old: Option<usize>,
        is_new: bool,
        plan: Box<Plan<A>>,
    },
}

impl<A: Ledger> Model for Plan<A> {
    ghost use Rattle.std.specs.Prelude.{◌≡◌, ◌≤◌, [], length, vec_len, vec_capacity};
    ghost use Rattle.rd_merge.specs.Plans.{PlanList, made_count};
    ghost use Rattle.rd_merge.specs.Internal.PlanCode.{plan_code};
    ghost use Rattle.rd_graph.specs.Runs.{HasLineRoom};
    ghost use Rattle.rd_graph.specs.Patches.{line_of};
    ghost use Rattle.rd_graph.specs.contracts.patch.Patch as patch_row;
    ghost use Rattle.rd_list.specs.Entries.{list_size};

    ghost Value = { PlanList };

    ghost coded = { plan_code patch_row.the_row.coded };

    ghost use Rattle.rd_merge.specs.PlanView.{steps_seen};

    ghost view = { λ p. record { patch = p.patch; steps = steps_seen p.steps.items } };

    ghost invariant = { λ p. (vec_len p.made ≡ 0) × (made_count (steps_seen p.steps.items) ≤ vec_capacity p.made) × HasLineRoom (line_of p.patch) p.room × (p.parts.chunks.items ≡ []) × (p.parts.blocks.items ≡ []) × (p.chunks.chunks.items ≡ []) × (p.chunks.blocks.items ≡ []) };

    ghost size = { λ p. list_size p.steps };

    ghost use Rattle.std.proofs.Common.{arith};
    ghost use Rattle.rd_merge.specs.Internal.PlanFalls.{most_le-steps_seen};

    ghost size_decreases = { λ p h. Prim.omega (arith, most_le-steps_seen A.Ledger p.steps.items) };
}
