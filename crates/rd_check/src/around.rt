//! Leaves and the groups round them.
ghost use Rattle.std.specs.Prelude.{◌≡◌, ◌<◌, ◌++◌, ◌∷◌, [], length, map, IfOk, OnOk};
ghost use Rattle.rd_check.specs.Internal.Finding as finding;
ghost use Rattle.rd_check.specs.Internal.Rounds.{group_of, round_at, IsGrown};

use rd_geom::{Blend, NoMemory};
use rd_item::Leaf;
use rd_keys::BoxKey;
use std::alloc::Global;

/// A group round an entry: its box, its opacity and its blend mode.
#[derive(Clone, Copy)]
pub(crate) struct Around {
    pub(crate) key: BoxKey,
    pub(crate) opacity: u8,
    pub(crate) blend: Blend,
}

/// A leaf, and the row of a table that has the groups round it.
#[derive(Clone, Copy)]
pub(crate) struct Found {
    pub(crate) round: usize,
    pub(crate) leaf: Leaf,
}

/// The groups round entries, from the outside in; the first row is that of no group.
#[derive(Drop)]
pub(crate) struct Rounds {
    rows: Vec<Vec<Around>>,
}

fn copied(alloc: Global, groups: &[Around]) -> Result<Vec<Around>, NoMemory>
    ensures { IfOk result (λ v. v.items ≡ groups.now) }
{
    let mut all = Vec::new(alloc);
    all.extend_from_slice(groups)?;
    Ok(all)
}

/// These groups, and one in them.
fn with_more(alloc: Global, groups: &[Around], group: Around) -> Result<Vec<Around>, NoMemory>
    ensures { IfOk result (λ v. v.items ≡ groups.now ++ group ∷ []) }
{
    let mut all = copied(alloc, groups)?;
    all.push(group)?;
    Ok(all)
}

impl Rounds {
    /// The row of no group alone.
    pub(crate) fn new(alloc: Global) -> Result<Rounds, NoMemory>
        ensures one { IfOk result (λ r. 0 < length r.rows.items) }
        ensures none { IfOk result (λ r. round_at r.rows.items 0 ≡ []) }
    {
        let mut rows = Vec::new(alloc);
        rows.push(Vec::new(alloc))?;
        Ok(Rounds { rows })
    }

    /// The groups of a row; none where there is no such row.
    pub(crate) fn get(&self, row: usize) -> &[Around]
        ensures { map group_of result.now ≡ round_at self.now.rows.items row }
    {
        match self.rows.get(row) {
            Some(groups) => groups.as_slice(),
            None => &[],
        }
    }

    /// The row of what stands in a group, round which are the groups of this row.
    pub(crate) fn within(
        &mut self,
        alloc: Global,
        row: usize,
        group: Around,
    ) -> Result<usize, NoMemory>
        ensures grown { OnOk result (IsGrown self.old.rows.items self.new.rows.items) }
        ensures there { IfOk result (λ p. p < length self.new.rows.items) }
        ensures round { IfOk result (λ p. round_at self.new.rows.items p
            ≡ round_at self.old.rows.items row ++ group_of group ∷ []) }
    {
        let inner = with_more(alloc, self.get(row), group)?;
        let place = self.rows.len();
        self.rows.push(inner)?;
        Ok(place)
    }
}

fn same_mode(a: Blend, b: Blend) -> bool
    ensures { result ≡ finding.same_mode a b }
{
    a == b
}

fn same_group(a: &Around, b: &Around) -> bool
    ensures { result ≡ finding.same_group (group_of a.now) (group_of b.now) }
{
    a.key.is(b.key) && a.opacity == b.opacity && same_mode(a.blend, b.blend)
}

/// Are they the same groups?
pub(crate) fn same_groups(a: &[Around], b: &[Around]) -> bool
    ensures { result ≡ finding.same_groups (map group_of a.now) (map group_of b.now) }
{
    match a {
        [] => match b {
            [] => true,
            [_, ..] => false,
        },
        [x, xs @ ..] => match b {
            [] => false,
            [y, ys @ ..] => same_group(x, y) && same_groups(xs, ys),
        },
    }
}
