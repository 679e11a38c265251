//! The tree after the commands of a script.
ghost use Rattle.std.specs.Prelude.{IfOk};
ghost use Rattle.rd_why.specs.After.{IsAfter};

use rd_geom::{NoMemory, Steps};
use rd_run::last_tree;
use rd_scene::Script;
use rd_tree::Tree;
use std::alloc::Global;
use std::sync::ledger::Ledger;

/// The tree of a script once its edits and undos are done. What it asks and paints is passed over.
pub(crate) fn after<A: Ledger, B: Ledger>(
    alloc: Global,
    script: &Script,
    made: &mut Steps<A>,
    looks: &mut Steps<B>,
) -> Result<Tree<B>, NoMemory>
    ensures { IfOk result (IsAfter script.now) }
{
    let tree: Tree<B> = last_tree(alloc, script, made, looks)?;
    Ok(tree)
}
