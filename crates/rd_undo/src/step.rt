//! A step that undoes an edit.
ghost use Rattle.std.specs.Prelude.{◌≡◌, ◌+◌, ◌≤◌, None as Nothing, IfOk};
ghost use Rattle.rd_edits.specs.Refusals.{refusal_of};
ghost use Rattle.rd_undo.specs.Inverse.{inverse, boxes_of};
ghost use Rattle.rd_undo.specs.Undoing.{Undoes};

use crate::inverse::inverse_of;
use rd_edits::Edit;
use rd_geom::{NoMemory, Steps};
use rd_tree::Tree;
use std::alloc::Global;
use std::marker::Model;
use std::sync::ledger::Ledger;

/// The edits that undo an edit, in the order in which they are done.
#[derive(Drop)]
pub struct Step {
    edits: Vec<Edit>,
}

impl Model for Step {
    ghost use Rattle.std.specs.Prelude.{List};
    ghost use Rattle.rd_edits.specs.declared.edit.Edit.{Edit};

    ghost Value = { List Edit };

    ghost view = { λ s. s.edits.items };
}

impl Step {
    /// What undoes an edit that the tree accepts, told before the edit is done. It looks at no more boxes than the box of the
    /// edit and all below it, and at none for an insertion.
    pub fn prepare<B: Ledger>(
        alloc: Global,
        tree: &Tree<B>,
        edit: &Edit,
        looks: &mut Steps<B>,
    ) -> Result<Step, NoMemory>
        requires { refusal_of tree.now edit.now ≡ Nothing }
        ensures inverse { IfOk result (λ s. s ≡ inverse tree.now edit.now) }
        ensures undoes { IfOk result (λ s. Undoes s edit.now tree.now) }
        ensures looks { looks.new ≤ looks.old + boxes_of tree.now edit.now }
    {
        // What every tree keeps is told with its root.
        let _ = tree.root();
        let edits = inverse_of(alloc, tree, edit, looks)?;
        Ok(Step { edits })
    }

    /// The edits, the first to be done first.
    pub fn edits(&self) -> &[Edit]
        ensures { result.now ≡ self.now }
    {
        &self.edits
    }
}
