//! An edit is done, or refused.

ghost use Rattle.std.specs.Prelude.{◌≡◌, IfErr, OnOk, OnErr, None};
ghost use Rattle.rd_edits.specs.Edited.{IsEdited};
ghost use Rattle.rd_edits.specs.Refusals.{IsRefused, refusal_of};

use crate::edit::Edit;
use crate::fault::EditFault;
use crate::insert::insert;
use crate::moves::{move_to, remove};
use crate::values::{scroll, set_rect, set_style, shift};
use rd_tree::Tree;
use std::sync::ledger::Ledger;

/// Does the edit, and touches the boxes that it changes. It is refused by the first test of the list in [`EditFault`] that
/// holds, and the tree is as before then. Only an insertion takes memory.
pub fn apply<B: Ledger>(tree: &mut Tree<B>, edit: &Edit) -> Result<(), EditFault>
    ensures refused { IfErr result (λ f. IsRefused tree.old edit.now f) }
    ensures accepted { OnOk result (refusal_of tree.old edit.now ≡ None) }
    ensures done { OnOk result (IsEdited edit.now tree.old tree.new) }
    ensures kept { OnErr result (tree.new ≡ tree.old) }
{
    match edit {
        Edit::Insert {
            id,
            parent,
            before,
            rect,
            style,
        } => insert(tree, id, parent, before, *rect, style),
        Edit::Remove { id } => remove(tree, id),
        Edit::Move { id, parent, before } => move_to(tree, id, parent, before),
        Edit::SetStyle { id, change } => set_style(tree, id, change),
        Edit::SetRect { id, rect } => set_rect(tree, id, *rect),
        Edit::Shift { id, dx, dy } => shift(tree, id, *dx, *dy),
        Edit::Scroll { id, x, y } => scroll(tree, id, *x, *y),
    }
}
