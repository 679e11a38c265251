//! Edits of where boxes stand.

ghost use Rattle.std.specs.Prelude.{◌≡◌, IfErr, OnOk, OnErr, None};
ghost use Rattle.rd_edits.specs.Edited.{IsEdited};
ghost use Rattle.rd_edits.specs.Refusals.{IsRefused, refusal_of};
ghost use Rattle.rd_edits.specs.declared.edit.Edit.TheVariants.{Remove, Move};

use crate::checks::{is_before_itself, is_root, is_too_deep, place_of};
use crate::fault::EditFault;
use rd_tree::{Id, Tree};
use std::sync::ledger::Ledger;

/// Takes away a box and all below it.
#[tactic(auto, using(rd_tree::proofs::Nodes::Naming::named_there))]
pub(crate) fn remove<B: Ledger>(tree: &mut Tree<B>, id: &Id) -> Result<(), EditFault>
    ensures refused { IfErr result (λ f. IsRefused tree.old (Remove id.now) f) }
    ensures accepted { OnOk result (refusal_of tree.old (Remove id.now) ≡ None) }
    ensures done { OnOk result (IsEdited (Remove id.now) tree.old tree.new) }
    ensures kept { OnErr result (tree.new ≡ tree.old) }
{
    let Some(key) = tree.find(id) else {
        return Err(EditFault::UnknownId);
    };
    if is_root(tree, key) {
        return Err(EditFault::IsRoot);
    }
    tree.remove(key);
    Ok(())
}

/// Puts a box and all below it at another place.
#[tactic(auto, using(rd_tree::proofs::Nodes::Naming::named_there))]
pub(crate) fn move_to<B: Ledger>(
    tree: &mut Tree<B>,
    id: &Id,
    parent: &Id,
    before: &Option<Id>,
) -> Result<(), EditFault>
    ensures refused { IfErr result (λ f. IsRefused tree.old (Move id.now parent.now before.now) f) }
    ensures accepted { OnOk result (refusal_of tree.old (Move id.now parent.now before.now)
        ≡ None) }
    ensures done { OnOk result (IsEdited (Move id.now parent.now before.now) tree.old tree.new) }
    ensures kept { OnErr result (tree.new ≡ tree.old) }
{
    let Some(key) = tree.find(id) else {
        return Err(EditFault::UnknownId);
    };
    let Some(above) = tree.find(parent) else {
        return Err(EditFault::UnknownParent);
    };
    if is_root(tree, key) {
        return Err(EditFault::IsRoot);
    }
    if tree.inside(above, key) {
        return Err(EditFault::IntoItself);
    }
    let Some(place) = place_of(tree, above, before) else {
        return Err(EditFault::NotAChild);
    };
    if is_before_itself(key, place) {
        return Err(EditFault::NotAChild);
    }
    if is_too_deep(tree, above, tree.height(key)) {
        return Err(EditFault::TooDeep);
    }
    tree.relink(key, above, place);
    Ok(())
}
