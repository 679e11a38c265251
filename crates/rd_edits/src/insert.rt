//! A box more.

ghost use Rattle.std.specs.Prelude.{◌≡◌, IfErr, OnOk, OnErr, None};
ghost use Rattle.rd_edits.specs.Edited.{IsEdited};
ghost use Rattle.rd_edits.specs.Refusals.{IsRefused, refusal_of};
ghost use Rattle.rd_edits.specs.declared.edit.Edit.TheVariants.{Insert};

use crate::checks::{is_full, is_too_deep, place_of};
use crate::fault::EditFault;
use rd_geom::Rect;
use rd_style::{Style, fits, fits_rect};
use rd_tree::{Id, Tree};
use std::sync::ledger::Ledger;

/// Puts a new box below its parent.
#[tactic(auto, using(rd_tree::proofs::Nodes::Naming::named_there))]
pub(crate) fn insert<B: Ledger>(
    tree: &mut Tree<B>,
    id: &Id,
    parent: &Id,
    before: &Option<Id>,
    rect: Rect,
    style: &Style,
) -> Result<(), EditFault>
    ensures refused { IfErr result (λ f. IsRefused tree.old (Insert id.now parent.now before.now
        rect style.now) f) }
    ensures accepted { OnOk result (refusal_of tree.old (Insert id.now parent.now before.now rect
        style.now) ≡ None) }
    ensures done { OnOk result (IsEdited (Insert id.now parent.now before.now rect style.now)
        tree.old tree.new) }
    ensures kept { OnErr result (tree.new ≡ tree.old) }
{
    let Some(above) = tree.find(parent) else {
        return Err(EditFault::UnknownParent);
    };
    let Some(place) = place_of(tree, above, before) else {
        return Err(EditFault::NotAChild);
    };
    if tree.find(id).is_some() {
        return Err(EditFault::DuplicateId);
    }
    if is_too_deep(tree, above, 1) {
        return Err(EditFault::TooDeep);
    }
    if is_full(tree) {
        return Err(EditFault::TooMany);
    }
    if !fits_rect(rect) || !fits(style) {
        return Err(EditFault::OutOfRange);
    }
    tree.insert(above, place, id, rect, *style)?;
    Ok(())
}
