//! Edits of what boxes are.

ghost use Rattle.std.specs.Prelude.{◌≡◌, IfErr, OnOk, OnErr, None};
ghost use Rattle.rd_edits.specs.Edited.{IsEdited};
ghost use Rattle.rd_edits.specs.Refusals.{IsRefused, refusal_of};
ghost use Rattle.rd_edits.specs.declared.edit.Edit.TheVariants.{Scroll, SetStyle, SetRect, Shift};

use crate::checks::{fits_change, fits_scroll};
use crate::fault::EditFault;
use rd_geom::Rect;
use rd_style::{StyleChange, fits_rect};
use rd_tree::{Id, Tree};
use std::sync::ledger::Ledger;

/// Changes the style of a box.
#[tactic(auto, using(rd_tree::proofs::Nodes::Naming::named_there, crate::proofs::Restyling::stays_within))]
pub(crate) fn set_style<B: Ledger>(
    tree: &mut Tree<B>,
    id: &Id,
    change: &StyleChange,
) -> Result<(), EditFault>
    ensures refused { IfErr result (λ f. IsRefused tree.old (SetStyle id.now change.now) f) }
    ensures accepted { OnOk result (refusal_of tree.old (SetStyle id.now change.now) ≡ None) }
    ensures done { OnOk result (IsEdited (SetStyle id.now change.now) tree.old tree.new) }
    ensures kept { OnErr result (tree.new ≡ tree.old) }
{
    let Some(key) = tree.find(id) else {
        return Err(EditFault::UnknownId);
    };
    if !fits_change(change) {
        return Err(EditFault::OutOfRange);
    }
    tree.change(key, change);
    Ok(())
}

/// Gives a box another rectangle.
#[tactic(auto, using(rd_tree::proofs::Nodes::Naming::named_there))]
pub(crate) fn set_rect<B: Ledger>(tree: &mut Tree<B>, id: &Id, rect: Rect) -> Result<(), EditFault>
    ensures refused { IfErr result (λ f. IsRefused tree.old (SetRect id.now rect) f) }
    ensures accepted { OnOk result (refusal_of tree.old (SetRect id.now rect) ≡ None) }
    ensures done { OnOk result (IsEdited (SetRect id.now rect) tree.old tree.new) }
    ensures kept { OnErr result (tree.new ≡ tree.old) }
{
    let Some(key) = tree.find(id) else {
        return Err(EditFault::UnknownId);
    };
    if !fits_rect(rect) {
        return Err(EditFault::OutOfRange);
    }
    tree.place(key, rect);
    Ok(())
}

/// Moves a box and all below it.
#[tactic(auto, using(rd_tree::proofs::Nodes::Naming::named_there))]
pub(crate) fn shift<B: Ledger>(
    tree: &mut Tree<B>,
    id: &Id,
    dx: i32,
    dy: i32,
) -> Result<(), EditFault>
    ensures refused { IfErr result (λ f. IsRefused tree.old (Shift id.now dx dy) f) }
    ensures accepted { OnOk result (refusal_of tree.old (Shift id.now dx dy) ≡ None) }
    ensures done { OnOk result (IsEdited (Shift id.now dx dy) tree.old tree.new) }
    ensures kept { OnErr result (tree.new ≡ tree.old) }
{
    let Some(key) = tree.find(id) else {
        return Err(EditFault::UnknownId);
    };
    if !tree.shift_fits(key, dx, dy) {
        return Err(EditFault::OutOfRange);
    }
    tree.shift(key, dx, dy);
    Ok(())
}

/// Gives a box another scroll offset.
#[tactic(auto, using(rd_tree::proofs::Nodes::Naming::named_there))]
pub(crate) fn scroll<B: Ledger>(
    tree: &mut Tree<B>,
    id: &Id,
    x: i32,
    y: i32,
) -> Result<(), EditFault>
    ensures refused { IfErr result (λ f. IsRefused tree.old (Scroll id.now x y) f) }
    ensures accepted { OnOk result (refusal_of tree.old (Scroll id.now x y) ≡ None) }
    ensures done { OnOk result (IsEdited (Scroll id.now x y) tree.old tree.new) }
    ensures kept { OnErr result (tree.new ≡ tree.old) }
{
    let Some(key) = tree.find(id) else {
        return Err(EditFault::UnknownId);
    };
    if !fits_scroll(x, y) {
        return Err(EditFault::OutOfRange);
    }
    tree.scroll(key, x, y);
    Ok(())
}
