//! Why an edit would be refused, told without doing it.

ghost use Rattle.std.specs.Prelude.{◌≡◌};
ghost use Rattle.rd_edits.specs.Refusals.{refusal_of};
ghost use Rattle.rd_edits.specs.declared.edit.Edit.TheVariants.{Insert, Remove, Move, SetStyle, SetRect, Shift, Scroll};

use crate::checks::{
    fits_change, fits_scroll, is_before_itself, is_full, is_root, is_too_deep, place_of,
};
use crate::edit::Edit;
use crate::fault::EditFault;
use rd_geom::Rect;
use rd_style::{Style, StyleChange, fits, fits_rect};
use rd_tree::{Id, Tree};
use std::sync::ledger::Ledger;

#[tactic(auto, using(rd_tree::proofs::Nodes::Naming::named_there))]
fn of_insertion<B: Ledger>(
    tree: &Tree<B>,
    id: &Id,
    parent: &Id,
    before: &Option<Id>,
    rect: Rect,
    style: &Style,
) -> Option<EditFault>
    ensures { result ≡ refusal_of tree.now (Insert id.now parent.now before.now rect style.now) }
{
    let Some(above) = tree.find(parent) else {
        return Some(EditFault::UnknownParent);
    };
    if place_of(tree, above, before).is_none() {
        return Some(EditFault::NotAChild);
    }
    if tree.find(id).is_some() {
        return Some(EditFault::DuplicateId);
    }
    if is_too_deep(tree, above, 1) {
        return Some(EditFault::TooDeep);
    }
    if is_full(tree) {
        return Some(EditFault::TooMany);
    }
    if !fits_rect(rect) || !fits(style) {
        return Some(EditFault::OutOfRange);
    }
    None
}

#[tactic(auto, using(rd_tree::proofs::Nodes::Naming::named_there))]
fn of_removal<B: Ledger>(tree: &Tree<B>, id: &Id) -> Option<EditFault>
    ensures { result ≡ refusal_of tree.now (Remove id.now) }
{
    let Some(key) = tree.find(id) else {
        return Some(EditFault::UnknownId);
    };
    if is_root(tree, key) {
        return Some(EditFault::IsRoot);
    }
    None
}

#[tactic(auto, using(rd_tree::proofs::Nodes::Naming::named_there))]
fn of_move<B: Ledger>(
    tree: &Tree<B>,
    id: &Id,
    parent: &Id,
    before: &Option<Id>,
) -> Option<EditFault>
    ensures { result ≡ refusal_of tree.now (Move id.now parent.now before.now) }
{
    let Some(key) = tree.find(id) else {
        return Some(EditFault::UnknownId);
    };
    let Some(above) = tree.find(parent) else {
        return Some(EditFault::UnknownParent);
    };
    if is_root(tree, key) {
        return Some(EditFault::IsRoot);
    }
    if tree.inside(above, key) {
        return Some(EditFault::IntoItself);
    }
    let Some(place) = place_of(tree, above, before) else {
        return Some(EditFault::NotAChild);
    };
    if is_before_itself(key, place) {
        return Some(EditFault::NotAChild);
    }
    if is_too_deep(tree, above, tree.height(key)) {
        return Some(EditFault::TooDeep);
    }
    None
}

fn of_style<B: Ledger>(tree: &Tree<B>, id: &Id, change: &StyleChange) -> Option<EditFault>
    ensures { result ≡ refusal_of tree.now (SetStyle id.now change.now) }
{
    if tree.find(id).is_none() {
        return Some(EditFault::UnknownId);
    }
    if !fits_change(change) {
        return Some(EditFault::OutOfRange);
    }
    None
}

fn of_rect<B: Ledger>(tree: &Tree<B>, id: &Id, rect: Rect) -> Option<EditFault>
    ensures { result ≡ refusal_of tree.now (SetRect id.now rect) }
{
    if tree.find(id).is_none() {
        return Some(EditFault::UnknownId);
    }
    if !fits_rect(rect) {
        return Some(EditFault::OutOfRange);
    }
    None
}

#[tactic(auto, using(rd_tree::proofs::Nodes::Naming::named_there))]
fn of_shift<B: Ledger>(tree: &Tree<B>, id: &Id, dx: i32, dy: i32) -> Option<EditFault>
    ensures { result ≡ refusal_of tree.now (Shift id.now dx dy) }
{
    let Some(key) = tree.find(id) else {
        return Some(EditFault::UnknownId);
    };
    if !tree.shift_fits(key, dx, dy) {
        return Some(EditFault::OutOfRange);
    }
    None
}

fn of_scroll<B: Ledger>(tree: &Tree<B>, id: &Id, x: i32, y: i32) -> Option<EditFault>
    ensures { result ≡ refusal_of tree.now (Scroll id.now x y) }
{
    if tree.find(id).is_none() {
        return Some(EditFault::UnknownId);
    }
    if !fits_scroll(x, y) {
        return Some(EditFault::OutOfRange);
    }
    None
}

/// The fault by which [`apply`](crate::apply) refuses the edit, want of memory aside. None exactly where none of the tests
/// refuses it.
pub fn verdict<B: Ledger>(tree: &Tree<B>, edit: &Edit) -> Option<EditFault>
    ensures { result ≡ refusal_of tree.now edit.now }
{
    match edit {
        Edit::Insert {
            id,
            parent,
            before,
            rect,
            style,
        } => of_insertion(tree, id, parent, before, *rect, style),
        Edit::Remove { id } => of_removal(tree, id),
        Edit::Move { id, parent, before } => of_move(tree, id, parent, before),
        Edit::SetStyle { id, change } => of_style(tree, id, change),
        Edit::SetRect { id, rect } => of_rect(tree, id, *rect),
        Edit::Shift { id, dx, dy } => of_shift(tree, id, *dx, *dy),
        Edit::Scroll { id, x, y } => of_scroll(tree, id, *x, *y),
    }
}
