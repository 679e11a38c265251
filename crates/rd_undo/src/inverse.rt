//! The edits that undo an edit.
ghost use Rattle.std.specs.Prelude.{◌≡◌, ◌+◌, ◌≤◌, ◌∷◌, ◌++◌, [], None as Nothing, IfOk, OnOk};
ghost use Rattle.rd_keys.specs.Keys.{same_key};
ghost use Rattle.rd_tree.specs.Forest.{size, head, from_some};
ghost use Rattle.rd_tree.specs.ByIds.{by_ids};
ghost use Rattle.rd_tree.specs.Proper.{IsProper};
ghost use Rattle.rd_edits.specs.Refusals.{refusal_of};
ghost use Rattle.rd_edits.specs.declared.edit.Edit.TheVariants.{Insert, Remove, Move, SetStyle, SetRect, Shift, Scroll as Scrolled};
ghost use Rattle.rd_undo.specs.Inverse.{insertions, is_unscrolled, rescrolling, rescrollings, inverse, boxes_of};

use crate::previous::previous;
use crate::visit::{Visit, copy_id, stand_of, visit_box, visit_named};
use rd_edits::Edit;
use rd_geom::{NoMemory, Rect, Steps};
use rd_style::StyleChange;
use rd_tree::{BoxKey, Id, Scroll, Tree};
use std::alloc::Global;
use std::sync::ledger::Ledger;

/// One edit alone.
fn only(alloc: Global, edit: Edit) -> Result<Vec<Edit>, NoMemory>
    ensures { IfOk result (λ v. v.items ≡ edit ∷ []) }
{
    let mut edits = Vec::new(alloc);
    edits.push(edit)?;
    Ok(edits)
}

/// Adds the insertion that puts a box back.
fn push_insertion(
    out: &mut Vec<Edit>,
    visit: &Visit<'_>,
    parent: &Id,
    before: Option<Id>,
) -> Result<(), NoMemory>
    ensures { OnOk result (out.new.items ≡ out.old.items ++ Insert visit.now.id.now parent.now before visit.now.rect visit.now.style ∷ []) }
{
    let id = visit.id.copy()?;
    let parent = parent.copy()?;
    out.push(Edit::Insert {
        id,
        parent,
        before,
        rect: visit.rect,
        style: visit.style,
    })?;
    Ok(())
}

fn is_unscrolled(scroll: Scroll) -> bool
    ensures { result ≡ is_unscrolled scroll }
{
    scroll.x == 0 && scroll.y == 0
}

/// The edit that gives a box this scroll offset.
fn scrolling(id: Id, to: Scroll) -> Edit
    ensures { result ≡ Scrolled id to.x to.y }
{
    Edit::Scroll {
        id,
        x: to.x,
        y: to.y,
    }
}

/// Adds what gives a box that is put back its scroll offset, where it was scrolled.
fn push_scrolling(out: &mut Vec<Edit>, visit: &Visit<'_>) -> Result<(), NoMemory>
    ensures { OnOk result (out.new.items ≡ out.old.items ++ rescrolling visit.now.id.now visit.now.scroll) }
{
    if is_unscrolled(visit.scroll) {
        return Ok(());
    }
    let id = visit.id.copy()?;
    out.push(scrolling(id, visit.scroll))?;
    Ok(())
}

/// Adds the insertions that put some siblings and all below them back, in tree order, and what scrolls them to where they
/// were. Looks once at each.
fn push_insertions<B: Ledger>(
    out: &mut Vec<Edit>,
    scrolls: &mut Vec<Edit>,
    tree: &Tree<B>,
    parent: &Id,
    first: Option<BoxKey>,
    looks: &mut Steps<B>,
) -> Result<(), NoMemory>
    requires { first ≡ head (from_some same_key first tree.now.boxes) }
    ensures pushed { OnOk result (out.new.items ≡ out.old.items ++ insertions parent.now (by_ids (from_some same_key first tree.now.boxes))) }
    ensures scrolled { OnOk result (scrolls.new.items ≡ scrolls.old.items ++ rescrollings (by_ids (from_some same_key first tree.now.boxes))) }
    ensures looks { looks.new ≤ looks.old + size (from_some same_key first tree.now.boxes) }
{
    let mut next = first;
    while let Some(key) = next {
        let seen = visit_box(tree, key, looks);
        push_insertion(out, &seen, parent, None)?;
        push_scrolling(scrolls, &seen)?;
        push_insertions(out, scrolls, tree, seen.id, seen.first_child, looks)?;
        next = seen.next_sibling;
    }
    Ok(())
}

/// What undoes an insertion.
fn of_insertion(alloc: Global, id: &Id) -> Result<Vec<Edit>, NoMemory>
    ensures { IfOk result (λ v. v.items ≡ Remove id.now ∷ []) }
{
    let id = id.copy()?;
    only(alloc, Edit::Remove { id })
}

/// What undoes a removal.
fn of_removal<B: Ledger>(
    alloc: Global,
    tree: &Tree<B>,
    id: &Id,
    looks: &mut Steps<B>,
) -> Result<Vec<Edit>, NoMemory>
    requires proper { IsProper tree.now }
    requires accepted { refusal_of tree.now (Remove id.now) ≡ Nothing }
    ensures inverse { IfOk result (λ v. v.items ≡ inverse tree.now (Remove id.now)) }
    ensures looks { looks.new ≤ looks.old + boxes_of tree.now (Remove id.now) }
{
    let stand = stand_of(tree, id, looks);
    let before = copy_id(tree, stand.visit.next_sibling)?;
    let mut edits = Vec::new(alloc);
    let mut scrolls = Vec::new(alloc);
    push_insertion(&mut edits, &stand.visit, stand.parent, before)?;
    push_scrolling(&mut scrolls, &stand.visit)?;
    push_insertions(
        &mut edits,
        &mut scrolls,
        tree,
        stand.visit.id,
        stand.visit.first_child,
        looks,
    )?;
    edits.append(&mut scrolls)?;
    Ok(edits)
}

/// What undoes a move.
fn of_move<B: Ledger>(
    alloc: Global,
    tree: &Tree<B>,
    id: &Id,
    parent: &Id,
    before: &Option<Id>,
    looks: &mut Steps<B>,
) -> Result<Vec<Edit>, NoMemory>
    requires proper { IsProper tree.now }
    requires accepted { refusal_of tree.now (Move id.now parent.now before.now) ≡ Nothing }
    ensures inverse { IfOk result (λ v. v.items ≡ inverse tree.now (Move id.now parent.now before.now)) }
    ensures looks { looks.new ≤ looks.old + boxes_of tree.now (Move id.now parent.now before.now) }
{
    let stand = stand_of(tree, id, looks);
    let before = copy_id(tree, stand.visit.next_sibling)?;
    let id = id.copy()?;
    let parent = stand.parent.copy()?;
    only(alloc, Edit::Move { id, parent, before })
}

/// What undoes a change of style.
fn of_style<B: Ledger>(
    alloc: Global,
    tree: &Tree<B>,
    id: &Id,
    change: &StyleChange,
    looks: &mut Steps<B>,
) -> Result<Vec<Edit>, NoMemory>
    requires proper { IsProper tree.now }
    requires accepted { refusal_of tree.now (SetStyle id.now change.now) ≡ Nothing }
    ensures inverse { IfOk result (λ v. v.items ≡ inverse tree.now (SetStyle id.now change.now)) }
    ensures looks { looks.new ≤ looks.old + boxes_of tree.now (SetStyle id.now change.now) }
{
    let seen = visit_named(tree, id, looks);
    let change = previous(&seen.style, change);
    let id = id.copy()?;
    only(alloc, Edit::SetStyle { id, change })
}

/// What undoes another rectangle.
fn of_rect<B: Ledger>(
    alloc: Global,
    tree: &Tree<B>,
    id: &Id,
    rect: Rect,
    looks: &mut Steps<B>,
) -> Result<Vec<Edit>, NoMemory>
    requires proper { IsProper tree.now }
    requires accepted { refusal_of tree.now (SetRect id.now rect) ≡ Nothing }
    ensures inverse { IfOk result (λ v. v.items ≡ inverse tree.now (SetRect id.now rect)) }
    ensures looks { looks.new ≤ looks.old + boxes_of tree.now (SetRect id.now rect) }
{
    let _ = rect;
    let seen = visit_named(tree, id, looks);
    let id = id.copy()?;
    only(
        alloc,
        Edit::SetRect {
            id,
            rect: seen.rect,
        },
    )
}

/// What undoes a shift.
fn of_shift<B: Ledger>(
    alloc: Global,
    tree: &Tree<B>,
    id: &Id,
    dx: i32,
    dy: i32,
) -> Result<Vec<Edit>, NoMemory>
    requires proper { IsProper tree.now }
    requires accepted { refusal_of tree.now (Shift id.now dx dy) ≡ Nothing }
    ensures { IfOk result (λ v. v.items ≡ inverse tree.now (Shift id.now dx dy)) }
{
    let _ = tree;
    let id = id.copy()?;
    only(
        alloc,
        Edit::Shift {
            id,
            dx: -dx,
            dy: -dy,
        },
    )
}

/// What undoes another scroll offset.
fn of_scroll<B: Ledger>(
    alloc: Global,
    tree: &Tree<B>,
    id: &Id,
    x: i32,
    y: i32,
    looks: &mut Steps<B>,
) -> Result<Vec<Edit>, NoMemory>
    requires proper { IsProper tree.now }
    requires accepted { refusal_of tree.now (Scrolled id.now x y) ≡ Nothing }
    ensures inverse { IfOk result (λ v. v.items ≡ inverse tree.now (Scrolled id.now x y)) }
    ensures looks { looks.new ≤ looks.old + boxes_of tree.now (Scrolled id.now x y) }
{
    let _ = (x, y);
    let seen = visit_named(tree, id, looks);
    let id = id.copy()?;
    only(alloc, scrolling(id, seen.scroll))
}

/// What undoes an edit that the tree accepts.
pub(crate) fn inverse_of<B: Ledger>(
    alloc: Global,
    tree: &Tree<B>,
    edit: &Edit,
    looks: &mut Steps<B>,
) -> Result<Vec<Edit>, NoMemory>
    requires proper { IsProper tree.now }
    requires accepted { refusal_of tree.now edit.now ≡ Nothing }
    ensures inverse { IfOk result (λ v. v.items ≡ inverse tree.now edit.now) }
    ensures looks { looks.new ≤ looks.old + boxes_of tree.now edit.now }
{
    match edit {
        Edit::Insert { id, .. } => of_insertion(alloc, id),
        Edit::Remove { id } => of_removal(alloc, tree, id, looks),
        Edit::Move { id, parent, before } => of_move(alloc, tree, id, parent, before, looks),
        Edit::SetStyle { id, change } => of_style(alloc, tree, id, change, looks),
        Edit::SetRect { id, rect } => of_rect(alloc, tree, id, *rect, looks),
        Edit::Shift { id, dx, dy } => of_shift(alloc, tree, id, *dx, *dy),
        Edit::Scroll { id, x, y } => of_scroll(alloc, tree, id, *x, *y, looks),
    }
}
