//! The area that touched boxes invalidate.
ghost use Rattle.std.specs.Prelude.{◌≡◌, ◌≤◌, ◌+◌, ℤ, Some, false, IfOk, OnOk};
ghost use Rattle.rd_geom.specs.Areas.{in_area};
ghost use Rattle.rd_geom.specs.Canvas.{canvas_of};
ghost use Rattle.rd_list.specs.EntryNames.{kept_leaves};
ghost use Rattle.rd_tree.specs.Document.{IsRooted};
ghost use Rattle.rd_stack.specs.Internal.Looks.{IsFirst};
ghost use Rattle.rd_stack.specs.Paths.{OutlineFits};
ghost use Rattle.rd_partial.specs.Looks.{holds_touched, looks_bound};
ghost use Rattle.rd_partial.specs.Invalid.{is_invalid};
ghost use Rattle.rd_partial.specs.Internal.Inherited.{leaf_in};
ghost use Rattle.rd_partial.specs.Internal.BoxLook.{here_of};
ghost use Rattle.rd_partial.specs.Internal.Touched.{Joins, IsTold, leaf_shows, box_shows, own_shows, branch_shows, shows_below, shows_from, marks_from, touched_looks, looks_under};
ghost use Rattle.rd_tree.specs.Drawn.{drawn};

use crate::inherited::Inherited;
use crate::listed::add_list;
use crate::look::{BoxLook, look_at, root_of};
use crate::seeking::next_marked;
use rd_area::Area;
use rd_geom::{NoMemory, Steps};
use rd_keys::{BoxKey, Part};
use rd_list::ListView;
use rd_stack::BoxData;
use rd_tree::Tree;
use std::alloc::Global;
use std::sync::ledger::Ledger;

/// Adds what may be seen of a part of a box.
fn add_part(area: &mut Area, s: &Inherited, b: &BoxData, part: Part) -> Result<(), NoMemory>
    ensures { OnOk result (Joins (leaf_shows (leaf_in s.now b.now part)) area.old area.new) }
{
    match s.leaf(b, part) {
        Some(leaf) => {
            area.add(leaf.visible)?;
            Ok(())
        }
        None => Ok(()),
    }
}

/// Adds what may be seen of a box.
fn add_box(area: &mut Area, s: &Inherited, b: &BoxData) -> Result<(), NoMemory>
    ensures { OnOk result (Joins (box_shows s.now b.now) area.old area.new) }
{
    add_part(area, s, b, Part::Back)?;
    add_part(area, s, b, Part::Border)?;
    add_part(area, s, b, Part::Content)?;
    add_part(area, s, b, Part::Outline)?;
    Ok(())
}

/// Adds what may be seen of a box, if it is touched.
#[inline(always)]
fn add_if_touched(area: &mut Area, s: &Inherited, looked: &BoxLook<'_>) -> Result<(), NoMemory>
    requires fits { OutlineFits (here_of looked.now) }
    ensures { OnOk result (Joins (own_shows s.now looked.now) area.old area.new) }
{
    if looked.touched {
        add_box(area, s, &looked.here())
    } else {
        Ok(())
    }
}

/// Adds what may be seen of the touched boxes below a box; where there is none, no box is looked at.
#[cycle(touching)]
#[inline(always)]
fn add_below<B: Ledger>(
    tree: &Tree<B>,
    area: &mut Area,
    s: &Inherited,
    looked: &BoxLook<'_>,
    looks: &mut Steps<B>,
) -> Result<(), NoMemory>
    requires live { IsFirst looked.now.first_child (drawn tree.now) }
    requires fits { OutlineFits (here_of looked.now) }
    requires marks { looked.now.touched_below ≡ marks_from looked.now.first_child (drawn tree.now) }
    requires canvas { s.now.canvas ≡ canvas_of area.old.size }
    ensures area { OnOk result (Joins (shows_below s.now looked.now (drawn tree.now)) area.old area.new) }
    ensures looks { looks.new ≤ looks.old + looks_under looked.now (drawn tree.now) }
{
    if looked.touched_below > 0 {
        add_siblings(
            tree,
            area,
            &s.below(&looked.here()),
            looked.first_child,
            looked.touched_below,
            looks,
        )
    } else {
        Ok(())
    }
}

/// Adds what may be seen of a box that is not the root, if it is touched, and of the touched boxes below it. Where their hull
/// has no pixel of the canvas nothing of them may be seen, and no box is looked at.
#[cycle(touching)]
#[inline(always)]
fn add_branch<B: Ledger>(
    tree: &Tree<B>,
    area: &mut Area,
    s: &Inherited,
    looked: &BoxLook<'_>,
    looks: &mut Steps<B>,
) -> Result<(), NoMemory>
    requires below { s.now.root ≡ false }
    requires canvas { s.now.canvas ≡ canvas_of area.old.size }
    requires fits { OutlineFits (here_of looked.now) }
    requires told { IsTold (drawn tree.now) looked.now }
    ensures area { OnOk result (Joins (branch_shows s.now looked.now (drawn tree.now)) area.old area.new) }
    ensures looks { looks.new ≤ looks.old + looks_under looked.now (drawn tree.now) }
{
    if !s.may_show(looked.hull) {
        return Ok(());
    }
    add_if_touched(area, s, looked)?;
    add_below(tree, area, s, looked, looks)?;
    Ok(())
}

/// Adds what may be seen of the touched ones of some siblings, and of the touched boxes below them. So many marks are all
/// that they have, and no sibling is looked at after the last one.
#[cycle(touching)]
fn add_siblings<B: Ledger>(
    tree: &Tree<B>,
    area: &mut Area,
    s: &Inherited,
    first: Option<BoxKey>,
    marks: u32,
    looks: &mut Steps<B>,
) -> Result<(), NoMemory>
    requires below { s.now.root ≡ false }
    requires canvas { s.now.canvas ≡ canvas_of area.old.size }
    requires live { IsFirst first (drawn tree.now) }
    requires marks { marks ≡ marks_from first (drawn tree.now) }
    ensures area { OnOk result (Joins (shows_from s.now first (drawn tree.now)) area.old area.new) }
    ensures looks { looks.new ≤ looks.old + touched_looks first (drawn tree.now) }
{
    let mut left = marks;
    let mut at = first;
    while left > 0 {
        let looked = match next_marked(tree, at, looks) {
            Some(looked) => looked,
            None => unreachable!(),
        };
        add_branch(tree, area, s, &looked, looks)?;
        left -= looked.own_marks() + looked.touched_below;
        at = looked.next_sibling;
    }
    Ok(())
}

/// Adds what may be seen of the root, if it is touched, and of the touched boxes below it.
fn add_root<B: Ledger>(
    tree: &Tree<B>,
    area: &mut Area,
    s: &Inherited,
    root: BoxKey,
    looks: &mut Steps<B>,
) -> Result<(), NoMemory>
    requires root { root ≡ tree.now.root }
    requires rooted { IsRooted (drawn tree.now) }
    requires canvas { s.now.canvas ≡ canvas_of area.old.size }
    ensures area { OnOk result (Joins (shows_from s.now (Some root) (drawn tree.now)) area.old area.new) }
    ensures looks { looks.new ≤ looks.old + touched_looks (Some root) (drawn tree.now) }
{
    let looked = match look_at(tree, root, looks) {
        Some(looked) => looked,
        None => unreachable!(),
    };
    add_if_touched(area, s, &looked)?;
    add_below(tree, area, s, &looked, looks)?;
    Ok(())
}

/// The pixels of the canvas in the visible rectangle of a leaf of a touched box, in a list that was painted before or in
/// the fresh list of the tree. The list is read once, but for blocks of untouched boxes, and no box of the tree is entered that is not touched and has no
/// touched box below it, or whose hull is off the canvas. Looks are counted in `looks`, also where memory is wanting.
pub fn touched_area<A: Ledger, B: Ledger>(
    alloc: Global,
    tree: &Tree<B>,
    list: ListView<'_, A>,
    looks: &mut Steps<B>,
) -> Result<Area, NoMemory>
    ensures canvas { IfOk result (λ a. a.size ≡ tree.now.canvas) }
    ensures area { IfOk result (λ a. (x y : ℤ) → in_area a x y
        ≡ is_invalid tree.now (kept_leaves list.entry.list.now.entries) x y) }
    ensures looks { looks.new ≤ looks.old + looks_bound holds_touched (drawn tree.now).boxes }
{
    let mut area = Area::none(alloc, tree.canvas())?;
    add_list(tree, &mut area, list.list())?;
    let s = Inherited::at_root(tree.canvas());
    add_root(tree, &mut area, &s, root_of(tree), looks)?;
    Ok(area)
}
