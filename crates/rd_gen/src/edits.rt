//! The edits of a generated script.

ghost use Rattle.std.specs.Prelude.{◌≡◌, ◌<◌, ◌≤◌, IfOk};
ghost use Rattle.rd_gen.specs.Commands as commands;
ghost use Rattle.rd_gen.specs.Names as names;

use crate::draw::Draw;
use crate::names::{box_id, new_id};
use crate::styles::{background_change, opacity_change, visibility_change, z_change};
use crate::values::{color, rectangle};
use rd_edits::Edit;
use rd_geom::NoMemory;
use rd_style::{Style, StyleChange};
use std::alloc::Global;

/// The box `t` moved to the end of one of `boxes` boxes.
#[tactic(auto, unfolding(crate::specs::Commands::moved))]
fn moved(alloc: Global, draw: &mut Draw, boxes: u32, t: u32) -> Result<Edit, NoMemory>
    requires { 1 ≤ boxes }
    ensures { IfOk result (λ e. commands.moved boxes t draw.old ≡ (e, draw.new)) }
{
    let id = box_id(alloc, t)?;
    let parent = box_id(alloc, draw.below(boxes))?;
    Ok(Edit::Move {
        id,
        parent,
        before: None,
    })
}

/// The new box of the edit `j`, as the last child of the box `t`.
#[tactic(auto, unfolding(crate::specs::Commands::inserted))]
fn inserted(alloc: Global, draw: &mut Draw, j: u32, t: u32) -> Result<Edit, NoMemory>
    ensures { IfOk result (λ e. commands.inserted j t draw.old ≡ (e, draw.new)) }
{
    let id = new_id(alloc, j)?;
    let parent = box_id(alloc, t)?;
    let rect = rectangle(draw);
    let mut style = Style::plain();
    style.background = color(draw);
    Ok(Edit::Insert {
        id,
        parent,
        before: None,
        rect,
        style,
    })
}

/// The box `t` taken away one time of eight, and else hidden or shown.
#[tactic(auto, unfolding(crate::specs::Commands::removed_or_not))]
fn removed_or_not(alloc: Global, draw: &mut Draw, t: u32) -> Result<Edit, NoMemory>
    ensures { IfOk result (λ e. commands.removed_or_not t draw.old ≡ (e, draw.new)) }
{
    let id = box_id(alloc, t)?;
    if draw.below(8) == 0 {
        return Ok(Edit::Remove { id });
    }
    let change = visibility_change(draw);
    Ok(Edit::SetStyle { id, change })
}

#[tactic(auto, unfolding(crate::specs::Commands::placed))]
fn placed(alloc: Global, draw: &mut Draw, t: u32) -> Result<Edit, NoMemory>
    ensures { IfOk result (λ e. commands.placed t draw.old ≡ (e, draw.new)) }
{
    let id = box_id(alloc, t)?;
    let rect = rectangle(draw);
    Ok(Edit::SetRect { id, rect })
}

#[tactic(auto, unfolding(crate::specs::Commands::shifted))]
fn shifted(alloc: Global, draw: &mut Draw, t: u32) -> Result<Edit, NoMemory>
    ensures { IfOk result (λ e. commands.shifted t draw.old ≡ (e, draw.new)) }
{
    let id = box_id(alloc, t)?;
    let dx = draw.below_less(33, 16);
    let dy = draw.below_less(33, 16);
    Ok(Edit::Shift { id, dx, dy })
}

/// The style of the box `t` by these draws.
fn restyled(alloc: Global, t: u32, change: StyleChange) -> Result<Edit, NoMemory>
    ensures { IfOk result (λ e. e ≡ Edit.SetStyle (names.box_id t) change) }
{
    let id = box_id(alloc, t)?;
    Ok(Edit::SetStyle { id, change })
}

/// The edit `j`, of this kind, at the box `t`.
#[tactic(auto, unfolding(crate::specs::Commands::edit_by))]
fn edit_by(
    alloc: Global,
    draw: &mut Draw,
    boxes: u32,
    j: u32,
    t: u32,
    kind: u32,
) -> Result<Edit, NoMemory>
    requires some { 1 ≤ boxes }
    requires kind { kind < 8 }
    ensures { IfOk result (λ e. commands.edit_by boxes j t kind draw.old ≡ (e, draw.new)) }
{
    match kind {
        0 => restyled(alloc, t, background_change(draw)),
        1 => placed(alloc, draw, t),
        2 => shifted(alloc, draw, t),
        3 => moved(alloc, draw, boxes, t),
        4 => restyled(alloc, t, z_change(draw)),
        5 => restyled(alloc, t, opacity_change(draw)),
        6 => inserted(alloc, draw, j, t),
        _ => removed_or_not(alloc, draw, t),
    }
}

/// The edit `j`, where there are `boxes` boxes.
#[tactic(auto, unfolding(crate::specs::Commands::edit))]
pub(crate) fn edit(alloc: Global, draw: &mut Draw, boxes: u32, j: u32) -> Result<Edit, NoMemory>
    requires { 1 ≤ boxes }
    ensures { IfOk result (λ e. commands.edit boxes j draw.old ≡ (e, draw.new)) }
{
    let t = draw.below(boxes);
    let kind = draw.below(8);
    edit_by(alloc, draw, boxes, j, t, kind)
}
