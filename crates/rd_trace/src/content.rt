//! What a box paints of itself, and its line.
ghost use Rattle.std.specs.Prelude.{◌≡◌, ◌++◌, OnOk, Some};
ghost use Rattle.rd_trace.specs.Steps as spec;
ghost use Rattle.rd_trace.specs.Internal.Pieces as pieces;

use crate::placing::{PaintStep, Placing, Sight};
use crate::way::{Traced, TracedBox, at_first, place, placing, push_passed};
use rd_geom::NoMemory;
use rd_item::{Leaf, covers};
use rd_keys::Part;
use rd_stack::{BoxPath, is_atom, is_in_line, leaf_at};
use std::alloc::Global;

/// Puts a leaf at this place, where it covers the pixel.
fn see(
    alloc: Global,
    out: &mut Vec<Traced>,
    s: &Sight,
    w: &Placing,
    leaf: &Leaf,
) -> Result<(), NoMemory>
    ensures { OnOk result (out.new.items ≡ out.old.items ++ spec.seen s.now w.now (Some leaf.now)) }
{
    if covers(leaf, s.x, s.y) {
        let first = at_first(alloc, w, leaf)?;
        out.push(first)?;
        Ok(())
    } else {
        Ok(())
    }
}

/// Puts the leaf of a part of a box at this place, where there is one that covers the pixel.
pub(crate) fn trace(
    alloc: Global,
    out: &mut Vec<Traced>,
    s: &Sight,
    w: &Placing,
    part: Part,
    x: &BoxPath,
) -> Result<(), NoMemory>
    ensures { OnOk result (out.new.items ≡ out.old.items ++ spec.trace s.now w.now part x.now) }
{
    match leaf_at(&s.canvas, x, part) {
        Some(leaf) => see(alloc, out, s, w, &leaf),
        None => Ok(()),
    }
}

/// Puts the background of a box, and its border on top of it.
pub(crate) fn back_border(
    alloc: Global,
    out: &mut Vec<Traced>,
    s: &Sight,
    w: &Placing,
    x: &BoxPath,
) -> Result<(), NoMemory>
    ensures { OnOk result (out.new.items ≡ out.old.items ++ spec.back_border s.now w.now x.now) }
{
    trace(alloc, out, s, w, Part::Back, x)?;
    trace(alloc, out, s, w, Part::Border, x)
}

fn inline_box(
    alloc: Global,
    out: &mut Vec<Traced>,
    s: &Sight,
    w: &Placing,
    x: &BoxPath,
) -> Result<(), NoMemory>
    ensures { OnOk result (out.new.items ≡ out.old.items ++ pieces.inline_box s.now w.now x.now) }
{
    back_border(alloc, out, s, w, x)?;
    trace(alloc, out, s, w, Part::Content, x)
}

fn inline_part(
    alloc: Global,
    out: &mut Vec<Traced>,
    s: &Sight,
    step: PaintStep,
    e: &BoxPath,
    c: &BoxPath,
    x: &TracedBox,
) -> Result<(), NoMemory>
    ensures { OnOk result (out.new.items ≡ out.old.items ++ spec.inline_part s.now step e.now c.now x.now) }
{
    let w = placing(step, e, c, &x.at);
    if is_atom(&x.at) {
        push_passed(alloc, out, &w, &x.order)
    } else {
        inline_box(alloc, out, s, &w, &x.at)
    }
}

fn line_part(
    alloc: Global,
    out: &mut Vec<Traced>,
    s: &Sight,
    step: PaintStep,
    e: &BoxPath,
    c: &BoxPath,
    x: &TracedBox,
) -> Result<(), NoMemory>
    ensures { OnOk result (out.new.items ≡ out.old.items ++ pieces.line_part s.now step e.now c.now x.now) }
{
    if is_in_line(e, c, &x.at) {
        inline_part(alloc, out, s, step, e, c, x)
    } else {
        Ok(())
    }
}

fn line(
    alloc: Global,
    out: &mut Vec<Traced>,
    s: &Sight,
    step: PaintStep,
    e: &BoxPath,
    below: &[TracedBox],
    c: &BoxPath,
) -> Result<(), NoMemory>
    ensures { OnOk result (out.new.items ≡ out.old.items ++ pieces.line s.now step e.now below.now c.now) }
{
    for x in below {
        line_part(alloc, out, s, step, e, c, x)?;
    }
    Ok(())
}

/// Puts the content of c, and its line on top.
pub(crate) fn content_and_line(
    alloc: Global,
    out: &mut Vec<Traced>,
    s: &Sight,
    step: PaintStep,
    e: &BoxPath,
    below: &[TracedBox],
    c: &BoxPath,
) -> Result<(), NoMemory>
    ensures { OnOk result (out.new.items ≡ out.old.items ++ spec.content_and_line s.now step e.now below.now c.now) }
{
    trace(alloc, out, s, &place(step, e, c), Part::Content, c)?;
    line(alloc, out, s, step, e, below, c)
}
