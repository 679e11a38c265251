//! What a box paints of itself, and its line.
ghost use Rattle.std.specs.Prelude.{◌≡◌, OnOk};
ghost use Rattle.rd_list.specs.Entries.{◌▷◌};
ghost use Rattle.rd_stack.specs.Painting as spec;
ghost use Rattle.rd_stack.specs.Internal.Pieces as pieces;

use crate::painted::Painted;
use crate::parts::leaf_at;
use crate::path::{BoxPath, is_atom, is_in_line};
use rd_geom::{NoMemory, Rect};
use rd_keys::Part;
use rd_list::PlainList;
use std::alloc::Global;

/// Paints a part of a box, where it shows.
#[tactic(auto, using(crate::proofs::Joined::joins))]
pub fn paint(out: &mut PlainList, canvas: &Rect, part: Part, x: &BoxPath) -> Result<(), NoMemory>
    ensures { OnOk result (out.new ≡ out.old ▷ spec.paint canvas.now part x.now) }
{
    match leaf_at(canvas, x, part) {
        Some(l) => out.push_leaf(&l),
        None => Ok(()),
    }
}

/// Paints the background of a box, and its border on top of it.
#[tactic(auto, using(crate::proofs::Joined::joins))]
pub fn back_border(out: &mut PlainList, canvas: &Rect, x: &BoxPath) -> Result<(), NoMemory>
    ensures { OnOk result (out.new ≡ out.old ▷ spec.back_border canvas.now x.now) }
{
    paint(out, canvas, Part::Back, x)?;
    paint(out, canvas, Part::Border, x)
}

#[tactic(auto, using(crate::proofs::Joined::joins))]
fn inline_box(out: &mut PlainList, canvas: &Rect, x: &BoxPath) -> Result<(), NoMemory>
    ensures { OnOk result (out.new ≡ out.old ▷ pieces.inline_box canvas.now x.now) }
{
    back_border(out, canvas, x)?;
    paint(out, canvas, Part::Content, x)
}

#[tactic(auto, using(crate::proofs::Joined::joins))]
fn inline_part(
    alloc: Global,
    out: &mut PlainList,
    canvas: &Rect,
    x: &Painted,
) -> Result<(), NoMemory>
    ensures { OnOk result (out.new ≡ out.old ▷ spec.inline_part canvas.now x.now) }
{
    if is_atom(&x.at) {
        out.push_copy(alloc, &x.order)
    } else {
        inline_box(out, canvas, &x.at)
    }
}

#[tactic(auto, using(crate::proofs::Joined::joins))]
fn line_part(
    alloc: Global,
    out: &mut PlainList,
    canvas: &Rect,
    e: &BoxPath,
    c: &BoxPath,
    x: &Painted,
) -> Result<(), NoMemory>
    ensures { OnOk result (out.new ≡ out.old ▷ pieces.line_part canvas.now e.now c.now x.now) }
{
    if is_in_line(e, c, &x.at) {
        inline_part(alloc, out, canvas, x)
    } else {
        Ok(())
    }
}

fn line(
    alloc: Global,
    out: &mut PlainList,
    canvas: &Rect,
    e: &BoxPath,
    below: &[Painted],
    c: &BoxPath,
) -> Result<(), NoMemory>
    ensures { OnOk result (out.new ≡ out.old ▷ pieces.line canvas.now e.now below.now c.now) }
{
    for x in below {
        line_part(alloc, out, canvas, e, c, x)?;
    }
    Ok(())
}

/// Paints the content of c, and its line on top.
#[tactic(auto, using(crate::proofs::Joined::joins))]
pub(crate) fn content_and_line(
    alloc: Global,
    out: &mut PlainList,
    canvas: &Rect,
    e: &BoxPath,
    below: &[Painted],
    c: &BoxPath,
) -> Result<(), NoMemory>
    ensures { OnOk result (out.new ≡ out.old ▷ spec.content_and_line canvas.now e.now below.now c.now) }
{
    paint(out, canvas, Part::Content, c)?;
    line(alloc, out, canvas, e, below, c)
}
