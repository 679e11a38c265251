//! The ten steps of the painting order (CSS 2.2 Appendix E.2).
ghost use Rattle.std.specs.Prelude.{◌≡◌, OnOk, IfOk};
ghost use Rattle.rd_list.specs.Entries.{◌▷◌};
ghost use Rattle.rd_stack.specs.Painting as spec;
ghost use Rattle.rd_stack.specs.Internal.Tests as tests;
ghost use Rattle.rd_stack.specs.Internal.Pieces as pieces;

use crate::content::{back_border, content_and_line, paint};
use crate::layers::{negative_layers, positive_layers, zero_layers};
use crate::painted::Painted;
use crate::path::{BoxPath, class_of, is_block, is_float, is_local, is_root};
use rd_geom::{NoMemory, Rect};
use rd_keys::Part;
use rd_list::PlainList;
use rd_style::{Class, blocky};
use std::alloc::Global;

fn is_blocky(e: &BoxPath) -> bool
    ensures { result ≡ spec.is_blocky e.now }
{
    blocky(e.here.style(), is_root(e))
}

fn is_local_block(e: &BoxPath, x: &Painted) -> bool
    ensures { result ≡ tests.is_local_block e.now x.now }
{
    is_local(e, &x.at) && is_block(&x.at)
}

fn is_local_float(e: &BoxPath, x: &Painted) -> bool
    ensures { result ≡ tests.is_local_float e.now x.now }
{
    is_local(e, &x.at) && is_float(&x.at)
}

fn is_outlined(e: &BoxPath, x: &Painted) -> bool
    ensures { result ≡ tests.is_outlined e.now x.now }
{
    is_local(e, &x.at) && matches!(class_of(&x.at), Class::Block | Class::Inline)
}

/// Step 1: the background of the root.
#[tactic(auto, using(crate::proofs::Joined::joins))]
fn root_background(out: &mut PlainList, canvas: &Rect, e: &BoxPath) -> Result<(), NoMemory>
    ensures { OnOk result (out.new ≡ out.old ▷ spec.root_background canvas.now e.now) }
{
    if is_root(e) {
        paint(out, canvas, Part::Back, e)
    } else {
        Ok(())
    }
}

#[tactic(auto, using(crate::proofs::Joined::joins))]
fn own_background(out: &mut PlainList, canvas: &Rect, e: &BoxPath) -> Result<(), NoMemory>
    ensures { OnOk result (out.new ≡ out.old ▷ pieces.own_background canvas.now e.now) }
{
    if is_root(e) {
        Ok(())
    } else {
        paint(out, canvas, Part::Back, e)
    }
}

/// Step 2: of a block the background, unless it is the root, and the border.
#[tactic(auto, using(crate::proofs::Joined::joins))]
fn own_background_and_border(
    out: &mut PlainList,
    canvas: &Rect,
    e: &BoxPath,
) -> Result<(), NoMemory>
    ensures { OnOk result (out.new ≡ out.old ▷ spec.own_background_and_border canvas.now e.now) }
{
    if is_blocky(e) {
        own_background(out, canvas, e)?;
        paint(out, canvas, Part::Border, e)
    } else {
        Ok(())
    }
}

#[tactic(auto, using(crate::proofs::Joined::joins))]
fn block_background(
    out: &mut PlainList,
    canvas: &Rect,
    e: &BoxPath,
    x: &Painted,
) -> Result<(), NoMemory>
    ensures { OnOk result (out.new ≡ out.old ▷ pieces.block_background canvas.now e.now x.now) }
{
    if is_local_block(e, x) {
        back_border(out, canvas, &x.at)
    } else {
        Ok(())
    }
}

/// Step 4: the backgrounds and borders of the blocks.
fn block_backgrounds(
    out: &mut PlainList,
    canvas: &Rect,
    e: &BoxPath,
    below: &[Painted],
) -> Result<(), NoMemory>
    ensures { OnOk result (out.new ≡ out.old ▷ spec.block_backgrounds canvas.now e.now below.now) }
{
    for x in below {
        block_background(out, canvas, e, x)?;
    }
    Ok(())
}

#[tactic(auto, using(crate::proofs::Joined::joins))]
fn float(alloc: Global, out: &mut PlainList, e: &BoxPath, x: &Painted) -> Result<(), NoMemory>
    ensures { OnOk result (out.new ≡ out.old ▷ pieces.float e.now x.now) }
{
    if is_local_float(e, x) {
        out.push_copy(alloc, &x.order)
    } else {
        Ok(())
    }
}

/// Step 5: the floats, each with all that it paints.
fn floats(
    alloc: Global,
    out: &mut PlainList,
    e: &BoxPath,
    below: &[Painted],
) -> Result<(), NoMemory>
    ensures { OnOk result (out.new ≡ out.old ▷ spec.floats e.now below.now) }
{
    for x in below {
        float(alloc, out, e, x)?;
    }
    Ok(())
}

/// Step 6: of an inline box the background, the border, the content and the line.
#[tactic(auto, using(crate::proofs::Joined::joins))]
fn inline_context(
    alloc: Global,
    out: &mut PlainList,
    canvas: &Rect,
    e: &BoxPath,
    below: &[Painted],
) -> Result<(), NoMemory>
    ensures { OnOk result (out.new ≡ out.old ▷ spec.inline_context canvas.now e.now below.now) }
{
    if is_blocky(e) {
        Ok(())
    } else {
        back_border(out, canvas, e)?;
        content_and_line(alloc, out, canvas, e, below, e)
    }
}

#[tactic(auto, using(crate::proofs::Joined::joins))]
fn own_content(
    alloc: Global,
    out: &mut PlainList,
    canvas: &Rect,
    e: &BoxPath,
    below: &[Painted],
) -> Result<(), NoMemory>
    ensures { OnOk result (out.new ≡ out.old ▷ pieces.own_content canvas.now e.now below.now) }
{
    if is_blocky(e) {
        content_and_line(alloc, out, canvas, e, below, e)
    } else {
        Ok(())
    }
}

#[tactic(auto, using(crate::proofs::Joined::joins))]
fn block_content(
    alloc: Global,
    out: &mut PlainList,
    canvas: &Rect,
    e: &BoxPath,
    below: &[Painted],
    x: &Painted,
) -> Result<(), NoMemory>
    ensures { OnOk result (out.new ≡ out.old ▷ pieces.block_content canvas.now e.now below.now x.now) }
{
    if is_local_block(e, x) {
        content_and_line(alloc, out, canvas, e, below, &x.at)
    } else {
        Ok(())
    }
}

fn contents_below(
    alloc: Global,
    out: &mut PlainList,
    canvas: &Rect,
    e: &BoxPath,
    below: &[Painted],
) -> Result<(), NoMemory>
    ensures { OnOk result (out.new ≡ out.old ▷ pieces.contents_below canvas.now e.now below.now) }
{
    for x in below {
        block_content(alloc, out, canvas, e, below, x)?;
    }
    Ok(())
}

/// Step 7: of a block the content and the line, and then those of the blocks below.
#[tactic(auto, using(crate::proofs::Joined::joins))]
fn block_contents(
    alloc: Global,
    out: &mut PlainList,
    canvas: &Rect,
    e: &BoxPath,
    below: &[Painted],
) -> Result<(), NoMemory>
    ensures { OnOk result (out.new ≡ out.old ▷ spec.block_contents canvas.now e.now below.now) }
{
    own_content(alloc, out, canvas, e, below)?;
    contents_below(alloc, out, canvas, e, below)
}

#[tactic(auto, using(crate::proofs::Joined::joins))]
fn outline_below(
    out: &mut PlainList,
    canvas: &Rect,
    e: &BoxPath,
    x: &Painted,
) -> Result<(), NoMemory>
    ensures { OnOk result (out.new ≡ out.old ▷ pieces.outline_below canvas.now e.now x.now) }
{
    if is_outlined(e, x) {
        paint(out, canvas, Part::Outline, &x.at)
    } else {
        Ok(())
    }
}

fn outlines_below(
    out: &mut PlainList,
    canvas: &Rect,
    e: &BoxPath,
    below: &[Painted],
) -> Result<(), NoMemory>
    ensures { OnOk result (out.new ≡ out.old ▷ pieces.outlines_below canvas.now e.now below.now) }
{
    for x in below {
        outline_below(out, canvas, e, x)?;
    }
    Ok(())
}

/// Step 10: the outlines, of the box and of the blocks and inline boxes below.
#[tactic(auto, using(crate::proofs::Joined::joins))]
fn outlines(
    out: &mut PlainList,
    canvas: &Rect,
    e: &BoxPath,
    below: &[Painted],
) -> Result<(), NoMemory>
    ensures { OnOk result (out.new ≡ out.old ▷ spec.outlines canvas.now e.now below.now) }
{
    paint(out, canvas, Part::Outline, e)?;
    outlines_below(out, canvas, e, below)
}

/// All that a box paints, from what each box below it paints.
pub fn steps(
    alloc: Global,
    canvas: &Rect,
    e: &BoxPath,
    below: &[Painted],
) -> Result<PlainList, NoMemory>
    ensures { IfOk result (λ v. v ≡ spec.steps canvas.now e.now below.now) }
{
    let mut out = PlainList::new(alloc);
    root_background(&mut out, canvas, e)?;
    own_background_and_border(&mut out, canvas, e)?;
    negative_layers(alloc, &mut out, e, below)?;
    block_backgrounds(&mut out, canvas, e, below)?;
    floats(alloc, &mut out, e, below)?;
    inline_context(alloc, &mut out, canvas, e, below)?;
    block_contents(alloc, &mut out, canvas, e, below)?;
    zero_layers(alloc, &mut out, e, below)?;
    positive_layers(alloc, &mut out, e, below)?;
    outlines(&mut out, canvas, e, below)?;
    Ok(out)
}
