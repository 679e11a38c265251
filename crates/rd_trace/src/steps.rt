//! Each of the ten steps of the painting order (CSS 2.2 Appendix E.2) but those of layers, of the leaves that cover a pixel.
ghost use Rattle.std.specs.Prelude.{◌≡◌, ◌++◌, OnOk};
ghost use Rattle.rd_stack.specs.Painting as painting;
ghost use Rattle.rd_trace.specs.Steps as spec;
ghost use Rattle.rd_trace.specs.Internal.Pieces as pieces;

use crate::content::{back_border, content_and_line, trace};
use crate::placing::{PaintStep, Sight};
use crate::way::{Traced, TracedBox, place, push_passed};
use rd_geom::NoMemory;
use rd_keys::Part;
use rd_stack::{BoxPath, class_of, is_block, is_float, is_local, is_root};
use rd_style::{Class, blocky};
use std::alloc::Global;

fn is_blocky(e: &BoxPath) -> bool
    ensures { result ≡ painting.is_blocky e.now }
{
    blocky(e.here.style(), is_root(e))
}

fn is_local_block(e: &BoxPath, x: &TracedBox) -> bool
    ensures { result ≡ pieces.is_local_block e.now x.now }
{
    is_local(e, &x.at) && is_block(&x.at)
}

fn is_local_float(e: &BoxPath, x: &TracedBox) -> bool
    ensures { result ≡ pieces.is_local_float e.now x.now }
{
    is_local(e, &x.at) && is_float(&x.at)
}

fn is_outlined(e: &BoxPath, x: &TracedBox) -> bool
    ensures { result ≡ pieces.is_outlined e.now x.now }
{
    is_local(e, &x.at) && matches!(class_of(&x.at), Class::Block | Class::Inline)
}

/// Step 1: the background of the root.
pub(crate) fn root_background(
    alloc: Global,
    out: &mut Vec<Traced>,
    s: &Sight,
    e: &BoxPath,
) -> Result<(), NoMemory>
    ensures { OnOk result (out.new.items ≡ out.old.items ++ spec.root_background s.now e.now) }
{
    if is_root(e) {
        let w = place(PaintStep::RootBackground, e, e);
        trace(alloc, out, s, &w, Part::Back, e)
    } else {
        Ok(())
    }
}

fn own_background(
    alloc: Global,
    out: &mut Vec<Traced>,
    s: &Sight,
    e: &BoxPath,
) -> Result<(), NoMemory>
    ensures { OnOk result (out.new.items ≡ out.old.items ++ pieces.own_background s.now e.now) }
{
    if is_root(e) {
        Ok(())
    } else {
        let w = place(PaintStep::OwnBackground, e, e);
        trace(alloc, out, s, &w, Part::Back, e)
    }
}

/// Step 2: of a block the background, unless it is the root, and the border.
pub(crate) fn own_background_and_border(
    alloc: Global,
    out: &mut Vec<Traced>,
    s: &Sight,
    e: &BoxPath,
) -> Result<(), NoMemory>
    ensures { OnOk result (out.new.items ≡ out.old.items ++ spec.own_background_and_border s.now e.now) }
{
    if is_blocky(e) {
        own_background(alloc, out, s, e)?;
        let w = place(PaintStep::OwnBackground, e, e);
        trace(alloc, out, s, &w, Part::Border, e)
    } else {
        Ok(())
    }
}

fn block_background(
    alloc: Global,
    out: &mut Vec<Traced>,
    s: &Sight,
    e: &BoxPath,
    x: &TracedBox,
) -> Result<(), NoMemory>
    ensures { OnOk result (out.new.items ≡ out.old.items ++ pieces.block_background s.now e.now x.now) }
{
    if is_local_block(e, x) {
        let w = place(PaintStep::BlockBackgrounds, e, &x.at);
        back_border(alloc, out, s, &w, &x.at)
    } else {
        Ok(())
    }
}

/// Step 4: the backgrounds and borders of the blocks.
pub(crate) fn block_backgrounds(
    alloc: Global,
    out: &mut Vec<Traced>,
    s: &Sight,
    e: &BoxPath,
    below: &[TracedBox],
) -> Result<(), NoMemory>
    ensures { OnOk result (out.new.items ≡ out.old.items ++ spec.block_backgrounds s.now e.now below.now) }
{
    for x in below {
        block_background(alloc, out, s, e, x)?;
    }
    Ok(())
}

fn float(alloc: Global, out: &mut Vec<Traced>, e: &BoxPath, x: &TracedBox) -> Result<(), NoMemory>
    ensures { OnOk result (out.new.items ≡ out.old.items ++ pieces.float e.now x.now) }
{
    if is_local_float(e, x) {
        let w = place(PaintStep::Floats, e, &x.at);
        push_passed(alloc, out, &w, &x.order)
    } else {
        Ok(())
    }
}

/// Step 5: the floats, each with all that it paints.
pub(crate) fn floats(
    alloc: Global,
    out: &mut Vec<Traced>,
    e: &BoxPath,
    below: &[TracedBox],
) -> Result<(), NoMemory>
    ensures { OnOk result (out.new.items ≡ out.old.items ++ spec.floats e.now below.now) }
{
    for x in below {
        float(alloc, out, e, x)?;
    }
    Ok(())
}

/// Step 6: of an inline box the background, the border, the content and the line.
pub(crate) fn inline_context(
    alloc: Global,
    out: &mut Vec<Traced>,
    s: &Sight,
    e: &BoxPath,
    below: &[TracedBox],
) -> Result<(), NoMemory>
    ensures { OnOk result (out.new.items ≡ out.old.items ++ spec.inline_context s.now e.now below.now) }
{
    if is_blocky(e) {
        Ok(())
    } else {
        let w = place(PaintStep::InlineContext, e, e);
        back_border(alloc, out, s, &w, e)?;
        content_and_line(alloc, out, s, PaintStep::InlineContext, e, below, e)
    }
}

fn own_content(
    alloc: Global,
    out: &mut Vec<Traced>,
    s: &Sight,
    e: &BoxPath,
    below: &[TracedBox],
) -> Result<(), NoMemory>
    ensures { OnOk result (out.new.items ≡ out.old.items ++ pieces.own_content s.now e.now below.now) }
{
    if is_blocky(e) {
        content_and_line(alloc, out, s, PaintStep::BlockContents, e, below, e)
    } else {
        Ok(())
    }
}

fn block_content(
    alloc: Global,
    out: &mut Vec<Traced>,
    s: &Sight,
    e: &BoxPath,
    below: &[TracedBox],
    x: &TracedBox,
) -> Result<(), NoMemory>
    ensures { OnOk result (out.new.items ≡ out.old.items ++ pieces.block_content s.now e.now below.now x.now) }
{
    if is_local_block(e, x) {
        content_and_line(alloc, out, s, PaintStep::BlockContents, e, below, &x.at)
    } else {
        Ok(())
    }
}

fn contents_below(
    alloc: Global,
    out: &mut Vec<Traced>,
    s: &Sight,
    e: &BoxPath,
    below: &[TracedBox],
) -> Result<(), NoMemory>
    ensures { OnOk result (out.new.items ≡ out.old.items ++ pieces.contents_below s.now e.now below.now) }
{
    for x in below {
        block_content(alloc, out, s, e, below, x)?;
    }
    Ok(())
}

/// Step 7: of a block the content and the line, and then those of the blocks below.
pub(crate) fn block_contents(
    alloc: Global,
    out: &mut Vec<Traced>,
    s: &Sight,
    e: &BoxPath,
    below: &[TracedBox],
) -> Result<(), NoMemory>
    ensures { OnOk result (out.new.items ≡ out.old.items ++ spec.block_contents s.now e.now below.now) }
{
    own_content(alloc, out, s, e, below)?;
    contents_below(alloc, out, s, e, below)
}

fn outline_below(
    alloc: Global,
    out: &mut Vec<Traced>,
    s: &Sight,
    e: &BoxPath,
    x: &TracedBox,
) -> Result<(), NoMemory>
    ensures { OnOk result (out.new.items ≡ out.old.items ++ pieces.outline_below s.now e.now x.now) }
{
    if is_outlined(e, x) {
        let w = place(PaintStep::Outlines, e, &x.at);
        trace(alloc, out, s, &w, Part::Outline, &x.at)
    } else {
        Ok(())
    }
}

fn outlines_below(
    alloc: Global,
    out: &mut Vec<Traced>,
    s: &Sight,
    e: &BoxPath,
    below: &[TracedBox],
) -> Result<(), NoMemory>
    ensures { OnOk result (out.new.items ≡ out.old.items ++ pieces.outlines_below s.now e.now below.now) }
{
    for x in below {
        outline_below(alloc, out, s, e, x)?;
    }
    Ok(())
}

/// Step 10: the outlines, of the box and of the blocks and inline boxes below.
pub(crate) fn outlines(
    alloc: Global,
    out: &mut Vec<Traced>,
    s: &Sight,
    e: &BoxPath,
    below: &[TracedBox],
) -> Result<(), NoMemory>
    ensures { OnOk result (out.new.items ≡ out.old.items ++ spec.outlines s.now e.now below.now) }
{
    let w = place(PaintStep::Outlines, e, e);
    trace(alloc, out, s, &w, Part::Outline, e)?;
    outlines_below(alloc, out, s, e, below)
}
