//! The ten steps of the painting order (CSS 2.2 Appendix E.2) put one on another.
ghost use Rattle.std.specs.Prelude.{◌≡◌, ◌++◌, OnOk, IfOk};
ghost use Rattle.rd_trace.specs.Steps as spec;
ghost use Rattle.rd_trace.specs.Internal.Pieces as pieces;

use crate::layers::{negative_layers, positive_layers, zero_layers};
use crate::placing::Sight;
use crate::steps::{
    block_backgrounds, block_contents, floats, inline_context, outlines, own_background_and_border,
    root_background,
};
use crate::way::{Traced, TracedBox};
use rd_geom::NoMemory;
use rd_stack::BoxPath;
use std::alloc::Global;

/// Steps 1 and 2: the backgrounds and the border of a box itself.
fn own_backgrounds(
    alloc: Global,
    out: &mut Vec<Traced>,
    s: &Sight,
    e: &BoxPath,
) -> Result<(), NoMemory>
    ensures { OnOk result (out.new.items ≡ out.old.items ++ pieces.own_backgrounds s.now e.now) }
{
    root_background(alloc, out, s, e)?;
    own_background_and_border(alloc, out, s, e)?;
    Ok(())
}

/// Steps 3 to 5: what is below the contents.
fn under_contents(
    alloc: Global,
    out: &mut Vec<Traced>,
    s: &Sight,
    e: &BoxPath,
    below: &[TracedBox],
) -> Result<(), NoMemory>
    ensures { OnOk result (out.new.items ≡ out.old.items ++ pieces.under_contents s.now e.now below.now) }
{
    negative_layers(alloc, out, e, below)?;
    block_backgrounds(alloc, out, s, e, below)?;
    floats(alloc, out, e, below)?;
    Ok(())
}

/// Steps 6 and 7: the contents and the lines.
fn contents_and_lines(
    alloc: Global,
    out: &mut Vec<Traced>,
    s: &Sight,
    e: &BoxPath,
    below: &[TracedBox],
) -> Result<(), NoMemory>
    ensures { OnOk result (out.new.items ≡ out.old.items ++ pieces.contents_and_lines s.now e.now below.now) }
{
    inline_context(alloc, out, s, e, below)?;
    block_contents(alloc, out, s, e, below)?;
    Ok(())
}

/// Steps 8 to 10: what is above the contents.
fn over_contents(
    alloc: Global,
    out: &mut Vec<Traced>,
    s: &Sight,
    e: &BoxPath,
    below: &[TracedBox],
) -> Result<(), NoMemory>
    ensures { OnOk result (out.new.items ≡ out.old.items ++ pieces.over_contents s.now e.now below.now) }
{
    zero_layers(alloc, out, e, below)?;
    positive_layers(alloc, out, e, below)?;
    outlines(alloc, out, s, e, below)?;
    Ok(())
}

/// The leaves that a box paints over the pixel, from those that each box below it paints there.
pub(crate) fn steps(
    alloc: Global,
    s: &Sight,
    e: &BoxPath,
    below: &[TracedBox],
) -> Result<Vec<Traced>, NoMemory>
    ensures { IfOk result (λ v. v.items ≡ spec.steps s.now e.now below.now) }
{
    let mut out = Vec::new(alloc);
    own_backgrounds(alloc, &mut out, s, e)?;
    under_contents(alloc, &mut out, s, e, below)?;
    contents_and_lines(alloc, &mut out, s, e, below)?;
    over_contents(alloc, &mut out, s, e, below)?;
    Ok(out)
}
