//! The layers of a stacking context, by level.
ghost use Rattle.std.specs.Prelude.{◌≡◌, ◌++◌, OnOk, IfOk, flat_map, map};
ghost use Rattle.rd_stack.specs.Paths.{is_grouped};
ghost use Rattle.rd_trace.specs.Ways as ways;
ghost use Rattle.rd_trace.specs.Steps as spec;
ghost use Rattle.rd_trace.specs.Internal.Pieces.{has_sign, now, signed, step_of};

use crate::placing::PaintStep;
use crate::way::{Traced, TracedBox, entry_of, layer_place, level_at, push_passed};
use rd_geom::NoMemory;
use rd_stack::{BoxPath, is_blended, is_blended_layer, is_context, is_layer, is_root};
use std::alloc::Global;

/// Whether a layer lies below the stacking context, at its level or auto, or above it.
#[derive(Clone, Copy)]
pub enum Sign {
    Negative,
    Zero,
    Positive,
}

fn step_of(sign: Sign) -> PaintStep
    ensures { result ≡ step_of sign }
{
    match sign {
        Sign::Negative => PaintStep::NegativeLayers,
        Sign::Zero => PaintStep::ZeroLayers,
        Sign::Positive => PaintStep::PositiveLayers,
    }
}

fn has_sign(x: &TracedBox, sign: Sign) -> bool
    ensures { result ≡ has_sign sign x.now }
{
    let level = level_at(&x.at);
    match sign {
        Sign::Negative => level < 0,
        Sign::Zero => !(level < 0) && !(0 < level),
        Sign::Positive => 0 < level,
    }
}

/// The layers of e of one sign, in tree order.
fn layers_of<'a>(
    alloc: Global,
    e: &BoxPath,
    below: &'a [TracedBox],
    sign: Sign,
) -> Result<Vec<&'a TracedBox>, NoMemory>
    ensures { IfOk result (λ v. map now v.items ≡ signed sign e.now below.now) }
{
    let mut all = Vec::new(alloc);
    for x in below {
        if is_layer(e, &x.at) && has_sign(x, sign) {
            all.push(x)?;
        }
    }
    Ok(all)
}

fn key_of(x: &&TracedBox) -> i32
    ensures { result ≡ ways.level_at x.now.now.at }
{
    level_at(&x.at)
}

/// The lowest level first, and those of one level as they stood.
fn by_level<'a>(layers: Vec<&'a TracedBox>) -> Result<Vec<&'a TracedBox>, NoMemory>
    ensures { IfOk result (λ v. map now v.items ≡ spec.by_level (map now layers.entry.items)) }
{
    let mut sorted = layers;
    sorted.sort_by_key(key_of)?;
    Ok(sorted)
}

fn has_blended_layer(e: &BoxPath, below: &[TracedBox]) -> bool
    ensures { result ≡ spec.has_blended_layer e.now below.now }
{
    below.iter().any(|x| is_blended_layer(e, &x.at))
}

/// Is a box put as one group onto what is below it (CSS Compositing 1 section 3.2)?
pub(crate) fn is_grouped(e: &BoxPath, below: &[TracedBox]) -> bool
    ensures { result ≡ is_grouped e.now (spec.has_blended_layer e.now below.now) }
{
    is_context(e)
        && (e.here.style().opacity < 255
            || is_blended(e)
            || (!is_root(e) && has_blended_layer(e, below)))
}

/// Puts a layer of e, in the step of its sign.
fn layer(
    alloc: Global,
    out: &mut Vec<Traced>,
    sign: Sign,
    e: &BoxPath,
    x: &TracedBox,
) -> Result<(), NoMemory>
    ensures { OnOk result (out.new.items ≡ out.old.items ++ spec.layer (step_of sign) e.now x.now) }
{
    let entry = entry_of(alloc, x)?;
    push_passed(alloc, out, &layer_place(step_of(sign), e, &x.at), &entry)
}

fn layers(
    alloc: Global,
    out: &mut Vec<Traced>,
    sign: Sign,
    e: &BoxPath,
    xs: &[&TracedBox],
) -> Result<(), NoMemory>
    ensures { OnOk result (out.new.items ≡ out.old.items ++ flat_map (spec.layer (step_of sign) e.now) (map now xs.now)) }
{
    for x in xs {
        layer(alloc, out, sign, e, x)?;
    }
    Ok(())
}

/// Puts the layers of e of one sign, the lowest level first.
fn layers_where(
    alloc: Global,
    out: &mut Vec<Traced>,
    e: &BoxPath,
    below: &[TracedBox],
    sign: Sign,
) -> Result<(), NoMemory>
    ensures { OnOk result (out.new.items ≡ out.old.items ++ spec.layers_where (has_sign sign) (step_of sign) e.now below.now) }
{
    if is_context(e) {
        let found = layers_of(alloc, e, below, sign)?;
        let sorted = by_level(found)?;
        layers(alloc, out, sign, e, &sorted)
    } else {
        Ok(())
    }
}

/// Step 3: the layers of negative level.
pub(crate) fn negative_layers(
    alloc: Global,
    out: &mut Vec<Traced>,
    e: &BoxPath,
    below: &[TracedBox],
) -> Result<(), NoMemory>
    ensures { OnOk result (out.new.items ≡ out.old.items ++ spec.negative_layers e.now below.now) }
{
    layers_where(alloc, out, e, below, Sign::Negative)
}

/// Step 8: the layers of level auto or 0.
pub(crate) fn zero_layers(
    alloc: Global,
    out: &mut Vec<Traced>,
    e: &BoxPath,
    below: &[TracedBox],
) -> Result<(), NoMemory>
    ensures { OnOk result (out.new.items ≡ out.old.items ++ spec.zero_layers e.now below.now) }
{
    layers_where(alloc, out, e, below, Sign::Zero)
}

/// Step 9: the layers of positive level.
pub(crate) fn positive_layers(
    alloc: Global,
    out: &mut Vec<Traced>,
    e: &BoxPath,
    below: &[TracedBox],
) -> Result<(), NoMemory>
    ensures { OnOk result (out.new.items ≡ out.old.items ++ spec.positive_layers e.now below.now) }
{
    layers_where(alloc, out, e, below, Sign::Positive)
}
