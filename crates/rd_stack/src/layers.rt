//! The layers of a stacking context, by level.
ghost use Rattle.std.specs.Prelude.{◌≡◌, OnOk, IfOk, map};
ghost use Rattle.rd_list.specs.Entries.{◌▷◌, each};
ghost use Rattle.rd_stack.specs.Internal.Values.{now};
ghost use Rattle.rd_stack.specs.Internal.Tests.{has_sign, signed};
ghost use Rattle.rd_stack.specs.Fresh.{grouping};
ghost use Rattle.rd_stack.specs.Painting as spec;

use crate::painted::Painted;
use crate::path::{BoxPath, is_blended, is_blended_layer, is_context, is_layer, is_root};
use rd_geom::NoMemory;
use rd_list::PlainList;
use rd_style::level;
use std::alloc::Global;

/// Whether a layer lies below the stacking context, at its level or auto, or above it.
#[derive(Clone, Copy)]
enum Sign {
    Negative,
    Zero,
    Positive,
}

fn level_of(x: &Painted) -> i32
    ensures { result ≡ spec.level_of x.now }
{
    match level(x.at.here.style(), is_root(&x.at)) {
        Some(z) => z,
        None => 0,
    }
}

fn has_sign(x: &Painted, sign: Sign) -> bool
    ensures { result ≡ has_sign sign x.now }
{
    let level = level_of(x);
    match sign {
        Sign::Negative => level < 0,
        Sign::Zero => !(level < 0) && !(0 < level),
        Sign::Positive => 0 < level,
    }
}

/// The layers of e of one sign, in tree order.
fn layers_of<'a>(
    alloc: Global,
    e: &BoxPath,
    below: &'a [Painted],
    sign: Sign,
) -> Result<Vec<&'a Painted>, NoMemory>
    ensures { IfOk result (λ v. map now v.items ≡ signed sign e.now below.now) }
{
    let mut all = Vec::new(alloc);
    for x in below {
        if is_layer(e, &x.at) && has_sign(x, sign) {
            all.push(x)?;
        }
    }
    Ok(all)
}

fn key_of(x: &&Painted) -> i32
    ensures { result ≡ spec.level_of x.now.now }
{
    level_of(x)
}

/// The lowest level first, and those of one level as they stood.
fn by_level<'a>(layers: Vec<&'a Painted>) -> Result<Vec<&'a Painted>, NoMemory>
    ensures { IfOk result (λ v. map now v.items ≡ spec.by_level (map now layers.entry.items)) }
{
    let mut sorted = layers;
    sorted.sort_by_key(key_of)?;
    Ok(sorted)
}

fn has_blended_layer(e: &BoxPath, below: &[Painted]) -> bool
    ensures { result ≡ spec.has_blended_layer e.now below.now }
{
    below.iter().any(|x| is_blended_layer(e, &x.at))
}

/// Is a box put as one group onto what is below it (CSS Compositing 1 section 3.2)?
pub(crate) fn is_grouped(e: &BoxPath, below: &[Painted]) -> bool
    ensures { result ≡ grouping e.now below.now }
{
    is_context(e)
        && (e.here.style().opacity < 255
            || is_blended(e)
            || (!is_root(e) && has_blended_layer(e, below)))
}

/// Puts all that a box paints, as a group where it is composed as a whole.
#[tactic(auto, using(crate::proofs::Joined::joins))]
pub(crate) fn entry_of(alloc: Global, out: &mut PlainList, x: &Painted) -> Result<(), NoMemory>
    ensures { OnOk result (out.new ≡ out.old ▷ spec.entry_of x.now) }
{
    if x.grouped && x.order.has_leaf() {
        let mut inner = PlainList::new(alloc);
        inner.push_copy(alloc, &x.order)?;
        let style = x.at.here.style();
        out.push_group(x.at.here.key(), style.opacity, style.blend, inner)
    } else {
        out.push_copy(alloc, &x.order)
    }
}

fn entries_of(alloc: Global, out: &mut PlainList, xs: &[&Painted]) -> Result<(), NoMemory>
    ensures { OnOk result (out.new ≡ out.old ▷ each spec.entry_of (map now xs.now)) }
{
    for x in xs {
        entry_of(alloc, out, x)?;
    }
    Ok(())
}

/// The layers of e of one sign, the lowest level first.
#[tactic(auto, using(crate::proofs::Joined::joins))]
fn layers_where(
    alloc: Global,
    out: &mut PlainList,
    e: &BoxPath,
    below: &[Painted],
    sign: Sign,
) -> Result<(), NoMemory>
    ensures { OnOk result (out.new ≡ out.old ▷ spec.layers_where (has_sign sign) e.now below.now) }
{
    if is_context(e) {
        let layers = layers_of(alloc, e, below, sign)?;
        let layers = by_level(layers)?;
        entries_of(alloc, out, &layers)
    } else {
        Ok(())
    }
}

/// Step 3: the layers of negative level.
pub(crate) fn negative_layers(
    alloc: Global,
    out: &mut PlainList,
    e: &BoxPath,
    below: &[Painted],
) -> Result<(), NoMemory>
    ensures { OnOk result (out.new ≡ out.old ▷ spec.negative_layers e.now below.now) }
{
    layers_where(alloc, out, e, below, Sign::Negative)
}

/// Step 8: the layers of level auto or 0.
pub(crate) fn zero_layers(
    alloc: Global,
    out: &mut PlainList,
    e: &BoxPath,
    below: &[Painted],
) -> Result<(), NoMemory>
    ensures { OnOk result (out.new ≡ out.old ▷ spec.zero_layers e.now below.now) }
{
    layers_where(alloc, out, e, below, Sign::Zero)
}

/// Step 9: the layers of positive level.
pub(crate) fn positive_layers(
    alloc: Global,
    out: &mut PlainList,
    e: &BoxPath,
    below: &[Painted],
) -> Result<(), NoMemory>
    ensures { OnOk result (out.new ≡ out.old ▷ spec.positive_layers e.now below.now) }
{
    layers_where(alloc, out, e, below, Sign::Positive)
}
