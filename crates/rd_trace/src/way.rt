//! Leaves with their ways.
ghost use Rattle.std.specs.Prelude.{◌≡◌, ◌++◌, IfOk, OnOk, map};
ghost use Rattle.rd_stack.specs.Painting.{wrapper_of};
ghost use Rattle.rd_trace.specs.Ways as ways;

use crate::placing::{PaintStep, Placing};
use rd_geom::{Blend, NoMemory};
use rd_item::Leaf;
use rd_keys::{BoxKey, Part};
use rd_stack::{BoxPath, is_root};
use rd_style::level;
use std::alloc::Global;
use std::marker::Model;

/// A group that a leaf is composed in: its box, its opacity (0 to 255) and its blend mode.
#[derive(Clone, Copy)]
pub struct Around {
    pub key: BoxKey,
    pub opacity: u8,
    pub blend: Blend,
}

impl Model for Around {
    ghost use Rattle.rd_list.specs.Wrappers.{Wrapper, wrapper_code};
    ghost use Rattle.rd_keys.specs.contracts.key.Key as names;
    ghost use Rattle.rd_keys.specs.contracts.entry.BoxMark as marks;

    ghost Value = { Wrapper };

    ghost coded = { wrapper_code (names.the_row marks.the_row).coded };

    ghost view = { λ g. record { key = g.key; opacity = g.opacity; blend = g.blend } };

    ghost inverse = { λ w. record { key = w.key; opacity = w.opacity; blend = w.blend } };
}

/// A leaf, the places that put it where it is, and the groups round it, both from its own box outwards to the root.
#[derive(Drop)]
pub struct Traced {
    pub leaf: Leaf,
    pub way: Vec<Placing>,
    pub groups: Vec<Around>,
}

impl Model for Traced {
    ghost use Rattle.rd_trace.specs.Ways.{Traced};

    ghost Value = { Traced };

    ghost view = { λ t. record { leaf = t.leaf; way = t.way.items; groups = t.groups.items } };
}

/// A box below another, the leaves that it paints, from bottom to top, and whether that is one group.
#[derive(Drop)]
pub struct TracedBox {
    pub at: BoxPath,
    pub order: Vec<Traced>,
    pub grouped: bool,
}

impl Model for TracedBox {
    ghost use Rattle.rd_trace.specs.Ways.{TracedBox};

    ghost Value = { TracedBox };

    ghost view = { λ b. record { at = b.at; order = b.order.items; grouped = b.grouped } };
}

/// The stack level of a box where it stands (CSS 2.2 section 9.9.1); that of auto is 0.
pub(crate) fn level_at(x: &BoxPath) -> i32
    ensures { result ≡ ways.level_at x.now }
{
    match level(x.here.style(), is_root(x)) {
        Some(z) => z,
        None => 0,
    }
}

/// The place of a box x in a step of e, in the line of c. It is no layer there.
pub(crate) fn placing(step: PaintStep, e: &BoxPath, c: &BoxPath, x: &BoxPath) -> Placing
    ensures { result ≡ ways.placing step e.now c.now x.now }
{
    Placing {
        step,
        context: e.here.key(),
        line: c.here.key(),
        of: x.here.key(),
        level: 0,
    }
}

/// The place of a box in a step of e. It is no layer there.
pub(crate) fn place(step: PaintStep, e: &BoxPath, x: &BoxPath) -> Placing
    ensures { result ≡ ways.place step e.now x.now }
{
    placing(step, e, x, x)
}

/// The place of a layer of e, at its level.
pub(crate) fn layer_place(step: PaintStep, e: &BoxPath, x: &BoxPath) -> Placing
    ensures { result ≡ ways.layer_place step e.now x.now }
{
    Placing {
        level: level_at(x),
        ..place(step, e, x)
    }
}

/// A leaf at its first place.
pub(crate) fn at_first(alloc: Global, w: &Placing, leaf: &Leaf) -> Result<Traced, NoMemory>
    ensures { IfOk result (λ t. t ≡ ways.at_first w.now leaf.now) }
{
    let mut way = Vec::new(alloc);
    way.push(*w)?;
    Ok(Traced {
        leaf: *leaf,
        way,
        groups: Vec::new(alloc),
    })
}

/// A leaf one place further out.
fn passes(alloc: Global, w: &Placing, t: &Traced) -> Result<Traced, NoMemory>
    ensures { IfOk result (λ r. r ≡ ways.passes w.now t.now) }
{
    let mut way = t.way.to_vec(alloc)?;
    way.push(*w)?;
    Ok(Traced {
        leaf: t.leaf,
        way,
        groups: t.groups.to_vec(alloc)?,
    })
}

/// A leaf in one group more.
fn within(alloc: Global, g: &Around, t: &Traced) -> Result<Traced, NoMemory>
    ensures { IfOk result (λ r. r ≡ ways.within g.now t.now) }
{
    let mut groups = t.groups.to_vec(alloc)?;
    groups.push(*g)?;
    Ok(Traced {
        leaf: t.leaf,
        way: t.way.to_vec(alloc)?,
        groups,
    })
}

/// A leaf once more.
fn copied(alloc: Global, t: &Traced) -> Result<Traced, NoMemory>
    ensures { IfOk result (λ r. r ≡ t.now) }
{
    Ok(Traced {
        leaf: t.leaf,
        way: t.way.to_vec(alloc)?,
        groups: t.groups.to_vec(alloc)?,
    })
}

/// Puts leaves on top of others, each one place further out.
pub(crate) fn push_passed(
    alloc: Global,
    out: &mut Vec<Traced>,
    w: &Placing,
    ts: &[Traced],
) -> Result<(), NoMemory>
    ensures { OnOk result (out.new.items ≡ out.old.items ++ ways.passed w.now ts.now) }
{
    for t in ts {
        out.push(passes(alloc, w, t)?)?;
    }
    Ok(())
}

fn within_all(alloc: Global, g: &Around, ts: &[Traced]) -> Result<Vec<Traced>, NoMemory>
    ensures { IfOk result (λ v. v.items ≡ map (ways.within g.now) ts.now) }
{
    let mut all = Vec::new(alloc);
    for t in ts {
        all.push(within(alloc, g, t)?)?;
    }
    Ok(all)
}

fn copies(alloc: Global, ts: &[Traced]) -> Result<Vec<Traced>, NoMemory>
    ensures { IfOk result (λ v. v.items ≡ ts.now) }
{
    let mut all = Vec::new(alloc);
    for t in ts {
        all.push(copied(alloc, t)?)?;
    }
    Ok(all)
}

/// The group of a box.
fn group_of(x: &BoxPath) -> Around
    ensures { result ≡ wrapper_of x.now }
{
    let style = x.here.style();
    Around {
        key: x.here.key(),
        opacity: style.opacity,
        blend: style.blend,
    }
}

/// All that a box paints, in its group where it is composed as a whole.
pub(crate) fn entry_of(alloc: Global, x: &TracedBox) -> Result<Vec<Traced>, NoMemory>
    ensures { IfOk result (λ v. v.items ≡ ways.entry_of x.now) }
{
    if x.grouped {
        within_all(alloc, &group_of(&x.at), &x.order)
    } else {
        copies(alloc, &x.order)
    }
}

/// Does a leaf that covers a pixel take the hit there, if nothing above it does? Outlines take none.
pub fn takes_hit(t: &Traced) -> bool
    ensures { result ≡ ways.takes_hit t.now }
{
    !matches!(t.leaf.part, Part::Outline) && t.leaf.hits
}

/// The box that is hit, of leaves over a pixel from the topmost on.
pub fn hit_of(ts: &[Traced]) -> Option<BoxKey>
    ensures { result ≡ ways.hit_of ts.now }
{
    for t in ts {
        if takes_hit(t) {
            return Some(t.leaf.owner);
        }
    }
    None
}
