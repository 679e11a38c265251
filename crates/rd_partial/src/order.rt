//! What a box paints: its own parts, and the lists that it was given on top.
ghost use Rattle.std.specs.Prelude.{◌≡◌, OnOk, IfOk, ◌+◌, ◌≤◌, ◌&&◌, ◌||◌, not, nat_lt, map};
ghost use Rattle.rd_style.specs.Classes as styles;
ghost use Rattle.rd_keys.specs.declared.entry.Part.TheVariants as parts;
ghost use Rattle.rd_list.specs.Entries.{◌▷◌, nil, each, has_leaf, flat, is_empty};
ghost use Rattle.rd_list.specs.Nested.{laid_out};
ghost use Rattle.rd_partial.specs.Internal.ContextLists.{entries_if, by_level};
ghost use Rattle.rd_partial.specs.Internal.Pass as pass;
ghost use Rattle.rd_partial.specs.Internal.Held.{held_stack};
ghost use Rattle.rd_partial.specs.Internal.Visited.{part_at, back_border_at, back_border_cost_at, own_cost_at};

use crate::lists::{FlowLists, LayerLists, LayerOrder};
use crate::visit::{Pass, Visit};
use crate::wanted::Wanted;
use rd_geom::{NoMemory, Steps};
use rd_list::{NewList, Pieces};
use rd_stack::BoxData;
use rd_style::{Style, blocky, is_blended, real};
use std::alloc::Global;
use std::sync::ledger::Ledger;

/// What a box paints of itself before and in its line.
#[derive(Drop)]
pub struct OwnParts<A: Ledger> {
    pub out: Pieces<A>,
    pub line: Pieces<A>,
    pub outlines: Pieces<A>,
}

impl<'a, B: Ledger, W: Wanted> Pass<'a, B, W> {
    /// The background, and the border on top of it (CSS 2.2 Appendix E.2).
    #[inline(always)]
    #[tactic(auto, using(crate::proofs::Pass::Joining::joins))]
    pub fn back_border<A: Ledger>(
        &self,
        out: &mut Pieces<A>,
        at: &Visit<'_>,
        made: &mut Steps<A>,
    ) -> Result<(), NoMemory>
        ensures list { OnOk result (laid_out out.new ≡ laid_out out.old
            ▷ back_border_at (W.wants self.now.wanted.now) self.now.number at.now) }
        ensures made { OnOk result (made.new ≡ made.old + back_border_cost_at (W.wants self.now.wanted.now) self.now.number at.now) }
        ensures most { made.new ≤ made.old + back_border_cost_at (W.wants self.now.wanted.now) self.now.number at.now }
    {
        self.give_background(out, at, made)?;
        self.give_border(out, at, made)
    }

    /// The background and the border of a box, under its layers where it is laid out as a block and else in its line; then its content and its outline.
    #[tactic(auto, using(crate::proofs::Pass::Joining::joins))]
    pub fn begin<A: Ledger>(
        &self,
        at: &Visit<'_>,
        made: &mut Steps<A>,
    ) -> Result<OwnParts<A>, NoMemory>
        ensures out { IfOk result (λ r. laid_out r.out ≡ entries_if (styles.blocky at.now.here.now.style at.now.inherited.now.root)
            (back_border_at (W.wants self.now.wanted.now) self.now.number at.now)) }
        ensures line { IfOk result (λ r. laid_out r.line ≡ entries_if (not (styles.blocky at.now.here.now.style at.now.inherited.now.root))
            (back_border_at (W.wants self.now.wanted.now) self.now.number at.now)
            ▷ part_at (W.wants self.now.wanted.now) self.now.number at.now parts.Content) }
        ensures outlines { IfOk result (λ r. laid_out r.outlines ≡ part_at
            (W.wants self.now.wanted.now) self.now.number at.now parts.Outline) }
        ensures made { OnOk result (made.new ≡ made.old + own_cost_at (W.wants self.now.wanted.now) self.now.number at.now) }
        ensures most { made.new ≤ made.old + own_cost_at (W.wants self.now.wanted.now) self.now.number at.now }
    {
        let mut out = Pieces::empty(self.alloc);
        let mut line = Pieces::empty(self.alloc);
        let mut outlines = Pieces::empty(self.alloc);
        let mut own = Pieces::empty(self.alloc);
        self.back_border(&mut own, at, made)?;
        if blocky(at.here.style(), at.inherited.is_root()) {
            out = own;
        } else {
            line = own;
        }
        self.give_content(&mut line, at, made)?;
        self.give_outline(&mut outlines, at, made)?;
        Ok(OwnParts {
            out,
            line,
            outlines,
        })
    }
}

/// The lists of layers, one on top of another.
fn join_layers<A: Ledger>(out: &mut Pieces<A>, layers: Vec<LayerOrder<A>>) -> Result<(), NoMemory>
    ensures { OnOk result (laid_out out.new ≡ laid_out out.old ▷ each (λ y. y.order) (map held_stack layers.items)) }
{
    for layer in layers {
        out.join(layer.order)?;
    }
    Ok(())
}

fn level_of<A: Ledger>(y: &LayerOrder<A>) -> i32
    ensures { result ≡ y.now.level }
{
    y.level
}

/// The lowest level first, and those of one level as they stood.
fn in_order<A: Ledger>(layers: &mut Vec<LayerOrder<A>>) -> Result<(), NoMemory>
    ensures { OnOk result (map held_stack layers.new.items ≡ by_level (map held_stack layers.old.items)) }
{
    layers.sort_by_key(level_of)?;
    Ok(())
}

/// The lists of layers, the lowest level first and those of one level as they stood (CSS 2.2 section 9.9.1).
#[tactic(auto, using(crate::proofs::Pass::Joining::joins))]
fn join_by_level<A: Ledger>(out: &mut Pieces<A>, layers: Vec<LayerOrder<A>>) -> Result<(), NoMemory>
    ensures { OnOk result (laid_out out.new ≡ laid_out out.old ▷ each (λ y. y.order) (by_level
        (map held_stack layers.items))) }
{
    let mut layers = layers;
    in_order(&mut layers)?;
    join_layers(out, layers)
}

/// What a box paints that is no layer and no outline, one on top of another. The outlines.
#[tactic(auto, using(crate::proofs::Pass::Joining::joins))]
fn join_local<A: Ledger>(out: &mut Pieces<A>, local: FlowLists<A>) -> Result<Pieces<A>, NoMemory>
    ensures list { OnOk result (laid_out out.new ≡ laid_out out.old ▷ laid_out local.backgrounds
        ▷ laid_out local.floats ▷ laid_out local.line ▷ laid_out local.contents) }
    ensures outlines { IfOk result (λ p. p ≡ local.outlines) }
{
    out.join(local.backgrounds)?;
    out.join(local.floats)?;
    out.join(local.line)?;
    out.join(local.contents)?;
    Ok(local.outlines)
}

/// All lists of a box, one on top of another (CSS 2.2 Appendix E.2).
#[tactic(auto, using(crate::proofs::Pass::Joining::joins))]
pub fn finish<A: Ledger>(
    out: Pieces<A>,
    local: FlowLists<A>,
    layers: LayerLists<A>,
) -> Result<Pieces<A>, NoMemory>
    ensures { IfOk result (λ p. laid_out p ≡ laid_out out ▷ each (λ y. y.order) (by_level
        (map held_stack layers.negatives.items)) ▷ laid_out local.backgrounds ▷ laid_out local.floats
        ▷ laid_out local.line ▷ laid_out local.contents ▷ laid_out layers.zeros
        ▷ each (λ y. y.order) (by_level (map held_stack layers.positives.items)) ▷ laid_out local.outlines) }
{
    let LayerLists {
        negatives,
        zeros,
        positives,
    } = layers;
    let mut out = out;
    join_by_level(&mut out, negatives)?;
    let outlines = join_local(&mut out, local)?;
    out.join(zeros)?;
    join_by_level(&mut out, positives)?;
    out.join(outlines)?;
    Ok(out)
}

/// Is a stacking context put as one group: translucent, blended, or, unless it is the root, with a blended layer below it (CSS
/// Color 3 section 3.2, CSS Compositing 1 section 3.2)?
fn is_composed(s: &Style, root: bool, blend_below: bool) -> bool
    ensures { result ≡ (nat_lt s.now.opacity 255 || styles.blended s.now || (not root && blend_below)) }
{
    s.opacity < 255 || is_blended(s) || (!root && blend_below)
}

/// A stacking context is put as one group where that is so, and where it paints anything.
#[tactic(auto, using(crate::proofs::Pass::Joining::joins))]
pub(crate) fn as_group<A: Ledger>(
    alloc: Global,
    root: bool,
    blend_below: bool,
    b: &BoxData,
    order: Pieces<A>,
) -> Result<Pieces<A>, NoMemory>
    requires filled { has_leaf (flat (laid_out order)) ≡ not (is_empty (laid_out order)) }
    ensures { IfOk result (λ p. laid_out p ≡ pass.as_group (pass.is_one root blend_below b.now) b.now (laid_out order)) }
{
    if order.is_empty() {
        return Ok(order);
    }
    if !real(b.style(), root) {
        return Ok(order);
    }
    if !is_composed(b.style(), root, blend_below) {
        return Ok(order);
    }
    let mut inner = NewList::empty(alloc);
    order.lay_out(&mut inner)?;
    let mut out = Pieces::empty(alloc);
    out.push_group(b.key(), b.style().opacity, b.style().blend, inner)?;
    Ok(out)
}
