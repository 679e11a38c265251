//! The items of a box.
ghost use Rattle.std.specs.Prelude.{◌≡◌, OnOk, ◌+◌, ◌≤◌, Some};
ghost use Rattle.rd_keys.specs.declared.entry.Part.TheVariants as parts;
ghost use Rattle.rd_list.specs.Entries.{◌▷◌};
ghost use Rattle.rd_stack.specs.Parts.{shape_of};
ghost use Rattle.rd_list.specs.Nested.{laid_out};
ghost use Rattle.rd_partial.specs.Internal.Visited.{part_at};
ghost use Rattle.rd_partial.specs.Internal.Counting.{leaves_in};

use crate::visit::{Pass, Visit};
use crate::wanted::Wanted;
use rd_geom::{Color, NoMemory, Steps, meet};
use rd_item::{Item, Leaf, Shape};
use rd_keys::Part;
use rd_list::Pieces;
use rd_stack::{border_of, content_of, is_seen, outline_of, takes_hits};
use std::sync::ledger::Ledger;

/// A part of a box as it is drawn.
#[derive(Clone, Copy)]
struct Figure {
    part: Part,
    shape: Shape,
    color: Color,
}

impl<'a, B: Ledger, W: Wanted> Pass<'a, B, W> {
    /// Puts the item of a figure on top, where it shows and is wanted.
    #[inline(always)]
    #[tactic(auto, using(crate::proofs::Pass::Joining::joins))]
    fn show<A: Ledger>(
        &self,
        out: &mut Pieces<A>,
        at: &Visit<'_>,
        figure: &Figure,
        made: &mut Steps<A>,
    ) -> Result<(), NoMemory>
        requires shape { shape_of at.now.inherited.now.canvas at.now.inherited.now.root at.now.here.now figure.now.part ≡ Some (figure.now.shape, figure.now.color) }
        ensures list { OnOk result (laid_out out.new ≡ laid_out out.old
            ▷ part_at (W.wants self.now.wanted.now) self.now.number at.now figure.now.part) }
        ensures made { OnOk result (made.new ≡ made.old + leaves_in (part_at (W.wants self.now.wanted.now) self.now.number at.now figure.now.part)) }
        ensures most { made.new ≤ made.old + leaves_in (part_at (W.wants self.now.wanted.now) self.now.number at.now figure.now.part) }
    {
        if !is_seen(at.here) {
            return Ok(());
        }
        let visible = meet(figure.shape.outer, at.inherited.clip(at.here));
        if visible.is_empty() {
            return Ok(());
        }
        if !self.wanted.meets(visible) {
            return Ok(());
        }
        let hits = takes_hits(at.here);
        let leaf = Leaf {
            owner: at.here.key(),
            part: figure.part,
            visible,
            shape: figure.shape,
            color: figure.color,
            hits,
        };
        out.push_item(Item::make(leaf, self.number, made))
    }

    /// Puts the item of the background of a box on top, where it shows and is wanted.
    #[inline(always)]
    #[tactic(auto, using(crate::proofs::Pass::Joining::joins))]
    pub(crate) fn give_background<A: Ledger>(
        &self,
        out: &mut Pieces<A>,
        at: &Visit<'_>,
        made: &mut Steps<A>,
    ) -> Result<(), NoMemory>
        ensures list { OnOk result (laid_out out.new ≡ laid_out out.old
            ▷ part_at (W.wants self.now.wanted.now) self.now.number at.now parts.Back) }
        ensures made { OnOk result (made.new ≡ made.old
            + leaves_in (part_at (W.wants self.now.wanted.now) self.now.number at.now parts.Back)) }
        ensures most { made.new ≤ made.old + leaves_in (part_at (W.wants self.now.wanted.now) self.now.number at.now parts.Back) }
    {
        let figure = Figure {
            part: Part::Back,
            shape: at.inherited.back(at.here),
            color: at.here.style().background,
        };
        self.show(out, at, &figure, made)
    }

    /// Puts the item of the border of a box on top, where it has one that shows and is wanted.
    #[inline(always)]
    #[tactic(auto, using(crate::proofs::Pass::Joining::joins))]
    pub(crate) fn give_border<A: Ledger>(
        &self,
        out: &mut Pieces<A>,
        at: &Visit<'_>,
        made: &mut Steps<A>,
    ) -> Result<(), NoMemory>
        ensures list { OnOk result (laid_out out.new ≡ laid_out out.old
            ▷ part_at (W.wants self.now.wanted.now) self.now.number at.now parts.Border) }
        ensures made { OnOk result (made.new ≡ made.old
            + leaves_in (part_at (W.wants self.now.wanted.now) self.now.number at.now parts.Border)) }
        ensures most { made.new ≤ made.old + leaves_in (part_at (W.wants self.now.wanted.now) self.now.number at.now parts.Border) }
    {
        match border_of(at.here) {
            Some((shape, color)) => {
                let figure = Figure {
                    part: Part::Border,
                    shape,
                    color,
                };
                self.show(out, at, &figure, made)
            }
            None => Ok(()),
        }
    }

    /// Puts the item of the content of a box on top, where it has one that shows and is wanted.
    #[inline(always)]
    #[tactic(auto, using(crate::proofs::Pass::Joining::joins))]
    pub(crate) fn give_content<A: Ledger>(
        &self,
        out: &mut Pieces<A>,
        at: &Visit<'_>,
        made: &mut Steps<A>,
    ) -> Result<(), NoMemory>
        ensures list { OnOk result (laid_out out.new ≡ laid_out out.old
            ▷ part_at (W.wants self.now.wanted.now) self.now.number at.now parts.Content) }
        ensures made { OnOk result (made.new ≡ made.old
            + leaves_in (part_at (W.wants self.now.wanted.now) self.now.number at.now parts.Content)) }
        ensures most { made.new ≤ made.old + leaves_in (part_at (W.wants self.now.wanted.now) self.now.number at.now parts.Content) }
    {
        match content_of(at.here) {
            Some((shape, color)) => {
                let figure = Figure {
                    part: Part::Content,
                    shape,
                    color,
                };
                self.show(out, at, &figure, made)
            }
            None => Ok(()),
        }
    }

    /// Puts the item of the outline of a box on top, where it has one that shows and is wanted.
    #[inline(always)]
    #[tactic(auto, using(crate::proofs::Pass::Joining::joins))]
    pub(crate) fn give_outline<A: Ledger>(
        &self,
        out: &mut Pieces<A>,
        at: &Visit<'_>,
        made: &mut Steps<A>,
    ) -> Result<(), NoMemory>
        ensures list { OnOk result (laid_out out.new ≡ laid_out out.old
            ▷ part_at (W.wants self.now.wanted.now) self.now.number at.now parts.Outline) }
        ensures made { OnOk result (made.new ≡ made.old
            + leaves_in (part_at (W.wants self.now.wanted.now) self.now.number at.now parts.Outline)) }
        ensures most { made.new ≤ made.old + leaves_in (part_at (W.wants self.now.wanted.now) self.now.number at.now parts.Outline) }
    {
        match outline_of(at.here) {
            Some((shape, color)) => {
                let figure = Figure {
                    part: Part::Outline,
                    shape,
                    color,
                };
                self.show(out, at, &figure, made)
            }
            None => Ok(()),
        }
    }
}
