//! One downward pass over a tree, which drops each box into the lists of the box that paints it (CSS 2.2 Appendix E.2).
ghost use Rattle.std.specs.Prelude.{◌≡◌, OnOk, IfOk, ◌+◌, ◌≤◌, false, true};
ghost use Rattle.rd_keys.specs.Keys.{same_key};
ghost use Rattle.rd_style.specs.Classes as styles;
ghost use Rattle.rd_style.specs.declared.kinds.Class.TheVariants as classes;
ghost use Rattle.rd_list.specs.Entries.{◌▷◌, nil, only};
ghost use Rattle.rd_list.specs.Nested.{laid_out};
ghost use Rattle.rd_keys.specs.declared.entry.Part.TheVariants as parts;
ghost use Rattle.rd_tree.specs.Forest.{IsApart};
ghost use Rattle.rd_stack.specs.Fresh.{fresh_list};
ghost use Rattle.rd_stack.specs.Internal.Looks.{IsFirst};
ghost use Rattle.rd_partial.specs.Numbered.{numbered};
ghost use Rattle.rd_partial.specs.Internal.ContextLists.{◌⊕◌};
ghost use Rattle.rd_partial.specs.Internal.Pass as pass;
ghost use Rattle.rd_partial.specs.Internal.Held.{held};
ghost use Rattle.rd_partial.specs.Internal.Counting.{leaves_in, root_visits};
ghost use Rattle.rd_partial.specs.Internal.Work.{blends_from, layer_lists, layers_of, held_layers, passes_from, siblings_cost, visits_from};
ghost use Rattle.rd_partial.specs.Internal.Visited.{part_at, back_border_at, own_cost_at, passes_below, cost_below, paints_at, cost_at, visits_below, tally, GivesBox};
ghost use Rattle.rd_tree.specs.Drawn.{drawn};

use crate::inherited::Inherited;
use crate::lists::{FlowLists, LayerLists, LayerOrder};
use crate::look::{look_at, root_of};
use crate::order::{OwnParts, as_group, finish};
use crate::seeking::next_wanted;
use crate::visit::{Pass, Siblings, Visit};
use crate::wanted::Wanted;
use rd_geom::{NoMemory, Steps};
use rd_list::{NewList, Pieces};
use rd_stack::BoxData;
use rd_style::{Class, class_of, level, real};
use rd_tree::Tree;
use std::alloc::Global;
use std::mem::replace;
use std::sync::ledger::Ledger;

fn level_in(b: &BoxData) -> i32
    ensures { result ≡ pass.level_in b.now }
{
    match level(b.style(), false) {
        Some(z) => z,
        None => 0,
    }
}

/// An empty list, which takes the room that is left in another.
#[inline(always)]
fn empty_one<A: Ledger>(alloc: Global, spare: &mut Pieces<A>) -> Pieces<A>
    ensures { laid_out result ≡ nil }
{
    let taken = replace(spare, Pieces::empty(alloc));
    if taken.is_empty() {
        taken
    } else {
        Pieces::empty(alloc)
    }
}

/// Begins the line of a block on top of the contents. The line of the box that paints it, which waits while those below the
/// block are dropped.
fn open_line<A: Ledger>(alloc: Global, local: &mut FlowLists<A>) -> Pieces<A>
    ensures outer { result ≡ local.old.line }
    ensures backgrounds { local.new.backgrounds ≡ local.old.backgrounds }
    ensures floats { local.new.floats ≡ local.old.floats }
    ensures line { local.new.line ≡ local.old.contents }
    ensures contents { laid_out local.new.contents ≡ nil }
    ensures outlines { local.new.outlines ≡ local.old.outlines }
{
    let none = empty_one(alloc, &mut local.spare);
    let line = replace(&mut local.contents, none);
    replace(&mut local.line, line)
}

/// Ends the line of a block: the contents with it, and then the lines of the blocks below it.
fn close_line<A: Ledger>(local: &mut FlowLists<A>, outer: Pieces<A>) -> Result<(), NoMemory>
    ensures backgrounds { OnOk result (local.new.backgrounds ≡ local.old.backgrounds) }
    ensures floats { OnOk result (local.new.floats ≡ local.old.floats) }
    ensures line { OnOk result (local.new.line ≡ outer) }
    ensures contents { OnOk result (laid_out local.new.contents ≡ laid_out local.old.line ▷ laid_out local.old.contents) }
    ensures outlines { OnOk result (local.new.outlines ≡ local.old.outlines) }
{
    let line = replace(&mut local.line, outer);
    let mut contents = replace(&mut local.contents, line);
    local.contents.append(&mut contents)?;
    local.spare = contents;
    Ok(())
}

fn has_negative_level(b: &BoxData) -> bool
    ensures { result ≡ pass.has_negative_level b.now }
{
    level_in(b) < 0
}

fn has_positive_level(b: &BoxData) -> bool
    ensures { result ≡ pass.has_positive_level b.now }
{
    0 < level_in(b)
}

fn stacked<A: Ledger>(b: &BoxData, order: Pieces<A>) -> LayerOrder<A>
    ensures level { result.level ≡ pass.level_in b.now }
    ensures order { result.order ≡ order }
{
    LayerOrder {
        level: level_in(b),
        order,
    }
}

/// Puts a layer among those of its stacking context, if it paints anything.
#[tactic(auto, using(crate::proofs::Pass::Joining::joins))]
fn stack<A: Ledger>(
    layers: &mut LayerLists<A>,
    b: &BoxData,
    order: Pieces<A>,
) -> Result<(), NoMemory>
    ensures { OnOk result (held_layers layers.new ≡ held_layers layers.old
        ⊕ layer_lists (pass.level_in b.now) (laid_out order)) }
{
    if order.is_empty() {
        return Ok(());
    }
    if has_negative_level(b) {
        layers.negatives.push(stacked(b, order))?;
        return Ok(());
    }
    if has_positive_level(b) {
        layers.positives.push(stacked(b, order))?;
        return Ok(());
    }
    layers.zeros.join(order)?;
    Ok(())
}

impl<'a, B: Ledger, W: Wanted> Pass<'a, B, W> {
    /// All that a stacking context paints.
    #[cycle(build)]
    fn context<A: Ledger>(
        &self,
        at: &Visit<'_>,
        made: &mut Steps<A>,
        looks: &mut Steps<B>,
    ) -> Result<Pieces<A>, NoMemory>
        requires real { styles.real at.now.here.now.style at.now.inherited.now.root ≡ true }
        requires live { IsFirst at.now.first_child (drawn self.now.tree.now) }
        ensures list { IfOk result (λ p. laid_out p ≡ paints_at (W.wants self.now.wanted.now) self.now.number at.now (drawn self.now.tree.now)) }
        ensures made { OnOk result (made.new ≡ made.old + cost_at (W.wants self.now.wanted.now) self.now.number at.now (drawn self.now.tree.now)) }
        ensures most { made.new ≤ made.old + cost_at (W.wants self.now.wanted.now) self.now.number at.now (drawn self.now.tree.now) }
        ensures looks { looks.new ≤ looks.old + visits_below (W.wants self.now.wanted.now) at.now (drawn self.now.tree.now) }
    {
        let OwnParts {
            out,
            line,
            outlines,
        } = self.begin(at, made)?;
        let mut local = FlowLists::begun(self.alloc, line, outlines);
        let mut layers = LayerLists::none(self.alloc);
        self.descendants(at, &mut local, &mut layers, made, looks)?;
        let order = finish(out, local, layers)?;
        Ok(order)
    }

    /// All that a box paints as if it made a stacking context; the layers below it go to its own stacking context.
    #[cycle(build)]
    fn pseudo_context<A: Ledger>(
        &self,
        at: &Visit<'_>,
        layers: &mut LayerLists<A>,
        made: &mut Steps<A>,
        looks: &mut Steps<B>,
    ) -> Result<Pieces<A>, NoMemory>
        requires unreal { styles.real at.now.here.now.style at.now.inherited.now.root ≡ false }
        requires live { IsFirst at.now.first_child (drawn self.now.tree.now) }
        ensures list { IfOk result (λ p. laid_out p ≡ paints_at (W.wants self.now.wanted.now) self.now.number at.now (drawn self.now.tree.now)) }
        ensures layers { OnOk result (held_layers layers.new ≡ held_layers layers.old
            ⊕ layers_of (passes_below (W.wants self.now.wanted.now) self.now.number at.now (drawn self.now.tree.now))) }
        ensures made { OnOk result (made.new ≡ made.old + cost_at (W.wants self.now.wanted.now) self.now.number at.now (drawn self.now.tree.now)) }
        ensures most { made.new ≤ made.old + cost_at (W.wants self.now.wanted.now) self.now.number at.now (drawn self.now.tree.now) }
        ensures looks { looks.new ≤ looks.old + visits_below (W.wants self.now.wanted.now) at.now (drawn self.now.tree.now) }
    {
        let OwnParts {
            out,
            line,
            outlines,
        } = self.begin(at, made)?;
        let mut local = FlowLists::begun(self.alloc, line, outlines);
        self.descendants(at, &mut local, layers, made, looks)?;
        let order = finish(out, local, LayerLists::none(self.alloc))?;
        Ok(order)
    }

    /// Drops a float.
    #[cycle(build)]
    #[inline(never)]
    fn float<A: Ledger>(
        &self,
        at: &Visit<'_>,
        local: &mut FlowLists<A>,
        layers: &mut LayerLists<A>,
        made: &mut Steps<A>,
        looks: &mut Steps<B>,
    ) -> Result<(), NoMemory>
        requires class { styles.class at.now.here.now.style false ≡ classes.Float }
        requires root { at.now.inherited.now.root ≡ false }
        requires live { IsFirst at.now.first_child (drawn self.now.tree.now) }
        ensures { GivesBox (W.wants self.now.wanted.now) self.now.number at.now (drawn self.now.tree.now) result
            (tally local.old layers.old made.old looks.old) (tally local.new layers.new made.new looks.new) }
    {
        let order = self.pseudo_context(at, layers, made, looks)?;
        local.floats.join(order)?;
        Ok(())
    }

    /// Drops an atomic inline.
    #[cycle(build)]
    #[inline(never)]
    fn atom<A: Ledger>(
        &self,
        at: &Visit<'_>,
        local: &mut FlowLists<A>,
        layers: &mut LayerLists<A>,
        made: &mut Steps<A>,
        looks: &mut Steps<B>,
    ) -> Result<(), NoMemory>
        requires class { styles.class at.now.here.now.style false ≡ classes.Atom }
        requires root { at.now.inherited.now.root ≡ false }
        requires live { IsFirst at.now.first_child (drawn self.now.tree.now) }
        ensures { GivesBox (W.wants self.now.wanted.now) self.now.number at.now (drawn self.now.tree.now) result
            (tally local.old layers.old made.old looks.old) (tally local.new layers.new made.new looks.new) }
    {
        let order = self.pseudo_context(at, layers, made, looks)?;
        local.line.join(order)?;
        Ok(())
    }

    /// Drops an inline box, and those below it into the same line.
    #[cycle(build)]
    #[inline(never)]
    fn inline<A: Ledger>(
        &self,
        at: &Visit<'_>,
        local: &mut FlowLists<A>,
        layers: &mut LayerLists<A>,
        made: &mut Steps<A>,
        looks: &mut Steps<B>,
    ) -> Result<(), NoMemory>
        requires class { styles.class at.now.here.now.style false ≡ classes.Inline }
        requires root { at.now.inherited.now.root ≡ false }
        requires live { IsFirst at.now.first_child (drawn self.now.tree.now) }
        ensures { GivesBox (W.wants self.now.wanted.now) self.now.number at.now (drawn self.now.tree.now) result
            (tally local.old layers.old made.old looks.old) (tally local.new layers.new made.new looks.new) }
    {
        self.back_border(&mut local.line, at, made)?;
        self.give_content(&mut local.line, at, made)?;
        self.give_outline(&mut local.outlines, at, made)?;
        self.descendants(at, local, layers, made, looks)?;
        Ok(())
    }

    /// Drops a block itself.
    #[inline(always)]
    fn block_itself<A: Ledger>(
        &self,
        at: &Visit<'_>,
        local: &mut FlowLists<A>,
        made: &mut Steps<A>,
    ) -> Result<(), NoMemory>
        ensures floats { OnOk result (local.new.floats ≡ local.old.floats) }
        ensures backgrounds { OnOk result (laid_out local.new.backgrounds ≡ laid_out local.old.backgrounds
            ▷ back_border_at (W.wants self.now.wanted.now) self.now.number at.now) }
        ensures line { OnOk result (local.new.line ≡ local.old.line) }
        ensures contents { OnOk result (laid_out local.new.contents ≡ laid_out local.old.contents
            ▷ part_at (W.wants self.now.wanted.now) self.now.number at.now parts.Content) }
        ensures outlines { OnOk result (laid_out local.new.outlines ≡ laid_out local.old.outlines
            ▷ part_at (W.wants self.now.wanted.now) self.now.number at.now parts.Outline) }
        ensures made { OnOk result (made.new ≡ made.old + own_cost_at (W.wants self.now.wanted.now) self.now.number at.now) }
        ensures most { made.new ≤ made.old + own_cost_at (W.wants self.now.wanted.now) self.now.number at.now }
    {
        self.back_border(&mut local.backgrounds, at, made)?;
        self.give_content(&mut local.contents, at, made)?;
        self.give_outline(&mut local.outlines, at, made)?;
        Ok(())
    }

    /// Drops a block, and those below it: its line comes before those of the blocks below it.
    #[cycle(build)]
    fn block<A: Ledger>(
        &self,
        at: &Visit<'_>,
        local: &mut FlowLists<A>,
        layers: &mut LayerLists<A>,
        made: &mut Steps<A>,
        looks: &mut Steps<B>,
    ) -> Result<(), NoMemory>
        requires class { styles.class at.now.here.now.style false ≡ classes.Block }
        requires root { at.now.inherited.now.root ≡ false }
        requires live { IsFirst at.now.first_child (drawn self.now.tree.now) }
        ensures { GivesBox (W.wants self.now.wanted.now) self.now.number at.now (drawn self.now.tree.now) result
            (tally local.old layers.old made.old looks.old) (tally local.new layers.new made.new looks.new) }
    {
        self.block_itself(at, local, made)?;
        match at.first_child {
            Some(_) => {}
            None => return Ok(()),
        }
        let outer = open_line(self.alloc, local);
        self.descendants(at, local, layers, made, looks)?;
        close_line(local, outer)?;
        Ok(())
    }

    /// Drops a layer that makes a stacking context.
    #[cycle(build)]
    fn real_layer<A: Ledger>(
        &self,
        at: &Visit<'_>,
        local: &mut FlowLists<A>,
        layers: &mut LayerLists<A>,
        made: &mut Steps<A>,
        looks: &mut Steps<B>,
    ) -> Result<(), NoMemory>
        requires class { styles.class at.now.here.now.style false ≡ classes.Layer }
        requires real { styles.real at.now.here.now.style false ≡ true }
        requires root { at.now.inherited.now.root ≡ false }
        requires low { at.now.blend_below ≡ blends_from at.now.first_child (drawn self.now.tree.now) }
        requires live { IsFirst at.now.first_child (drawn self.now.tree.now) }
        ensures { GivesBox (W.wants self.now.wanted.now) self.now.number at.now (drawn self.now.tree.now) result
            (tally local.old layers.old made.old looks.old) (tally local.new layers.new made.new looks.new) }
    {
        let order = self.context(at, made, looks)?;
        let order = as_group(self.alloc, false, at.blend_below, at.here, order)?;
        stack(layers, at.here, order)?;
        Ok(())
    }

    /// Drops a layer that makes none: the layers at auto or 0 below it come after it.
    #[cycle(build)]
    fn auto_layer<A: Ledger>(
        &self,
        at: &Visit<'_>,
        local: &mut FlowLists<A>,
        layers: &mut LayerLists<A>,
        made: &mut Steps<A>,
        looks: &mut Steps<B>,
    ) -> Result<(), NoMemory>
        requires class { styles.class at.now.here.now.style false ≡ classes.Layer }
        requires unreal { styles.real at.now.here.now.style false ≡ false }
        requires root { at.now.inherited.now.root ≡ false }
        requires live { IsFirst at.now.first_child (drawn self.now.tree.now) }
        ensures { GivesBox (W.wants self.now.wanted.now) self.now.number at.now (drawn self.now.tree.now) result
            (tally local.old layers.old made.old looks.old) (tally local.new layers.new made.new looks.new) }
    {
        let outer = replace(&mut layers.zeros, Pieces::empty(self.alloc));
        let order = self.pseudo_context(at, layers, made, looks)?;
        let inner = replace(&mut layers.zeros, outer);
        layers.zeros.join(order)?;
        layers.zeros.join(inner)?;
        Ok(())
    }

    /// Drops a box, and those below it.
    #[cycle(build)]
    fn drop_box<A: Ledger>(
        &self,
        at: &Visit<'_>,
        local: &mut FlowLists<A>,
        layers: &mut LayerLists<A>,
        made: &mut Steps<A>,
        looks: &mut Steps<B>,
    ) -> Result<(), NoMemory>
        requires root { at.now.inherited.now.root ≡ false }
        requires low { at.now.blend_below ≡ blends_from at.now.first_child (drawn self.now.tree.now) }
        requires live { IsFirst at.now.first_child (drawn self.now.tree.now) }
        ensures { GivesBox (W.wants self.now.wanted.now) self.now.number at.now (drawn self.now.tree.now) result
            (tally local.old layers.old made.old looks.old) (tally local.new layers.new made.new looks.new) }
    {
        match class_of(at.here.style(), false) {
            Class::Layer => self.layer(at, local, layers, made, looks),
            Class::Float => self.float(at, local, layers, made, looks),
            Class::Atom => self.atom(at, local, layers, made, looks),
            Class::Block => self.block(at, local, layers, made, looks),
            Class::Inline => self.inline(at, local, layers, made, looks),
        }
    }

    /// Drops a layer.
    #[cycle(build)]
    #[inline(never)]
    fn layer<A: Ledger>(
        &self,
        at: &Visit<'_>,
        local: &mut FlowLists<A>,
        layers: &mut LayerLists<A>,
        made: &mut Steps<A>,
        looks: &mut Steps<B>,
    ) -> Result<(), NoMemory>
        requires class { styles.class at.now.here.now.style false ≡ classes.Layer }
        requires root { at.now.inherited.now.root ≡ false }
        requires low { at.now.blend_below ≡ blends_from at.now.first_child (drawn self.now.tree.now) }
        requires live { IsFirst at.now.first_child (drawn self.now.tree.now) }
        ensures { GivesBox (W.wants self.now.wanted.now) self.now.number at.now (drawn self.now.tree.now) result
            (tally local.old layers.old made.old looks.old) (tally local.new layers.new made.new looks.new) }
    {
        if real(at.here.style(), false) {
            self.real_layer(at, local, layers, made, looks)
        } else {
            self.auto_layer(at, local, layers, made, looks)
        }
    }

    /// Drops those below a box, where there are any.
    #[cycle(build)]
    #[inline(always)]
    fn descendants<A: Ledger>(
        &self,
        at: &Visit<'_>,
        local: &mut FlowLists<A>,
        layers: &mut LayerLists<A>,
        made: &mut Steps<A>,
        looks: &mut Steps<B>,
    ) -> Result<(), NoMemory>
        requires live { IsFirst at.now.first_child (drawn self.now.tree.now) }
        ensures list { OnOk result (held local.new layers.new ≡ held local.old layers.old
            ⊕ passes_below (W.wants self.now.wanted.now) self.now.number at.now (drawn self.now.tree.now)) }
        ensures made { OnOk result (made.new ≡ made.old + cost_below (W.wants self.now.wanted.now) self.now.number at.now (drawn self.now.tree.now)) }
        ensures most { made.new ≤ made.old + cost_below (W.wants self.now.wanted.now) self.now.number at.now (drawn self.now.tree.now) }
        ensures looks { looks.new ≤ looks.old + visits_below (W.wants self.now.wanted.now) at.now (drawn self.now.tree.now) }
    {
        match at.first_child {
            Some(_) => {
                let inner = at.inherited.below(at.here);
                let below = Siblings {
                    inherited: &inner,
                    first: at.first_child,
                };
                self.siblings(&below, local, layers, made, looks)
            }
            None => Ok(()),
        }
    }

    /// Drops some siblings and those below them; those of which nothing is wanted are looked at, and no box below them is.
    #[cycle(build)]
    fn siblings<A: Ledger>(
        &self,
        of: &Siblings<'_>,
        local: &mut FlowLists<A>,
        layers: &mut LayerLists<A>,
        made: &mut Steps<A>,
        looks: &mut Steps<B>,
    ) -> Result<(), NoMemory>
        requires root { of.now.inherited.now.root ≡ false }
        requires live { IsFirst of.now.first (drawn self.now.tree.now) }
        ensures list { OnOk result (held local.new layers.new ≡ held local.old layers.old
            ⊕ passes_from (W.wants self.now.wanted.now) self.now.number of.now.inherited.now of.now.first (drawn self.now.tree.now)) }
        ensures made { OnOk result (made.new ≡ made.old + siblings_cost (W.wants self.now.wanted.now) self.now.number of.now.inherited.now of.now.first (drawn self.now.tree.now)) }
        ensures most { made.new ≤ made.old + siblings_cost (W.wants self.now.wanted.now) self.now.number of.now.inherited.now of.now.first (drawn self.now.tree.now) }
        ensures looks { looks.new ≤ looks.old + visits_from (W.wants self.now.wanted.now) of.now.first (drawn self.now.tree.now) }
    {
        let frame = self.wanted.frame();
        let mut next = of.first;
        loop {
            let looked = match next_wanted(self.tree, self.wanted, &frame, next, looks) {
                Some(looked) => looked,
                None => return Ok(()),
            };
            let here = looked.here();
            let child = Visit {
                inherited: of.inherited,
                here: &here,
                first_child: looked.first_child,
                blend_below: looked.blend_below,
            };
            self.drop_box(&child, local, layers, made, looks)?;
            next = looked.next_sibling;
        }
    }
}

/// The fresh list of a tree as far as it is wanted, each item made by paint `number` (CSS 2.2 Appendix E).
pub(crate) fn build_wanted<A: Ledger, B: Ledger, W: Wanted>(
    alloc: Global,
    tree: &Tree<B>,
    wanted: &W,
    number: u64,
    made: &mut Steps<A>,
    looks: &mut Steps<B>,
) -> Result<NewList<A>, NoMemory>
    ensures list { IfOk result (λ l. l ≡ numbered number (only (λ x. W.wants wanted.now x.visible)
        (fresh_list tree.now))) }
    ensures made { OnOk result (made.new ≡ made.old + leaves_in (only (λ x. W.wants wanted.now x.visible)
        (fresh_list tree.now))) }
    ensures most { made.new ≤ made.old + leaves_in (only (λ x. W.wants wanted.now x.visible) (fresh_list tree.now)) }
    ensures looks { looks.new ≤ looks.old + root_visits (W.wants wanted.now) (drawn tree.now).boxes }
    ensures apart { IsApart same_key tree.now.boxes }
{
    let s = Inherited::at_root(tree.canvas());
    let looked = match look_at(tree, root_of(tree), looks) {
        Some(looked) => looked,
        None => return Ok(NewList::empty(alloc)),
    };
    let here = looked.here();
    let pass = Pass {
        alloc,
        tree,
        wanted,
        number,
    };
    let root = Visit {
        inherited: &s,
        here: &here,
        first_child: looked.first_child,
        blend_below: looked.blend_below,
    };
    let order = pass.context(&root, made, looks)?;
    let order = as_group(alloc, true, looked.blend_below, &here, order)?;
    let mut list = NewList::empty(alloc);
    order.lay_out(&mut list)?;
    Ok(list)
}
