//! The engine.
ghost use Rattle.std.specs.Prelude.{◌≡◌, ◌≤◌, ◌<◌, ◌+◌, false, true, IfOk, IfErr, OnOk, OnErr, IfSome, None, is_some, nat_lt, option_copied, length};
ghost use Rattle.rd_list.specs.Entries.{flat};
ghost use Rattle.rd_list.specs.EntryNames.{kept_leaves};
ghost use Rattle.rd_list.specs.Lists as lists;
ghost use Rattle.rd_paint.specs.Pictures.{size_of};
ghost use Rattle.rd_stack.specs.Fresh.{fresh_list};
ghost use Rattle.rd_tree.specs.Figures.{max_depth};
ghost use Rattle.rd_edits.specs.Edited.{IsEdited};
ghost use Rattle.rd_edits.specs.Refusals.{IsRefused, refusal_of};
ghost use Rattle.rd_engine.specs.State.{IsEngine, ShowsKept};
ghost use Rattle.rd_engine.specs.Painted.{IsAllTouched, IsBegun, IsSettled, IsJoinedBy, IsNoted, AreNumbered, IsAreaPainted};
ghost use Rattle.rd_engine.specs.Painted.{remade, half_looks, most_looks, shown_at};
ghost use Rattle.rd_engine.specs.Internal.Parts.{IsInvalidArea, IsRemade, IsPlanned, IsPrepared};

use crate::counting::counts_of;
use crate::note::PaintNote;
use crate::prepared::Prepared;
use rd_area::Area;
use rd_edits::{Edit, EditFault, apply};
use rd_geom::{Color, NoMemory, Px, Steps};
use rd_keys::BoxKey;
use rd_list::{Kept, ListView, NewList};
use rd_merge::{Plan, finish, prepare};
use rd_paint::{Buffers, Canvas, repaint_since};
use rd_partial::{build, touched_area};
use rd_tree::{MAX_DEPTH, Tree};
use std::alloc::Global;
use std::marker::Model;
use std::mem;
use std::sync::ledger::Ledger;

/// A tree with the list and the canvas of its last paint. Items are counted in the ledger `A`, looks at boxes in `B`.
#[derive(Drop)]
pub struct Engine<A: Ledger, B: Ledger> {
    alloc: Global,
    tree: Tree<B>,
    list: Kept<A>,
    canvas: Canvas,
    pending: bool,
    paints: u64,

    /// What the last paint painted anew.
    area: Option<Area>,
}

impl<A: Ledger, B: Ledger> Model for Engine<A, B> {
    ghost use Rattle.rd_engine.specs.State.{EngineState, IsEngine};
    ghost use Rattle.rd_engine.specs.Internal.StateCode.{engine_code, region_code};
    ghost use Rattle.rd_tree.specs.Internal.Coding.{document_code};
    ghost use Rattle.rd_list.specs.Internal.KeptCode.{kept_code, made_code};
    ghost use Rattle.rd_list.specs.Wrappers.{wrapper_code};
    ghost use Rattle.rd_geom.specs.contracts.rect.Size as canvas_size;
    ghost use Rattle.rd_geom.specs.contracts.span.Span as span;
    ghost use Rattle.rd_geom.specs.contracts.color.Px as px;
    ghost use Rattle.rd_keys.specs.contracts.key.Key as key;
    ghost use Rattle.rd_keys.specs.contracts.entry.BoxMark as mark;
    ghost use Rattle.rd_tree.specs.contracts.node.Item as item;
    ghost use Rattle.rd_graph.specs.contracts.graph.OrderGraph as order;
    ghost use Rattle.rd_item.specs.contracts.leaf.Leaf as leaf;

    ghost Value = { EngineState };

    ghost coded = { engine_code
        (document_code canvas_size.the_row.coded (key.the_row mark.the_row).coded item.the_row.coded)
        (kept_code order.the_row.coded (wrapper_code (key.the_row mark.the_row).coded) (made_code leaf.the_row.coded))
        px.the_row.coded (region_code canvas_size.the_row.coded span.the_row.coded) };

    ghost view = { λ e. record {
      tree = e.tree;
      kept = e.list;
      canvas = e.canvas;
      pending = e.pending;
      paints = e.paints;
      area = e.area;
    } };

    ghost invariant = { λ e. IsEngine (record {
      tree = e.tree;
      kept = e.list;
      canvas = e.canvas;
      pending = e.pending;
      paints = e.paints;
      area = e.area;
    }) };
}

fn opaque(px: Px) -> Color
    ensures { result ≡ record { r = px.r; g = px.g; b = px.b; a = 255 } }
{
    Color {
        r: px.r(),
        g: px.g(),
        b: px.b(),
        a: 255,
    }
}

impl<A: Ledger, B: Ledger> Engine<A, B> {
    /// An engine of a tree whose boxes are all touched: a white canvas, no list, and the first paint pending.
    /// Without memory the tree is gone.
    pub fn new(alloc: Global, tree: Tree<B>) -> Result<Engine<A, B>, NoMemory>
        requires { IsAllTouched tree }
        ensures { IfOk result (IsBegun tree) }
    {
        let size = tree.canvas();
        let canvas = Canvas::new(alloc, size)?;
        let list = Kept::empty();
        let _root = tree.root();
        Ok(Engine {
            alloc,
            tree,
            list,
            canvas,
            pending: true,
            paints: 0,
            area: None,
        })
    }

    /// Does an edit, or refuses it as [`apply`] does, and then nothing has changed. Only the tree changes, and a
    /// paint is pending after it.
    pub fn edit(&mut self, edit: &Edit) -> Result<(), EditFault>
        ensures refused { IfErr result (λ f. IsRefused self.old.tree edit.now f) }
        ensures accepted { OnOk result (refusal_of self.old.tree edit.now ≡ None) }
        ensures done { OnOk result (IsEdited edit.now self.old.tree self.new.tree) }
        ensures others { OnOk result (self.new ≡ record self.old { tree = self.new.tree; pending = true }) }
        ensures kept { OnErr result (self.new ≡ self.old) }
    {
        let _root = self.tree.root();
        apply(&mut self.tree, edit)?;
        self.pending = true;
        Ok(())
    }

    /// Is a paint pending? One is before the first paint, and from each accepted edit on.
    pub fn pending(&self) -> bool
        ensures { result ≡ self.now.pending }
    {
        self.pending
    }

    /// How many paints there were.
    pub fn paints(&self) -> u64
        ensures { result ≡ self.now.paints }
    {
        self.paints
    }

    /// The tree, lent.
    pub fn tree(&self) -> &Tree<B>
        ensures { result.now ≡ self.now.tree }
    {
        &self.tree
    }

    /// The tree alone. The list and the canvas are gone.
    pub fn into_tree(self) -> Tree<B>
        ensures { result ≡ self.tree }
    {
        let Engine {
            alloc: _,
            tree,
            list: _,
            canvas: _,
            pending: _,
            paints: _,
            area: _,
        } = self;
        tree
    }

    /// The canvas, lent. Once there was a paint, it shows the list.
    pub fn canvas(&self) -> &Canvas
        ensures canvas { result.now ≡ self.now.canvas }
        ensures shows { 0 < self.now.paints → ShowsKept self.now }
    {
        &self.canvas
    }

    /// The list of the last paint, lent; none before the first paint.
    pub fn view(&self) -> ListView<'_, A>
        ensures list { result.list.now ≡ self.now.kept }
        ensures state { IsEngine self.now }
    {
        self.list.view()
    }

    /// The pixels that the last paint painted anew, lent; None exactly before the first paint.
    pub fn last_area(&self) -> Option<&Area>
        ensures value { option_copied result ≡ self.now.area }
        ensures some { is_some result ≡ nat_lt 0 self.now.paints }
        ensures size { IfSome self.now.area (λ a. a.size ≡ size_of self.now.canvas) }
    {
        self.area.as_ref()
    }

    /// The box of the topmost leaf that is hit in column `x` and row `y`, for the tree as it is. No paint is pending.
    pub fn hit(&self, x: i32, y: i32) -> Option<BoxKey>
        requires { self.now.pending ≡ false }
        ensures { result ≡ lists.hit (fresh_list self.now.tree) x y }
    {
        let _root = self.tree.root();
        rd_hit::hit(self.list.view(), x, y)
    }

    /// The colour of the pixel in column `x` and row `y`, which is opaque, for the tree as it is; None exactly off the
    /// canvas. No paint is pending.
    pub fn pixel(&self, x: i32, y: i32) -> Option<Color>
        requires { self.now.pending ≡ false }
        ensures { result ≡ shown_at self.now.tree x y }
    {
        let _root = self.tree.root();
        match self.canvas.pixel(x, y) {
            Some(px) => Some(opaque(px)),
            None => None,
        }
    }

    /// Paints what has changed since the last paint: makes the items anew that may be seen in the invalid area, moves
    /// all others over, and paints the area anew (CSS 2.2 Appendix E). Items that are made are counted in `made`, looks
    /// in `looks`. All memory is taken before the first change; without it nothing has changed.
    pub fn paint(
        &mut self,
        made: &mut Steps<A>,
        looks: &mut Steps<B>,
    ) -> Result<PaintNote, NoMemory>
        requires { self.old.paints < 18446744073709551615 }
        ensures stands { OnOk result (lists.StandsFor (kept_leaves self.new.kept.entries) (fresh_list self.old.tree)) }
        ensures joined { OnOk result (IsJoinedBy self.old self.new) }
        ensures settled { OnOk result (IsSettled self.old self.new) }
        ensures note { IfOk result (IsNoted self.old) }
        ensures numbers { OnOk result (AreNumbered self.old self.new) }
        ensures area { OnOk result (IsAreaPainted self.old self.new) }
        ensures made { IfOk result (λ note. made.new ≡ made.old + note.built) }
        ensures most { made.new ≤ made.old + length (flat (remade self.old)) }
        ensures looks { looks.new ≤ looks.old + most_looks self.old }
        ensures refused { OnErr result (self.new ≡ self.old) }
    {
        let prepared = self.prepare(made, looks)?;
        Ok(self.put(prepared))
    }

    /// The pixels to paint anew.
    fn invalid_area(&self, looks: &mut Steps<B>) -> Result<Area, NoMemory>
        ensures area { IfOk result (IsInvalidArea self.now) }
        ensures looks { looks.new ≤ looks.old + half_looks self.now }
    {
        let size = self.tree.canvas();
        if self.paints == 0 {
            let area = Area::whole(self.alloc, size)?;
            return Ok(area);
        }
        let area = touched_area(self.alloc, &self.tree, self.list.view(), looks)?;
        Ok(area)
    }

    /// The items that may be seen in the area, made by the next paint.
    fn renewed(
        &self,
        area: &Area,
        made: &mut Steps<A>,
        looks: &mut Steps<B>,
    ) -> Result<NewList<A>, NoMemory>
        requires paints { self.now.paints < 18446744073709551615 }
        requires area { IsInvalidArea self.now area.now }
        ensures new { IfOk result (IsRemade self.now) }
        ensures made { OnOk result (made.new ≡ made.old + length (flat (remade self.now))) }
        ensures most { made.new ≤ made.old + length (flat (remade self.now)) }
        ensures looks { looks.new ≤ looks.old + half_looks self.now }
    {
        let _root = self.tree.root();
        let _boxes = self.tree.boxes();
        build(self.alloc, &self.tree, area, self.paints + 1, made, looks)
    }

    /// The plan of the merge of the list with these items.
    fn planned(&self, new: &NewList<A>) -> Result<Plan<A>, NoMemory>
        requires { IsRemade self.now new.now }
        ensures { IfOk result (IsPlanned self.now new.now) }
    {
        let _root = self.tree.root();
        let plan = prepare(self.alloc, &self.list, new, &self.tree)?;
        Ok(plan)
    }

    /// Rows for the groups of the list, of which no more stand in one another than boxes do, and room to look in each row at
    /// the entries alone that may show in it: in the area these are entries of the new list, of which there are so many.
    fn rows(&self, entries: usize) -> Result<Buffers, NoMemory>
        ensures { IfOk result (λ b. b ≡ record { size = self.now.tree.canvas; rows = max_depth }) }
    {
        let mut buffers = Buffers::new(self.alloc, self.tree.canvas(), MAX_DEPTH)?;
        buffers.make_room(entries)?;
        Ok(buffers)
    }

    /// Takes all that a paint needs, and changes nothing.
    fn prepare(&self, made: &mut Steps<A>, looks: &mut Steps<B>) -> Result<Prepared<A>, NoMemory>
        requires { self.now.paints < 18446744073709551615 }
        ensures prepared { IfOk result (IsPrepared self.now) }
        ensures made { OnOk result (made.new ≡ made.old + length (flat (remade self.now))) }
        ensures most { made.new ≤ made.old + length (flat (remade self.now)) }
        ensures looks { looks.new ≤ looks.old + most_looks self.now }
    {
        let area = self.invalid_area(looks)?;
        let new = self.renewed(&area, made, looks)?;
        let plan = self.planned(&new)?;
        let counts = counts_of(&new);
        let buffers = self.rows(counts.entries)?;
        Ok(Prepared {
            area,
            new,
            plan,
            buffers,
            built: counts.leaves,
        })
    }

    /// Changes the engine by what was made ready. Nothing is refused.
    fn put(&mut self, prepared: Prepared<A>) -> PaintNote
        requires paints { self.old.paints < 18446744073709551615 }
        requires prepared { IsPrepared self.old prepared }
        ensures stands { lists.StandsFor (kept_leaves self.new.kept.entries) (fresh_list self.old.tree) }
        ensures joined { IsJoinedBy self.old self.new }
        ensures settled { IsSettled self.old self.new }
        ensures note { IsNoted self.old result }
        ensures numbers { AreNumbered self.old self.new }
        ensures area { IsAreaPainted self.old self.new }
    {
        let Prepared {
            area,
            new,
            plan,
            mut buffers,
            built,
        } = prepared;
        let _root = self.tree.root();
        let _boxes = self.tree.boxes();
        let _size = self.tree.canvas();
        let old = mem::replace(&mut self.list, Kept::empty());
        self.list = finish(old, new, plan);
        let number = self.paints + 1;
        repaint_since(
            &mut self.canvas,
            self.list.view(),
            &area,
            number,
            &mut buffers,
        );
        self.tree.settle();
        self.pending = false;
        self.paints = number;
        let leaves = self.list.view().leaves();
        let pixels = area.count();
        self.area = Some(area);
        PaintNote {
            number: self.paints,
            built,
            kept: leaves - built,
            area: pixels,
        }
    }
}
