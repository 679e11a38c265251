//! The tree of boxes where they are drawn.
ghost use Rattle.std.specs.Prelude.{◌≡◌, ◌↔◌, ◌+◌, ◌<◌, ◌≤◌, if◌then◌else◌, length, IsTrue, IfOk, OnOk, OnErr, [], Some, None, true, false, option_map, option_copied, string_bytes};
ghost use Rattle.rd_geom.specs.Canvas.{IsCanvas};
ghost use Rattle.rd_keys.specs.Keys.{BoxKey as Box, same_key};
ghost use Rattle.rd_keys.specs.Ranges.{IsAmong};
ghost use Rattle.rd_keys.specs.Arena.{occupied, Enters};
ghost use Rattle.rd_style.specs.Classes.{clips};
ghost use Rattle.rd_style.specs.Limits.{Fits};
ghost use Rattle.rd_tree.specs.Document.{contains, with_taken, taken, IsNext, IsNextOf, named, id_of, is_touched, HasFreeSlot, HasIds, IsKeyed, IsRooted};
ghost use Rattle.rd_tree.specs.Ids.{is_id};
ghost use Rattle.rd_tree.specs.Figures.{max_boxes, max_depth};
ghost use Rattle.rd_tree.specs.Limits.{FitsScroll, IsNear};
ghost use Rattle.rd_tree.specs.Drawn.{AllNear};
ghost use Rattle.rd_tree.specs.Forest.{tree, empty, size, starting_at, from_some, head, children, map_where, height, depth, in_subtree, is_among, IsApart, IsPlaceIn};
ghost use Rattle.rd_tree.specs.Places as places;
ghost use Rattle.rd_tree.specs.Shown.{shown, told};
ghost use Rattle.rd_tree.specs.Seeking.{hull_reaches, is_marked, looks_until, siblings_from};
ghost use Rattle.rd_tree.specs.Internal.Linked.{AddsText};
ghost use Rattle.rd_tree.specs.Changes.{insertion, removal, moving, styling, placing, shifting, scrolling, new_item, fits_shift, CanRestyle};
ghost use Rattle.rd_tree.specs.Internal.Works.{ShiftNear};
ghost use Rattle.rd_tree.specs.Internal.Cells.{HasRowRoom};
ghost use Rattle.rd_tree.specs.Internal.Regrouping.{marked_reached};
ghost use Rattle.rd_tree.specs.Touching.{touch, settled, edited};
ghost use Rattle.rd_tree.specs.Document.{AllFit};
ghost use Rattle.rd_tree.specs.Changes.{unscrolled, with_scroll};
ghost use Rattle.rd_tree.specs.Forest.{has, item_of};
ghost use Rattle.rd_tree.specs.Internal.Handing.{offset_in, IsFar, IsWithin};
ghost use Rattle.rd_tree.specs.Internal.Hands.{hand_at, handed_to, CanHand, HasHands};
ghost use Rattle.rd_tree.specs.Internal.Laid.{drawn_again, drawn_below, laid_by, passed_from, IsHandedDown, ScrollFits};
ghost use Rattle.rd_tree.specs.Internal.Redraws.{AllRedraw};
ghost use Rattle.std.specs.Option.{option_map_or};

mod contexts;

use crate::canvas::CanvasSize;
use crate::handed::ScrollSums;
use crate::held::Nodes;
use crate::id::Id;
use crate::limits::MAX_BOXES;
use crate::links::free::free_branch;
use crate::links::walk::{
    Offset, Work, child_and_sibling, height_from, shift_from_fits, shift_one_fits, touch,
    work_below,
};
use crate::links::{ends_of, graft, left_of, parent_of, unlink};
use crate::node::{Item, Links, Node};
use crate::redrawing::{draw_at, redraw, redraw_where};
use crate::scroll::Scroll;
use crate::searching::{first_in_reach, tick_times};
use crate::shared::PAGE;
use crate::table::blends::{blends_at, given, given_at, put_count, recount};
use crate::table::extent::own_hull;
use crate::table::hulls::extent_of;
use crate::table::renew::{Stale, renew, renew_up, stale_by, whole_of};
use crate::table::row::{put, row_at, summary_alone};
use crate::table::rows::Table;
use crate::table::settle::settle_from;
use crate::table::whole::{gain, lose, touched_box};
use crate::view::{BoxView, is_marked, view_at};
use indexmap::IndexMap;
use rd_geom::{NoMemory, Rect, Size, Steps};
use rd_keys::{BoxKey, KeyRange};
use rd_style::{Style, StyleChange};
use std::alloc::Global;
use std::marker::{Model, PhantomData};
use std::sync::ledger::Ledger;

/// The boxes of a document under its canvas, each with the rectangle where it is drawn. Each look at a box is counted in the
/// ledger `B`.
#[derive(Drop)]
pub(crate) struct DrawnTree<B: Ledger> {
    canvas: CanvasSize,
    root: BoxKey,
    nodes: Nodes,
    ids: IndexMap<String, BoxKey>,
    table: Table,
    blends: Vec<u32>,
    looks: PhantomData<B>,
}

impl<B: Ledger> Model for DrawnTree<B> {
    ghost use Rattle.rd_tree.specs.Document as spec;
    ghost use Rattle.rd_tree.specs.Internal.Coding as coding;
    ghost use Rattle.rd_tree.specs.Internal.Linked as linked;
    ghost use Rattle.rd_tree.specs.Internal.Keeping as keeping;
    ghost use Rattle.rd_geom.specs.contracts.rect.Size as canvas_size;
    ghost use Rattle.rd_keys.specs.contracts.key.Key as key;
    ghost use Rattle.rd_keys.specs.contracts.entry.BoxMark as mark;
    ghost use Rattle.rd_tree.specs.contracts.node.Item as item;

    ghost Value = { spec.Document };

    ghost coded = { coding.document_code canvas_size.the_row.coded (key.the_row mark.the_row).coded item.the_row.coded };

    ghost view = { λ t. record { canvas = t.canvas; root = t.root; boxes = linked.seen t.nodes t.root; slots = linked.marks t.nodes } };

    ghost invariant = { λ t. keeping.IsKept t.nodes t.root t.ids t.table.rows t.blends.items };
}

/// Stores a node, and its key under its id. After a refusal nothing has changed.
fn store(
    nodes: &mut Nodes,
    ids: &mut IndexMap<String, BoxKey>,
    name: String,
    node: Node,
) -> Result<BoxKey, NoMemory>
    requires named { string_bytes name ≡ node.item.id }
    requires spelled { is_id node.item.id ≡ true }
    requires room { occupied nodes.old < nodes.old.limit }
    ensures stored { IfOk result (λ k. Enters nodes.old nodes.new k.slot k.generation node) }
    ensures listed { IfOk result (λ k. AddsText node.item.id k ids.old ids.new) }
    ensures kept { OnErr result (nodes.new ≡ nodes.old) }
    ensures same_ids { OnErr result (ids.new.entries ≡ ids.old.entries) }
{
    ids.reserve(1)?;
    let key = nodes.insert(node)?;
    match ids.insert(name, key) {
        Ok(_) => Ok(key),
        Err(_) => unreachable!(),
    }
}

/// Stores a new box with these links, touched. After a refusal nothing has changed, and the id is gone.
fn add(
    nodes: &mut Nodes,
    ids: &mut IndexMap<String, BoxKey>,
    id: Id,
    rect: Rect,
    style: Style,
    links: Links,
) -> Result<BoxKey, NoMemory>
    requires room { occupied nodes.old < nodes.old.limit }
    ensures stored { IfOk result (λ k. Enters nodes.old nodes.new k.slot k.generation (record {
      item = touch (new_item id rect style);
      links = links;
    })) }
    ensures listed { IfOk result (λ k. AddsText id k ids.old ids.new) }
    ensures kept { OnErr result (nodes.new ≡ nodes.old) }
    ensures same_ids { OnErr result (ids.new.entries ≡ ids.old.entries) }
{
    let name = id.name()?;
    let item = Item::new(id, rect, style);
    store(nodes, ids, name, Node { item, links })
}

/// A table without rows, with room for one.
fn room_for_one(alloc: Global) -> Result<Table, NoMemory>
    ensures empty { IfOk result (λ table. table.rows ≡ []) }
    ensures room { IfOk result (λ table. HasRowRoom table) }
{
    let mut table = Table::new(alloc);
    table.reserve()?;
    Ok(table)
}

impl<B: Ledger> DrawnTree<B> {
    /// The root alone, touched. The canvas has 1 to 4,096 pixels each way, and the rectangle and the style are within
    /// the limits. After a refusal the id is gone.
    pub(crate) fn new(
        alloc: Global,
        canvas: Size,
        id: Id,
        rect: Rect,
        style: Style,
    ) -> Result<DrawnTree<B>, NoMemory>
        requires canvas { IsCanvas canvas }
        requires rect { IsNear rect }
        requires style { Fits style }
        ensures canvas { IfOk result (λ t. t.canvas ≡ canvas) }
        ensures next { IfOk result (λ t. IsNextOf [] t.root) }
        ensures boxes { IfOk result (λ t. t.boxes ≡ tree t.root (touch (new_item id rect style))
            empty empty) }
        ensures slots { IfOk result (λ t. t.slots ≡ with_taken [] t.root) }
    {
        let mut table = room_for_one(alloc)?;
        let mut blends = Vec::new(alloc);
        blends.push(0)?;
        let mut nodes = Nodes::new(alloc, MAX_BOXES);
        let mut ids = IndexMap::new(alloc);
        let row = summary_alone(own_hull(rect, &style));
        let links = Links {
            up: None,
            prev: None,
            first: None,
            last: None,
            next: None,
        };
        let root = add(&mut nodes, &mut ids, id, rect, style, links)?;
        put(&mut table, root, row);
        Ok(DrawnTree {
            canvas: CanvasSize::new(canvas),
            root,
            nodes,
            ids,
            table,
            blends,
            looks: PhantomData,
        })
    }

    /// The size of the canvas in pixels, which is from 1 to 4,096 each way.
    pub(crate) fn canvas(&self) -> Size
        ensures size { result ≡ self.now.canvas }
        ensures limits { IsCanvas self.now.canvas }
    {
        self.canvas.get()
    }

    /// The root.
    pub(crate) fn root(&self) -> BoxKey
        ensures { result ≡ self.now.root }
    {
        self.root
    }

    /// The root, and what always holds.
    pub(crate) fn known(&self) -> BoxKey
        ensures root { result ≡ self.now.root }
        ensures rooted { IsRooted self.now }
        ensures apart { IsApart same_key self.now.boxes }
        ensures keyed { IsKeyed self.now }
        ensures ids { HasIds self.now.boxes }
        ensures limits { AllNear self.now.boxes }
        ensures depth { height self.now.boxes ≤ max_depth }
        ensures most { taken self.now ≤ max_boxes }
    {
        self.root
    }

    /// How many boxes there are; at most `MAX_BOXES`.
    pub(crate) fn boxes(&self) -> u32
        ensures count { result ≡ size self.now.boxes }
        ensures most { result ≤ max_boxes }
    {
        self.nodes.live()
    }

    /// How many slots never give a key again.
    pub(crate) fn retired(&self) -> u32
        ensures { size self.now.boxes + result ≡ taken self.now }
    {
        self.nodes.retired()
    }

    /// The box with this id. None where no live box has it.
    pub(crate) fn find(&self, id: &Id) -> Option<BoxKey>
        ensures found { result ≡ named id.now self.now.boxes }
        ensures limits { AllNear self.now.boxes }
    {
        self.ids.get(id.text()).copied()
    }

    /// The id of a box. None where the key is not live.
    pub(crate) fn id(&self, key: BoxKey) -> Option<&Id>
        ensures { option_copied result ≡ id_of key self.now.boxes }
    {
        match self.nodes.get(key) {
            Some(node) => Some(&node.item.id),
            None => None,
        }
    }

    /// Was the box touched since the marks were last cleared? A key that is not live counts as touched.
    #[inline(always)]
    pub(crate) fn touched(&self, key: BoxKey) -> bool
        ensures { result ≡ is_touched key self.now.boxes }
    {
        self.nodes.touched(key)
    }

    /// Is no box under a key of the range touched? One comparison tells it of each page of 64 slots. It is said only of a range
    /// of one generation that meets few pages, where these held untouched boxes of that generation alone when the marks were
    /// last cleared, and no edit has written to them since. Where it is not said, nothing is known.
    #[inline(always)]
    pub(crate) fn none_touched(&self, keys: KeyRange) -> bool
        ensures { IsTrue result → (k : Box) → IsAmong keys k → is_touched k self.now.boxes
            ≡ false }
    {
        self.nodes.none_touched(keys)
    }

    /// The depth of a box. The root is at depth 1.
    pub(crate) fn depth(&self, key: BoxKey) -> u32
        requires { contains self.now key ≡ true }
        ensures { result ≡ depth same_key key self.now.boxes }
    {
        let mut depth = 1;
        let mut at = key;
        loop {
            match parent_of(&self.nodes, at) {
                Some(parent) => {
                    depth += 1;
                    at = parent;
                }
                None => return depth,
            }
        }
    }

    /// How many levels a box and all below it have. A box without children has 1.
    pub(crate) fn height(&self, key: BoxKey) -> u32
        requires { contains self.now key ≡ true }
        ensures { result ≡ 1 + height (children same_key key self.now.boxes) }
    {
        height_from(&self.nodes, child_and_sibling(&self.nodes, key).0) + 1
    }

    /// Is the box the other one, or below it?
    pub(crate) fn inside(&self, key: BoxKey, of: BoxKey) -> bool
        requires { contains self.now key ≡ true }
        ensures { result ≡ in_subtree same_key key of self.now.boxes }
    {
        let mut at = key;
        loop {
            if at.is(of) {
                return true;
            }
            match parent_of(&self.nodes, at) {
                Some(parent) => at = parent,
                None => return false,
            }
        }
    }

    /// Is the box a child of the other?
    pub(crate) fn is_child(&self, key: BoxKey, parent: BoxKey) -> bool
        requires key { contains self.now key ≡ true }
        requires parent { contains self.now parent ≡ true }
        ensures { result ≡ is_among same_key key (children same_key parent self.now.boxes) }
    {
        match parent_of(&self.nodes, key) {
            Some(up) => up.is(parent),
            None => false,
        }
    }

    /// The parent of a box. None exactly for the root.
    pub(crate) fn parent(&self, key: BoxKey) -> Option<BoxKey>
        requires { contains self.now key ≡ true }
        ensures parent { result ≡ places.parent_of same_key key self.now.boxes }
        ensures root { (result ≡ None) ↔ (key ≡ self.now.root) }
    {
        parent_of(&self.nodes, key)
    }

    /// Do a box and all below it stay within the limits once they are moved by canvas pixels, by where they are laid out?
    pub(crate) fn shift_fits(&self, rows: &[ScrollSums], key: BoxKey, dx: i32, dy: i32) -> bool
        requires live { contains self.now key ≡ true }
        requires has_rows { HasHands rows.now self.now.boxes }
        requires fits { AllFit (laid_by rows.now self.now.boxes) }
        ensures { result ≡ fits_shift dx dy key (laid_by rows.now self.now.boxes) }
    {
        let by = Offset::new(dx, dy);
        let (fits, below, _) = shift_one_fits(&self.nodes, rows, key, &by);
        fits && shift_from_fits(&self.nodes, rows, below, &by)
    }

    /// How far a box is scrolled to which this is handed.
    pub(crate) fn own_offset(&self, key: BoxKey, handed: &ScrollSums) -> Scroll
        ensures { result ≡ option_map_or (λ d. offset_in handed.now d.style.position) (item_of same_key key self.now.boxes) unscrolled }
    {
        match self.nodes.get(key) {
            Some(node) => handed.offset(node.item.style.position),
            None => Scroll { x: 0, y: 0 },
        }
    }

    /// What is handed to the children of a box to which this is handed.
    pub(crate) fn pass(&self, key: BoxKey, handed: &ScrollSums) -> ScrollSums
        requires few { IsWithin 256 handed.now }
        requires scrolls { ScrollFits (item_of same_key key self.now.boxes) }
        ensures { result ≡ passed_from (same_key key self.now.root) handed.now (item_of same_key key self.now.boxes) }
    {
        match self.nodes.get(key) {
            Some(node) => handed.enter(&node.item.style, node.item.scroll, key.is(self.root)),
            None => *handed,
        }
    }

    /// What is handed to the children of a box to which this is handed, once it is scrolled so far.
    pub(crate) fn pass_scrolled(
        &self,
        key: BoxKey,
        handed: &ScrollSums,
        scroll: Scroll,
    ) -> ScrollSums
        requires few { IsWithin 256 handed.now }
        requires scroll { FitsScroll scroll }
        ensures { result ≡ passed_from (same_key key self.now.root) handed.now (option_map (with_scroll scroll) (item_of same_key key self.now.boxes)) }
    {
        match self.nodes.get(key) {
            Some(node) => handed.enter(&node.item.style, scroll, key.is(self.root)),
            None => *handed,
        }
    }

    /// Draws a box elsewhere that was scrolled so far and is so far now, and all below it, where the table has what was handed
    /// to them, and this is handed to the children of the box now. So the table has what follows from it then.
    pub(crate) fn redraw(
        &mut self,
        rows: &mut Vec<ScrollSums>,
        key: BoxKey,
        old: Scroll,
        new: Scroll,
        inside: ScrollSums,
    )
        requires live { contains self.old key ≡ true }
        requires has_rows { HasHands rows.old.items self.old.boxes }
        requires old { IsFar 256 old }
        requires new { IsFar 256 new }
        requires can { CanHand inside (children same_key key self.old.boxes) }
        requires fits { AllRedraw rows.old.items inside (children same_key key self.old.boxes) }
        requires near { AllNear (drawn_again rows.old.items key old new inside self.old.boxes) }
        ensures drawn { self.new ≡ record self.old { boxes = drawn_again rows.old.items key old new inside self.old.boxes } }
        ensures handed { (k : Box) → contains self.old k ≡ true → hand_at rows.new.items k
            ≡ (if has same_key k (children same_key key self.old.boxes) then handed_to k inside (children same_key key self.old.boxes) else hand_at rows.old.items k) }
        ensures same_length { length rows.new.items ≡ length rows.old.items }
    {
        let whole = whole_of(&self.table, &self.nodes, key);
        draw_at(&mut self.nodes, key, old, new);
        let below = child_and_sibling(&self.nodes, key).0;
        redraw(&mut self.nodes, rows, below, inside, false);
        renew_up(&mut self.table, &self.nodes, key, Stale::Branch, whole);
    }

    /// A look at a box, which is counted once. None where the key is not live.
    #[inline(always)]
    pub(crate) fn look(&self, key: BoxKey, steps: &mut Steps<B>) -> Option<BoxView<'_>>
        ensures seen { option_map told result ≡ shown self.now.root (starting_at same_key key
            self.now.boxes) }
        ensures ticks { steps.new ≡ steps.old + 1 }
        ensures apart { IsApart same_key self.now.boxes }
        ensures limits { AllNear self.now.boxes }
    {
        steps.tick();
        match self.nodes.glance(key) {
            Some(glance) => {
                let row = row_at(&self.table, key);
                let blend = blends_at(&self.blends, key);
                view_at(&self.nodes, self.root, key, glance, row, blend)
            }
            None => None,
        }
    }

    /// Looks at some siblings, from one on, up to the first that is touched or has a touched box below it. What the look at
    /// that one gives; None where there is none. Each look is counted once.
    #[inline(always)]
    pub(crate) fn next_touched_sibling(
        &self,
        first: Option<BoxKey>,
        steps: &mut Steps<B>,
    ) -> Option<BoxView<'_>>
        ensures seen { option_map told result ≡ shown self.now.root
            (siblings_from is_marked (from_some same_key first self.now.boxes)) }
        ensures ticks { steps.new ≡ steps.old
            + looks_until is_marked (from_some same_key first self.now.boxes) }
        ensures apart { IsApart same_key self.now.boxes }
        ensures limits { AllNear self.now.boxes }
    {
        if !self.nodes.is_live_or_none(first) {
            return None;
        }
        let mut at = first;
        while let Some(key) = at {
            if let Some(next) = self.nodes.after_page(key) {
                tick_times(steps, PAGE);
                at = next;
                continue;
            }
            let glance = self.nodes.glance_at_live(key);
            steps.tick();
            let row = row_at(&self.table, key);
            if is_marked(&glance, &row) {
                let blend = blends_at(&self.blends, key);
                return view_at(&self.nodes, self.root, key, glance, row, blend);
            }
            at = glance.next;
        }
        None
    }

    /// Looks at some siblings, from a box that is there, if any, up to the first whose hull reaches into a rectangle. What the look
    /// at that one gives; None where there is none. Each look is counted once.
    #[inline(always)]
    pub(crate) fn next_sibling_meeting(
        &self,
        first: Option<BoxKey>,
        rect: &Rect,
        steps: &mut Steps<B>,
    ) -> Option<BoxView<'_>>
        requires live { first ≡ head (from_some same_key first self.now.boxes) }
        ensures seen { option_map told result ≡ shown self.now.root
            (siblings_from (hull_reaches rect.now) (from_some same_key first self.now.boxes)) }
        ensures ticks { steps.new ≡ steps.old
            + looks_until (hull_reaches rect.now) (from_some same_key first self.now.boxes) }
        ensures apart { IsApart same_key self.now.boxes }
        ensures limits { AllNear self.now.boxes }
    {
        let found = first_in_reach(&self.nodes, &self.table, self.root, first, rect, steps);
        match found {
            Some(key) => {
                let read = self.nodes.glance_at_live(key);
                let row = row_at(&self.table, key);
                let blend = blends_at(&self.blends, key);
                view_at(&self.nodes, self.root, key, read, row, blend)
            }
            None => None,
        }
    }

    /// A new box among the children of the parent, before one of them or last, touched; nothing is regrouped.
    pub(crate) fn put_in(
        &mut self,
        parent: BoxKey,
        before: Option<BoxKey>,
        id: &Id,
        rect: Rect,
        style: Style,
    ) -> Result<BoxKey, NoMemory>
        requires parent { contains self.old parent ≡ true }
        requires place { IsPlaceIn same_key before (children same_key parent self.old.boxes) }
        requires new_id { named id.now self.old.boxes ≡ None }
        requires depth { depth same_key parent self.old.boxes + 1 ≤ max_depth }
        requires room { HasFreeSlot self.old }
        requires rect { IsNear rect }
        requires style { Fits style }
        ensures next { IfOk result (λ k. IsNext self.old k) }
        ensures inserted { IfOk result (λ k. self.new ≡ marked_reached (insertion parent before k
            (new_item id.now rect style)) self.old) }
        ensures refused { OnErr result (self.new ≡ self.old) }
    {
        self.table.reserve()?;
        self.blends.reserve(1)?;
        let ends = ends_of(&self.nodes, parent);
        let prev = left_of(&self.nodes, ends.1, before);
        let links = Links {
            up: Some(parent),
            prev,
            first: None,
            last: None,
            next: before,
        };
        let hull = own_hull(rect, &style);
        let layers = given(&style, 0);
        let id = id.copy()?;
        let key = add(&mut self.nodes, &mut self.ids, id, rect, style, links)?;
        graft(&mut self.nodes, parent, key, prev, before, ends);
        put(&mut self.table, key, summary_alone(hull));
        gain(&mut self.table, &self.nodes, parent, touched_box(hull));
        put_count(&mut self.blends, key, 0);
        recount(&mut self.blends, &self.nodes, Some(parent), 0, layers);
        Ok(key)
    }

    /// Takes away a box, which is not the root, and all below it; nothing is regrouped.
    pub(crate) fn take_out(&mut self, key: BoxKey)
        requires live { contains self.old key ≡ true }
        requires below { same_key key self.old.root ≡ false }
        ensures { self.new ≡ marked_reached (removal key) self.old }
    {
        let parent = match parent_of(&self.nodes, key) {
            Some(parent) => parent,
            None => unreachable!(),
        };
        let whole = whole_of(&self.table, &self.nodes, key);
        let layers = given_at(&self.blends, &self.nodes, key);
        unlink(&mut self.nodes, key);
        lose(&mut self.table, &self.nodes, parent, whole);
        recount(&mut self.blends, &self.nodes, Some(parent), layers, 0);
        free_branch(&mut self.nodes, &mut self.ids, key);
    }

    /// Moves a box, which is not the root, with all below it to another place, and touches them; nothing is regrouped.
    pub(crate) fn move_to(&mut self, key: BoxKey, parent: BoxKey, before: Option<BoxKey>)
        requires live { contains self.old key ≡ true }
        requires below { same_key key self.old.root ≡ false }
        requires parent { contains self.old parent ≡ true }
        requires outside { in_subtree same_key parent key self.old.boxes ≡ false }
        requires place { IsPlaceIn same_key before (children same_key parent self.old.boxes) }
        requires other { before ≡ Some key → ⊥ }
        requires depth { depth same_key parent self.old.boxes + (1 + height (children same_key
            key self.old.boxes)) ≤ max_depth }
        ensures { self.new ≡ marked_reached (moving key parent before) self.old }
    {
        let from = match parent_of(&self.nodes, key) {
            Some(up) => up,
            None => unreachable!(),
        };
        let old = whole_of(&self.table, &self.nodes, key);
        work_below(&mut self.nodes, key, Work::Touch);
        renew(&mut self.table, &self.nodes, key, Stale::Branch);
        let new = whole_of(&self.table, &self.nodes, key);
        let layers = given_at(&self.blends, &self.nodes, key);
        unlink(&mut self.nodes, key);
        lose(&mut self.table, &self.nodes, from, old);
        recount(&mut self.blends, &self.nodes, Some(from), layers, 0);
        let ends = ends_of(&self.nodes, parent);
        let prev = left_of(&self.nodes, ends.1, before);
        self.nodes.set_place(key, parent, prev, before);
        graft(&mut self.nodes, parent, key, prev, before, ends);
        gain(&mut self.table, &self.nodes, parent, new);
        recount(&mut self.blends, &self.nodes, Some(parent), 0, layers);
    }

    /// Changes the style of a box, and touches the box or its subtree; nothing is regrouped.
    pub(crate) fn restyle(&mut self, key: BoxKey, c: &StyleChange)
        requires live { contains self.old key ≡ true }
        requires fits { CanRestyle key c.now self.old.boxes }
        ensures { self.new ≡ marked_reached (styling key c.now) self.old }
    {
        let is_root = key.is(self.root);
        let old = whole_of(&self.table, &self.nodes, key);
        let less = given_at(&self.blends, &self.nodes, key);
        let up = parent_of(&self.nodes, key);
        let before = extent_of(&self.nodes, key);
        let reach = self.nodes.restyle(key, is_root, c);
        let more = given_at(&self.blends, &self.nodes, key);
        touch(&mut self.nodes, key, reach);
        let after = extent_of(&self.nodes, key);
        let stale = stale_by(reach, before, after);
        renew_up(&mut self.table, &self.nodes, key, stale, old);
        recount(&mut self.blends, &self.nodes, up, less, more);
    }

    /// Gives a box another rectangle, and touches the box, or its subtree where it clips.
    pub(crate) fn place(&mut self, key: BoxKey, rect: Rect)
        requires live { contains self.old key ≡ true }
        requires fits { IsNear rect }
        ensures { self.new ≡ edited (placing key rect) self.old }
    {
        let is_root = key.is(self.root);
        let old = whole_of(&self.table, &self.nodes, key);
        let before = extent_of(&self.nodes, key);
        let reach = self.nodes.put_rect(key, is_root, rect);
        touch(&mut self.nodes, key, reach);
        let after = extent_of(&self.nodes, key);
        let stale = stale_by(reach, before, after);
        renew_up(&mut self.table, &self.nodes, key, stale, old);
    }

    /// Moves a box and all below it by canvas pixels, and touches them. All stay within the limits.
    pub(crate) fn shift(&mut self, key: BoxKey, dx: i32, dy: i32)
        requires live { contains self.old key ≡ true }
        requires near { ShiftNear dx dy key self.old.boxes }
        ensures { self.new ≡ edited (shifting key dx dy) self.old }
    {
        let old = whole_of(&self.table, &self.nodes, key);
        let work = Work::shift(dx, dy);
        work_below(&mut self.nodes, key, work);
        renew_up(&mut self.table, &self.nodes, key, Stale::Branch, old);
    }

    /// Gives a box another scroll offset. Where it clips, touches all boxes below it, and draws these elsewhere, where the table
    /// has what was handed to them, and this is handed to the children of the box now. So the table has what follows from it
    /// then. Where it does not clip, the table has that already, and no box below it is gone to but for the hulls.
    pub(crate) fn scroll_to(
        &mut self,
        rows: &mut Vec<ScrollSums>,
        key: BoxKey,
        scroll: Scroll,
        inside: ScrollSums,
    )
        requires live { contains self.old key ≡ true }
        requires has_rows { HasHands rows.old.items self.old.boxes }
        requires can { CanHand inside (children same_key key self.old.boxes) }
        requires fits { AllRedraw rows.old.items inside (children same_key key self.old.boxes) }
        requires still { option_map_or (λ d. clips d.style (same_key key self.old.root)) (item_of same_key key self.old.boxes) false ≡ false
            → IsHandedDown rows.old.items inside (children same_key key self.old.boxes) }
        requires near { AllNear (drawn_below rows.old.items key inside (edited (scrolling key scroll) self.old).boxes) }
        ensures drawn { self.new ≡ record (edited (scrolling key scroll) self.old) {
          boxes = drawn_below rows.old.items key inside (edited (scrolling key scroll) self.old).boxes;
        } }
        ensures handed { (k : Box) → contains self.old k ≡ true → hand_at rows.new.items k
            ≡ (if has same_key k (children same_key key self.old.boxes) then handed_to k inside (children same_key key self.old.boxes) else hand_at rows.old.items k) }
        ensures same_length { length rows.new.items ≡ length rows.old.items }
    {
        let is_root = key.is(self.root);
        let was = whole_of(&self.table, &self.nodes, key);
        let asked = self.nodes.put_scroll(key, is_root, scroll);
        let below = child_and_sibling(&self.nodes, key).0;
        redraw_where(&mut self.nodes, rows, below, inside, asked);
        renew_up(&mut self.table, &self.nodes, key, Stale::Branch, was);
    }

    /// No box is touched any more.
    pub(crate) fn settle(&mut self)
        ensures { self.new ≡ record self.old {
          boxes = map_where (λ _. true) settled
              self.old.boxes;
        } }
    {
        let marks = whole_of(&self.table, &self.nodes, self.root).touched;
        settle_from(&mut self.nodes, &mut self.table, Some(self.root), marks);
        self.nodes.note_quiet();
    }
}
