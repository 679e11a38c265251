//! The nodes of a tree. Beside each stands what a walk reads of its box, in a table by slot, so that a walk opens only the
//! nodes of boxes with which it has something to do.
ghost use Rattle.std.specs.Prelude.{◌≡◌, ◌+◌, ◌%◌, ◌<◌, ◌≤◌, IfOk, IfNone, IfSome, IsTrue, OnErr, OnSome, option_copied, option_map, Some, is_some, length, true, false};
ghost use Rattle.std.specs.Option.{option_map_or};
ghost use Rattle.rd_keys.specs.Arena.{empty_arena, live, occupied, retired, value, without_value, Enters};
ghost use Rattle.rd_keys.specs.Keys.{BoxKey as Box, same_key};
ghost use Rattle.rd_keys.specs.Ranges.{IsAmong};
ghost use Rattle.rd_style.specs.Classes as classes;
ghost use Rattle.rd_tree.specs.Changes as changes;
ghost use Rattle.rd_tree.specs.Internal.Calm.{next_at, Passes, Runs};
ghost use Rattle.rd_tree.specs.Internal.Glances.{glance_of};
ghost use Rattle.rd_tree.specs.Internal.Linked.{linked, Relinks};
ghost use Rattle.rd_tree.specs.Internal.Links.{child_and_sibling, edit, edit_if, with_ends, with_item, with_next, with_place, with_prev};
ghost use Rattle.rd_tree.specs.Internal.Handing.{IsWithin};
ghost use Rattle.rd_tree.specs.Internal.Hands.{ScrollFitsAt, passed_at};
ghost use Rattle.rd_tree.specs.Internal.Reaching as reaching;
ghost use Rattle.rd_tree.specs.Internal.Redraws.{RedrawsAt, redrawn_if};
ghost use Rattle.rd_tree.specs.Internal.Works.{AllowsAt, done, item_under};
ghost use Rattle.rd_tree.specs.Touching.{settled};

use crate::glance::{Glance, glance_at, none, renamed};
use crate::glances::Glances;
use crate::handed::ScrollSums;
use crate::links::walk::{Work, do_work};
use crate::node::Node;
use crate::reach::{Reach, rect_reach, style_reach};
use crate::redrawing::{Onward, draw_item};
use crate::scroll::Scroll;
use rd_geom::{NoMemory, Rect};
use rd_keys::{Arena, BoxKey, BoxMark, KeyRange, Refused};
use rd_style::{StyleChange, changed, clips};
use std::alloc::Global;
use std::marker::Model;

/// Nodes under the keys of their boxes.
#[derive(Drop)]
pub(crate) struct Nodes {
    held: Arena<Node, BoxMark>,
    glances: Glances,
}

impl Model for Nodes {
    ghost use Rattle.rd_keys.specs.Arena as arena;
    ghost use Rattle.rd_keys.specs.Internal.Coding.{arena_code};
    ghost use Rattle.rd_tree.specs.declared.node.Node.{Node};
    ghost use Rattle.rd_tree.specs.contracts.node.Node as node;
    ghost use Rattle.rd_tree.specs.Internal.Glances.{AreGlances};

    ghost Value = { arena.Arena Node };

    ghost coded = { arena_code node.the_row.coded };

    ghost view = { λ n. n.held };

    ghost invariant = { λ n. AreGlances n.held n.glances.rows };
}

impl Nodes {
    /// No node, and room for so many slots.
    pub(crate) fn new(alloc: Global, limit: u32) -> Nodes
        requires { limit ≤ 2147483647 }
        ensures { result ≡ empty_arena limit 0 }
    {
        Nodes {
            held: Arena::new(alloc, limit),
            glances: Glances::new(alloc),
        }
    }

    /// How many nodes there are.
    pub(crate) fn live(&self) -> u32
        ensures { result ≡ live self.now }
    {
        self.held.live()
    }

    /// How many slots never give a key again.
    pub(crate) fn retired(&self) -> u32
        ensures retired { result ≡ retired self.now }
        ensures together { live self.now + result ≡ occupied self.now }
    {
        self.held.retired()
    }

    /// The node under a key. None exactly where the key is not live.
    #[inline(always)]
    pub(crate) fn get(&self, key: BoxKey) -> Option<&Node>
        ensures { option_copied result ≡ value self.now key.slot key.generation }
    {
        self.held.get(key)
    }

    /// What a walk reads of the box under a key. None exactly where the key is not live.
    #[inline(always)]
    pub(crate) fn glance(&self, key: BoxKey) -> Option<Glance>
        ensures { result ≡ option_map (glance_of key.generation) (value self.now key.slot key.generation) }
    {
        if (key.slot() as usize) < self.glances.len() {
            let glance = self.glances.at(key.slot());
            if glance.live && glance.generation == key.generation() {
                return Some(glance);
            }
        }
        None
    }

    /// What a walk reads of the box under a live key.
    #[inline(always)]
    pub(crate) fn glance_at_live(&self, key: BoxKey) -> Glance
        requires live { is_some (value self.now key.slot key.generation) ≡ true }
        ensures { Some result ≡ option_map (glance_of key.generation) (value self.now key.slot key.generation) }
    {
        self.glances.at(key.slot())
    }

    /// How many boxes stand from that of a live key on, up to the end of its page, where that is known to be calm. 0 where it is not.
    #[inline(always)]
    pub(crate) fn run_from(&self, key: BoxKey) -> usize
        requires live { is_some (value self.now key.slot key.generation) ≡ true }
        ensures run { Runs self.now key result }
        ensures page { key.slot % 64 + result ≤ 64 }
    {
        self.glances.run_from(key.slot())
    }

    /// The sibling after the box of a slot.
    #[inline(always)]
    pub(crate) fn next_at(&self, slot: usize) -> Option<BoxKey>
        requires { slot < length self.now.slots }
        ensures { result ≡ next_at self.now slot }
    {
        self.glances.next_at(slot)
    }

    /// Where a live key is that of the first box of a page that is known to be calm: which sibling comes after the last box of the
    /// page, if any.
    #[inline(always)]
    pub(crate) fn after_page(&self, key: BoxKey) -> Option<Option<BoxKey>>
        requires live { is_some (value self.now key.slot key.generation) ≡ true }
        ensures { IfSome result (Passes self.now key) }
    {
        self.glances.after_page(key.slot())
    }

    /// Is a key live, if there is one?
    #[inline(always)]
    pub(crate) fn is_live_or_none(&self, key: Option<BoxKey>) -> bool
        ensures { result ≡ option_map_or (λ k. is_some (value self.now k.slot k.generation)) key true }
    {
        match key {
            Some(key) => self.glance(key).is_some(),
            None => true,
        }
    }

    /// Is the box under a key touched? A key that is not live counts as touched.
    #[inline(always)]
    pub(crate) fn touched(&self, key: BoxKey) -> bool
        ensures { result ≡ option_map_or (λ n. n.item.touched) (value self.now key.slot key.generation) true }
    {
        self.glances.tells_touched(key)
    }

    /// Is no box under a key of a range touched? It is said only of a range of one generation, where the few pages of 64 slots
    /// that it meets are known to hold untouched boxes of that generation alone; where it is not said, nothing is known.
    #[inline(always)]
    pub(crate) fn none_touched(&self, keys: KeyRange) -> bool
        ensures { IsTrue result → (k : Box) → IsAmong keys k
            → option_map_or (λ n. n.item.touched) (value self.now k.slot k.generation) true
            ≡ false }
    {
        self.glances.none_touched(keys)
    }

    /// Works out anew of which pages of slots `none_touched` can say so, and which are calm. No node changes.
    pub(crate) fn note_quiet(&mut self)
        ensures { self.new ≡ self.old }
    {
        self.glances.renew();
    }

    /// Stores a node under a key that was never given. After a refusal nothing has changed.
    pub(crate) fn insert(&mut self, node: Node) -> Result<BoxKey, NoMemory>
        requires room { occupied self.old < self.old.limit }
        ensures stored { IfOk result (λ k. Enters self.old self.new k.slot k.generation node) }
        ensures kept { OnErr result (self.new ≡ self.old) }
    {
        self.glances.reserve()?;
        let glance = glance_at(0, &node);
        let key = match self.held.insert(node) {
            Ok(key) => key,
            Err(Refused::Full(_)) => unreachable!(),
            Err(Refused::NoMemory(_)) => return Err(NoMemory),
        };
        self.glances
            .put(key.slot(), renamed(glance, key.generation()));
        Ok(key)
    }

    /// Takes out the node under a key, which is never live again. None exactly where the key is not live.
    pub(crate) fn remove(&mut self, key: BoxKey) -> Option<Node>
        ensures value { result ≡ value self.old key.slot key.generation }
        ensures removed { OnSome result (self.new ≡ without_value self.old key.slot key.generation) }
        ensures absent { IfNone result (self.new ≡ self.old) }
    {
        match self.held.remove(key) {
            Some(node) => {
                self.glances.write(key.slot(), none());
                Some(node)
            }
            None => None,
        }
    }

    /// Gives a box another next sibling.
    pub(crate) fn set_next(&mut self, at: Option<BoxKey>, next: Option<BoxKey>)
        ensures { Relinks self.old self.new (edit_if same_key at (with_next next)
            (linked self.old)) }
    {
        if let Some(key) = at
            && let Some(node) = self.held.get_mut(key)
        {
            node.links.next = next;
            let glance = glance_at(key.generation(), node);
            self.glances.write(key.slot(), glance);
        }
    }

    /// Gives a box another sibling before it.
    pub(crate) fn set_prev(&mut self, at: Option<BoxKey>, prev: Option<BoxKey>)
        ensures { Relinks self.old self.new (edit_if same_key at (with_prev prev)
            (linked self.old)) }
    {
        if let Some(key) = at
            && let Some(node) = self.held.get_mut(key)
        {
            node.links.prev = prev;
            let glance = glance_at(key.generation(), node);
            self.glances.write(key.slot(), glance);
        }
    }

    /// Gives a box another first and another last child.
    pub(crate) fn set_ends(&mut self, at: BoxKey, first: Option<BoxKey>, last: Option<BoxKey>)
        ensures { Relinks self.old self.new (edit same_key at (with_ends first last)
            (linked self.old)) }
    {
        if let Some(node) = self.held.get_mut(at) {
            node.links.first = first;
            node.links.last = last;
            let glance = glance_at(at.generation(), node);
            self.glances.write(at.slot(), glance);
        }
    }

    /// Says of a box whose child it is, and between which siblings it stands.
    pub(crate) fn set_place(
        &mut self,
        key: BoxKey,
        parent: BoxKey,
        prev: Option<BoxKey>,
        next: Option<BoxKey>,
    )
        ensures { Relinks self.old self.new (edit same_key key (with_place (Some parent) prev next)
            (linked self.old)) }
    {
        if let Some(node) = self.held.get_mut(key) {
            node.links.up = Some(parent);
            node.links.prev = prev;
            node.links.next = next;
            let glance = glance_at(key.generation(), node);
            self.glances.write(key.slot(), glance);
        }
    }

    /// Does the work on one box. Its first child and its next sibling.
    pub(crate) fn work_on(&mut self, key: BoxKey, work: Work) -> (Option<BoxKey>, Option<BoxKey>)
        requires { AllowsAt work (linked self.old key) }
        ensures worked { Relinks self.old self.new (edit same_key key (with_item (done work))
            (linked self.old)) }
        ensures onward { result ≡ child_and_sibling (linked self.old key) }
    {
        match self.held.get_mut(key) {
            Some(node) => {
                do_work(&mut node.item, work);
                let glance = glance_at(key.generation(), node);
                self.glances.write(key.slot(), glance);
                (glance.first, glance.next)
            }
            None => (None, None),
        }
    }

    /// Takes the mark off the box under a key, which is touched.
    #[inline(always)]
    pub(crate) fn settle(&mut self, key: BoxKey)
        requires touched { option_map_or (λ n. n.item.touched) (value self.old key.slot key.generation) false
            ≡ true }
        ensures { Relinks self.old self.new (edit same_key key (with_item settled) (linked self.old)) }
    {
        if let Some(node) = self.held.get_mut(key) {
            node.item.touched = false;
            self.glances.settle(key.slot());
        }
    }

    /// Changes the style of a box. How far that touches.
    pub(crate) fn restyle(&mut self, key: BoxKey, is_root: bool, c: &StyleChange) -> Reach
        ensures restyled { Relinks self.old self.new (edit same_key key (with_item (changes.restyle
            c.now)) (linked self.old)) }
        ensures reach { result ≡ option_map_or (λ d. reaching.style_reach d.style is_root c.now)
            (item_under (linked self.old key)) Reach.Nothing }
    {
        match self.held.get_mut(key) {
            Some(node) => {
                let reach = style_reach(&node.item.style, is_root, c);
                node.item.style = changed(&node.item.style, c);
                let glance = glance_at(key.generation(), node);
                self.glances.write(key.slot(), glance);
                reach
            }
            None => Reach::Nothing,
        }
    }

    /// Gives a box another rectangle. How far that touches.
    pub(crate) fn put_rect(&mut self, key: BoxKey, is_root: bool, rect: Rect) -> Reach
        ensures put { Relinks self.old self.new (edit same_key key (with_item (changes.with_rect
            rect)) (linked self.old)) }
        ensures reach { result ≡ option_map_or (λ d. reaching.rect_reach d.style is_root) (item_under
            (linked self.old key)) Reach.Nothing }
    {
        match self.held.get_mut(key) {
            Some(node) => {
                node.item.rect = rect;
                let glance = glance_at(key.generation(), node);
                self.glances.write(key.slot(), glance);
                rect_reach(&node.item.style, is_root)
            }
            None => Reach::Nothing,
        }
    }

    /// Draws a box that is not the root anew, to which the one was handed and the other is now, and touches it where that is asked
    /// for. Where a walk goes on from it, and with what.
    #[inline(always)]
    pub(crate) fn redraw_one(
        &mut self,
        key: BoxKey,
        old: &ScrollSums,
        new: &ScrollSums,
        asked: bool,
    ) -> Onward
        requires few { IsWithin 256 new.now }
        requires can { RedrawsAt old.now new.now (linked self.old key) }
        requires scroll { ScrollFitsAt (linked self.old key) }
        ensures drawn { Relinks self.old self.new (edit same_key key (with_item (redrawn_if asked
            old.now new.now)) (linked self.old)) }
        ensures onward { (result.below, result.next) ≡ child_and_sibling (linked self.old key) }
        ensures inside { result.inside ≡ passed_at new.now (linked self.old key) }
    {
        match self.held.get_mut(key) {
            Some(node) => {
                let inside = new.enter(&node.item.style, node.item.scroll, false);
                draw_item(&mut node.item, old, new, asked);
                let glance = glance_at(key.generation(), node);
                self.glances.write(key.slot(), glance);
                Onward {
                    below: glance.first,
                    next: glance.next,
                    inside,
                }
            }
            None => Onward {
                below: None,
                next: None,
                inside: *new,
            },
        }
    }

    /// Gives a box another scroll offset. Does the box clip?
    pub(crate) fn put_scroll(&mut self, key: BoxKey, is_root: bool, scroll: Scroll) -> bool
        ensures put { Relinks self.old self.new (edit same_key key (with_item (changes.with_scroll
            scroll)) (linked self.old)) }
        ensures clips { result ≡ option_map_or (λ d. classes.clips d.style is_root) (item_under
            (linked self.old key)) false }
    {
        match self.held.get_mut(key) {
            Some(node) => {
                node.item.scroll = scroll;
                let glance = glance_at(key.generation(), node);
                self.glances.write(key.slot(), glance);
                clips(&node.item.style, is_root)
            }
            None => false,
        }
    }
}
