//! The stacking contexts in which boxes stand, and blended boxes (CSS Compositing 1 section 3.2).
ghost use Rattle.std.specs.Prelude.{◌≡◌, ◌&&◌, ◌||◌, IfSome, Some, true};
ghost use Rattle.rd_keys.specs.Keys.{same_key};
ghost use Rattle.rd_style.specs.Changes as changes;
ghost use Rattle.rd_style.specs.Classes.{blended};
ghost use Rattle.rd_tree.specs.Changes.{styling, after};
ghost use Rattle.rd_tree.specs.Contexts as contexts;
ghost use Rattle.rd_tree.specs.Document.{contains, IsKeyed, IsRooted};
ghost use Rattle.rd_tree.specs.Forest.{IsApart};
ghost use Rattle.rd_tree.specs.Internal.Linked.{linked, seen_from, IsRead};
ghost use Rattle.rd_tree.specs.Internal.Links.{child_and_sibling};
ghost use Rattle.rd_tree.specs.Internal.Regrouping.{is_blended_under, is_context_under, names_blended};
ghost use Rattle.rd_tree.specs.Touching.{with_marks};

use crate::drawn_tree::DrawnTree;
use crate::held::Nodes;
use crate::links::parent_of;
use crate::links::walk::{Work, work_below};
use crate::table::renew::{Stale, renew_up, whole_of};
use rd_geom::Blend;
use rd_keys::BoxKey;
use rd_style::{StyleChange, is_blended, names_class, real};
use std::sync::ledger::Ledger;

/// Is a box blended? Its first child and its next sibling.
fn blended_one(nodes: &Nodes, key: BoxKey) -> (bool, Option<BoxKey>, Option<BoxKey>)
    ensures blended { result.0 ≡ is_blended_under (linked nodes.now key) }
    ensures onward { (result.1, result.2) ≡ child_and_sibling (linked nodes.now key) }
{
    match nodes.get(key) {
        Some(node) => (
            is_blended(&node.item.style),
            node.links.first,
            node.links.next,
        ),
        None => (false, None, None),
    }
}

/// Is a box, one below it, or one of its later siblings or of those below them, blended?
fn any_blended_from(nodes: &Nodes, first: Option<BoxKey>) -> bool
    requires { IsRead nodes.now first }
    ensures { result ≡ contexts.any_of (λ d. blended d.style) (seen_from nodes.now first) }
{
    let mut at = first;
    while let Some(key) = at {
        let (blended, below, next) = blended_one(nodes, key);
        if blended {
            return true;
        }
        if any_blended_from(nodes, below) {
            return true;
        }
        at = next;
    }
    false
}

/// Would a box make a stacking context where it were not the root (CSS 2.2 section 9.9.1)?
fn makes_context(nodes: &Nodes, key: BoxKey) -> bool
    ensures { result ≡ is_context_under (linked nodes.now key) }
{
    match nodes.get(key) {
        Some(node) => real(&node.item.style, false),
        None => false,
    }
}

/// Does a change of style name a blend mode other than normal?
fn names_blended(c: &StyleChange) -> bool
    ensures { result ≡ names_blended c.now }
{
    match c.blend {
        Some(mode) => !matches!(mode, Blend::Normal),
        None => false,
    }
}

impl<B: Ledger> DrawnTree<B> {
    /// Is a box blended, or one below it?
    pub(crate) fn holds_blended(&self, key: BoxKey) -> bool
        requires { contains self.now key ≡ true }
        ensures holds { result ≡ contexts.holds_blended key self.now }
        ensures apart { IsApart same_key self.now.boxes }
    {
        let (blended, below, _) = blended_one(&self.nodes, key);
        blended || any_blended_from(&self.nodes, below)
    }

    /// The stacking context of a child of the box, which is the box or the nearest above it; None is the root's.
    pub(crate) fn context_of(&self, parent: BoxKey) -> Option<BoxKey>
        requires { contains self.now parent ≡ true }
        ensures context { result ≡ contexts.context_of parent self.now }
        ensures rooted { IsRooted self.now }
        ensures apart { IsApart same_key self.now.boxes }
        ensures keyed { IsKeyed self.now }
    {
        let mut at = parent;
        loop {
            match parent_of(&self.nodes, at) {
                Some(up) => {
                    if makes_context(&self.nodes, at) {
                        return Some(at);
                    }
                    at = up;
                }
                None => return None,
            }
        }
    }

    /// The nearest stacking context above a box, which is not the root; None is the root's.
    pub(crate) fn context_round(&self, key: BoxKey) -> Option<BoxKey>
        requires { contains self.now key ≡ true }
        ensures context { result ≡ contexts.context_round key self.now }
        ensures rooted { IsRooted self.now }
        ensures apart { IsApart same_key self.now.boxes }
    {
        match parent_of(&self.nodes, key) {
            Some(parent) => self.context_of(parent),
            None => None,
        }
    }

    /// Does a change of style change what the stacking context round a box has to compose: may its class change, and is it or
    /// a box below it blended, before or after?
    pub(crate) fn regroups(&self, key: BoxKey, c: &StyleChange) -> bool
        requires { contains self.now key ≡ true }
        ensures { result ≡ (changes.names_class c.now && (contexts.holds_blended key self.now
            || contexts.holds_blended key (after (styling key c.now) self.now))) }
    {
        names_class(c) && (self.holds_blended(key) || names_blended(c))
    }

    /// Touches a box and all below it.
    fn touch_branch(&mut self, key: BoxKey)
        requires { contains self.old key ≡ true }
        ensures { self.new ≡ with_marks (contexts.in_context (Some key) self.old) self.old }
    {
        let old = whole_of(&self.table, &self.nodes, key);
        work_below(&mut self.nodes, key, Work::Touch);
        renew_up(&mut self.table, &self.nodes, key, Stale::Branch, old);
    }

    /// Touches a stacking context, where there is one, and all below it.
    pub(crate) fn touch_context(&mut self, round: Option<BoxKey>)
        requires { IfSome round (λ k. contains self.old k ≡ true) }
        ensures { self.new ≡ with_marks (contexts.in_context round self.old) self.old }
    {
        if let Some(key) = round {
            self.touch_branch(key);
        }
    }
}
