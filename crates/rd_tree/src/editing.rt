//! The edits of a tree that may regroup boxes: each does what the change says, and then touches the subtrees of the stacking
//! contexts whose grouping may have changed.
ghost use Rattle.std.specs.Prelude.{◌≡◌, ◌+◌, ◌≤◌, IfOk, OnErr, Some, None, true, false};
ghost use Rattle.rd_keys.specs.Keys.{same_key};
ghost use Rattle.rd_style.specs.Limits.{Fits};
ghost use Rattle.rd_tree.specs.Limits.{IsNear};
ghost use Rattle.rd_tree.specs.Document.{contains, named, IsNext, HasFreeSlot};
ghost use Rattle.rd_tree.specs.Forest.{children, depth, height, in_subtree, IsPlaceIn};
ghost use Rattle.rd_tree.specs.Changes.{insertion, removal, moving, styling, new_item, CanRestyle};
ghost use Rattle.rd_tree.specs.Touching.{edited};
ghost use Rattle.rd_tree.specs.Figures.{max_depth};

use crate::drawn_tree::DrawnTree;
use crate::id::Id;
use rd_geom::{NoMemory, Rect};
use rd_keys::BoxKey;
use rd_style::{Style, StyleChange, is_blended};
use std::sync::ledger::Ledger;

impl<B: Ledger> DrawnTree<B> {
    /// A new box among the children of the parent, before one of them or last, touched. Where it is blended, so is all that the
    /// stacking context round it paints (CSS Compositing 1 section 3.2), but for the root's.
    pub(crate) fn insert(
        &mut self,
        parent: BoxKey,
        before: Option<BoxKey>,
        id: &Id,
        rect: Rect,
        style: Style,
    ) -> Result<BoxKey, NoMemory>
        requires parent { contains self.old parent ≡ true }
        requires place { IsPlaceIn same_key before (children same_key parent self.old.boxes) }
        requires new_id { named id.now self.old.boxes ≡ None }
        requires depth { depth same_key parent self.old.boxes + 1 ≤ max_depth }
        requires room { HasFreeSlot self.old }
        requires rect { IsNear rect }
        requires style { Fits style }
        ensures next { IfOk result (λ k. IsNext self.old k) }
        ensures inserted { IfOk result (λ k. self.new ≡ edited (insertion parent before k
            (new_item id.now rect style)) self.old) }
        ensures refused { OnErr result (self.new ≡ self.old) }
    {
        let round = if is_blended(&style) {
            self.context_of(parent)
        } else {
            None
        };
        let key = self.put_in(parent, before, id, rect, style)?;
        self.touch_context(round);
        Ok(key)
    }

    /// Takes away a box, which is not the root, and all below it. Their ids are free again, and their keys are never live
    /// again. Where one of them was blended, all that the stacking context round them paints is touched, but for the root's.
    pub(crate) fn remove(&mut self, key: BoxKey)
        requires live { contains self.old key ≡ true }
        requires below { same_key key self.old.root ≡ false }
        ensures { self.new ≡ edited (removal key) self.old }
    {
        let round = if self.holds_blended(key) {
            self.context_round(key)
        } else {
            None
        };
        self.take_out(key);
        self.touch_context(round);
    }

    /// Moves a box, which is not the root, with all below it to another place: among the children of the parent, before one
    /// of them or last. Touches them, and, where one of them is blended, all that the stacking contexts round the old place
    /// and the new one paint, but for the root's.
    pub(crate) fn relink(&mut self, key: BoxKey, parent: BoxKey, before: Option<BoxKey>)
        requires live { contains self.old key ≡ true }
        requires below { same_key key self.old.root ≡ false }
        requires parent { contains self.old parent ≡ true }
        requires outside { in_subtree same_key parent key self.old.boxes ≡ false }
        requires place { IsPlaceIn same_key before (children same_key parent self.old.boxes) }
        requires other { before ≡ Some key → ⊥ }
        requires depth { depth same_key parent self.old.boxes + (1 + height (children same_key
            key self.old.boxes)) ≤ max_depth }
        ensures { self.new ≡ edited (moving key parent before) self.old }
    {
        let (from, to) = if self.holds_blended(key) {
            (self.context_round(key), self.context_of(parent))
        } else {
            (None, None)
        };
        self.move_to(key, parent, before);
        self.touch_context(from);
        self.touch_context(to);
    }

    /// Changes the style of a box, and touches the box or its subtree; where its class may change and it or a box below it is
    /// blended, before or after, also all that the stacking context round it paints, but for the root's. The new style is
    /// within the limits.
    pub(crate) fn change(&mut self, key: BoxKey, c: &StyleChange)
        requires live { contains self.old key ≡ true }
        requires fits { CanRestyle key c.now self.old.boxes }
        ensures { self.new ≡ edited (styling key c.now) self.old }
    {
        let round = if self.regroups(key, c) {
            self.context_round(key)
        } else {
            None
        };
        self.restyle(key, c);
        self.touch_context(round);
    }
}
