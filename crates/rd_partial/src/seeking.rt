//! Searches among siblings for the next box that a walk stops at.
ghost use Rattle.std.specs.Prelude.{◌≡◌, ◌≤◌, None, MatchOption, true};
ghost use Rattle.rd_geom.specs.Plane.{Rectangle};
ghost use Rattle.rd_tree.specs.Seeking.{reaches};
ghost use Rattle.rd_stack.specs.Internal.Looks.{IsFirst};
ghost use Rattle.rd_partial.specs.Internal.Seeking.{IsNextMarked, IsNextNear, IsNextWanted, PassesMarks, PassesWanted};
ghost use Rattle.rd_tree.specs.Drawn.{drawn};

use crate::look::{BoxLook, looked_of};
use crate::wanted::Wanted;
use rd_geom::{Rect, Steps};
use rd_keys::BoxKey;
use rd_tree::Tree;
use std::sync::ledger::Ledger;

/// The first of some siblings, from one on, that is touched or has a touched box below it.
#[inline(never)]
pub(crate) fn next_marked<'a, B: Ledger>(
    tree: &'a Tree<B>,
    first: Option<BoxKey>,
    looks: &mut Steps<B>,
) -> Option<BoxLook<'a>>
    requires live { IsFirst first (drawn tree.now) }
    ensures { MatchOption result (PassesMarks (drawn tree.now) first None looks.old looks.new)
        (λ v. IsNextMarked (drawn tree.now) first v looks.old looks.new) }
{
    match tree.next_touched_sibling(first, looks) {
        Some(view) => Some(looked_of(view)),
        None => None,
    }
}

/// The first of some siblings, from one on, whose hull reaches into a frame of what is wanted.
fn next_near<'a, B: Ledger, W: Wanted>(
    tree: &'a Tree<B>,
    wanted: &W,
    frame: &Rect,
    first: Option<BoxKey>,
    looks: &mut Steps<B>,
) -> Option<BoxLook<'a>>
    requires frame { (r : Rectangle) → W.wants wanted.now r ≡ true → reaches frame.now r ≡ true }
    requires live { IsFirst first (drawn tree.now) }
    ensures { MatchOption result (PassesWanted (W.wants wanted.now) (drawn tree.now) first None looks.old looks.new)
        (λ v. IsNextNear (W.wants wanted.now) (drawn tree.now) first v looks.old looks.new) }
{
    match tree.next_sibling_meeting(first, frame, looks) {
        Some(view) => Some(looked_of(view)),
        None => None,
    }
}

/// The first of some siblings, from one on, in whose hull something is wanted.
pub(crate) fn next_wanted<'a, B: Ledger, W: Wanted>(
    tree: &'a Tree<B>,
    wanted: &W,
    frame: &Rect,
    first: Option<BoxKey>,
    looks: &mut Steps<B>,
) -> Option<BoxLook<'a>>
    requires frame { (r : Rectangle) → W.wants wanted.now r ≡ true → reaches frame.now r ≡ true }
    requires live { IsFirst first (drawn tree.now) }
    ensures { MatchOption result (PassesWanted (W.wants wanted.now) (drawn tree.now) first None looks.old looks.new)
        (λ v. IsNextWanted (W.wants wanted.now) (drawn tree.now) first v looks.old looks.new) }
{
    let mut at = first;
    loop {
        let looked = match next_near(tree, wanted, frame, at, looks) {
            Some(looked) => looked,
            None => return None,
        };
        if wanted.meets(looked.hull) {
            return Some(looked);
        }
        at = looked.next_sibling;
    }
}
