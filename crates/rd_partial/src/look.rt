//! Looks at boxes.
ghost use Rattle.std.specs.Prelude.{◌≡◌, ◌+◌, if◌then◌else◌, MatchOption, IfSome};
ghost use Rattle.rd_keys.specs.Keys.{same_key};
ghost use Rattle.rd_stack.specs.Paths.{OutlineFits};
ghost use Rattle.rd_tree.specs.Document.{IsRooted};
ghost use Rattle.rd_tree.specs.Forest.{empty, starting_at, IsApart};
ghost use Rattle.rd_partial.specs.Internal.BoxLook.{Onward, here_of, looked_of};
ghost use Rattle.rd_partial.specs.Internal.Touched.{HasMarks};
ghost use Rattle.rd_tree.specs.Drawn.{drawn};

use rd_geom::{Rect, Steps};
use rd_keys::BoxKey;
use rd_stack::BoxData;
use rd_style::Style;
use rd_tree::{BoxView, Tree};
use std::sync::ledger::Ledger;

/// What a walk needs of a box: the box, where to go on, what all below it may cover, what was touched, and whether a
/// blended layer is below it. Its style is lent, so that nothing is copied of a box that is only passed.
#[derive(Drop)]
pub struct BoxLook<'a> {
    key: BoxKey,
    rect: Rect,
    style: &'a Style,
    pub first_child: Option<BoxKey>,
    pub next_sibling: Option<BoxKey>,
    pub hull: Rect,
    pub touched: bool,
    pub touched_below: u32,
    pub blend_below: bool,
}

impl<'a> BoxLook<'a> {
    /// The box.
    #[inline(always)]
    pub fn here(&self) -> BoxData
        requires { OutlineFits (here_of self.now) }
        ensures { result ≡ here_of self.now }
    {
        BoxData::new(self.key, &self.rect, self.style)
    }

    /// How many marks the box itself has: one, if it is touched.
    #[inline(always)]
    pub(crate) fn own_marks(&self) -> u32
        ensures { result ≡ (if self.now.touched then 1 else 0) }
    {
        u32::from(self.touched)
    }
}

/// What a walk needs of what a look gave.
#[inline(always)]
pub(crate) fn looked_of(view: BoxView<'_>) -> BoxLook<'_>
    ensures { result ≡ looked_of view.entry }
{
    BoxLook {
        key: view.key,
        rect: view.at,
        style: view.style,
        first_child: view.first_child,
        next_sibling: view.next_sibling,
        hull: view.hull,
        touched: view.touched,
        touched_below: view.touched_below,
        blend_below: view.blend_below,
    }
}

/// The root of a tree, and what holds of the tree as it is drawn.
pub fn root_of<B: Ledger>(tree: &Tree<B>) -> BoxKey
    ensures root { result ≡ tree.now.root }
    ensures rooted { IsRooted (drawn tree.now) }
    ensures apart { IsApart same_key tree.now.boxes }
{
    tree.root()
}

/// Looks at a box: none where no box has the key.
#[inline(always)]
pub fn look_at<'a, B: Ledger>(
    tree: &'a Tree<B>,
    key: BoxKey,
    looks: &mut Steps<B>,
) -> Option<BoxLook<'a>>
    ensures told { MatchOption result (starting_at same_key key (drawn tree.now).boxes
        ≡ empty) (λ s. Onward (drawn tree.now).boxes key (here_of s) s.first_child s.next_sibling s.hull) }
    ensures fits { IfSome result (λ s. OutlineFits (here_of s)) }
    ensures marks { IfSome result (λ s. HasMarks (starting_at same_key key (drawn tree.now).boxes) s.touched s.touched_below) }
    ensures cost { looks.new ≡ looks.old + 1 }
{
    match tree.look(key, looks) {
        Some(view) => Some(looked_of(view)),
        None => None,
    }
}
