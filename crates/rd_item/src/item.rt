//! Items, each of which cost a tick of the counter of its own ledger.

ghost use Rattle.std.specs.Prelude.{◌≡◌, ◌+◌, false, Bool};
ghost use Rattle.rd_geom.specs.Plane.{has_none, IsWithin};
ghost use Rattle.rd_item.specs.Leaves as leaves;

use crate::leaf::{Leaf, Shape};
use rd_geom::{Color, Rect, Steps};
use rd_keys::{BoxKey, EntryKey, Part};
use std::marker::{Model, PhantomData};
use std::sync::ledger::Ledger;

/// A leaf that a paint made, and the number of that paint. It cannot be copied, and `Item::make` is its only maker.
#[derive(Drop)]
pub struct Item<A: Ledger> {
    leaf: Leaf,
    made_at: u64,
    ledger: PhantomData<A>,
}

impl<A: Ledger> Model for Item<A> {
    ghost use Rattle.rd_item.specs.Items.{Made};
    ghost use Rattle.rd_item.specs.Internal.Shown.{IsShown};

    ghost Value = { Made };

    ghost view = { λ i. record { leaf = i.leaf; made_at = i.made_at } };

    ghost invariant = { λ i. IsShown i.leaf };
}

impl<A: Ledger> Item<A> {
    /// The item of a leaf, made by paint `made_at`; it ticks once. Where the leaf may be seen is not empty and lies in its
    /// outer rectangle.
    pub fn make(leaf: Leaf, made_at: u64, steps: &mut Steps<A>) -> Item<A>
        requires some { has_none leaf.visible ≡ false }
        requires within { IsWithin leaf.visible leaf.shape.outer }
        ensures made { result ≡ record { leaf = leaf; made_at = made_at } }
        ensures cost { steps.new ≡ steps.old + 1 }
    {
        steps.tick();
        Item {
            leaf,
            made_at,
            ledger: PhantomData,
        }
    }

    /// Its name in a display list.
    pub fn key(&self) -> EntryKey
        ensures { result ≡ EntryKey.Leaf self.now.leaf.owner self.now.leaf.part }
    {
        EntryKey::Leaf(self.leaf.owner, self.leaf.part)
    }

    /// The box that it is a part of.
    pub fn owner(&self) -> BoxKey
        ensures { result ≡ self.now.leaf.owner }
    {
        self.leaf.owner
    }

    /// The part that it is.
    pub fn part(&self) -> Part
        ensures { result ≡ self.now.leaf.part }
    {
        self.leaf.part
    }

    /// What may be seen of its outer rectangle, in canvas pixels; never empty.
    pub fn visible(&self) -> Rect
        ensures value { result ≡ self.now.leaf.visible }
        ensures some { has_none result ≡ false }
        ensures within { IsWithin result self.now.leaf.shape.outer }
    {
        self.leaf.visible
    }

    /// Its shape, in canvas pixels.
    pub fn shape(&self) -> Shape
        ensures { result ≡ self.now.leaf.shape }
    {
        self.leaf.shape
    }

    /// Its colour, not premultiplied.
    pub fn color(&self) -> Color
        ensures { result ≡ self.now.leaf.color }
    {
        self.leaf.color
    }

    /// Can a pointer hit it?
    pub fn hits(&self) -> bool
        ensures { result ≡ self.now.leaf.hits }
    {
        self.leaf.hits
    }

    /// The number of the paint that made it.
    pub fn made_at(&self) -> u64
        ensures { result ≡ self.now.made_at }
    {
        self.made_at
    }

    /// Is the pixel in column `x` and row `y` in its shape, and in what may be seen of it?
    pub fn covers(&self, x: i32, y: i32) -> bool
        ensures { result ≡ leaves.covers self.now.leaf x y }
    {
        crate::leaf::covers(&self.leaf, x, y)
    }
}
