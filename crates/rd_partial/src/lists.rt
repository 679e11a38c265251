//! The lists that boxes are dropped into.
ghost use Rattle.std.specs.Prelude.{◌≡◌, []};
ghost use Rattle.rd_list.specs.Entries.{nil};
ghost use Rattle.rd_list.specs.Nested.{laid_out};

use rd_list::Pieces;
use std::alloc::Global;
use std::sync::ledger::Ledger;

/// A layer's level, auto being 0, and all that it paints.
#[derive(Drop)]
pub struct LayerOrder<A: Ledger> {
    pub level: i32,
    pub order: Pieces<A>,
}

/// What boxes give to the box that paints them as a stacking context or as if it made one.
#[derive(Drop)]
pub struct FlowLists<A: Ledger> {
    pub backgrounds: Pieces<A>,
    pub floats: Pieces<A>,
    pub line: Pieces<A>,
    pub contents: Pieces<A>,
    pub outlines: Pieces<A>,

    /// An empty list, whose room is used again.
    pub spare: Pieces<A>,
}

impl<A: Ledger> FlowLists<A> {
    /// Of a box that has given its own line and outlines: those below it have given nothing yet.
    #[inline(always)]
    pub fn begun(alloc: Global, line: Pieces<A>, outlines: Pieces<A>) -> FlowLists<A>
        ensures backgrounds { laid_out result.backgrounds ≡ nil }
        ensures floats { laid_out result.floats ≡ nil }
        ensures line { result.line ≡ line }
        ensures contents { laid_out result.contents ≡ nil }
        ensures outlines { result.outlines ≡ outlines }
    {
        FlowLists {
            backgrounds: Pieces::empty(alloc),
            floats: Pieces::empty(alloc),
            line,
            contents: Pieces::empty(alloc),
            outlines,
            spare: Pieces::empty(alloc),
        }
    }
}

/// What boxes give to their stacking context.
#[derive(Drop)]
pub struct LayerLists<A: Ledger> {
    pub negatives: Vec<LayerOrder<A>>,
    pub zeros: Pieces<A>,
    pub positives: Vec<LayerOrder<A>>,
}

impl<A: Ledger> LayerLists<A> {
    /// No layers.
    #[inline(always)]
    pub fn none(alloc: Global) -> LayerLists<A>
        ensures negatives { result.negatives.items ≡ [] }
        ensures zeros { laid_out result.zeros ≡ nil }
        ensures positives { result.positives.items ≡ [] }
    {
        LayerLists {
            negatives: Vec::new(alloc),
            zeros: Pieces::empty(alloc),
            positives: Vec::new(alloc),
        }
    }
}
