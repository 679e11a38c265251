//! What a pass over a tree goes by, and what it comes to.
use crate::inherited::Inherited;
use crate::wanted::Wanted;
use rd_keys::BoxKey;
use rd_stack::BoxData;
use rd_tree::Tree;
use std::alloc::Global;
use std::sync::ledger::Ledger;

/// One pass over a tree: where its list is wanted, and the number of the paint that makes the items.
#[derive_where(Clone, Copy)]
pub struct Pass<'a, B: Ledger, W: Wanted> {
    pub alloc: Global,
    pub tree: &'a Tree<B>,
    pub wanted: &'a W,
    pub number: u64,
}

/// A box that a pass comes to, and what is handed down to it.
#[derive(Clone, Copy)]
pub struct Visit<'a> {
    pub inherited: &'a Inherited,
    pub here: &'a BoxData,
    pub first_child: Option<BoxKey>,

    /// Is a blended layer below it?
    pub blend_below: bool,
}

/// Some siblings, from one on, and what is handed down to them.
#[derive(Clone, Copy)]
pub struct Siblings<'a> {
    pub inherited: &'a Inherited,
    pub first: Option<BoxKey>,
}
