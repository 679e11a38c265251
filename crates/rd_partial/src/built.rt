//! New lists of a tree (CSS 2.2 Appendix E).
ghost use Rattle.std.specs.Prelude.{◌≡◌, ◌≤◌, ◌+◌, IfOk, OnOk, length};
ghost use Rattle.rd_tree.specs.Forest.{size};
ghost use Rattle.rd_list.specs.Entries.{flat};
ghost use Rattle.rd_list.specs.Lists.{meeting};
ghost use Rattle.rd_stack.specs.Fresh.{fresh_list};
ghost use Rattle.rd_partial.specs.Numbered.{numbered};
ghost use Rattle.rd_partial.specs.Looks.{is_near, looks_bound};
ghost use Rattle.rd_tree.specs.Drawn.{drawn};

use crate::walk::build_wanted;
use crate::wanted::Within;
use rd_area::Area;
use rd_geom::{NoMemory, Steps};
use rd_list::NewList;
use rd_tree::Tree;
use std::alloc::Global;
use std::sync::ledger::Ledger;

/// The part of the fresh list of a tree that may be seen in an area, with the groups that have such a leaf, each item made
/// by paint `number`. No box is entered of which nothing, nor of those below it, lies in the area. Items are counted in
/// `made`, looks in `looks`; without memory no list is left, and both count what was done.
pub fn build<A: Ledger, B: Ledger>(
    alloc: Global,
    tree: &Tree<B>,
    area: &Area,
    number: u64,
    made: &mut Steps<A>,
    looks: &mut Steps<B>,
) -> Result<NewList<A>, NoMemory>
    ensures list { IfOk result (λ l. l ≡ numbered number (meeting area.now (fresh_list tree.now))) }
    ensures made { OnOk result (made.new ≡ made.old + length (flat (meeting area.now (fresh_list tree.now)))) }
    ensures most { made.new ≤ made.old + length (flat (meeting area.now (fresh_list tree.now))) }
    ensures looks { looks.new ≤ looks.old + looks_bound (is_near area.now) (drawn tree.now).boxes }
{
    build_wanted(alloc, tree, area, number, made, looks)
}

/// The fresh list of a tree, each item made by paint `number`. No box is looked at twice. Items are counted in `made`,
/// looks in `looks`; without memory no list is left, and both count what was done.
pub fn build_all<A: Ledger, B: Ledger>(
    alloc: Global,
    tree: &Tree<B>,
    number: u64,
    made: &mut Steps<A>,
    looks: &mut Steps<B>,
) -> Result<NewList<A>, NoMemory>
    ensures list { IfOk result (λ l. l ≡ numbered number (fresh_list tree.now)) }
    ensures made { OnOk result (made.new ≡ made.old + length (flat (fresh_list tree.now))) }
    ensures most { made.new ≤ made.old + length (flat (fresh_list tree.now)) }
    ensures looks { looks.new ≤ looks.old + size tree.now.boxes }
{
    let canvas = Within {
        rect: tree.canvas().rect(),
    };
    build_wanted(alloc, tree, &canvas, number, made, looks)
}
