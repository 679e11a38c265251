//! The leaves of a tree that cover a pixel, by looks at its boxes.
ghost use Rattle.std.specs.Prelude.{◌≡◌, ◌≤◌, ◌+◌, IfOk};
ghost use Rattle.rd_tree.specs.Document.{IsRooted};
ghost use Rattle.rd_tree.specs.Forest.{size};
ghost use Rattle.rd_tree.specs.Drawn.{drawn};
ghost use Rattle.rd_stack.specs.Internal.Looks.{IsFirst, size_from};
ghost use Rattle.rd_trace.specs.Traces as spec;
ghost use Rattle.rd_trace.specs.Internal.Looks.{first_entry, traced_over, traced_from, with_those_below};

use crate::layers::is_grouped;
use crate::order::steps;
use crate::placing::Sight;
use crate::way::{Traced, TracedBox, entry_of};
use rd_geom::{NoMemory, Steps};
use rd_keys::BoxKey;
use rd_stack::{BoxData, BoxPath, Visit, look_at, under};
use rd_tree::Tree;
use std::alloc::Global;
use std::sync::ledger::Ledger;

/// A box with the leaves that it paints, from those that the boxes below it paint.
fn trace_over(
    alloc: Global,
    s: &Sight,
    above: &[BoxData],
    here: &BoxData,
    below: &[TracedBox],
) -> Result<TracedBox, NoMemory>
    ensures { IfOk result (λ b. b ≡ traced_over s.now above.now here.now below.now) }
{
    let at = BoxPath {
        above: above.to_vec(alloc)?,
        here: *here,
    };
    let order = steps(alloc, s, &at, below)?;
    let grouped = is_grouped(&at, below);
    Ok(TracedBox { at, order, grouped })
}

/// A box and those below it in tree order, each with the leaves that it paints.
#[cycle(walk)]
fn trace_one<B: Ledger>(
    alloc: Global,
    tree: &Tree<B>,
    s: &Sight,
    above: &[BoxData],
    here: &BoxData,
    first_child: Option<BoxKey>,
    looks: &mut Steps<B>,
) -> Result<Vec<TracedBox>, NoMemory>
    requires { IsFirst first_child (drawn tree.now) }
    ensures traced { IfOk result (λ v. v.items ≡ with_those_below s.now above.now here.now first_child (drawn tree.now)) }
    ensures looks { looks.new ≤ looks.old + size_from first_child (drawn tree.now) }
{
    let path = under(alloc, here, above)?;
    let mut below = trace_all(alloc, tree, s, &path, first_child, looks)?;
    let traced = trace_over(alloc, s, above, here, &below)?;
    let mut all = Vec::new(alloc);
    all.push(traced)?;
    all.append(&mut below)?;
    Ok(all)
}

/// A box, its later siblings, and all below them in tree order, each with the leaves that it paints.
#[cycle(walk)]
fn trace_all<B: Ledger>(
    alloc: Global,
    tree: &Tree<B>,
    s: &Sight,
    above: &[BoxData],
    first: Option<BoxKey>,
    looks: &mut Steps<B>,
) -> Result<Vec<TracedBox>, NoMemory>
    requires { IsFirst first (drawn tree.now) }
    ensures traced { IfOk result (λ v. v.items ≡ traced_from s.now above.now first (drawn tree.now)) }
    ensures looks { looks.new ≤ looks.old + size_from first (drawn tree.now) }
{
    let mut all = Vec::new(alloc);
    let mut next = first;
    while let Some(key) = next {
        let Visit {
            here,
            first_child,
            next_sibling,
        } = match look_at(tree, key, looks) {
            Some(visit) => visit,
            None => break,
        };
        let mut traced = trace_one(alloc, tree, s, above, &here, first_child, looks)?;
        all.append(&mut traced)?;
        next = next_sibling;
    }
    Ok(all)
}

/// The root of a tree, and what holds of the tree as it is drawn.
fn root_of<B: Ledger>(tree: &Tree<B>) -> BoxKey
    ensures root { result ≡ tree.now.root }
    ensures rooted { IsRooted (drawn tree.now) }
    ensures boxes { size (drawn tree.now).boxes ≡ size tree.now.boxes }
{
    tree.root()
}

/// What the first of the boxes paints.
fn first_entry(alloc: Global, boxes: &[TracedBox]) -> Result<Vec<Traced>, NoMemory>
    ensures { IfOk result (λ v. v.items ≡ first_entry boxes.now) }
{
    match boxes {
        [] => Ok(Vec::new(alloc)),
        [root, ..] => entry_of(alloc, root),
    }
}

/// The leaves of a tree of boxes that cover a pixel, in the order of painting, each with its way (CSS 2.2 Appendix E). Each
/// box is looked at at most once.
pub fn traced<B: Ledger>(
    alloc: Global,
    tree: &Tree<B>,
    x: i32,
    y: i32,
    looks: &mut Steps<B>,
) -> Result<Vec<Traced>, NoMemory>
    ensures traced { IfOk result (λ v. v.items ≡ spec.traced x y tree.now) }
    ensures looks { looks.new ≤ looks.old + size tree.now.boxes }
{
    let canvas = tree.canvas().rect();
    let s = Sight { canvas, x, y };
    let boxes = trace_all(alloc, tree, &s, &[], Some(root_of(tree)), looks)?;
    let leaves = first_entry(alloc, &boxes)?;
    Ok(leaves)
}
