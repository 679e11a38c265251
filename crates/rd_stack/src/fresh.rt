//! The fresh list of a tree, by looks at its boxes.
ghost use Rattle.std.specs.Prelude.{◌≡◌, ◌≤◌, ◌+◌, IfOk, MatchOption, ◌∷◌, ◌++◌};
ghost use Rattle.rd_tree.specs.Document.{IsRooted};
ghost use Rattle.rd_tree.specs.Forest.{size};
ghost use Rattle.rd_tree.specs.Drawn.{drawn};
ghost use Rattle.rd_stack.specs.Fresh as spec;
ghost use Rattle.rd_stack.specs.Looks.{IsGone, IsVisited};
ghost use Rattle.rd_stack.specs.Internal.Looks.{IsFirst, size_from, painted_over, painted_from, with_those_below};

use crate::layers::{entry_of, is_grouped};
use crate::painted::Painted;
use crate::path::{BoxData, BoxPath};
use crate::steps::steps;
use rd_geom::{NoMemory, Rect, Steps};
use rd_keys::BoxKey;
use rd_list::PlainList;
use rd_tree::Tree;
use std::alloc::Global;
use std::sync::ledger::Ledger;

/// A box on top of those above it.
pub fn under(alloc: Global, b: &BoxData, above: &[BoxData]) -> Result<Vec<BoxData>, NoMemory>
    ensures { IfOk result (λ v. v.items ≡ b.now ∷ above.now) }
{
    let mut all = Vec::new(alloc);
    all.push(*b)?;
    all.extend_from_slice(above)?;
    Ok(all)
}

/// What a walk needs of a box.
pub struct Visit {
    pub here: BoxData,
    pub first_child: Option<BoxKey>,
    pub next_sibling: Option<BoxKey>,
}

/// Looks at a box, which is counted once. None where the key is not live.
pub fn look_at<B: Ledger>(tree: &Tree<B>, key: BoxKey, looks: &mut Steps<B>) -> Option<Visit>
    ensures seen { MatchOption result (IsGone key (drawn tree.now)) (λ s. IsVisited key (drawn tree.now) s) }
    ensures looks { looks.new ≡ looks.old + 1 }
{
    match tree.look(key, looks) {
        Some(view) => Some(Visit {
            here: BoxData::new(view.key, &view.at, view.style),
            first_child: view.first_child,
            next_sibling: view.next_sibling,
        }),
        None => None,
    }
}

/// A box with all that it paints, from what the boxes below it paint.
fn paint_over(
    alloc: Global,
    canvas: &Rect,
    above: &[BoxData],
    here: &BoxData,
    below: &[Painted],
) -> Result<Painted, NoMemory>
    ensures { IfOk result (λ p. p ≡ painted_over canvas.now above.now here.now below.now) }
{
    let at = BoxPath {
        above: above.to_vec(alloc)?,
        here: *here,
    };
    let order = steps(alloc, canvas, &at, below)?;
    let grouped = is_grouped(&at, below);
    Ok(Painted { at, order, grouped })
}

/// A box and those below it in tree order, each with all that it paints.
#[cycle(paint)]
fn paint_one<B: Ledger>(
    alloc: Global,
    tree: &Tree<B>,
    canvas: &Rect,
    above: &[BoxData],
    here: &BoxData,
    first_child: Option<BoxKey>,
    looks: &mut Steps<B>,
) -> Result<Vec<Painted>, NoMemory>
    requires { IsFirst first_child (drawn tree.now) }
    ensures painted { IfOk result (λ v. v.items ≡ with_those_below canvas.now above.now here.now first_child (drawn tree.now)) }
    ensures looks { looks.new ≤ looks.old + size_from first_child (drawn tree.now) }
{
    let path = under(alloc, here, above)?;
    let mut below = paint_all(alloc, tree, canvas, &path, first_child, looks)?;
    let painted = paint_over(alloc, canvas, above, here, &below)?;
    let mut all = Vec::new(alloc);
    all.push(painted)?;
    all.append(&mut below)?;
    Ok(all)
}

/// A box, its later siblings, and all below them in tree order, each with all that it paints.
#[cycle(paint)]
fn paint_all<B: Ledger>(
    alloc: Global,
    tree: &Tree<B>,
    canvas: &Rect,
    above: &[BoxData],
    first: Option<BoxKey>,
    looks: &mut Steps<B>,
) -> Result<Vec<Painted>, NoMemory>
    requires { IsFirst first (drawn tree.now) }
    ensures painted { IfOk result (λ v. v.items ≡ painted_from canvas.now above.now first (drawn tree.now)) }
    ensures looks { looks.new ≤ looks.old + size_from first (drawn tree.now) }
{
    let mut all = Vec::new(alloc);
    let mut next = first;
    while let Some(key) = next {
        let Visit {
            here,
            first_child,
            next_sibling,
        } = match look_at(tree, key, looks) {
            Some(visit) => visit,
            None => break,
        };
        let mut painted = paint_one(alloc, tree, canvas, above, &here, first_child, looks)?;
        all.append(&mut painted)?;
        next = next_sibling;
    }
    Ok(all)
}

/// The root of a tree, and what holds of the tree as it is drawn.
fn root_of<B: Ledger>(tree: &Tree<B>) -> BoxKey
    ensures root { result ≡ tree.now.root }
    ensures rooted { IsRooted (drawn tree.now) }
    ensures boxes { size (drawn tree.now).boxes ≡ size tree.now.boxes }
{
    tree.root()
}

/// What a tree of boxes paints, from bottom to top (CSS 2.2 Appendix E). Each box is looked at at most once.
pub fn fresh_list<B: Ledger>(
    alloc: Global,
    tree: &Tree<B>,
    looks: &mut Steps<B>,
) -> Result<PlainList, NoMemory>
    ensures list { IfOk result (λ list. list ≡ spec.fresh_list tree.now) }
    ensures looks { looks.new ≤ looks.old + size tree.now.boxes }
{
    let canvas = tree.canvas().rect();
    let painted = paint_all(alloc, tree, &canvas, &[], Some(root_of(tree)), looks)?;
    let mut out = PlainList::new(alloc);
    if let Some(root) = painted.first() {
        entry_of(alloc, &mut out, root)?;
    }
    Ok(out)
}
