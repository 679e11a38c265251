//! Looks at the boxes of an edit.
ghost use Rattle.std.specs.Prelude.{◌≡◌, ◌+◌, true, false, IfOk, Some};
ghost use Rattle.std.specs.Str.{bytes_eq};
ghost use Rattle.rd_keys.specs.Keys.{BoxKey as Box};
ghost use Rattle.rd_tree.specs.Document.{contains, named, id_of};
ghost use Rattle.rd_tree.specs.Forest.{has, is_among};
ghost use Rattle.rd_tree.specs.ByIds.{named_tree};
ghost use Rattle.rd_tree.specs.Proper.{IsProper};
ghost use Rattle.rd_undo.specs.Internal.Visits.{IsVisited, IsStand, id_from};

use rd_geom::{NoMemory, Rect, Steps};
use rd_style::Style;
use rd_tree::{BoxKey, Id, Scroll, Tree};
use std::sync::ledger::Ledger;

/// What puts a box back, but for its parent, and where to go on. The rectangle is where the box is laid out.
#[derive(Drop)]
pub(crate) struct Visit<'a> {
    pub(crate) id: &'a Id,
    pub(crate) rect: Rect,
    pub(crate) style: Style,
    pub(crate) scroll: Scroll,
    pub(crate) first_child: Option<BoxKey>,
    pub(crate) next_sibling: Option<BoxKey>,
}

/// A box and its parent.
#[derive(Drop)]
pub(crate) struct Stand<'a> {
    pub(crate) parent: &'a Id,
    pub(crate) visit: Visit<'a>,
}

/// The id of a box.
fn id_at<'a, B: Ledger>(tree: &'a Tree<B>, key: BoxKey) -> &'a Id
    requires { contains tree.now key ≡ true }
    ensures { Some result.now ≡ id_of key tree.now.boxes }
{
    match tree.id(key) {
        Some(id) => id,
        None => unreachable!(),
    }
}

/// The box with an id.
fn key_of<B: Ledger>(tree: &Tree<B>, id: &Id) -> BoxKey
    requires proper { IsProper tree.now }
    requires known { has bytes_eq id.now (named_tree tree.now) ≡ true }
    ensures named { named id.now tree.now.boxes ≡ Some result }
    ensures there { contains tree.now result ≡ true }
{
    match tree.find(id) {
        Some(key) => key,
        None => unreachable!(),
    }
}

/// Looks at a box.
pub(crate) fn visit_box<'a, B: Ledger>(
    tree: &'a Tree<B>,
    key: BoxKey,
    looks: &mut Steps<B>,
) -> Visit<'a>
    requires { contains tree.now key ≡ true }
    ensures seen { IsVisited key tree.now.boxes result }
    ensures looks { looks.new ≡ looks.old + 1 }
{
    let id = id_at(tree, key);
    match tree.look(key, looks) {
        Some(view) => Visit {
            id,
            rect: view.rect,
            style: *view.style,
            scroll: view.scroll,
            first_child: view.first_child,
            next_sibling: view.next_sibling,
        },
        None => unreachable!(),
    }
}

/// Looks at the box with an id.
pub(crate) fn visit_named<'a, B: Ledger>(
    tree: &'a Tree<B>,
    id: &Id,
    looks: &mut Steps<B>,
) -> Visit<'a>
    requires proper { IsProper tree.now }
    requires known { has bytes_eq id.now (named_tree tree.now) ≡ true }
    ensures seen { (k : Box) × (named id.now tree.now.boxes ≡ Some k) × IsVisited k tree.now.boxes result }
    ensures looks { looks.new ≡ looks.old + 1 }
{
    let key = key_of(tree, id);
    visit_box(tree, key, looks)
}

/// Looks at the box with an id, which is not the root.
pub(crate) fn stand_of<'a, B: Ledger>(tree: &'a Tree<B>, id: &Id, looks: &mut Steps<B>) -> Stand<'a>
    requires proper { IsProper tree.now }
    requires known { has bytes_eq id.now (named_tree tree.now) ≡ true }
    requires below { is_among bytes_eq id.now (named_tree tree.now) ≡ false }
    ensures stands { IsStand id.now tree.now result }
    ensures looks { looks.new ≡ looks.old + 1 }
{
    let key = key_of(tree, id);
    let above = match tree.parent(key) {
        Some(above) => above,
        None => unreachable!(),
    };
    let parent = id_at(tree, above);
    let visit = visit_box(tree, key, looks);
    Stand { parent, visit }
}

/// The id of a sibling, where there is one.
pub(crate) fn copy_id<B: Ledger>(
    tree: &Tree<B>,
    sibling: Option<BoxKey>,
) -> Result<Option<Id>, NoMemory>
    ensures { IfOk result (λ o. o ≡ id_from sibling tree.now) }
{
    let Some(key) = sibling else {
        return Ok(None);
    };
    match tree.id(key) {
        Some(id) => Ok(Some(id.copy()?)),
        None => Ok(None),
    }
}
