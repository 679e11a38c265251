//! The tree of a script.

ghost use Rattle.std.specs.Prelude.{◌≡◌, ◌+◌, ◌<◌, ◌≤◌, true, [], ◌∷◌, length, replicate, All, IfOk, OnOk, Some, None, IsSome};
ghost use Rattle.rd_keys.specs.Keys.{same_key};
ghost use Rattle.rd_tree.specs.Document.{BoxKey as Key, HasFreeSlot, named, taken};
ghost use Rattle.rd_tree.specs.Forest.{depth};
ghost use Rattle.rd_scene.specs.Order.{are_in_order};
ghost use Rattle.rd_scene.specs.Planting as spec;
ghost use Rattle.rd_scene.specs.Planting.{IsAlone, Adds, AddsAll, Plants};
ghost use Rattle.rd_scene.specs.Scripts.{FitsBox};
ghost use Rattle.rd_scene.specs.Internal.WellFormed.{IsWellFormed};
ghost use Rattle.rd_tree.specs.Figures.{max_boxes, max_depth};

use crate::script::{SceneBox, Script};
use rd_geom::NoMemory;
use rd_tree::{BoxKey, Id, IdFault, Tree};
use std::alloc::Global;
use std::sync::ledger::Ledger;

fn copy_of(alloc: Global, id: &Id) -> Result<Id, NoMemory>
    ensures { IfOk result (λ i. i ≡ id.now) }
{
    match Id::new(alloc, id.text()) {
        Ok(id) => Ok(id),
        Err(IdFault::Form) => unreachable!(),
        Err(IdFault::NoMemory) => Err(NoMemory),
    }
}

/// The parent of the box in the tree.
fn parent_key<B: Ledger>(tree: &Tree<B>, b: &SceneBox) -> Option<BoxKey>
    ensures { result ≡ spec.parent_in tree.now.boxes b.now }
{
    let id = b.parent.as_ref()?;
    tree.find(id)
}

/// A box more, as the last child of its parent.
#[tactic(auto, using(crate::proofs::Plants::parent_there))]
fn add<B: Ledger>(tree: &mut Tree<B>, b: &SceneBox) -> Result<(), NoMemory>
    requires parent { IsSome (spec.parent_in tree.old.boxes b.now) }
    requires depth { (p : Key) → spec.parent_in tree.old.boxes b.now ≡ Some p → depth same_key p tree.old.boxes + 1 ≤ max_depth }
    requires new_id { named b.now.id tree.old.boxes ≡ None }
    requires room { HasFreeSlot tree.old }
    requires fits { FitsBox b.now }
    ensures added { OnOk result (Adds b.now tree.old tree.new) }
    ensures more { OnOk result (taken tree.new ≡ taken tree.old + 1) }
{
    let Some(parent) = parent_key(tree, b) else {
        unreachable!()
    };
    tree.insert(parent, None, &b.id, b.rect, b.style)?;
    Ok(())
}

/// These boxes more, in turn, in a tree of the first box alone.
fn add_all<B: Ledger>(
    tree: &mut Tree<B>,
    first: &SceneBox,
    rest: &[SceneBox],
) -> Result<(), NoMemory>
    requires alone { IsAlone first.now tree.old }
    requires taken { taken tree.old ≡ 1 }
    requires order { are_in_order (first.now ∷ []) rest.now ≡ true }
    requires most { length rest.now < max_boxes }
    requires fits { All FitsBox rest.now }
    ensures { OnOk result (AddsAll rest.now tree.old tree.new) }
{
    for b in rest {
        add(tree, b)?;
    }
    Ok(())
}

fn planted<B: Ledger>(alloc: Global, script: &Script) -> Result<Tree<B>, NoMemory>
    ensures { IfOk result (λ t. Plants script.now t) }
{
    let [first, rest @ ..] = script.boxes.as_slice() else {
        unreachable!()
    };
    let id = copy_of(alloc, &first.id)?;
    let mut tree = Tree::new(alloc, script.canvas, id, first.rect, first.style)?;
    add_all(&mut tree, first, rest)?;
    Ok(tree)
}

/// The tree of the script's boxes: the first is the root, and each other the last child of its parent at that point. Every
/// box is touched, and every slot that was made holds one, at generation 0. The script stays.
pub fn plant<B: Ledger>(alloc: Global, script: &Script) -> Result<Tree<B>, NoMemory>
    ensures planted { IfOk result (λ t. Plants script.now t) }
    ensures slots { IfOk result (λ t. t.slots
        ≡ replicate (length script.now.boxes) (record { generation = 0; taken = true })) }
{
    let tree = planted(alloc, script)?;
    Ok(tree)
}
