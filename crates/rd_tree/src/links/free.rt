//! Boxes that go.
ghost use Rattle.std.specs.Prelude.{◌≡◌, false};
ghost use Rattle.rd_keys.specs.Keys.{same_key};
ghost use Rattle.rd_tree.specs.Forest.{empty, has};
ghost use Rattle.rd_tree.specs.Internal.Links.{child_and_sibling};
ghost use Rattle.rd_tree.specs.Internal.Linked.{IsRead, linked, seen_from};
ghost use Rattle.rd_tree.specs.Internal.Frees.{Frees, DropsTexts, topped, branch_at};

use crate::held::Nodes;
use indexmap::IndexMap;
use rd_keys::BoxKey;

/// Takes a box out of the arena, and its id out of the index. Its first child and its next sibling.
fn free_one(
    nodes: &mut Nodes,
    ids: &mut IndexMap<String, BoxKey>,
    key: BoxKey,
) -> (Option<BoxKey>, Option<BoxKey>)
    ensures freed { Frees nodes.old nodes.new (topped key (linked nodes.old key) empty) }
    ensures dropped { DropsTexts (topped key (linked nodes.old key) empty) ids.old ids.new }
    ensures onward { result ≡ child_and_sibling (linked nodes.old key) }
{
    match nodes.remove(key) {
        Some(node) => {
            ids.swap_remove(node.item.id.text());
            (node.links.first, node.links.next)
        }
        None => (None, None),
    }
}

/// Takes out a box, those below it, and its later siblings with theirs.
fn free_from(nodes: &mut Nodes, ids: &mut IndexMap<String, BoxKey>, first: Option<BoxKey>)
    requires read { IsRead nodes.old first }
    ensures freed { Frees nodes.old nodes.new (seen_from nodes.old first) }
    ensures dropped { DropsTexts (seen_from nodes.old first) ids.old ids.new }
{
    let mut at = first;
    while let Some(key) = at {
        let (below, next) = free_one(nodes, ids, key);
        free_from(nodes, ids, below);
        at = next;
    }
}

/// Takes out a box and all below it.
pub(crate) fn free_branch(nodes: &mut Nodes, ids: &mut IndexMap<String, BoxKey>, key: BoxKey)
    requires read { IsRead nodes.old (child_and_sibling (linked nodes.old key)).0 }
    requires apart { has same_key key (seen_from nodes.old (child_and_sibling (linked nodes.old
        key)).0) ≡ false }
    ensures freed { Frees nodes.old nodes.new (branch_at nodes.old key) }
    ensures dropped { DropsTexts (branch_at nodes.old key) ids.old ids.new }
{
    let (below, _) = free_one(nodes, ids, key);
    free_from(nodes, ids, below);
}
