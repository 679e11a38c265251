//! What a walk reads of a box, without opening its node.
ghost use Rattle.std.specs.Prelude.{◌≡◌};
ghost use Rattle.rd_tree.specs.Internal.Glances.{at_generation, glance_of, unseen};

use crate::node::Node;
use rd_keys::BoxKey;

/// What a walk reads of a slot: which key of it is live, whether its box is touched, and where to go on.
#[derive(Clone, Copy)]
pub(crate) struct Glance {
    pub(crate) generation: u32,
    pub(crate) live: bool,
    pub(crate) touched: bool,
    pub(crate) first: Option<BoxKey>,
    pub(crate) next: Option<BoxKey>,
}

/// Of a slot without a live key: whatever key is asked for counts as touched.
pub(crate) fn none() -> Glance
    ensures { result ≡ unseen }
{
    Glance {
        generation: 0,
        live: false,
        touched: true,
        first: None,
        next: None,
    }
}

/// Of the node under the key of this generation.
pub(crate) fn glance_at(generation: u32, node: &Node) -> Glance
    ensures { result ≡ glance_of generation node.now }
{
    Glance {
        generation,
        live: true,
        touched: node.item.touched,
        first: node.links.first,
        next: node.links.next,
    }
}

/// The same under the key of another generation.
pub(crate) fn renamed(glance: Glance, generation: u32) -> Glance
    ensures { result ≡ at_generation generation glance }
{
    let mut glance = glance;
    glance.generation = generation;
    glance
}
