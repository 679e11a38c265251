//! How many blended layers are below each box with no stacking context between (CSS Compositing 1 section 3.2), by its slot.
ghost use Rattle.std.specs.Prelude.{◌≡◌, ◌+◌, ◌-◌, ◌<◌, ◌≤◌, ◌⊎◌, length, nat_lt, vec_len, vec_capacity};
ghost use Rattle.rd_tree.specs.Document.{BoxKey as Box, BoxForest};
ghost use Rattle.rd_tree.specs.Internal.Linked.{linked};
ghost use Rattle.rd_tree.specs.Internal.Rows.{IsStanding, IsIn};
ghost use Rattle.rd_tree.specs.Internal.Blending as spec;
ghost use Rattle.rd_tree.specs.Internal.Blending.{count_at, open_parent, given_under, AreCounts, CanRecount, KeepsCountsOff, Owes, PutsCount};

use crate::held::Nodes;
use rd_keys::BoxKey;
use rd_style::{Style, is_blended, real};

/// Is a blended layer below a box?
#[inline(always)]
pub(crate) fn blends_at(counts: &[u32], key: BoxKey) -> bool
    requires { key.slot < length counts.now }
    ensures { result ≡ nat_lt 0 (count_at counts.now key) }
{
    counts[key.slot() as usize] > 0
}

/// How many blended layers a box of this style puts into the stacking context round it, with so many below it.
pub(crate) fn given(style: &Style, below: u32) -> u32
    ensures { result ≡ spec.given style.now below }
{
    if is_blended(style) {
        1
    } else if below == 0 || real(style, false) {
        0
    } else {
        below
    }
}

/// How many blended layers a box puts into the stacking context round it.
pub(crate) fn given_at(counts: &[u32], nodes: &Nodes, key: BoxKey) -> u32
    requires { key.slot < length counts.now }
    ensures { result ≡ given_under (linked nodes.now key) (count_at counts.now key) }
{
    match nodes.get(key) {
        Some(node) => given(&node.item.style, counts[key.slot() as usize]),
        None => 0,
    }
}

/// The parent of a box that puts there what is below it.
fn open_parent_of(nodes: &Nodes, key: BoxKey) -> Option<BoxKey>
    ensures { result ≡ open_parent (linked nodes.now key) }
{
    match nodes.get(key) {
        Some(node) => {
            let style = &node.item.style;
            if is_blended(style) || real(style, false) {
                None
            } else {
                node.links.up
            }
        }
        None => None,
    }
}

/// Writes the count of a slot that has one, or of the next one.
pub(crate) fn put_count(counts: &mut Vec<u32>, key: BoxKey, count: u32)
    requires { (key.slot < length counts.old.items) ⊎ ((key.slot ≡ length counts.old.items)
        × (vec_len counts.old < vec_capacity counts.old)) }
    ensures rows { PutsCount counts.old.items counts.new.items key count }
    ensures there { key.slot < length counts.new.items }
    ensures longer { length counts.old.items ≤ length counts.new.items }
{
    if (key.slot() as usize) < counts.len() {
        counts[key.slot() as usize] = count;
    } else {
        counts.push_reserved(count);
    }
}

/// So many layers less below a box, and so many more.
fn shift_count(counts: &mut Vec<u32>, key: BoxKey, less: u32, more: u32)
    requires here { key.slot < length counts.old.items }
    requires enough { less ≤ count_at counts.old.items key + more }
    requires few { count_at counts.old.items key + more < 4294967296 }
    ensures rows { PutsCount counts.old.items counts.new.items key (count_at counts.old.items key +
        more - less) }
    ensures same_length { length counts.new.items ≡ length counts.old.items }
{
    let slot = key.slot() as usize;
    counts[slot] = counts[slot] + more - less;
}

/// A branch below a box puts so many layers less there, and so many more: the counts of the box, and of those above it, up to
/// the first stacking context.
pub(crate) fn recount(
    counts: &mut Vec<u32>,
    nodes: &Nodes,
    from: Option<BoxKey>,
    less: u32,
    more: u32,
)
    requires { CanRecount nodes.now counts.old.items from less more }
    ensures right { (root : Box) (f : BoxForest) → IsStanding nodes.now root f → IsIn from f
        → Owes from less more (count_at counts.old.items) f
        → AreCounts (count_at counts.new.items) f }
    ensures others { (root : Box) (f : BoxForest) → IsStanding nodes.now root f → IsIn from f
        → KeepsCountsOff nodes.now f counts.old.items counts.new.items }
    ensures same_length { length counts.new.items ≡ length counts.old.items }
{
    if less == more {
        return;
    }
    let mut at = from;
    while let Some(key) = at {
        shift_count(counts, key, less, more);
        at = open_parent_of(nodes, key);
    }
}
