//! What is handed to each box, in a table by slot.
ghost use Rattle.std.specs.Prelude.{◌≡◌, ◌<◌, ◌≤◌, ◌⊎◌, length, vec_len, vec_capacity};
ghost use Rattle.rd_tree.specs.Internal.Hands.{hand_at, PutsHand};

use crate::handed::ScrollSums;
use rd_keys::BoxKey;

/// What is handed to a box.
#[inline(always)]
pub(crate) fn hand_of(rows: &[ScrollSums], key: BoxKey) -> ScrollSums
    requires { key.slot < length rows.now }
    ensures { result ≡ hand_at rows.now key }
{
    rows[key.slot() as usize]
}

/// Writes the row of a slot that has one.
#[inline(always)]
pub(crate) fn write(rows: &mut Vec<ScrollSums>, key: BoxKey, handed: ScrollSums)
    requires { key.slot < length rows.old.items }
    ensures rows { PutsHand rows.old.items rows.new.items key handed }
    ensures same_length { length rows.new.items ≡ length rows.old.items }
{
    rows[key.slot() as usize] = handed;
}

/// Writes the row of a slot that has one, or of the next one.
pub(crate) fn put_hand(rows: &mut Vec<ScrollSums>, key: BoxKey, handed: ScrollSums)
    requires { (key.slot < length rows.old.items) ⊎ ((key.slot ≡ length rows.old.items)
        × (vec_len rows.old < vec_capacity rows.old)) }
    ensures rows { PutsHand rows.old.items rows.new.items key handed }
    ensures there { key.slot < length rows.new.items }
    ensures longer { length rows.old.items ≤ length rows.new.items }
{
    if (key.slot() as usize) < rows.len() {
        rows[key.slot() as usize] = handed;
    } else {
        rows.push_reserved(handed);
    }
}
