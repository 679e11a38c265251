//! The merge of a kept list with a new one.
ghost use Rattle.std.specs.Prelude.{◌≡◌, IfOk, IfErr};
ghost use Rattle.rd_merge.specs.Merging.{CanBeMerged, MergedInto, StandsAfter};

use crate::finishing::finish;
use crate::going::Touches;
use crate::preparing::prepare;
use rd_list::{Kept, NewList};
use std::alloc::{AllocError, Global};
use std::sync::ledger::Ledger;

/// The kept list without the leaves of touched boxes, joined with the new list. Where memory is wanting, the kept list as it was.
pub fn merge<A: Ledger, T: Touches>(
    alloc: Global,
    kept: Kept<A>,
    new: NewList<A>,
    tree: &T,
) -> Result<Kept<A>, (Kept<A>, AllocError)>
    requires { CanBeMerged (T.is_touched tree.now) kept new }
    ensures merged { IfOk result (MergedInto (T.is_touched tree.now) kept new) }
    ensures stands { IfOk result (StandsAfter (T.is_touched tree.now) kept new) }
    ensures kept { IfErr result (λ e. e.0 ≡ kept) }
{
    match prepare(alloc, &kept, &new, tree) {
        Ok(plan) => Ok(finish(kept, new, plan)),
        Err(e) => Err((kept, e)),
    }
}
