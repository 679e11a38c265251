//! What a paint takes before it changes anything.

use rd_area::Area;
use rd_list::NewList;
use rd_merge::Plan;
use rd_paint::Buffers;
use std::sync::ledger::Ledger;

/// All that a paint needs, taken before it changes anything: the area to paint anew, the items that it made for that,
/// the plan of the merge, the rows that groups are painted into, and how many items it made.
#[derive(Drop)]
pub struct Prepared<A: Ledger> {
    pub area: Area,
    pub new: NewList<A>,
    pub plan: Plan<A>,
    pub buffers: Buffers,
    pub built: u64,
}
