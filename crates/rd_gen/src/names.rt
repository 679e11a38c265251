//! The ids of a generated script.

ghost use Rattle.std.specs.Prelude.{◌≡◌, IfOk};
ghost use Rattle.rd_gen.specs.Names as names;

use rd_geom::NoMemory;
use rd_tree::{Id, IdFault};
use std::alloc::Global;

/// The id of the box with this number.
#[tactic(auto, using(crate::proofs::Naming::box_id_form), unfolding(crate::specs::Names::box_id))]
pub(crate) fn box_id(alloc: Global, number: u32) -> Result<Id, NoMemory>
    ensures { IfOk result (λ i. i ≡ names.box_id number) }
{
    let text = format!(in alloc; "b{number}")?;
    match Id::new(alloc, text.as_str()) {
        Ok(id) => Ok(id),
        Err(IdFault::Form) => unreachable!(),
        Err(IdFault::NoMemory) => Err(NoMemory),
    }
}

/// The id of the box that the edit with this number inserts.
#[tactic(auto, using(crate::proofs::Naming::new_id_form), unfolding(crate::specs::Names::new_id))]
pub(crate) fn new_id(alloc: Global, number: u32) -> Result<Id, NoMemory>
    ensures { IfOk result (λ i. i ≡ names.new_id number) }
{
    let text = format!(in alloc; "n{number}")?;
    match Id::new(alloc, text.as_str()) {
        Ok(id) => Ok(id),
        Err(IdFault::Form) => unreachable!(),
        Err(IdFault::NoMemory) => Err(NoMemory),
    }
}
