//! Edits of a tree undone. [`Step::prepare`] tells, before an edit is done, the edits that undo it; an [`Undo`] keeps the
//! latest of such steps.
//!
//! Kept: nothing; the buffer of the kit keeps its steps in order.
//! Breaks: another inverse breaks the laws (`src/laws.rt`) and the undos of `rd_run`, whose machine does the same edits.
#![tactic(auto)]

mod inverse;
mod laws;
mod previous;
mod step;
mod undo;
mod visit;

pub use laws::{as_many_undos, undoing};
pub use step::Step;
pub use undo::{MAX_STEPS, Undo};
