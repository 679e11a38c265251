//! Edits of a tree of boxes.
//! [`apply`] does an [`Edit`], or says by an [`EditFault`] why not; the first test that holds decides.
//! A refused edit leaves the tree and its marks as they were. [`verdict`] tells that fault without doing the edit.
//!
//! Kept: nothing; the tree keeps itself.
//! Breaks: another refusal, or another order of tests, breaks `rd_undo`, `rd_engine` and the machine of `rd_run`.
#![tactic(auto)]

mod applying;
mod checks;
mod edit;
mod fault;
mod insert;
mod judging;
mod moves;
mod values;

pub use applying::apply;
pub use edit::Edit;
pub use fault::EditFault;
pub use judging::verdict;
