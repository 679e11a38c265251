//! Says whether a dump is one of a list that stands for the painting order of a tree, and if not, why not.
//!
//! Kept: in the clusters of `near.rt` each leaf lies within the hull of its cluster, and has no greater place than the cluster says.
//! Breaks: another reading of a line or another verdict breaks `IsChecked`, the clause of `check`.
#![tactic(auto)]

mod around;
mod checking;
mod crossing;
mod dump;
mod fault;
mod fields;
mod judging;
mod known;
mod naming;
mod near;
mod nesting;
mod painted;
mod reading;
mod row;
mod seen;
mod speaking;
mod verdict;
mod words;

pub use checking::check;
pub use dump::Dump;
pub use fault::CheckFault;
pub use speaking::push_verdict;
pub use verdict::Verdict;
