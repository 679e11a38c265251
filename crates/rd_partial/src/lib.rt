//! The painting order of a tree in one downward pass, as far as it is wanted.
//!
//! The pass drops each box into the lists of the box that paints it; subtrees of which nothing is wanted are not entered.
//!
//! Kept: what a walk hands down stands for the boxes above (`Stood`); nothing is kept between two paints.
//! Breaks: another area or other items break `rd_engine`, and the machine of `rd_run`, which says the same area.
#![tactic(auto)]

mod built;
mod give;
mod inherited;
pub mod laws;
mod listed;
mod lists;
mod look;
mod order;
mod seeking;
mod touched;
mod visit;
mod walk;
mod wanted;

pub use built::{build, build_all};
pub use touched::touched_area;
