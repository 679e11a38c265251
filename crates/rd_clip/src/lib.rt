//! What may be seen of a box: the clips that are handed down from the root to it.
//! Three rectangles stand for the whole list of the boxes above, so that a walk down the tree climbs nowhere.
//! The rules are those of CSS 2.2 sections 10.1 and 11.1.1; nothing takes memory.
//!
//! Kept: nothing here; `rd_stack` and `rd_partial` keep that what is handed down stands for the boxes above.
//! Breaks: another containing block breaks `rd_stack`, and by its laws `rd_partial` and `rd_engine`.
#![tactic(auto)]

mod clips;

pub use clips::Clips;
