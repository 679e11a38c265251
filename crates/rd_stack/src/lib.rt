//! The painting order of a tree of boxes (CSS 2.2 Appendix E).
//!
//! The plain program computes the fresh list of a tree by filters over the boxes below each box; it is slow and stays as what faster ones are compared with.
//!
//! Kept: a box whose parts are made has an outline that fits (`OutlineFits`).
//! Breaks: another rule of painting breaks `rd_partial`, which makes the same in one pass, and by the laws `rd_engine`.
#![tactic(auto)]

mod clip;
mod content;
mod fresh;
pub mod laws;
mod layers;
mod painted;
mod parts;
mod path;
mod steps;

pub use fresh::{Visit, fresh_list, look_at, under};
pub use parts::{
    back_of, border_of, content_of, is_seen, leaf_at, leaf_of, outline_of, takes_hits,
};
pub use path::{
    BoxData, BoxPath, class_of, is_atom, is_blended, is_blended_layer, is_block, is_context,
    is_float, is_in_line, is_layer, is_local, is_root,
};
