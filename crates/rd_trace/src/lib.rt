//! Why a leaf is where it is: the leaves of a tree that cover a pixel, each with the steps of the painting order that it
//! went through (CSS 2.2 Appendix E), from its own box out to the root.
//!
//! [`traced`] computes the definition by filters over the boxes below each box; it is slow, and made for one question.
#![tactic(auto)]

mod content;
mod deciding;
pub mod laws;
mod layers;
mod order;
mod placing;
mod steps;
mod walk;
mod way;

pub use deciding::{Reason, reason_of};
pub use placing::{PaintStep, Placing, Sight};
pub use walk::traced;
pub use way::{Around, Traced, hit_of, takes_hit};
