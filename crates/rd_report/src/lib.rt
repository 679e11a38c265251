//! What the program writes of what it did: the lines of answers, dumps of kept lists, pictures, digests and summaries.
//! Lines are put at the end of one text, so that no line takes memory of its own.
//! Each function says the very bytes; `docs/FORMATS.md` has them in words.
//!
//! Kept: nothing; each call puts bytes at the end of the text that it is lent.
//! Breaks: another byte of a line breaks the machine of `rd_run`, which owes these very bytes.
#![tactic(auto)]

mod answer;
mod digests;
mod dump;
mod picture;
mod summary;
mod tiles;
mod words;

pub use answer::{Answer, push_line};
pub use digests::digest;
pub use dump::push_dump;
pub use picture::{p6, picture_head, push_px};
pub use summary::{Totals, push_final, push_summary};
pub use tiles::push_tiles;
pub use words::{id_text, part_text};
