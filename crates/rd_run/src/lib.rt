//! All that the program does, as one call: [`run`] reads what the words ask for, answers it, and says how it ended.
//! Its contract ties every byte that is written to a run of the machine over the script that the input is.
//! Below it: words, input, an engine with what it did, answers, pictures and summaries, and the line on standard error.
//!
//! Kept: a session is a run of the machine so far: an engine, and what was counted.
//! Breaks: another status or answer breaks `rd_cli`, whose one call has the same clause.
#![tactic(auto)]

mod answers;
mod checking;
mod composing;
mod input;
mod last;
pub mod laws;
mod performing;
mod program;
mod session;
mod status;
mod telling;
mod tiling;
mod words;

pub use input::{MOST_BYTES, read_input};
pub use last::last_tree;
pub use program::run;
pub use status::Status;
pub use telling::tell;
pub use words::{WordsForm, number_in};
