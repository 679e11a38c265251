//! Streams of bytes that count their faults, so that a contract can say why a call failed.
//! A [`Source`] gives bytes and a [`Sink`] takes them: over memory, or over std's readers and writers.
//! [`read_all`] takes a source to its end, and [`write_all`] gives a sink a whole text.
//!
//! Kept: what was taken or written lies within the memory that was lent.
//! Breaks: another rule for a failed call breaks `rd_run`, whose statuses rest on counted faults.
#![tactic(auto)]

mod adapters;
mod calls;
mod memory_sink;
mod memory_source;
mod reading;
mod sink;
mod source;
mod writing;

pub use adapters::{ReadSource, WriteSink};
pub use memory_sink::{MemorySink, SureSink};
pub use memory_source::{MemorySource, SureSource};
pub use reading::{ReadAll, read_all};
pub use sink::Sink;
pub use source::{Failed, Source};
pub use writing::write_all;
