//! The display list for C. Each export takes a handle, which holds an engine or none, and answers 0 where it did what it was
//! asked, and else the number of why it did not. `docs/EMBEDDING.md` says what a caller owes.
#![tactic(auto)]

pub mod batches;
pub mod copying;
pub mod edits;
mod handle;
mod held;
mod laws;
pub mod listing;
mod loose;
pub mod making;
mod painter;
pub mod painting;
pub mod reading;
mod refusal;
pub mod render;
pub mod tiles;
pub mod undoing;
mod values;

pub use batches::{RdEdit, RdName};
pub use handle::RdEngine;
pub use laws::as_many_undos;
pub use listing::RdEntry;
pub use painting::RdSpan;
pub use render::RdBox;
pub use values::{RdColor, RdNote, RdRect, RdStyle};
