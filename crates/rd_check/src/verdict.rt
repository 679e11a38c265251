//! What a check says.

use rd_keys::{BoxKey, Part};

/// What a check says of a dump: the first of these that holds. Entries are numbered from 0 by their lines.
#[derive(Clone, Copy, Debug, PartialEq, Eq)]
pub enum Verdict {
    /// The least entry whose id is that of no box.
    Unknown { entry: u32 },
    /// The least entry whose name an earlier one has.
    Twice { entry: u32 },
    /// The least leaf that the painting order has not.
    Extra { entry: u32 },
    /// The least leaf that has another value there; the numbers of paints are not compared.
    Differs { entry: u32 },
    /// The least leaf that stands in other groups there.
    Wrapped { entry: u32 },
    /// The first leaf of the painting order that has no entry.
    Missing { key: BoxKey, part: Part },
    /// Of the leaves that share a pixel to be seen in and stand the other way in the painting order: the least second, and
    /// with it the least first.
    Order { first: u32, second: u32 },
    /// The dumped list stands for the painting order.
    Yes,
}
