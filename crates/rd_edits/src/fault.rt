//! Why an edit is refused.

ghost use Rattle.std.specs.Prelude.{◌≡◌};
ghost use Rattle.rd_edits.specs.Refusals.{number_of};

use std::alloc::AllocError;
use thiserror::Error;

/// Why an edit was refused.
#[derive(Clone, Copy, PartialEq, Eq, Debug, Error)]
pub enum EditFault {
    /// No box has the id.
    #[error("no box has the id")]
    UnknownId,
    /// No box has the parent's id.
    #[error("no box has the parent's id")]
    UnknownParent,
    /// The box is the root.
    #[error("the box is the root")]
    IsRoot,
    /// The new parent is the box, or is below it.
    #[error("the new parent is the box or below it")]
    IntoItself,
    /// The box to stand before is no other child of the parent.
    #[error("the box to stand before is no other child of the parent")]
    NotAChild,
    /// A box has the id already.
    #[error("a box has the id already")]
    DuplicateId,
    /// A box would have a depth of 257 or more.
    #[error("a box would be too deep")]
    TooDeep,
    /// There are 20,000 boxes, with the slots that give no key any more.
    #[error("there are too many boxes")]
    TooMany,
    /// A rectangle or a width would break the limits.
    #[error("a rectangle or a width is out of range")]
    OutOfRange,
    /// There was no memory.
    #[error("out of memory")]
    NoMemory,
}

impl EditFault {
    /// The number of the fault: 1 to 9 in the order in which they are looked for, and 10 for want of memory.
    pub fn number(&self) -> u8
        ensures { result ≡ number_of self.now }
    {
        match self {
            EditFault::UnknownId => 1,
            EditFault::UnknownParent => 2,
            EditFault::IsRoot => 3,
            EditFault::IntoItself => 4,
            EditFault::NotAChild => 5,
            EditFault::DuplicateId => 6,
            EditFault::TooDeep => 7,
            EditFault::TooMany => 8,
            EditFault::OutOfRange => 9,
            EditFault::NoMemory => 10,
        }
    }
}

impl From<AllocError> for EditFault {
    ghost use Rattle.std.specs.Prelude.{◌≡◌};
    ghost use Rattle.rd_edits.specs.declared.fault.EditFault.TheVariants.{NoMemory};

    ghost from_gives = { λ _ e. e ≡ NoMemory };

    fn from(_e: AllocError) -> EditFault {
        EditFault::NoMemory
    }
}
