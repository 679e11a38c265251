//! Why no verdict was given.
ghost use Rattle.std.specs.Prelude.{◌≡◌};
ghost use Rattle.rd_check.specs.declared.fault.CheckFault.TheVariants as faults;

use std::alloc::{AllocError, AllocFailed};

/// Why a dump was not checked.
#[derive(Clone, Copy, Debug, PartialEq, Eq)]
pub enum CheckFault {
    /// The bytes are no dump.
    Dump,
    /// There was no memory.
    NoMemory,
}

impl From<AllocError> for CheckFault {
    ghost from_gives = { λ _ e. e ≡ faults.NoMemory };

    fn from(_e: AllocError) -> CheckFault {
        CheckFault::NoMemory
    }
}

impl<T: Drop> From<AllocFailed<T>> for CheckFault {
    ghost from_gives = { λ _ e. e ≡ faults.NoMemory };

    fn from(_e: AllocFailed<T>) -> CheckFault {
        CheckFault::NoMemory
    }
}
