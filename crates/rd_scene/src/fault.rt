//! Why bytes are no script.

use std::alloc::{AllocError, AllocFailed};
use thiserror::Error;

/// Where in a script a rule of the format is broken: in the top object, in the canvas, or in the box or the command of
/// this number, counted from 0.
#[derive(Clone, Copy, PartialEq, Eq, Debug)]
pub enum Place {
    Top,
    Canvas,
    Box(u32),
    Command(u32),
}

/// Which rule of the format is broken.
#[derive(Clone, Copy, PartialEq, Eq, Debug)]
pub enum Why {
    /// A member that must be there is absent.
    Missing,
    /// An object has a member that is not of its form.
    Unknown,
    /// A value has the wrong JSON kind, an array of numbers the wrong length, or a word is not one of those listed.
    Kind,
    /// A whole number is out of its range, or a string is no id.
    Range,
    /// A string in the place of a colour is none.
    Color,
    /// A box has the id of an earlier one.
    Duplicate,
    /// The first box has a parent, or a later one has none, or one that is no earlier box.
    Parent,
    /// A box would be 257 or more deep.
    Depth,
    /// An array has too few or too many elements.
    Count,
    /// A word names no command.
    Command,
}

/// Why no script was read.
#[derive(Debug, Drop, Error)]
pub enum SceneFault {
    /// The bytes are no JSON text.
    #[error("the text is not JSON")]
    NotJson,
    /// The first rule of the format that the value breaks, and where.
    #[error("the value is not of the form of a script")]
    Form { place: Place, why: Why },
    /// There was no memory.
    #[error("out of memory")]
    NoMemory,
}

/// Why a part of a script was not read.
#[derive(Drop)]
pub(crate) enum Refusal {
    /// A rule of the format is broken.
    Rule(Why),
    /// There was no memory.
    NoMemory,
}

impl Refusal {
    ghost use Rattle.std.specs.Prelude.{◌≡◌};
    ghost use Rattle.rd_scene.specs.Internal.Gives.{fault_at};

    /// The fault at this place.
    pub(crate) fn at(self, place: Place) -> SceneFault
        ensures { result ≡ fault_at place self }
    {
        match self {
            Refusal::Rule(why) => SceneFault::Form { place, why },
            Refusal::NoMemory => SceneFault::NoMemory,
        }
    }
}

impl From<Why> for Refusal {
    ghost use Rattle.std.specs.Prelude.{◌≡◌};
    ghost use Rattle.rd_scene.specs.declared.fault.Refusal.TheVariants.{Rule};

    ghost from_gives = { λ why e. e ≡ Rule why };

    fn from(why: Why) -> Refusal {
        Refusal::Rule(why)
    }
}

impl From<AllocError> for Refusal {
    ghost use Rattle.std.specs.Prelude.{◌≡◌};
    ghost use Rattle.rd_scene.specs.declared.fault.Refusal.TheVariants.{NoMemory};

    ghost from_gives = { λ _ e. e ≡ NoMemory };

    fn from(_e: AllocError) -> Refusal {
        Refusal::NoMemory
    }
}

impl<T: Drop> From<AllocFailed<T>> for Refusal {
    ghost use Rattle.std.specs.Prelude.{◌≡◌};
    ghost use Rattle.rd_scene.specs.declared.fault.Refusal.TheVariants.{NoMemory};

    ghost from_gives = { λ _ e. e ≡ NoMemory };

    fn from(_e: AllocFailed<T>) -> Refusal {
        Refusal::NoMemory
    }
}

impl From<AllocError> for SceneFault {
    ghost use Rattle.std.specs.Prelude.{◌≡◌};
    ghost use Rattle.rd_scene.specs.declared.fault.SceneFault.TheVariants.{NoMemory};

    ghost from_gives = { λ _ e. e ≡ NoMemory };

    fn from(_e: AllocError) -> SceneFault {
        SceneFault::NoMemory
    }
}

impl<T: Drop> From<AllocFailed<T>> for SceneFault {
    ghost use Rattle.std.specs.Prelude.{◌≡◌};
    ghost use Rattle.rd_scene.specs.declared.fault.SceneFault.TheVariants.{NoMemory};

    ghost from_gives = { λ _ e. e ≡ NoMemory };

    fn from(_e: AllocFailed<T>) -> SceneFault {
        SceneFault::NoMemory
    }
}
