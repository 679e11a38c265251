//! Why a call does nothing.

ghost use Rattle.std.specs.Prelude.{◌≡◌, ◌<◌, IfErr, OnErr, OnOk};
ghost use Rattle.rd_edits.specs.Refusals.{number_of as fault_number};
ghost use Rattle.rd_c.specs.Numbers.{number_of};
ghost use Rattle.rd_c.specs.Reading.{status_of};

use rd_edits::EditFault;
use rd_tree::IdFault;

/// Why a call did nothing, where no test of an edit refuses it.
#[derive(Clone, Copy, PartialEq, Eq, Debug)]
pub enum Refusal {
    /// A rectangle or a width is out of range.
    OutOfRange,
    /// There was no memory.
    NoMemory,
    /// A text is no id.
    Id,
    /// A member of a style, or the canvas, has no such value.
    Value,
    /// The handle holds no engine.
    NoEngine,
    /// The handle holds an engine already.
    InUse,
    /// A paint is pending.
    Pending,
    /// Nothing is there.
    Nothing,
    /// The caller's memory is too short.
    Short,
}

impl Refusal {
    /// Its number, which follows those of the tests of edits.
    pub fn number(&self) -> u32
        ensures value { result ≡ number_of self.now }
        ensures late { 8 < result }
    {
        match self {
            Refusal::OutOfRange => 9,
            Refusal::NoMemory => 10,
            Refusal::Id => 11,
            Refusal::Value => 12,
            Refusal::NoEngine => 13,
            Refusal::InUse => 14,
            Refusal::Pending => 15,
            Refusal::Nothing => 16,
            Refusal::Short => 17,
        }
    }
}

/// The number of the fault of an edit.
pub(crate) fn of_edit(fault: EditFault) -> u32
    ensures value { result ≡ fault_number fault }
    ensures some { 0 < result }
{
    u32::from(fault.number())
}

/// The number that a call answers: 0 where it was done.
pub(crate) fn status(done: Result<(), Refusal>) -> u32
    ensures value { result ≡ status_of done }
    ensures done { OnOk done (result ≡ 0) }
    ensures refused { IfErr done (λ r. result ≡ number_of r) }
    ensures late { OnErr done (8 < result) }
{
    match done {
        Ok(()) => 0,
        Err(refusal) => refusal.number(),
    }
}

/// Why a text made no id.
pub(crate) fn of_id(fault: IdFault) -> Refusal {
    match fault {
        IdFault::Form => Refusal::Id,
        IdFault::NoMemory => Refusal::NoMemory,
    }
}
