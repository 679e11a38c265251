//! A law of the machine, the contract of a function that does nothing.
ghost use Rattle.rd_run.specs.Slots.{SlotsLaw};

/// No slot is retired in a run of a script: an insertion is one box too many exactly where there are 20,000 boxes.
pub fn no_slot_is_retired()
    ensures { SlotsLaw }
{}
