//! Laws of calls, each the contract of a function that does nothing.

ghost use Rattle.rd_c.specs.Undone.{UndosLaw};

/// After some edits, at most as many as are kept, as many undos give the first tree by ids.
pub fn as_many_undos()
    ensures { UndosLaw }
{}
