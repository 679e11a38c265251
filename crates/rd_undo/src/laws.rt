//! Laws of undoing, each the contract of a function that does nothing.
ghost use Rattle.rd_undo.specs.History.{HistoryLaw};
ghost use Rattle.rd_undo.specs.Undoing.{InverseLaw};

/// The inverse of an edit that is accepted undoes it.
pub fn undoing()
    ensures { InverseLaw }
{}

/// After some edits, at most as many as are kept, as many undos give the first tree by ids.
pub fn as_many_undos()
    ensures { HistoryLaw }
{}
