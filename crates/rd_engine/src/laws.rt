//! Laws of edits, each the contract of a function that does nothing.
ghost use Rattle.rd_engine.specs.Accepted.{EditsLaw};
ghost use Rattle.rd_engine.specs.Kept.{EditingLaw, PaintingLaw};

/// An accepted edit is a change that can be made, and leaves what was not touched since a paint as it was.
pub fn edits()
    ensures { EditsLaw }
{}

/// A kept list that is ready for what is touched stays so through an accepted edit.
pub fn editing()
    ensures { EditingLaw }
{}

/// What a merge gives shows what the fresh list shows, and is ready for the next edits.
pub fn painting()
    ensures { PaintingLaw }
{}
