//! Laws of looking, each the contract of a function that does nothing.
ghost use Rattle.rd_partial.specs.Looks.{LooksLaw};

/// A test that more boxes pass has no smaller bound of looks.
pub fn looks()
    ensures { LooksLaw }
{}
