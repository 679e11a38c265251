//! Laws of scripts, each the contract of a function that does nothing.
ghost use Rattle.rd_scene.specs.Canonical.{CanonicalLaw};

/// The value that is written of a script reads as that script again.
pub fn canonical()
    ensures { CanonicalLaw }
{}
