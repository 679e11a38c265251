//! Laws of ways, each the contract of a function that does nothing.
ghost use Rattle.rd_trace.specs.Laws.{HitLaw, PlacesLaw, TracedLaw};

/// The leaves that are traced are those of the painting order that cover the pixel, in its order and under its groups.
pub fn tracing()
    ensures { TracedLaw }
{}

/// Each step that a way names, of the box that it names, paints the leaf.
pub fn placing()
    ensures { PlacesLaw }
{}

/// The first leaf from the top that takes the hit is that of the box which is hit in the painting order.
pub fn hitting()
    ensures { HitLaw }
{}
