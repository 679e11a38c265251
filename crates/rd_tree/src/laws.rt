//! Laws of trees, each the contract of a function that does nothing.
ghost use Rattle.rd_tree.specs.Drawing.{DrawingLaw};

/// A tree is known by where its boxes are drawn; and to insert a box, to take one away with all below it, to give one
/// another rectangle, to shift one with all below it, and to take the marks away is the same where boxes are drawn.
pub fn draws_alike()
    ensures { DrawingLaw }
{}
