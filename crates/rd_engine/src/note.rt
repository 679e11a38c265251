//! What a paint tells of itself.

/// What a paint tells of itself.
#[derive(Clone, Copy, PartialEq, Eq, Debug)]
pub struct PaintNote {
    /// Its number; the first paint has 1.
    pub number: u64,
    /// How many items it made.
    pub built: u64,
    /// How many items of the list it left as they were.
    pub kept: u64,
    /// How many pixels it painted anew.
    pub area: u64,
}
