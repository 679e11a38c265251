//! What areas are made of.

/// The columns from `x0` up to but not including `x1`, in canvas pixels.
#[derive(Clone, Copy, PartialEq, Eq, Debug)]
pub struct Span {
    pub x0: i32,
    pub x1: i32,
}
