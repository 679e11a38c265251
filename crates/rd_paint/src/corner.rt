//! Where a canvas stands.

ghost use Rattle.std.specs.Prelude.{◌≡◌, pos, ◌+◌, ◌≤◌};

use crate::frame::Frame;
use rd_geom::Span;

/// The column and the row of a list that the first pixel of a canvas shows.
#[derive(Clone, Copy)]
pub(crate) struct Corner {
    pub(crate) left: usize,
    pub(crate) top: usize,
}

impl Corner {
    /// The columns of a list that a canvas of so many columns shows.
    pub(crate) fn columns(&self, width: usize) -> Span
        requires { self.now.left + width ≤ 4096 }
        ensures { result ≡ record { x0 = pos self.now.left; x1 = pos (self.now.left + width) } }
    {
        Span {
            x0: self.left as i32,
            x1: (self.left + width) as i32,
        }
    }

    /// The columns and rows of a list that a canvas of this width and height shows.
    pub(crate) fn frame(&self, width: usize, height: usize) -> Frame
        requires wide { self.now.left + width ≤ 4096 }
        requires high { self.now.top + height ≤ 4096 }
        ensures { result ≡ record {
          left = self.now.left;
          right = self.now.left + width;
          top = self.now.top;
          bottom = self.now.top + height;
        } }
    {
        Frame {
            left: self.left,
            right: self.left + width,
            top: self.top,
            bottom: self.top + height,
        }
    }
}
