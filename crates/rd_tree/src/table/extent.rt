//! Where a box by itself may be seen.
ghost use Rattle.std.specs.Prelude.{◌≡◌};
ghost use Rattle.rd_geom.specs.Plane.{hull_of, no_pixels};
ghost use Rattle.rd_style.specs.Limits.{Fits};
ghost use Rattle.rd_tree.specs.Limits.{IsNear};
ghost use Rattle.rd_tree.specs.Hulls as hulls;

use rd_geom::{Rect, hull, outset};
use rd_style::Style;

/// The border box of a box with its outline round it (CSS 2.2 section 18.4), or the empty rectangle.
pub(crate) fn own_hull(rect: Rect, style: &Style) -> Rect
    requires rect { IsNear rect }
    requires style { Fits style.now }
    ensures { result ≡ hull_of (hulls.outlined rect style.now) no_pixels }
{
    hull(outset(rect, style.outline_width), Rect::EMPTY)
}
