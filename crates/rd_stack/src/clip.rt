//! What may be seen of a box.
ghost use Rattle.std.specs.Prelude.{◌≡◌};
ghost use Rattle.rd_clip.specs.Standing.{clips_of};
ghost use Rattle.rd_stack.specs.Clips.{entered};
ghost use Rattle.rd_stack.specs.Clips as clips;

use crate::path::{BoxData, BoxPath};
use rd_clip::Clips;
use rd_geom::{Rect, inset};

/// The border box without the border (CSS 2.2 section 8.1).
pub fn padding_box(b: &BoxData) -> Rect
    ensures { result ≡ clips.padding_box b.now }
{
    inset(b.rect(), b.style().border_width)
}

/// The clips below some boxes, given from the innermost to the root.
fn clips_below(canvas: &Rect, above: &[BoxData]) -> Clips
    ensures { result ≡ clips_of canvas.now (entered above.now) }
{
    match above {
        [] => Clips {
            flow: *canvas,
            absolute: *canvas,
            fixed: *canvas,
        },
        [b, rest @ ..] => clips_below(canvas, rest).enter(b.style(), b.rect(), rest.is_empty()),
    }
}

/// The canvas met with the padding boxes of the clipping boxes on the containing chain (CSS 2.2 section 11.1.1).
pub fn clip_of(canvas: &Rect, x: &BoxPath) -> Rect
    ensures { result ≡ clips.clip_of canvas.now x.now }
{
    clips_below(canvas, &x.above).for_box(x.here.style())
}
