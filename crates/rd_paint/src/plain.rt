//! Painting a canvas anew in an area, looking at every entry in every row.

ghost use Rattle.std.specs.Prelude.{◌≡◌, ◌-◌, ◌≤◌, ◌<◌, ◌∷◌, []};
ghost use Rattle.rd_geom.specs.Canvas.{IsCanvas};
ghost use Rattle.rd_list.specs.EntryNames.{kept_leaves};
ghost use Rattle.rd_list.specs.Views.{levels};
ghost use Rattle.rd_paint.specs.Changed.{Fits, IsChanged, IsOn, ShowsFrom, in_part, list_at};
ghost use Rattle.rd_paint.specs.Internal.Bands.{in_row};
ghost use Rattle.rd_paint.specs.Parts.{entry_count};

use crate::buffers::{Buffers, paint_span};
use crate::canvas::Canvas;
use rd_area::Area;
use rd_geom::{Rect, Span};
use rd_list::ListView;
use std::sync::ledger::Ledger;

/// The entries of a list from place `from` on.
#[derive_where(Clone, Copy)]
pub(crate) struct Upper<'a, A: Ledger> {
    pub(crate) list: ListView<'a, A>,
    pub(crate) from: usize,
}

/// Makes the pixels of a row of a rectangle that are in a span those of a list, of which the upper entries are painted.
fn repaint_span<A: Ledger>(
    canvas: &mut Canvas,
    place: Rect,
    upper: Upper<'_, A>,
    span: Span,
    row: usize,
    buffers: &mut Buffers,
)
    requires from { upper.from ≤ entry_count upper.list.list.now.entries }
    requires shows { ShowsFrom (kept_leaves upper.list.list.now.entries) upper.from place }
    requires canvas { IsCanvas buffers.old.size }
    requires on { IsOn buffers.old.size place }
    requires fits { Fits place canvas.old }
    requires row { row < canvas.old.height }
    requires deep { levels upper.list.list.now.entries - 1 ≤ buffers.old.rows }
    ensures painted { IsChanged (list_at (kept_leaves upper.entry.list.list.now.entries) place)
        (in_row place (span ∷ []) row) canvas.old canvas.new }
    ensures same { buffers.new ≡ buffers.old }
{
    let x0 = span.x0.max(place.x());
    let x1 = span.x1.min(place.right());
    if x1 <= x0 {
        return;
    }
    let out = canvas.span_mut(row as i32, x0 - place.x(), x1 - place.x());
    paint_span(
        upper.list,
        upper.from,
        place.y() + row as i32,
        x0,
        out,
        buffers,
    );
}

/// The same of those that are in some spans.
fn repaint_row<A: Ledger>(
    canvas: &mut Canvas,
    place: Rect,
    upper: Upper<'_, A>,
    spans: &[Span],
    row: usize,
    buffers: &mut Buffers,
)
    requires from { upper.from ≤ entry_count upper.list.list.now.entries }
    requires shows { ShowsFrom (kept_leaves upper.list.list.now.entries) upper.from place }
    requires canvas { IsCanvas buffers.old.size }
    requires on { IsOn buffers.old.size place }
    requires fits { Fits place canvas.old }
    requires row { row < canvas.old.height }
    requires deep { levels upper.list.list.now.entries - 1 ≤ buffers.old.rows }
    ensures painted { IsChanged (list_at (kept_leaves upper.entry.list.list.now.entries) place)
        (in_row place spans.now row) canvas.old canvas.new }
    ensures same { buffers.new ≡ buffers.old }
{
    for span in spans {
        repaint_span(canvas, place, upper, *span, row, buffers);
    }
}

/// The same of those that are in the area, in all rows of the rectangle.
pub(crate) fn repaint_plainly<A: Ledger>(
    canvas: &mut Canvas,
    place: Rect,
    list: ListView<'_, A>,
    from: usize,
    area: &Area,
    buffers: &mut Buffers,
)
    requires from { from ≤ entry_count list.list.now.entries }
    requires shows { ShowsFrom (kept_leaves list.list.now.entries) from place }
    requires canvas { IsCanvas buffers.old.size }
    requires on { IsOn buffers.old.size place }
    requires fits { Fits place canvas.old }
    requires deep { levels list.list.now.entries - 1 ≤ buffers.old.rows }
    ensures painted { IsChanged (list_at (kept_leaves list.entry.list.now.entries) place)
        (in_part place area.now) canvas.old canvas.new }
    ensures same { buffers.new ≡ buffers.old }
{
    let upper = Upper { list, from };
    let rows = canvas.size().h as usize;
    for row in 0..rows {
        let spans = area.spans(place.y() + row as i32);
        repaint_row(canvas, place, upper, spans, row, buffers);
    }
}
