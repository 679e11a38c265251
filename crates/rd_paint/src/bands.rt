//! Painting bands of rows, each with picks of those entries alone that may show in it.

ghost use Rattle.std.specs.Prelude.{◌≡◌, ℕ, pos, ◌+◌, ◌-◌, ◌*◌, ◌^◌, ◌≤◌, ◌<◌, IsTrue, IsFalse, IfSome, length, take, vec_capacity};
ghost use Rattle.std.specs.Int.{int_max, int_min};
ghost use Rattle.rd_geom.specs.Areas.{spans_at};
ghost use Rattle.rd_list.specs.Blocks.{AreBlocked};
ghost use Rattle.rd_list.specs.Displayed.{shown};
ghost use Rattle.rd_list.specs.Entries.{flat};
ghost use Rattle.rd_list.specs.EntryNames.{kept_leaves};
ghost use Rattle.rd_list.specs.KeptView.{kept_entries};
ghost use Rattle.rd_list.specs.Lists.{pixel};
ghost use Rattle.rd_list.specs.Views.{levels};
ghost use Rattle.rd_paint.specs.Internal.Bands.{IsBandPainted, IsPainted};
ghost use Rattle.rd_paint.specs.Internal.Rects.{IsRectChanged, IsRunPainted};
ghost use Rattle.rd_paint.specs.Internal.Picks.{InAreaWithin, SameWhere, picked};
ghost use Rattle.rd_paint.specs.Internal.Strips.{IsRectOn, IsStripOn, IsWithinLimits};
ghost use Rattle.rd_paint.specs.Parts.{entry_count, entries_from};
ghost use Rattle.rd_paint.specs.Since.{AreMadeSince};

use crate::buffers::{ROOMS, fill_room, open_for, upper};
use crate::canvas::Canvas;
use crate::corner::Corner;
use crate::covering::cover;
use crate::frame::{frame_of, meets_part};
use crate::gathering::gather;
use crate::narrowing::narrow;
use crate::picks::Pick;
use crate::rects::{lay_picks_in, whiten};
use crate::skipping::Sight;
use crate::strip::{Band, PixelRect, Strip, Window};
use rd_area::Area;
use rd_geom::{Px, Span};
use rd_list::{Blocked, Entry, Kept};
use std::sync::ledger::Ledger;

/// Paints the entries that picks name, on white, in the pixels of the rectangle. It begins with the topmost opaque leaf that covers all of
/// them.
fn paint_rect<A: Ledger>(
    canvas: &mut Canvas,
    rect: PixelRect,
    entries: &[Entry<A>],
    picks: &[Pick],
    rows: &mut [Px],
)
    requires on { IsRectOn canvas.old rect }
    requires rows { canvas.old.width * (levels (picked picks.now (shown entries.now)) - 1) ≤ length rows.old }
    ensures { IsRectChanged rect.strip.corner (λ x y p. pixel (picked picks.now (shown entries.now)) (pos x) (pos y))
        rect.span rect.strip.y0 rect.strip.y1 canvas.old canvas.new }
{
    let span = rect.span;
    let count = (span.x1 - span.x0) as usize;
    match cover(
        entries,
        picks,
        rect.strip.y0 as i32,
        rect.strip.y1 as i32,
        span.x0,
        count,
    ) {
        Some(i) => lay_picks_in(canvas, rect, entries, &picks[i..], rows),
        None => {
            whiten(canvas, rect);
            lay_picks_in(canvas, rect, entries, picks, rows);
        }
    }
}

/// The columns of a span that are among others; none where it ends at its start or before.
fn cut(span: Span, columns: Span) -> Span
    ensures { result ≡ record { x0 = int_max span.x0 columns.x0; x1 = int_min span.x1 columns.x1 } }
{
    Span {
        x0: span.x0.max(columns.x0),
        x1: span.x1.min(columns.x1),
    }
}

/// Paints the same, of the columns of the span that are on the canvas.
fn paint_span_in<A: Ledger>(
    canvas: &mut Canvas,
    rect: PixelRect,
    entries: &[Entry<A>],
    picks: &[Pick],
    rows: &mut [Px],
)
    requires on { IsStripOn canvas.old rect.strip }
    requires rows { canvas.old.width * (levels (picked picks.now (shown entries.now)) - 1) ≤ length rows.old }
    ensures { IsRectChanged rect.strip.corner (λ x y p. pixel (picked picks.now (shown entries.now)) (pos x) (pos y))
        rect.span rect.strip.y0 rect.strip.y1 canvas.old canvas.new }
{
    let width = canvas.size().w as usize;
    let part = cut(rect.span, rect.strip.corner.columns(width));
    if part.x0 < part.x1 {
        let inside = PixelRect {
            strip: rect.strip,
            span: part,
        };
        paint_rect(canvas, inside, entries, picks, rows);
    }
}

/// Paints the pixels of the rows of the strip that are in the spans.
fn paint_run<A: Ledger>(
    canvas: &mut Canvas,
    strip: Strip,
    spans: &[Span],
    entries: &[Entry<A>],
    picks: &[Pick],
    rows: &mut [Px],
)
    requires on { IsStripOn canvas.old strip }
    requires rows { canvas.old.width * (levels (picked picks.now (shown entries.now)) - 1) ≤ length rows.old }
    ensures { IsRunPainted strip.corner (picked picks.now (shown entries.now)) spans.now strip.y0 strip.y1 canvas.old canvas.new }
{
    for span in spans {
        let rect = PixelRect { strip, span: *span };
        paint_span_in(canvas, rect, entries, picks, rows);
    }
}

/// Up to which row before `y1` the rows from `y0` on have the same spans?
fn alike_until(area: &Area, y0: usize, y1: usize) -> usize
    requires order { y0 < y1 }
    requires high { y1 ≤ 4096 }
    ensures more { y0 < result }
    ensures within { result ≤ y1 }
    ensures alike { (y : ℕ) → y0 ≤ y → y < result
        → spans_at area.now.rows (pos y) ≡ spans_at area.now.rows (pos y0) }
{
    let spans = area.spans(y0 as i32);
    let mut end = y0 + 1;
    while end < y1 && same_spans(area.spans(end as i32), spans) {
        end += 1;
    }
    end
}

/// Are the spans the same?
fn same_spans(a: &[Span], b: &[Span]) -> bool
    ensures { IsTrue result → a.now ≡ b.now }
{
    if a.len() != b.len() {
        return false;
    }
    for i in 0..a.len() {
        if a[i].x0 != b[i].x0 || a[i].x1 != b[i].x1 {
            return false;
        }
    }
    true
}

/// Paints the rows of the band: those that have the same spans together.
fn paint_rows<A: Ledger>(
    canvas: &mut Canvas,
    band: Band<'_>,
    entries: &[Entry<A>],
    picks: &[Pick],
    rows: &mut [Px],
)
    requires on { IsStripOn canvas.old band.strip }
    requires rows { canvas.old.width * (levels (picked picks.now (shown entries.now)) - 1) ≤ length rows.old }
    ensures { IsBandPainted band.entry.strip.corner (picked picks.now (shown entries.now)) band.entry.area.now
        band.entry.strip.y0 band.entry.strip.y1 canvas.old canvas.new }
{
    let corner = band.strip.corner;
    let mut row = band.strip.y0;
    while row < band.strip.y1 {
        let end = alike_until(band.area, row, band.strip.y1.min(row + FEW));
        let strip = Strip {
            corner,
            y0: row,
            y1: end,
        };
        paint_run(
            canvas,
            strip,
            band.area.spans(row as i32),
            entries,
            picks,
            rows,
        );
        row = end;
    }
}

/// Of so many rows no half gets picks of its own: to look past an entry is cheaper than to write picks.
const FEW: usize = 16;

/// Paints the rows of the band: each half of them with its own picks, as long as there is room to write these.
#[cycle(halving)]
fn paint_band<A: Ledger>(
    canvas: &mut Canvas,
    band: Band<'_>,
    entries: &[Entry<A>],
    picks: &[Pick],
    rows: &mut [Px],
    room: &mut [Pick],
)
    requires on { IsStripOn canvas.old band.strip }
    requires rows { canvas.old.width * (levels (picked picks.now (shown entries.now)) - 1) ≤ length rows.old }
    requires few { length picks.now < 2 ^ 32 }
    ensures { IsBandPainted band.entry.strip.corner (picked picks.now (shown entries.now)) band.entry.area.now
        band.entry.strip.y0 band.entry.strip.y1 canvas.old canvas.new }
{
    let width = canvas.size().w as usize;
    let area = band.area;
    let corner = band.strip.corner;
    let y0 = band.strip.y0;
    let y1 = band.strip.y1;
    if !meets_part(area, corner.left, corner.left + width, y0, y1) {
        return;
    }
    if y1 - y0 <= FEW || room.len() < picks.len() {
        paint_rows(canvas, band, entries, picks, rows);
        return;
    }
    let middle = y0 + (y1 - y0) / 2;
    let strip = Strip {
        corner,
        y0,
        y1: middle,
    };
    paint_half(canvas, Band { strip, area }, entries, picks, rows, room);
    let strip = Strip {
        corner,
        y0: middle,
        y1,
    };
    paint_half(canvas, Band { strip, area }, entries, picks, rows, room);
}

/// Paints the rows of the band with those of the picks whose entries may show there.
#[cycle(halving)]
fn paint_half<A: Ledger>(
    canvas: &mut Canvas,
    band: Band<'_>,
    entries: &[Entry<A>],
    picks: &[Pick],
    rows: &mut [Px],
    room: &mut [Pick],
)
    requires on { IsStripOn canvas.old band.strip }
    requires rows { canvas.old.width * (levels (picked picks.now (shown entries.now)) - 1) ≤ length rows.old }
    requires few { length picks.now < 2 ^ 32 }
    requires room { length picks.now ≤ length room.old }
    ensures { IsBandPainted band.entry.strip.corner (picked picks.now (shown entries.now)) band.entry.area.now
        band.entry.strip.y0 band.entry.strip.y1 canvas.old canvas.new }
{
    let count = narrow(
        entries,
        picks,
        band.strip.y0 as i32,
        band.strip.y1 as i32,
        room,
    );
    let (own, rest) = room.split_at_mut(count);
    paint_band(canvas, band, entries, own, rows, rest);
}

/// So many picks are tried first: most paints have use for no more.
const FIRST_PICKS: usize = 1_024;

/// Writes picks of the entries that may show in the area, as `gather` does, into room of which no more is filled than that
/// takes. All of it is where the picks are many; in room for their bands too.
fn gather_all<A: Ledger>(
    level: Blocked<'_, A>,
    sight: Sight<'_>,
    room: &mut Vec<Pick>,
) -> Option<usize>
    requires few { length room.old.items < 2 ^ 32 }
    requires covers { AreBlocked level }
    requires since { AreMadeSince sight.area.now sight.since (flat (kept_entries level.entries.now)) }
    ensures few { length room.new.items < 2 ^ 32 }
    ensures within { IfSome result (λ n. n ≤ length room.new.items) }
    ensures same { IfSome result (λ n. SameWhere (InAreaWithin sight.entry.area.now sight.entry.columns sight.entry.rows)
        (picked (take n room.new.items) (shown level.entry.entries.now)) (shown level.entry.entries.now)) }
    ensures levels { IfSome result (λ n. levels (picked (take n room.new.items) (shown level.entry.entries.now))
        ≤ levels (shown level.entry.entries.now)) }
{
    fill_room(room, FIRST_PICKS);
    if let Some(count) = gather(level, sight, room) {
        fill_room(room, count * ROOMS);
        return Some(count);
    }
    let most = room.capacity();
    fill_room(room, most);
    gather(level, sight, room)
}

/// Paints all rows of the entries of a level. False where the room is too small for picks of all entries that may show: then
/// nothing is painted.
fn paint_all<A: Ledger>(
    canvas: &mut Canvas,
    window: Window<'_>,
    level: Blocked<'_, A>,
    rows: &mut Vec<Px>,
    room: &mut Vec<Pick>,
) -> bool
    requires limits { IsWithinLimits canvas.old window.corner }
    requires rows { canvas.old.width * (levels (kept_entries level.entries.now) - 1) ≤ vec_capacity rows.old }
    requires few { length room.old.items < 2 ^ 32 }
    requires covers { AreBlocked level }
    requires since { AreMadeSince window.area.now window.since (flat (kept_entries level.entries.now)) }
    ensures few { length room.new.items < 2 ^ 32 }
    ensures rows { vec_capacity rows.old ≤ vec_capacity rows.new }
    ensures painted { IsTrue result → IsPainted window.entry.corner (shown level.entry.entries.now) window.entry.area.now canvas.old canvas.new }
    ensures same { IsFalse result → canvas.new ≡ canvas.old }
{
    let Window {
        corner,
        area,
        since,
    } = window;
    let size = canvas.size();
    let whole = corner.frame(size.w as usize, size.h as usize);
    let frame = frame_of(area, whole);
    let sight = Sight {
        area,
        since,
        columns: frame.columns(),
        rows: frame.rows(),
    };
    let Some(count) = gather_all(level, sight, room) else {
        return false;
    };
    let (own, rest) = room.split_at_mut(count);
    open_for(rows, own, size.w as usize);
    let strip = Strip {
        corner,
        y0: frame.top,
        y1: frame.bottom,
    };
    paint_band(canvas, Band { strip, area }, level.entries, own, rows, rest);
    true
}

/// The same of the entries of a kept list from place `from` on. Its blocks and chunks serve where those are all.
pub(crate) fn paint_kept<A: Ledger>(
    canvas: &mut Canvas,
    window: Window<'_>,
    list: &Kept<A>,
    from: usize,
    rows: &mut Vec<Px>,
    room: &mut Vec<Pick>,
) -> bool
    requires from { from ≤ entry_count list.now.entries }
    requires limits { IsWithinLimits canvas.old window.corner }
    requires rows { canvas.old.width * (levels list.now.entries - 1) ≤ vec_capacity rows.old }
    requires few { length room.old.items < 2 ^ 32 }
    requires since { AreMadeSince window.area.now window.since (flat list.now.entries) }
    ensures few { length room.new.items < 2 ^ 32 }
    ensures rows { vec_capacity rows.old ≤ vec_capacity rows.new }
    ensures painted { IsTrue result
        → IsPainted window.entry.corner (entries_from from (kept_leaves list.now.entries)) window.entry.area.now canvas.old canvas.new }
    ensures same { IsFalse result → canvas.new ≡ canvas.old }
{
    if from == 0 {
        return paint_all(canvas, window, list.blocked(), rows, room);
    }
    let level = Blocked {
        blocks: &[],
        chunks: &[],
        entries: upper(list.entries(), from),
    };
    paint_all(canvas, window, level, rows, room)
}
