//! Painting canvases anew in an area.

ghost use Rattle.std.specs.Prelude.{◌≡◌, ◌-◌, ◌≤◌};
ghost use Rattle.rd_geom.specs.Canvas.{IsCanvas};
ghost use Rattle.rd_list.specs.Entries.{flat};
ghost use Rattle.rd_list.specs.EntryNames.{kept_leaves};
ghost use Rattle.rd_list.specs.Views.{levels};
ghost use Rattle.rd_paint.specs.Changed.{Fits, IsChanged, IsOn, ShowsFrom, in_part, list_at};
ghost use Rattle.rd_paint.specs.Parts.{entry_count};
ghost use Rattle.rd_paint.specs.Pictures.{size_of};
ghost use Rattle.rd_paint.specs.Repainted.{IsRepainted};
ghost use Rattle.rd_paint.specs.Since.{AreMadeSince};

use crate::bands::paint_kept;
use crate::buffers::Buffers;
use crate::canvas::Canvas;
use crate::corner::Corner;
use crate::plain::{Upper, repaint_plainly};
use crate::strip::Window;
use rd_area::Area;
use rd_geom::Rect;
use rd_list::ListView;
use std::sync::ledger::Ledger;

/// The pixels that are to be painted anew. The leaves that meet them were made by this paint or after.
#[derive(Clone, Copy)]
struct Invalid<'a> {
    area: &'a Area,
    since: u64,
}

/// Makes the pixels of the area those of the upper entries of a list, on a canvas that shows the rectangle `place` of it.
fn repaint_upper<A: Ledger>(
    canvas: &mut Canvas,
    place: Rect,
    upper: Upper<'_, A>,
    invalid: Invalid<'_>,
    buffers: &mut Buffers,
)
    requires from { upper.from ≤ entry_count upper.list.list.now.entries }
    requires shows { ShowsFrom (kept_leaves upper.list.list.now.entries) upper.from place }
    requires canvas { IsCanvas buffers.old.size }
    requires on { IsOn buffers.old.size place }
    requires fits { Fits place canvas.old }
    requires deep { levels upper.list.list.now.entries - 1 ≤ buffers.old.rows }
    requires since { AreMadeSince invalid.area.now invalid.since (flat upper.list.list.now.entries) }
    ensures painted { IsChanged (list_at (kept_leaves upper.entry.list.list.now.entries) place)
        (in_part place invalid.entry.area.now) canvas.old canvas.new }
    ensures same { buffers.new ≡ buffers.old }
{
    let corner = Corner {
        left: place.x() as usize,
        top: place.y() as usize,
    };
    let rows = &mut buffers.pixels;
    let room = &mut buffers.room;
    let window = Window {
        corner,
        area: invalid.area,
        since: invalid.since,
    };
    if paint_kept(canvas, window, upper.list.list(), upper.from, rows, room) {
        return;
    }
    repaint_plainly(canvas, place, upper.list, upper.from, invalid.area, buffers);
}

/// Makes the pixels of the area those of the list, and leaves all others (CSS Color 3 section 3.2), on a canvas that shows the
/// rectangle `place` of what the list is painted on. Of the list the entries from place `from` on are painted, which show in
/// that rectangle what it shows whole. It needs as many rows as groups stand round a leaf, and takes no memory.
pub fn repaint_part<A: Ledger>(
    canvas: &mut Canvas,
    place: Rect,
    list: ListView<'_, A>,
    from: usize,
    area: &Area,
    buffers: &mut Buffers,
)
    requires from { from ≤ entry_count list.list.now.entries }
    requires shows { ShowsFrom (kept_leaves list.list.now.entries) from place }
    requires canvas { IsCanvas buffers.old.size }
    requires on { IsOn buffers.old.size place }
    requires fits { Fits place canvas.old }
    requires deep { levels list.list.now.entries - 1 ≤ buffers.old.rows }
    ensures painted { IsChanged (list_at (kept_leaves list.entry.list.now.entries) place)
        (in_part place area.now) canvas.old canvas.new }
    ensures same { buffers.new ≡ buffers.old }
{
    let upper = Upper { list, from };
    repaint_upper(canvas, place, upper, Invalid { area, since: 0 }, buffers);
}

/// Makes the pixels of the area those of the list, and leaves all others (CSS Color 3 section 3.2), where the leaves that meet the
/// area were made by the paint `since` or after: so entries that are older than that are passed over. It needs as many rows as
/// groups stand round a leaf, and takes no memory.
pub fn repaint_since<A: Ledger>(
    canvas: &mut Canvas,
    list: ListView<'_, A>,
    area: &Area,
    since: u64,
    buffers: &mut Buffers,
)
    requires area { area.now.size ≡ size_of canvas.old }
    requires size { buffers.old.size ≡ size_of canvas.old }
    requires deep { levels list.list.now.entries - 1 ≤ buffers.old.rows }
    requires since { AreMadeSince area.now since (flat list.list.now.entries) }
    ensures painted { IsRepainted (kept_leaves list.entry.list.now.entries) area.now canvas.old canvas.new }
    ensures same { buffers.new ≡ buffers.old }
{
    let place = canvas.size().rect();
    let upper = Upper { list, from: 0 };
    repaint_upper(canvas, place, upper, Invalid { area, since }, buffers);
}

/// Makes the pixels of the area those of the list, and leaves all others (CSS Color 3 section 3.2), by whichever paints its leaves
/// were made. It needs as many rows as groups stand round a leaf, and takes no memory.
pub fn repaint<A: Ledger>(
    canvas: &mut Canvas,
    list: ListView<'_, A>,
    area: &Area,
    buffers: &mut Buffers,
)
    requires area { area.now.size ≡ size_of canvas.old }
    requires size { buffers.old.size ≡ size_of canvas.old }
    requires deep { levels list.list.now.entries - 1 ≤ buffers.old.rows }
    ensures painted { IsRepainted (kept_leaves list.entry.list.now.entries) area.now canvas.old canvas.new }
    ensures same { buffers.new ≡ buffers.old }
{
    repaint_since(canvas, list, area, 0, buffers);
}
