//! The rows that groups are painted into.

ghost use Rattle.std.specs.Prelude.{◌≡◌, ℕ, ℤ, pos, ◌-◌, ◌*◌, ◌≤◌, ◌<◌, ◌^◌, ◌+ℤ◌, ◌≤ℤ◌, ◌<ℤ◌, IfOk, length, get_or, take, drop, unsigned_abs, vec_capacity};
ghost use Rattle.rd_geom.specs.Canvas.{IsCanvas};
ghost use Rattle.rd_geom.specs.Colors.{white, clear};
ghost use Rattle.rd_item.specs.declared.leaf.Leaf as item;
ghost use Rattle.rd_list.specs.Entries.{Entries};
ghost use Rattle.rd_list.specs.EntryNames.{kept_leaves};
ghost use Rattle.rd_list.specs.Lists.{composed};
ghost use Rattle.rd_list.specs.Views.{levels};
ghost use Rattle.rd_list.specs.Wrappers.{Wrapper};
ghost use Rattle.rd_paint.specs.Internal.Picks.{picked};
ghost use Rattle.rd_paint.specs.Parts.{entry_count, entries_from};

use crate::picks::{MOST, Pick, depth_of};
use crate::runs::fill;
use crate::spans::lay_all;
use rd_geom::{NoMemory, Px, Size};
use rd_list::{Entry, ListView};
use std::alloc::Global;
use std::marker::Model;
use std::sync::ledger::Ledger;

/// A row of pixels for each depth of groups.
#[derive(Drop)]
pub struct Buffers {
    size: Size,
    rows: u32,

    /// It has memory for all rows, and as many pixels as the paints had use for.
    pub(crate) pixels: Vec<Px>,

    /// Room for picks of the entries that may show in a band of rows: memory for all, and filled as far as the paints had
    /// use for it.
    pub(crate) room: Vec<Pick>,
}

impl Model for Buffers {
    ghost use Rattle.std.specs.Prelude.{◌*◌, ◌^◌, ◌<◌, ◌≤◌, length, unsigned_abs, vec_capacity};
    ghost use Rattle.rd_geom.specs.Canvas.{IsCanvas};
    ghost use Rattle.rd_paint.specs.Repainted.{Scratch};

    ghost Value = { Scratch };

    ghost view = { λ b. record { size = b.size; rows = b.rows } };

    ghost invariant = { λ b. IsCanvas b.size × (b.rows * unsigned_abs b.size.w ≤ vec_capacity b.pixels)
        × (length b.room.items < 2 ^ 32) };
}

impl Buffers {
    /// So many rows for a canvas of this size, which is from 1 to 4,096 pixels wide and high.
    pub fn new(alloc: Global, size: Size, depth: u32) -> Result<Buffers, NoMemory>
        requires { IsCanvas size }
        ensures { IfOk result (λ b. b ≡ record { size = size; rows = depth }) }
    {
        let pixels = Vec::with_capacity(alloc, pixels_of(depth, size))?;
        Ok(Buffers {
            size,
            rows: depth,
            pixels,
            room: Vec::new(alloc),
        })
    }

    /// Makes room for so many leaves and groups that may show in an area: then `repaint` looks in each row at those alone
    /// that may show in it. With less room it paints the same. Without memory the buffers serve as before.
    pub fn make_room(&mut self, entries: usize) -> Result<(), NoMemory>
        ensures { self.new ≡ self.old }
    {
        let most = entries.min((MOST - SPARE) / ROOMS) * ROOMS + SPARE;
        grow(&mut self.room, most)
    }
}

/// How many picks there is room for by each entry: one for the whole list, and others for its bands.
pub(crate) const ROOMS: usize = 3;

/// How many more: those of groups of which it is not yet known that nothing shows, and one behind all.
const SPARE: usize = 257;

/// Takes memory for so many picks, if there is less.
fn grow(room: &mut Vec<Pick>, count: usize) -> Result<(), NoMemory>
    ensures { room.new.items ≡ room.old.items }
{
    if room.len() < count {
        room.reserve(count - room.len())?;
    }
    Ok(())
}

/// Fills room for so many picks, as far as there is memory for them. Picks that stand there stay.
pub(crate) fn fill_room(room: &mut Vec<Pick>, count: usize)
    requires { length room.old.items < 2 ^ 32 }
    ensures few { length room.new.items < 2 ^ 32 }
    ensures kept { (n : ℕ) → n ≤ length room.old.items → take n room.new.items ≡ take n room.old.items }
    ensures long { length room.old.items ≤ length room.new.items }
{
    let most = count.min(room.capacity()).min(MOST);
    if room.len() < most && room.resize(most, Pick::FIRST).is_err() {
        return;
    }
}

/// Makes at least so many pixels. There is memory for them.
fn open(pixels: &mut Vec<Px>, count: usize)
    requires { count ≤ vec_capacity pixels.old }
    ensures long { count ≤ length pixels.new.items }
    ensures memory { vec_capacity pixels.old ≤ vec_capacity pixels.new }
{
    if pixels.len() < count && pixels.resize(count, Px::CLEAR).is_err() {
        return;
    }
}

/// Makes rows enough for what picks name, as far as there is memory for them.
pub(crate) fn open_for(pixels: &mut Vec<Px>, picks: &[Pick], width: usize)
    requires wide { width ≤ 4096 }
    requires few { length picks.now < 2 ^ 32 }
    ensures long { (es : Entries Wrapper item.Leaf)
        → width * (levels (picked picks.now es) - 1) ≤ vec_capacity pixels.old
        → width * (levels (picked picks.now es) - 1) ≤ length pixels.new.items }
    ensures memory { vec_capacity pixels.old ≤ vec_capacity pixels.new }
{
    let count = (depth_of(picks) * width).min(pixels.capacity());
    open(pixels, count);
}

/// How many pixels so many rows have.
fn pixels_of(rows: u32, size: Size) -> usize
    requires { IsCanvas size }
    ensures { result ≡ rows * unsigned_abs size.w }
{
    rows as usize * size.w as usize
}

/// The entries from place `from` on.
pub(crate) fn upper<A: Ledger>(entries: &[Entry<A>], from: usize) -> &[Entry<A>]
    requires { from ≤ length entries.now }
    ensures { result.now ≡ drop from entries.now }
{
    &entries[from..]
}

/// Makes the pixels of row `y` from column `x0` on, as many as `out` has, those of the entries from place `from` on,
/// painted on white (CSS Color 3 section 3.2). It needs as many rows as groups stand round a leaf.
pub fn paint_span<A: Ledger>(
    list: ListView<'_, A>,
    from: usize,
    y: i32,
    x0: i32,
    out: &mut [Px],
    buffers: &mut Buffers,
)
    requires from { from ≤ entry_count list.list.now.entries }
    requires row { pos 0 ≤ℤ y }
    requires on { y <ℤ buffers.old.size.h }
    requires left { pos 0 ≤ℤ x0 }
    requires right { (x0 +ℤ pos (length out.old)) ≤ℤ buffers.old.size.w }
    requires deep { levels list.list.now.entries - 1 ≤ buffers.old.rows }
    ensures painted { (k : ℕ) → k < length out.old → get_or out.new k clear
        ≡ composed (x0 +ℤ pos k) y white (entries_from from (kept_leaves list.entry.list.now.entries)) }
    ensures same { buffers.new ≡ buffers.old }
{
    open(&mut buffers.pixels, pixels_of(buffers.rows, buffers.size));
    fill(out, Px::WHITE);
    lay_all(upper(list.entries(), from), y, x0, out, &mut buffers.pixels);
}
