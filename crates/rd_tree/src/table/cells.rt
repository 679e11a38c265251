//! Into which cells of the plane rows reach. A cell has 64 pixels each way, and those 32 apart count as one. Of a page of 64 rows it
//! is told which of them reach into each column of cells, and into each line of them, so that a search passes all others at once.
ghost use Rattle.std.specs.Prelude.{◌≡◌, ℕ, ◌+◌, ◌%◌, ◌^◌, ◌<◌, ◌≤◌, pos, ◌+ℤ◌, ◌≤ℤ◌, true, length};
ghost use Rattle.rd_geom.specs.Figures.{max_reach};
ghost use Rattle.std.specs.Int.{bit_at};
ghost use Rattle.rd_geom.specs.Plane.{Rectangle};
ghost use Rattle.rd_tree.specs.Seeking.{reaches};
ghost use Rattle.rd_tree.specs.Internal.Cells.{AreSet, IsCell, IsOrdered, IsReach, IsReached, KeepsBits, KeepsRow, word_at};

use crate::shared::without_bit;
use rd_geom::{MAX_REACH, Rect};
use rd_keys::with_bit;

/// How many columns of cells are told apart, and how many lines.
const CELLS: usize = 32;

/// How many pixels a cell has each way.
const SIDE: usize = 64;

/// Of a page of rows, those that reach into each column of cells, and into each line. A row has a bit, by its place in the page.
#[derive(Clone, Copy)]
pub(crate) struct Cells {
    pub(crate) columns: [u64; 32],
    pub(crate) lines: [u64; 32],
}

/// From which cell up to which a rectangle reaches, across and down.
#[derive(Clone, Copy)]
pub(crate) struct Reach {
    pub(crate) left: usize,
    pub(crate) right: usize,
    pub(crate) top: usize,
    pub(crate) bottom: usize,
}

/// The cell of an edge.
#[inline(always)]
fn cell_of(edge: i32) -> usize
    requires low { pos 0 ≤ℤ (edge +ℤ max_reach) }
    requires high { edge ≤ℤ max_reach }
    ensures { IsCell edge result }
{
    (edge + MAX_REACH) as usize / SIDE
}

/// The cells of a rectangle.
#[inline(always)]
pub(crate) fn reach_of(rect: &Rect) -> Reach
    ensures reach { IsReach result rect.now }
    ensures order { IsOrdered result }
{
    Reach {
        left: cell_of(rect.x()),
        right: cell_of(rect.right()),
        top: cell_of(rect.y()),
        bottom: cell_of(rect.bottom()),
    }
}

/// A row is said to reach into some cells.
fn set(words: &mut [u64], from: usize, to: usize, slot: usize)
    requires words { length words.old ≡ 32 }
    requires order { from ≤ to }
    requires few { to + 1 < 2 ^ 64 }
    ensures set { AreSet words.new from to slot }
    ensures others { KeepsBits words.old words.new slot }
    ensures len { length words.new ≡ 32 }
{
    for i in 0..(to - from + 1).min(CELLS) {
        let at = (from + i) % CELLS;
        words[at] = with_bit(words[at], slot);
    }
}

/// A row is not said to reach into some cells any more.
fn clear(words: &mut [u64], from: usize, to: usize, slot: usize)
    requires words { length words.old ≡ 32 }
    requires order { from ≤ to }
    requires few { to + 1 < 2 ^ 64 }
    ensures others { KeepsBits words.old words.new slot }
    ensures len { length words.new ≡ 32 }
{
    for i in 0..(to - from + 1).min(CELLS) {
        let at = (from + i) % CELLS;
        words[at] = without_bit(words[at], slot);
    }
}

/// The rows that reach into some of these cells, which are many.
#[inline(never)]
fn any_of_many(words: &[u64], from: usize, to: usize) -> u64
    requires words { length words.now ≡ 32 }
    requires order { from ≤ to }
    requires few { to + 1 < 2 ^ 64 }
    ensures { (c s : ℕ) → from ≤ c → c ≤ to → bit_at (word_at words.now c) s ≡ 1 → bit_at result s ≡ 1 }
{
    let mut all = 0;
    for i in 0..(to - from + 1).min(CELLS) {
        all |= words[(from + i) % CELLS];
    }
    all
}

/// The rows that reach into some of these cells. Mostly they are one or two.
#[inline(always)]
fn any(words: &[u64], from: usize, to: usize) -> u64
    requires words { length words.now ≡ 32 }
    requires order { from ≤ to }
    requires few { to + 1 < 2 ^ 64 }
    ensures { (c s : ℕ) → from ≤ c → c ≤ to → bit_at (word_at words.now c) s ≡ 1 → bit_at result s ≡ 1 }
{
    if to - from < 2 {
        words[from % CELLS] | words[to % CELLS]
    } else {
        any_of_many(words, from, to)
    }
}

impl Cells {
    /// No row reaches anywhere.
    pub(crate) const NONE: Cells = Cells {
        columns: [0; 32],
        lines: [0; 32],
    };

    /// A row reaches there.
    pub(crate) fn put(&mut self, slot: usize, reach: Reach)
        requires order { IsOrdered reach }
        ensures here { (h : Rectangle) → IsReach reach h → IsReached self.new slot h }
        ensures others { KeepsRow self.old self.new slot }
    {
        set(&mut self.columns, reach.left, reach.right, slot);
        set(&mut self.lines, reach.top, reach.bottom, slot);
    }

    /// A row reaches there no more.
    pub(crate) fn take(&mut self, slot: usize, reach: Reach)
        requires order { IsOrdered reach }
        ensures { KeepsRow self.old self.new slot }
    {
        clear(&mut self.columns, reach.left, reach.right, slot);
        clear(&mut self.lines, reach.top, reach.bottom, slot);
    }

    /// The rows that may reach into a common cell.
    #[inline(always)]
    pub(crate) fn near(&self, reach: &Reach) -> u64
        requires order { IsOrdered reach.now }
        ensures { (s : ℕ) (h r : Rectangle) → IsReached self.now s h → IsReach reach.now r
            → reaches r h ≡ true → bit_at result (s % 64) ≡ 1 }
    {
        any(&self.columns, reach.left, reach.right) & any(&self.lines, reach.top, reach.bottom)
    }
}
