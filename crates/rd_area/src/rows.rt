//! The spans of the bands that a rectangle meets.

ghost use Rattle.std.specs.Prelude.{◌≡◌, ℕ, ℤ, pos, ◌+◌, ◌<◌, ◌≤◌, ◌≤ℤ◌, ◌<ℤ◌, ◌⊎◌, List, [], length, get_or, replicate, sum_by, vec_len, OnOk, IfOk, IsTrue, IsFalse};
ghost use Rattle.rd_geom.specs.Areas.{columns_in};
ghost use Rattle.rd_geom.specs.declared.span.Span.{Span};
ghost use Rattle.rd_area.specs.Internal.Joining.{Joins, row_has, row_meets};
ghost use Rattle.rd_area.specs.Internal.Normal.{spans_of};
ghost use Rattle.rd_area.specs.Internal.Bands.{IsBanded, rows_of};
ghost use Rattle.rd_area.specs.Internal.Room.{room_at};
ghost use Rattle.rd_area.specs.Rows.{IsRising};
ghost use Rattle.rd_geom.specs.Figures.{max_canvas_side};

use crate::row;
use rd_geom::{NoMemory, Span};

/// Gives each of the bands `from` up to `to` room for one span more.
pub(crate) fn reserve(rows: &mut Vec<Vec<Span>>, from: usize, to: usize) -> Result<(), NoMemory>
    requires { to ≤ vec_len rows.old }
    ensures same { spans_of rows.new.items ≡ spans_of rows.old.items }
    ensures len { vec_len rows.new ≡ vec_len rows.old }
    ensures room { OnOk result ((y : ℕ) → from ≤ y → y < to → 0 < room_at rows.new.items y) }
{
    for y in from..to {
        rows[y].reserve(1)?;
    }
    Ok(())
}

/// Joins a span to each of the bands `from` up to `to`.
pub(crate) fn join(rows: &mut Vec<Vec<Span>>, from: usize, to: usize, span: Span)
    requires some { span.x0 <ℤ span.x1 }
    requires order { from ≤ to }
    requires within { to ≤ vec_len rows.old }
    requires room { (y : ℕ) → from ≤ y → y < to → 0 < room_at rows.old.items y }
    ensures count { length (spans_of rows.new.items) ≡ length (spans_of rows.old.items) }
    ensures len { vec_len rows.new ≡ vec_len rows.old }
    ensures joined { (y : ℕ) → from ≤ y → y < to
        → Joins (get_or (spans_of rows.old.items) y []) (get_or (spans_of rows.new.items) y []) span }
    ensures others { (y : ℕ) → (y < from) ⊎ (to ≤ y)
        → get_or (spans_of rows.new.items) y [] ≡ get_or (spans_of rows.old.items) y [] }
{
    for y in from..to {
        row::join(&mut rows[y], span);
    }
}

/// Has each of the bands `from` up to `to` all columns of the span?
pub(crate) fn have(rows: &Vec<Vec<Span>>, from: usize, to: usize, span: Span) -> bool
    requires { to ≤ vec_len rows.now }
    ensures { IsTrue result → (y : ℕ) → from ≤ y → y < to
        → IsTrue (row_has (get_or (spans_of rows.now.items) y []) span) }
{
    for y in from..to {
        if !row::has(&rows[y], span) {
            return false;
        }
    }
    true
}

/// How many pixels are in bands whose spans rise.
pub(crate) fn count(ends: &[usize], bands: &[Vec<Span>], height: usize) -> u64
    requires rising { (k : ℕ) → IsRising (pos 0) max_canvas_side (get_or (spans_of bands.now) k []) }
    requires few { pos height ≤ℤ max_canvas_side }
    requires banded { IsBanded height ends.now (length bands.now) }
    ensures { (n : ℕ) → ((k : ℕ) → IsRising (pos 0) (pos n) (get_or (spans_of bands.now) k []))
        → result ≡ sum_by (λ ss. columns_in ss n) (rows_of height ends.now (spans_of bands.now)) }
{
    let mut count = 0;
    let mut start = 0;
    for (i, band) in bands.iter().enumerate() {
        let end = ends[i];
        count += row::count(band) * (end - start) as u64;
        start = end;
    }
    count
}
