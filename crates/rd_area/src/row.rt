//! The spans of one row.

ghost use Rattle.std.specs.Prelude.{◌≡◌, ℕ, ℤ, pos, ◌+◌, ◌<◌, ◌≤◌, ◌+ℤ◌, ◌-ℤ◌, ◌≤ℤ◌, ◌<ℤ◌, ◌||◌, ◌++◌, ◌∷◌, [], length, take, drop, vec_len, vec_capacity};
ghost use Rattle.std.specs.Int.{int_max, int_min};
ghost use Rattle.rd_geom.specs.Areas.{in_span, in_spans, columns_in};
ghost use Rattle.rd_geom.specs.declared.span.Span.{Span};
ghost use Rattle.rd_geom.specs.Figures.{max_canvas_side};
ghost use Rattle.rd_area.specs.Internal.Joining.{Joins, overlaps, row_has, row_meets, with_span, absorbing};
ghost use Rattle.rd_area.specs.Rows.{IsRising};

use rd_geom::Span;

/// How many of the row's spans end before the given one and do not touch it.
fn spans_before(row: &[Span], span: Span) -> usize
    ensures within { result ≤ length row.now }
    ensures rest { with_span span row.now ≡ take result row.now ++ absorbing span (drop result row.now) }
{
    for (i, s) in row.iter().enumerate() {
        if span.x0 <= s.x1 {
            return i;
        }
    }
    row.len()
}

/// From the first column of either to the last of either.
fn widened(s: Span, t: Span) -> Span
    ensures { result ≡ record { x0 = int_min s.x0 t.x0; x1 = int_max s.x1 t.x1 } }
{
    Span {
        x0: s.x0.min(t.x0),
        x1: s.x1.max(t.x1),
    }
}

/// A span with all that it touches of the row's spans from `from` on, and how far those reach.
fn touched(row: &[Span], from: usize, span: Span) -> (usize, Span)
    requires { from ≤ length row.now }
    ensures from { from ≤ result.0 }
    ensures within { result.0 ≤ length row.now }
    ensures whole { absorbing span (drop from row.now) ≡ result.1 ∷ drop result.0 row.now }
{
    let mut whole = span;
    for end in from..row.len() {
        let s = row[end];
        if whole.x1 < s.x0 {
            return (end, whole);
        }
        whole = widened(whole, s);
    }
    (row.len(), whole)
}

/// Puts one span in the place of those from `from` up to `to`.
fn put(row: &mut Vec<Span>, from: usize, to: usize, whole: Span)
    requires order { from ≤ to }
    requires within { to ≤ vec_len row.old }
    requires room { vec_len row.old < vec_capacity row.old }
    ensures { row.new.items ≡ take from row.old.items ++ whole ∷ drop to row.old.items }
{
    if from == to {
        let _room = row.insert(from, whole);
    } else {
        row[from] = whole;
        row.drain(from + 1..to);
    }
}

/// Joins a span to a row that has room for one more.
pub(crate) fn join(row: &mut Vec<Span>, span: Span)
    requires some { span.x0 <ℤ span.x1 }
    requires room { vec_len row.old < vec_capacity row.old }
    ensures { Joins row.old.items row.new.items span }
{
    let from = spans_before(row, span);
    let (to, whole) = touched(row, from, span);
    put(row, from, to, whole);
}

/// Have the two a common column?
fn overlaps(s: Span, t: Span) -> bool
    ensures { result ≡ overlaps s t }
{
    s.x0.max(t.x0) < s.x1.min(t.x1)
}

/// Is one of the span's columns in the row?
pub(crate) fn meets(row: &[Span], span: Span) -> bool
    ensures { result ≡ row_meets row.now span }
{
    for s in row {
        if overlaps(*s, span) {
            return true;
        }
    }
    false
}

/// Are all of the span's columns in one of the row's spans?
pub(crate) fn has(row: &[Span], span: Span) -> bool
    ensures { result ≡ row_has row.now span }
{
    for s in row {
        if s.x0 <= span.x0 && span.x1 <= s.x1 {
            return true;
        }
    }
    false
}

/// Is the column in the row?
pub(crate) fn holds(row: &[Span], x: i32) -> bool
    ensures { result ≡ in_spans row.now x }
{
    for s in row {
        if s.x0 <= x && x < s.x1 {
            return true;
        }
    }
    false
}

/// How many columns are in a row whose spans rise.
pub(crate) fn count(row: &[Span]) -> u64
    requires { IsRising (pos 0) max_canvas_side row.now }
    ensures value { (n : ℕ) → IsRising (pos 0) (pos n) row.now → result ≡ columns_in row.now n }
    ensures at_most { pos result ≤ℤ (max_canvas_side +ℤ pos 1) }
{
    let mut count = 0;
    for s in row {
        count += width(*s);
    }
    count
}

/// How many columns a span on a canvas has.
fn width(s: Span) -> u64
    requires from { pos 0 ≤ℤ s.x0 }
    requires some { s.x0 <ℤ s.x1 }
    requires to { s.x1 ≤ℤ max_canvas_side }
    ensures { pos result ≡ s.x1 -ℤ s.x0 }
{
    (s.x1 - s.x0) as u64
}
