//! The bands of an area: neighbouring rows that have the same spans.

ghost use Rattle.std.specs.Prelude.{◌≡◌, ℕ, ◌+◌, ◌<◌, ◌≤◌, List, [], get_or, length, vec_len, IfOk, IsFalse, IsTrue, OnOk, is_ok, if◌then◌else◌};
ghost use Rattle.rd_area.specs.Internal.Bands.{band_of, row_at, AreBetween, AreRising, CoverRows, HasRow, BeginsBand, IsBanded};
ghost use Rattle.std.specs.List.{insert};
ghost use Rattle.rd_area.specs.Internal.Joining.{row_meets};
ghost use Rattle.rd_area.specs.Internal.Room.{room_at};
ghost use Rattle.rd_area.specs.Internal.Normal.{spans_of};

use crate::{row, rows};
use rd_geom::{NoMemory, Span};

/// As many ends as this are looked at in order.
const FEW_ENDS: usize = 64;

/// So many of the first ends are before row `y`, and no four more.
#[inline(always)]
fn fours_before(ends: &[usize], y: usize) -> usize
    requires { AreRising ends.now }
    ensures within { result ≤ length ends.now }
    ensures before { (i : ℕ) → i < result → get_or ends.now i 0 < y }
{
    let mut first = 0;
    while ends.len() - first >= 4 && ends[first + 3] < y {
        first += 4;
    }
    first
}

/// How many of the ends are before row `y`, where the first ones are known to be.
fn ends_before_from(ends: &[usize], first: usize, y: usize) -> usize
    requires rising { AreRising ends.now }
    requires within { first ≤ length ends.now }
    requires before { (i : ℕ) → i < first → get_or ends.now i 0 < y }
    ensures within { result ≤ length ends.now }
    ensures before { (i : ℕ) → i < result → get_or ends.now i 0 < y }
    ensures rest { (i : ℕ) → result ≤ i → i < length ends.now → y ≤ get_or ends.now i 0 }
{
    for i in first..ends.len() {
        if y <= ends[i] {
            return i;
        }
    }
    ends.len()
}

/// How many of the ends are before row `y`.
fn ends_before(ends: &[usize], y: usize) -> usize
    requires { AreRising ends.now }
    ensures within { result ≤ length ends.now }
    ensures before { (i : ℕ) → i < result → get_or ends.now i 0 < y }
    ensures rest { (i : ℕ) → result ≤ i → i < length ends.now → y ≤ get_or ends.now i 0 }
{
    if ends.len() <= FEW_ENDS {
        return ends_before_from(ends, fours_before(ends, y), y);
    }
    match ends.binary_search(&y) {
        Ok(i) => i,
        Err(i) => i,
    }
}

/// The band of a row.
pub(crate) fn band_of(ends: &[usize], y: usize) -> usize
    requires { AreRising ends.now }
    ensures { result ≡ band_of ends.now y }
{
    let i = ends_before(ends, y);
    if i < ends.len() && ends[i] == y {
        return i + 1;
    }
    i
}

/// The bands that have one of the rows from `from` up to `to`: the first, and the one after the last.
pub(crate) fn between(ends: &[usize], from: usize, to: usize) -> (usize, usize)
    requires rising { AreRising ends.now }
    requires order { from < to }
    requires all { CoverRows to ends.now }
    ensures within { result.1 ≤ length ends.now }
    ensures bands { (y : ℕ) → from ≤ y → y < to
        → (result.0 ≤ band_of ends.now y) × (band_of ends.now y < result.1) }
    ensures rows { (k : ℕ) → result.0 ≤ k → k < result.1 → HasRow ends.now from to k }
{
    let first = ends_before(ends, from + 1);
    (first, ends_before_from(ends, first, to) + 1)
}

/// Has the band of one of the rows from `from` up to `to` a column of the span?
pub(crate) fn meets(
    ends: &[usize],
    bands: &Vec<Vec<Span>>,
    from: usize,
    to: usize,
    span: Span,
) -> bool
    requires count { length ends.now ≡ vec_len bands.now }
    requires rising { AreRising ends.now }
    requires order { from < to }
    requires all { CoverRows to ends.now }
    ensures found { IsTrue result → (k : ℕ) × HasRow ends.now from to k
        × IsTrue (row_meets (get_or (spans_of bands.now.items) k []) span) }
    ensures none { IsFalse result → (y : ℕ) → from ≤ y → y < to
        → IsFalse (row_meets (get_or (spans_of bands.now.items) (band_of ends.now y) []) span) }
{
    let mut k = ends_before(ends, from + 1);
    while k < ends.len() {
        if row::meets(&bands[k], span) {
            return true;
        }
        if to <= ends[k] {
            return false;
        }
        k += 1;
    }
    false
}

/// Parts the band of row `y` before that row, if need be, and tells which band begins there.
fn split(ends: &mut Vec<usize>, bands: &mut Vec<Vec<Span>>, y: usize) -> Result<usize, NoMemory>
    requires count { length ends.old.items ≡ vec_len bands.old }
    requires rising { AreRising ends.old.items }
    requires all { CoverRows y ends.old.items }
    ensures same { (z : ℕ) → row_at ends.new.items (spans_of bands.new.items) z
        ≡ row_at ends.old.items (spans_of bands.old.items) z }
    ensures before { (z : ℕ) → z < y → band_of ends.new.items z ≡ band_of ends.old.items z }
    ensures banded { (h : ℕ) → y ≤ h → IsBanded h ends.old.items (vec_len bands.old)
        → IsBanded h ends.new.items (vec_len bands.new) }
    ensures begins { IfOk result (λ k. BeginsBand ends.new.items y k) }
{
    if y == 0 {
        return Ok(0);
    }
    let i = ends_before(ends, y);
    if ends[i] == y {
        return Ok(i + 1);
    }
    part(ends, bands, i, y)?;
    Ok(i + 1)
}

/// Parts the bands at both ends of the rows from `from` up to `to`, if need be, gives each band between room for
/// one span more, and tells which these are.
pub(crate) fn prepare(
    ends: &mut Vec<usize>,
    bands: &mut Vec<Vec<Span>>,
    from: usize,
    to: usize,
) -> Result<(usize, usize), NoMemory>
    requires order { from < to }
    requires banded { (height : ℕ) × (to ≤ height) × IsBanded height ends.old.items (vec_len bands.old) }
    ensures same { (z : ℕ) → row_at ends.new.items (spans_of bands.new.items) z
        ≡ row_at ends.old.items (spans_of bands.old.items) z }
    ensures banded { (height : ℕ) → to ≤ height → IsBanded height ends.old.items (vec_len bands.old)
        → IsBanded height ends.new.items (vec_len bands.new) }
    ensures order { IfOk result (λ r. r.0 ≤ r.1) }
    ensures within { IfOk result (λ r. r.1 ≤ vec_len bands.new) }
    ensures between { IfOk result (λ r. AreBetween ends.new.items from to r.0 r.1) }
    ensures room { IfOk result (λ r. (k : ℕ) → r.0 ≤ k → k < r.1 → 0 < room_at bands.new.items k) }
{
    let first = split(ends, bands, from)?;
    let last = split(ends, bands, to)?;
    rows::reserve(bands, first, last)?;
    Ok((first, last))
}

/// Puts a band like the one at `i` before it, that ends at row `y`.
fn part(
    ends: &mut Vec<usize>,
    bands: &mut Vec<Vec<Span>>,
    i: usize,
    y: usize,
) -> Result<(), NoMemory>
    requires count { length ends.old.items ≡ vec_len bands.old }
    requires within { i < vec_len bands.old }
    ensures ends { ends.new.items ≡ (if is_ok result then insert ends.old.items i y else ends.old.items) }
    ensures bands { spans_of bands.new.items ≡ (if is_ok result
        then insert (spans_of bands.old.items) i (get_or (spans_of bands.old.items) i [])
        else spans_of bands.old.items) }
    ensures count { length ends.new.items ≡ vec_len bands.new }
{
    let upper = bands[i].clone()?;
    ends.reserve(1)?;
    bands.reserve(1)?;
    let _first = ends.insert(i, y);
    let _second = bands.insert(i, upper);
    Ok(())
}
