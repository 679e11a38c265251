//! Sizes, rectangles and widths as a script writes them.

ghost use Rattle.std.specs.Prelude.{◌≡◌, ◌≤◌, pos, ◌-ℤ◌, IfOk, IsTrue, Ok};
ghost use Rattle.serde_json.specs.View.{view, items_view};
ghost use Rattle.rd_geom.specs.Canvas.{IsCanvas};
ghost use Rattle.rd_style.specs.Limits.{FitsRect, is_between};
ghost use Rattle.rd_scene.specs.Rects as spec;
ghost use Rattle.rd_scene.specs.Internal.Widths.{AreWidths};
ghost use Rattle.rd_geom.specs.Figures.{max_canvas_side};
ghost use Rattle.rd_style.specs.Figures.{max_coordinate, max_extent, max_line_width};

use crate::fault::Why;
use crate::members::{elements, known, members, needed, number, whole_number, within};
use rd_geom::{MAX_CANVAS_SIDE, Rect, Sides, Size};
use rd_style::{MAX_COORDINATE, MAX_EXTENT, MAX_LINE_WIDTH};
use serde_json::Value;

#[tactic(auto, unfolding(crate::specs::Rects::four_numbers))]
fn four_numbers(a: &Value, b: &Value, c: &Value, d: &Value) -> Result<(i64, i64, i64, i64), Why>
    ensures { result ≡ (spec.four_numbers (view a.now) (view b.now) (view c.now) (view d.now)).first }
{
    let w = whole_number(a)?;
    let x = whole_number(b)?;
    let y = whole_number(c)?;
    let z = whole_number(d)?;
    Ok((w, x, y, z))
}

/// Exactly four elements, each a whole number.
#[tactic(auto, using(crate::proofs::Items::not_four))]
fn four_of(list: &[Value]) -> Result<(i64, i64, i64, i64), Why>
    ensures { result ≡ (spec.four_of (items_view list.now)).first }
{
    match list {
        [a, b, c, d] => four_numbers(a, b, c, d),
        _ => Err(Why::Kind),
    }
}

#[tactic(auto, unfolding(crate::specs::Rects::coordinate))]
fn coordinate(z: i64) -> Result<i32, Why>
    ensures value { result ≡ (spec.coordinate z).first }
    ensures range { IfOk result (λ z. IsTrue (is_between (pos 0 -ℤ max_coordinate) z max_coordinate)) }
{
    within(-MAX_COORDINATE, MAX_COORDINATE, z)
}

#[tactic(auto, unfolding(crate::specs::Rects::extent))]
fn extent(z: i64) -> Result<i32, Why>
    ensures value { result ≡ (spec.extent z).first }
    ensures range { IfOk result (λ z. IsTrue (is_between (pos 0) z max_extent)) }
{
    within(0, MAX_EXTENT, z)
}

/// The rectangle, which is there, since its numbers are within the limits of a script.
fn made(x: i32, y: i32, w: i32, h: i32) -> Result<Rect, Why>
    requires { FitsRect (record { x = x; y = y; w = w; h = h }) }
    ensures { result ≡ Ok (record { x = x; y = y; w = w; h = h }) }
{
    match Rect::new(x, y, w, h) {
        Some(rect) => Ok(rect),
        None => Err(Why::Range),
    }
}

#[tactic(auto, unfolding(crate::specs::Rects::placed))]
fn placed(n: (i64, i64, i64, i64)) -> Result<Rect, Why>
    ensures value { result ≡ (spec.placed n).first }
    ensures fits { IfOk result (λ r. FitsRect r) }
{
    let x = coordinate(n.0)?;
    let y = coordinate(n.1)?;
    let w = extent(n.2)?;
    let h = extent(n.3)?;
    made(x, y, w, h)
}

/// A rectangle within the limits: an array of left, top, width and height.
fn rect_of(v: &Value) -> Result<Rect, Why>
    ensures value { result ≡ (spec.rect_of (view v.now)).first }
    ensures fits { IfOk result (λ r. FitsRect r) }
{
    let list = elements(v)?;
    let numbers = four_of(list)?;
    placed(numbers)
}

/// The rectangle of a box or an edit.
pub(crate) fn rect_at(v: &Value) -> Result<Rect, Why>
    ensures value { result ≡ (spec.rect_at (view v.now)).first }
    ensures fits { IfOk result (λ r. FitsRect r) }
{
    let rect = needed(v, "rect")?;
    rect_of(rect)
}

#[tactic(auto, unfolding(crate::specs::Rects::width))]
fn width(z: i64) -> Result<u16, Why>
    ensures value { result ≡ (spec.width z).first }
    ensures most { IfOk result (λ n. n ≤ max_line_width) }
{
    let z = within(0, MAX_LINE_WIDTH as i32, z)?;
    Ok(z as u16)
}

#[tactic(auto, unfolding(crate::specs::Rects::bordered))]
fn bordered(n: (i64, i64, i64, i64)) -> Result<Sides, Why>
    ensures value { result ≡ (spec.bordered n).first }
    ensures fits { IfOk result (λ s. AreWidths s) }
{
    let top = width(n.0)?;
    let right = width(n.1)?;
    let bottom = width(n.2)?;
    let left = width(n.3)?;
    Ok(Sides {
        top,
        right,
        bottom,
        left,
    })
}

/// The widths of the borders: an array of top, right, bottom and left.
pub(crate) fn sides_of(v: &Value) -> Result<Sides, Why>
    ensures value { result ≡ (spec.sides_of (view v.now)).first }
    ensures fits { IfOk result (λ s. AreWidths s) }
{
    let list = elements(v)?;
    let numbers = four_of(list)?;
    bordered(numbers)
}

/// The width of the outline.
pub(crate) fn outline_width_of(v: &Value) -> Result<u16, Why>
    ensures value { result ≡ (spec.outline_width_of (view v.now)).first }
    ensures most { IfOk result (λ n. n ≤ max_line_width) }
{
    let z = whole_number(v)?;
    width(z)
}

fn side(v: &Value) -> Result<i32, Why>
    ensures value { result ≡ (spec.side (view v.now)).first }
    ensures range { IfOk result (λ z. IsTrue (is_between (pos 1) z max_canvas_side)) }
{
    number(1, MAX_CANVAS_SIDE, v)
}

fn side_at(v: &Value, name: &str) -> Result<i32, Why>
    ensures value { result ≡ (spec.side_at name.now (view v.now)).first }
    ensures range { IfOk result (λ z. IsTrue (is_between (pos 1) z max_canvas_side)) }
{
    let side_value = needed(v, name)?;
    side(side_value)
}

/// The canvas: an object of its width and height.
#[tactic(auto, unfolding(crate::specs::Rects::canvas_of))]
pub(crate) fn canvas_of(v: &Value) -> Result<Size, Why>
    ensures value { result ≡ (spec.canvas_of (view v.now)).first }
    ensures canvas { IfOk result (λ s. IsCanvas s) }
{
    let members = members(v)?;
    known(members, &["w", "h"])?;
    let w = side_at(v, "w")?;
    let h = side_at(v, "h")?;
    Ok(Size { w, h })
}
