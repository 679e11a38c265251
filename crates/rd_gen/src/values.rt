//! The values that a generated script draws.

ghost use Rattle.std.specs.Prelude.{◌≡◌, ◌≤◌};
ghost use Rattle.rd_gen.specs.Values as values;

use crate::draw::Draw;
use rd_geom::{Color, Rect};

/// A rectangle on the canvas or near it.
#[tactic(auto, unfolding(crate::specs::Values::rectangle))]
pub(crate) fn rectangle(draw: &mut Draw) -> Rect
    ensures { values.rectangle draw.old ≡ (result, draw.new) }
{
    let x = draw.below_less(288, 32);
    let y = draw.below_less(288, 32);
    let w = draw.below(65) as i32;
    let h = draw.below(65) as i32;
    let Some(rect) = Rect::new(x, y, w, h) else {
        unreachable!()
    };
    rect
}

#[tactic(auto, unfolding(crate::specs::Values::alpha))]
fn alpha(draw: &mut Draw) -> u8
    ensures { values.alpha draw.old ≡ (result, draw.new) }
{
    if draw.below(4) == 0 {
        draw.below(256) as u8
    } else {
        255
    }
}

/// A colour, which is opaque three times of four.
#[tactic(auto, unfolding(crate::specs::Values::color))]
pub(crate) fn color(draw: &mut Draw) -> Color
    ensures { values.color draw.old ≡ (result, draw.new) }
{
    let r = draw.below(256) as u8;
    let g = draw.below(256) as u8;
    let b = draw.below(256) as u8;
    let a = alpha(draw);
    Color { r, g, b, a }
}

/// A z-index from -2 to 2.
pub(crate) fn z_index(draw: &mut Draw) -> i32
    ensures { values.z_index draw.old ≡ (result, draw.new) }
{
    draw.below_less(5, 2)
}

/// One of `n` opacities from 64 on.
#[tactic(auto, unfolding(crate::specs::Values::opacity))]
pub(crate) fn opacity(draw: &mut Draw, n: u32) -> u8
    requires some { 1 ≤ n }
    requires most { n ≤ 192 }
    ensures { values.opacity n draw.old ≡ (result, draw.new) }
{
    (64 + draw.below(n)) as u8
}
