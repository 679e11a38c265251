//! What CSS makes of one style.

ghost use Rattle.std.specs.Prelude.{◌≡◌};
ghost use Rattle.rd_style.specs.Classes as classes;

use crate::kinds::{Class, Display, Floating, Isolation, Overflow, Position};
use crate::styles::Style;
use rd_geom::Blend;

/// Is its position relative, absolute or fixed (CSS 2.2 section 9.3.2)?
pub fn is_positioned(s: &Style) -> bool
    ensures { result ≡ classes.positioned s.now }
{
    !matches!(s.position, Position::Static)
}

/// Has it a blend mode other than normal (CSS Compositing 1 section 3.4.1)?
pub fn is_blended(s: &Style) -> bool
    ensures { result ≡ classes.blended s.now }
{
    !matches!(s.blend, Blend::Normal)
}

/// Is it put onto what is below it as a whole, whatever its position: translucent, blended or isolated (CSS Color 3
/// section 3.2, CSS Compositing 1 section 3.2)?
fn is_one_whole(s: &Style) -> bool
    ensures { result ≡ classes.one_whole s.now }
{
    s.opacity < 255 || is_blended(s) || matches!(s.isolation, Isolation::Isolate)
}

/// Is its position absolute or fixed (CSS 2.2 section 9.3.1)?
fn is_out_of_flow(s: &Style) -> bool
    ensures { result ≡ classes.out_of_flow s.now }
{
    matches!(s.position, Position::Absolute | Position::Fixed)
}

/// Does it float (CSS 2.2 section 9.7)?
fn is_floating(s: &Style, is_root: bool) -> bool
    ensures { result ≡ classes.floats s.now is_root }
{
    !matches!(s.float, Floating::No) && !is_out_of_flow(s) && !is_root
}

/// Is it laid out as a block, inside or outside the flow (CSS 2.2 section 9.7)?
pub fn blocky(s: &Style, is_root: bool) -> bool
    ensures { result ≡ classes.blocky s.now is_root }
{
    is_root || !matches!(s.display, Display::Inline) || is_floating(s, is_root) || is_out_of_flow(s)
}

/// Does it clip what is in it (CSS 2.2 section 11.1.1)? The root never does: its overflow goes to the viewport.
pub fn clips(s: &Style, is_root: bool) -> bool
    ensures { result ≡ classes.clips s.now is_root }
{
    !is_root && blocky(s, is_root) && !matches!(s.overflow, Overflow::Visible)
}

/// How it takes part in painting (CSS 2.2 Appendix E.2).
pub fn class_of(s: &Style, is_root: bool) -> Class
    ensures { result ≡ classes.class s.now is_root }
{
    if !is_root && (is_positioned(s) || is_one_whole(s)) {
        Class::Layer
    } else if is_floating(s, is_root) {
        Class::Float
    } else if is_root {
        Class::Block
    } else {
        match s.display {
            Display::Block => Class::Block,
            Display::Inline => Class::Inline,
            Display::InlineBlock => Class::Atom,
        }
    }
}

/// The used z-index of a layer (CSS 2.2 section 9.9.1, CSS Color 3 section 3.2, CSS Compositing 1 section 3.2); the root's is 0.
/// None is auto, or that the box is no layer.
pub fn level(s: &Style, is_root: bool) -> Option<i32>
    ensures { result ≡ classes.level s.now is_root }
{
    if is_root {
        return Some(0);
    }
    match class_of(s, is_root) {
        Class::Layer => { if is_positioned(s) { used_z(s) } else { Some(0) } }
        _ => None,
    }
}

/// The z-index of a positioned box, where auto is 0 for a translucent, blended, isolated or fixed one.
fn used_z(s: &Style) -> Option<i32>
    ensures { result ≡ classes.used_z s.now s.now.z }
{
    match s.z {
        Some(z) => Some(z),
        None if is_one_whole(s) || matches!(s.position, Position::Fixed) => Some(0),
        None => None,
    }
}

/// Does it make a stacking context (CSS 2.2 section 9.9.1, CSS Color 3 section 3.2, CSS Compositing 1 section 3.2)?
pub fn real(s: &Style, is_root: bool) -> bool
    ensures { result ≡ classes.real s.now is_root }
{
    level(s, is_root).is_some()
}
