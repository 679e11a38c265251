//! What of a style is written.

ghost use Rattle.std.specs.Prelude.{◌≡◌, Some, option_map};
ghost use Rattle.rd_scene.specs.Differing as spec;
ghost use Rattle.rd_scene.specs.Writing as words;

use rd_geom::{Blend, Color, Sides};
use rd_style::{
    Display, Floating, Isolation, Overflow, Pointer, Position, Style, StyleChange, Visibility,
};

fn position_unless(value: Position) -> Option<Position>
    ensures { result ≡ spec.position_unless value }
{
    match value {
        Position::Static => None,
        other => Some(other),
    }
}

fn overflow_unless(value: Overflow) -> Option<Overflow>
    ensures { result ≡ spec.overflow_unless value }
{
    match value {
        Overflow::Visible => None,
        other => Some(other),
    }
}

fn display_unless(value: Display) -> Option<Display>
    ensures { result ≡ spec.display_unless value }
{
    match value {
        Display::Block => None,
        other => Some(other),
    }
}

fn float_unless(value: Floating) -> Option<Floating>
    ensures { result ≡ spec.float_unless value }
{
    match value {
        Floating::No => None,
        other => Some(other),
    }
}

fn visibility_unless(value: Visibility) -> Option<Visibility>
    ensures { result ≡ spec.visibility_unless value }
{
    match value {
        Visibility::Visible => None,
        other => Some(other),
    }
}

fn pointer_unless(value: Pointer) -> Option<Pointer>
    ensures { result ≡ spec.pointer_unless value }
{
    match value {
        Pointer::Auto => None,
        other => Some(other),
    }
}

fn blend_unless(value: Blend) -> Option<Blend>
    ensures { result ≡ spec.blend_unless value }
{
    match value {
        Blend::Normal => None,
        other => Some(other),
    }
}

fn isolation_unless(value: Isolation) -> Option<Isolation>
    ensures { result ≡ spec.isolation_unless value }
{
    match value {
        Isolation::Auto => None,
        other => Some(other),
    }
}

fn color_unless(default: Color, c: Color) -> Option<Color>
    ensures { result ≡ spec.color_unless default c }
{
    if c.r == default.r && c.g == default.g && c.b == default.b && c.a == default.a {
        None
    } else {
        Some(c)
    }
}

fn sides_unless(s: Sides) -> Option<Sides>
    ensures { result ≡ spec.sides_unless s }
{
    if s.top == 0 && s.right == 0 && s.bottom == 0 && s.left == 0 {
        None
    } else {
        Some(s)
    }
}

fn opacity_unless(n: u8) -> Option<u8>
    ensures { result ≡ spec.number_unless 255 n }
{
    if n == 255 { None } else { Some(n) }
}

fn width_unless(n: u16) -> Option<u16>
    ensures { result ≡ spec.number_unless 0 n }
{
    if n == 0 { None } else { Some(n) }
}

fn z_unless(z: Option<i32>) -> Option<Option<i32>>
    ensures { result ≡ option_map Some z }
{
    match z {
        Some(z) => Some(Some(z)),
        None => None,
    }
}

fn content_unless(content: Option<Color>) -> Option<Option<Color>>
    ensures { result ≡ option_map Some content }
{
    match content {
        Some(color) => Some(Some(color)),
        None => None,
    }
}

/// The members of a style that differ from the defaults.
#[tactic(auto, unfolding(crate::specs::Differing::differing))]
pub(crate) fn differing(s: &Style) -> StyleChange
    ensures { result ≡ spec.differing s.now }
{
    StyleChange {
        position: position_unless(s.position),
        z: z_unless(s.z),
        opacity: opacity_unless(s.opacity),
        overflow: overflow_unless(s.overflow),
        display: display_unless(s.display),
        float: float_unless(s.float),
        background: color_unless(Color::TRANSPARENT, s.background),
        border_width: sides_unless(s.border_width),
        border_color: color_unless(Color::BLACK, s.border_color),
        content: content_unless(s.content),
        outline_width: width_unless(s.outline_width),
        outline_color: color_unless(Color::BLACK, s.outline_color),
        visibility: visibility_unless(s.visibility),
        pointer: pointer_unless(s.pointer),
        blend: blend_unless(s.blend),
        isolation: isolation_unless(s.isolation),
    }
}
