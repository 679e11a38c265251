//! Values as C has them.

ghost use Rattle.std.specs.Prelude.{◌≡◌, IfOk, Some};
ghost use Rattle.rd_c.specs.Asked.{or_none};
ghost use Rattle.rd_c.specs.Spelled as spelled;
ghost use Rattle.rd_c.specs.Spelled.{IsChange, IsStyle};

use crate::refusal::{Refusal, of_id};
use rd_geom::{Blend, Color, Rect, Sides};
use rd_style::{
    Display, Floating, Isolation, Overflow, Pointer, Position, Style, StyleChange, Visibility,
};
use rd_tree::Id;
use std::alloc::Global;

/// A colour, its channels not multiplied by its opacity `a`.
#[repr(C)]
#[derive(Clone, Copy)]
pub struct RdColor {
    pub r: u8,
    pub g: u8,
    pub b: u8,
    pub a: u8,
}

/// A rectangle in canvas pixels.
#[repr(C)]
#[derive(Clone, Copy)]
pub struct RdRect {
    pub x: i32,
    pub y: i32,
    pub w: i32,
    pub h: i32,
}

/// The computed values of a box. Where `has_z` is 0, z-index is auto; where `has_content` is 0, it has no content.
#[repr(C)]
#[derive(Clone, Copy)]
pub struct RdStyle {
    pub z: i32,
    pub background: RdColor,
    pub border_color: RdColor,
    pub content: RdColor,
    pub outline_color: RdColor,
    pub border_top: u16,
    pub border_right: u16,
    pub border_bottom: u16,
    pub border_left: u16,
    pub outline_width: u16,
    pub position: u8,
    pub has_z: u8,
    pub opacity: u8,
    pub overflow: u8,
    pub display: u8,
    pub float: u8,
    pub has_content: u8,
    pub visibility: u8,
    pub pointer: u8,
    pub blend: u8,
    pub isolation: u8,
}

/// What a paint tells of itself.
#[repr(C)]
#[derive(Clone, Copy)]
pub struct RdNote {
    pub number: u64,
    pub built: u64,
    pub kept: u64,
    pub area: u64,
}

pub(crate) fn color(c: RdColor) -> Color
    ensures { result ≡ spelled.color_of c }
{
    Color {
        r: c.r,
        g: c.g,
        b: c.b,
        a: c.a,
    }
}

fn position(number: u8) -> Result<Position, Refusal>
    ensures { IfOk result (λ k. spelled.position_of number ≡ Some k) }
{
    match number {
        0 => Ok(Position::Static),
        1 => Ok(Position::Relative),
        2 => Ok(Position::Absolute),
        3 => Ok(Position::Fixed),
        _ => Err(Refusal::Value),
    }
}

fn overflow(number: u8) -> Result<Overflow, Refusal>
    ensures { IfOk result (λ k. spelled.overflow_of number ≡ Some k) }
{
    match number {
        0 => Ok(Overflow::Visible),
        1 => Ok(Overflow::Hidden),
        2 => Ok(Overflow::Scroll),
        3 => Ok(Overflow::Auto),
        _ => Err(Refusal::Value),
    }
}

fn display(number: u8) -> Result<Display, Refusal>
    ensures { IfOk result (λ k. spelled.display_of number ≡ Some k) }
{
    match number {
        0 => Ok(Display::Block),
        1 => Ok(Display::Inline),
        2 => Ok(Display::InlineBlock),
        _ => Err(Refusal::Value),
    }
}

fn floating(number: u8) -> Result<Floating, Refusal>
    ensures { IfOk result (λ k. spelled.floating_of number ≡ Some k) }
{
    match number {
        0 => Ok(Floating::No),
        1 => Ok(Floating::Left),
        2 => Ok(Floating::Right),
        _ => Err(Refusal::Value),
    }
}

fn visibility(number: u8) -> Result<Visibility, Refusal>
    ensures { IfOk result (λ k. spelled.visibility_of number ≡ Some k) }
{
    match number {
        0 => Ok(Visibility::Visible),
        1 => Ok(Visibility::Hidden),
        2 => Ok(Visibility::Collapse),
        _ => Err(Refusal::Value),
    }
}

fn pointer(number: u8) -> Result<Pointer, Refusal>
    ensures { IfOk result (λ k. spelled.pointer_of number ≡ Some k) }
{
    match number {
        0 => Ok(Pointer::Auto),
        1 => Ok(Pointer::Off),
        _ => Err(Refusal::Value),
    }
}

fn blend(number: u8) -> Result<Blend, Refusal>
    ensures { IfOk result (λ k. spelled.blend_of number ≡ Some k) }
{
    match number {
        0 => Ok(Blend::Normal),
        1 => Ok(Blend::Multiply),
        2 => Ok(Blend::Screen),
        3 => Ok(Blend::Darken),
        4 => Ok(Blend::Lighten),
        _ => Err(Refusal::Value),
    }
}

fn isolation(number: u8) -> Result<Isolation, Refusal>
    ensures { IfOk result (λ k. spelled.isolation_of number ≡ Some k) }
{
    match number {
        0 => Ok(Isolation::Auto),
        1 => Ok(Isolation::Isolate),
        _ => Err(Refusal::Value),
    }
}

fn sides(s: &RdStyle) -> Sides
    ensures { result ≡ spelled.sides_of s.now }
{
    Sides {
        top: s.border_top,
        right: s.border_right,
        bottom: s.border_bottom,
        left: s.border_left,
    }
}

fn z_index(s: &RdStyle) -> Option<i32>
    ensures { result ≡ spelled.flagged s.now.has_z s.now.z }
{
    if s.has_z == 0 { None } else { Some(s.z) }
}

fn content(s: &RdStyle) -> Option<Color>
    ensures { result ≡ spelled.flagged s.now.has_content (spelled.color_of s.now.content) }
{
    if s.has_content == 0 {
        None
    } else {
        Some(color(s.content))
    }
}

/// The style. `Value` where a keyword has no such number.
pub(crate) fn style(s: &RdStyle) -> Result<Style, Refusal>
    ensures { IfOk result (IsStyle s.now) }
{
    Ok(Style {
        position: position(s.position)?,
        z: z_index(s),
        opacity: s.opacity,
        overflow: overflow(s.overflow)?,
        display: display(s.display)?,
        float: floating(s.float)?,
        background: color(s.background),
        border_width: sides(s),
        border_color: color(s.border_color),
        content: content(s),
        outline_width: s.outline_width,
        outline_color: color(s.outline_color),
        visibility: visibility(s.visibility)?,
        pointer: pointer(s.pointer)?,
        blend: blend(s.blend)?,
        isolation: isolation(s.isolation)?,
    })
}

/// The value, where the bit is among those that are named.
fn named<T: Copy>(names: u32, bit: u32, value: T) -> Option<T>
    ensures { result ≡ spelled.named names bit value }
{
    if names & bit == 0 { None } else { Some(value) }
}

/// The change of the members whose bits are among `names`: the first member of [`Style`] has bit 1, the next 2, and so on. All
/// members have to be keywords.
pub(crate) fn change(s: &RdStyle, names: u32) -> Result<StyleChange, Refusal>
    ensures { IfOk result (IsChange s.now names) }
{
    let t = style(s)?;
    Ok(StyleChange {
        position: named(names, 1, t.position),
        z: named(names, 2, t.z),
        opacity: named(names, 4, t.opacity),
        overflow: named(names, 8, t.overflow),
        display: named(names, 16, t.display),
        float: named(names, 32, t.float),
        background: named(names, 64, t.background),
        border_width: named(names, 128, t.border_width),
        border_color: named(names, 256, t.border_color),
        content: named(names, 512, t.content),
        outline_width: named(names, 1024, t.outline_width),
        outline_color: named(names, 2048, t.outline_color),
        visibility: named(names, 4096, t.visibility),
        pointer: named(names, 8192, t.pointer),
        blend: named(names, 16384, t.blend),
        isolation: named(names, 32768, t.isolation),
    })
}

/// The rectangle. `OutOfRange` where it reaches too far.
pub(crate) fn rect(r: &RdRect) -> Result<Rect, Refusal>
    ensures { IfOk result (λ rect. rect ≡ spelled.rectangle_of r.now) }
{
    match Rect::new(r.x, r.y, r.w, r.h) {
        Some(rect) => Ok(rect),
        None => Err(Refusal::OutOfRange),
    }
}

/// The id of this text.
pub(crate) fn id(alloc: Global, text: &[u8]) -> Result<Id, Refusal>
    ensures { IfOk result (λ id. id ≡ text.now) }
{
    match std::str::from_utf8(text) {
        Ok(text) => match Id::new(alloc, text) {
            Ok(id) => Ok(id),
            Err(fault) => Err(of_id(fault)),
        },
        Err(_) => Err(Refusal::Id),
    }
}

/// The id of this text; none of an empty one.
pub(crate) fn id_or_none(alloc: Global, text: &[u8]) -> Result<Option<Id>, Refusal>
    ensures { IfOk result (λ id. id ≡ or_none text.now) }
{
    if text.is_empty() {
        return Ok(None);
    }
    let id = id(alloc, text)?;
    Ok(Some(id))
}
