//! Styles and changes of them.

ghost use Rattle.std.specs.Prelude.{◌≡◌};
ghost use Rattle.rd_style.specs.Changes as changes;

use crate::classes::clips;
use crate::kinds::{Display, Floating, Isolation, Overflow, Pointer, Position, Visibility};
use rd_geom::{Blend, Color, Sides};

/// The computed values of a box. Widths are in canvas pixels, opacity is of 8 bits, and colours are not premultiplied.
#[derive(Clone, Copy, PartialEq, Eq, Debug)]
pub struct Style {
    pub position: Position,

    /// The z-index (CSS 2.2 section 9.9.1); None is auto.
    pub z: Option<i32>,
    pub opacity: u8,
    pub overflow: Overflow,
    pub display: Display,
    pub float: Floating,
    pub background: Color,
    pub border_width: Sides,
    pub border_color: Color,

    /// The colour of what the box contains, which stands for its text; None is no content.
    pub content: Option<Color>,
    pub outline_width: u16,
    pub outline_color: Color,
    pub visibility: Visibility,
    pub pointer: Pointer,

    /// How what the box paints is put onto what is below it (CSS Compositing 1 section 3.4.1).
    pub blend: Blend,
    pub isolation: Isolation,
}

/// New values for the members that are named; None is not named.
#[derive(Clone, Copy, PartialEq, Eq, Debug)]
pub struct StyleChange {
    pub position: Option<Position>,
    pub z: Option<Option<i32>>,
    pub opacity: Option<u8>,
    pub overflow: Option<Overflow>,
    pub display: Option<Display>,
    pub float: Option<Floating>,
    pub background: Option<Color>,
    pub border_width: Option<Sides>,
    pub border_color: Option<Color>,
    pub content: Option<Option<Color>>,
    pub outline_width: Option<u16>,
    pub outline_color: Option<Color>,
    pub visibility: Option<Visibility>,
    pub pointer: Option<Pointer>,
    pub blend: Option<Blend>,
    pub isolation: Option<Isolation>,
}

impl Style {
    /// The style of a box for which nothing is said: every member has its default.
    pub fn plain() -> Style
        ensures { result ≡ changes.plain }
    {
        Style {
            position: Position::Static,
            z: None,
            opacity: 255,
            overflow: Overflow::Visible,
            display: Display::Block,
            float: Floating::No,
            background: Color::TRANSPARENT,
            border_width: Sides {
                top: 0,
                right: 0,
                bottom: 0,
                left: 0,
            },
            border_color: Color::BLACK,
            content: None,
            outline_width: 0,
            outline_color: Color::BLACK,
            visibility: Visibility::Visible,
            pointer: Pointer::Auto,
            blend: Blend::Normal,
            isolation: Isolation::Auto,
        }
    }
}

impl StyleChange {
    /// The change that names no member.
    pub fn none() -> StyleChange
        ensures { result ≡ changes.nothing_named }
    {
        StyleChange {
            position: None,
            z: None,
            opacity: None,
            overflow: None,
            display: None,
            float: None,
            background: None,
            border_width: None,
            border_color: None,
            content: None,
            outline_width: None,
            outline_color: None,
            visibility: None,
            pointer: None,
            blend: None,
            isolation: None,
        }
    }
}

/// The style with the named members replaced.
pub fn changed(s: &Style, c: &StyleChange) -> Style
    ensures { result ≡ changes.changed s.now c.now }
{
    Style {
        position: c.position.unwrap_or(s.position),
        z: c.z.unwrap_or(s.z),
        opacity: c.opacity.unwrap_or(s.opacity),
        overflow: c.overflow.unwrap_or(s.overflow),
        display: c.display.unwrap_or(s.display),
        float: c.float.unwrap_or(s.float),
        background: c.background.unwrap_or(s.background),
        border_width: c.border_width.unwrap_or(s.border_width),
        border_color: c.border_color.unwrap_or(s.border_color),
        content: c.content.unwrap_or(s.content),
        outline_width: c.outline_width.unwrap_or(s.outline_width),
        outline_color: c.outline_color.unwrap_or(s.outline_color),
        visibility: c.visibility.unwrap_or(s.visibility),
        pointer: c.pointer.unwrap_or(s.pointer),
        blend: c.blend.unwrap_or(s.blend),
        isolation: c.isolation.unwrap_or(s.isolation),
    }
}

/// Does the change touch the box's whole subtree, and not the box alone?
pub fn whole(s: &Style, is_root: bool, c: &StyleChange) -> bool
    ensures { result ≡ changes.whole s.now is_root c.now }
{
    names_class(c) || (c.border_width.is_some() && clips(s, is_root))
}

/// Is a member named from which the class, the level, the group or the clips of boxes follow?
pub fn names_class(c: &StyleChange) -> bool
    ensures { result ≡ changes.names_class c.now }
{
    c.position.is_some()
        || c.z.is_some()
        || c.opacity.is_some()
        || c.overflow.is_some()
        || c.display.is_some()
        || c.float.is_some()
        || c.blend.is_some()
        || c.isolation.is_some()
}

/// Is a member named at all?
pub fn names_any(c: &StyleChange) -> bool
    ensures { result ≡ changes.names_any c.now }
{
    names_class(c)
        || c.background.is_some()
        || c.border_width.is_some()
        || c.border_color.is_some()
        || c.content.is_some()
        || c.outline_width.is_some()
        || c.outline_color.is_some()
        || c.visibility.is_some()
        || c.pointer.is_some()
}
