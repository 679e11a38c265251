//! Changes of style that take others back.
ghost use Rattle.std.specs.Prelude.{◌≡◌, option_map};
ghost use Rattle.rd_undo.specs.Inverse as spec;

use rd_style::{Style, StyleChange};

/// The value of a member, where the member is named.
fn kept<T: Copy>(named: Option<T>, value: T) -> Option<T>
    ensures { result ≡ option_map (λ _. value) named }
{
    match named {
        Some(_) => Some(value),
        None => None,
    }
}

/// The change that names the same members, with the values of a style.
pub(crate) fn previous(s: &Style, c: &StyleChange) -> StyleChange
    ensures { result ≡ spec.previous s.now c.now }
{
    StyleChange {
        position: kept(c.position, s.position),
        z: kept(c.z, s.z),
        opacity: kept(c.opacity, s.opacity),
        overflow: kept(c.overflow, s.overflow),
        display: kept(c.display, s.display),
        float: kept(c.float, s.float),
        background: kept(c.background, s.background),
        border_width: kept(c.border_width, s.border_width),
        border_color: kept(c.border_color, s.border_color),
        content: kept(c.content, s.content),
        outline_width: kept(c.outline_width, s.outline_width),
        outline_color: kept(c.outline_color, s.outline_color),
        visibility: kept(c.visibility, s.visibility),
        pointer: kept(c.pointer, s.pointer),
        blend: kept(c.blend, s.blend),
        isolation: kept(c.isolation, s.isolation),
    }
}
