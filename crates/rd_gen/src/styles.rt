//! The styles that a generated script draws.

ghost use Rattle.std.specs.Prelude.{◌≡◌, ◌<◌};
ghost use Rattle.rd_gen.specs.Boxes as boxes;
ghost use Rattle.rd_gen.specs.Commands as commands;

use crate::draw::Draw;
use crate::values::{color, opacity, z_index};
use rd_geom::{Color, Sides};
use rd_style::{Display, Floating, Overflow, Position, Style, StyleChange, Visibility};

/// The style of the number `k`, but for its background.
#[tactic(auto, unfolding(crate::specs::Boxes::style_by))]
fn style_by(draw: &mut Draw, k: u32) -> Style
    requires { k < 16 }
    ensures { boxes.style_by k draw.old ≡ (result, draw.new) }
{
    let mut style = Style::plain();
    match k {
        0..=5 => {}
        6 => style.display = Display::Inline,
        7 => style.display = Display::InlineBlock,
        8 => style.float = Floating::Left,
        9 => style.position = Position::Relative,
        10 => {
            style.position = Position::Relative;
            style.z = Some(z_index(draw));
        }
        11 => style.position = Position::Absolute,
        12 => style.opacity = opacity(draw, 128),
        13 => style.overflow = Overflow::Hidden,
        14 => {
            style.border_width = Sides {
                top: 2,
                right: 2,
                bottom: 2,
                left: 2,
            };
        }
        _ => {
            style.outline_width = 2;
            style.outline_color = Color {
                r: 255,
                g: 0,
                b: 255,
                a: 255,
            };
            style.content = Some(Color {
                r: 128,
                g: 128,
                b: 128,
                a: 255,
            });
        }
    }
    style
}

/// One of sixteen styles, with a background.
#[tactic(auto, unfolding(crate::specs::Boxes::style))]
pub(crate) fn style(draw: &mut Draw) -> Style
    ensures { boxes.style draw.old ≡ (result, draw.new) }
{
    let k = draw.below(16);
    let mut style = style_by(draw, k);
    style.background = color(draw);
    style
}

/// Another background.
#[tactic(auto, unfolding(crate::specs::Commands::background_change))]
pub(crate) fn background_change(draw: &mut Draw) -> StyleChange
    ensures { commands.background_change draw.old ≡ (result, draw.new) }
{
    let mut change = StyleChange::none();
    change.background = Some(color(draw));
    change
}

/// Another z-index.
#[tactic(auto, unfolding(crate::specs::Commands::z_change))]
pub(crate) fn z_change(draw: &mut Draw) -> StyleChange
    ensures { commands.z_change draw.old ≡ (result, draw.new) }
{
    let mut change = StyleChange::none();
    change.z = Some(Some(z_index(draw)));
    change
}

/// Another opacity.
#[tactic(auto, unfolding(crate::specs::Commands::opacity_change))]
pub(crate) fn opacity_change(draw: &mut Draw) -> StyleChange
    ensures { commands.opacity_change draw.old ≡ (result, draw.new) }
{
    let mut change = StyleChange::none();
    change.opacity = Some(opacity(draw, 192));
    change
}

/// Hidden or visible.
#[tactic(auto, unfolding(crate::specs::Commands::visibility_change))]
pub(crate) fn visibility_change(draw: &mut Draw) -> StyleChange
    ensures { commands.visibility_change draw.old ≡ (result, draw.new) }
{
    let visibility = if draw.below(2) == 0 {
        Visibility::Hidden
    } else {
        Visibility::Visible
    };
    let mut change = StyleChange::none();
    change.visibility = Some(visibility);
    change
}
