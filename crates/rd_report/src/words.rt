//! The words of the lines that are written.

ghost use Rattle.std.specs.Prelude.{◌≡◌, ◌<◌, ◌++◌, OnOk, string_bytes, false};
ghost use Rattle.std.specs.Fmt.{digit_glyph};
ghost use Rattle.rd_report.specs.Words as words;

use rd_geom::{Blend, Color, Rect};
use rd_item::Shape;
use rd_keys::{BoxKey, Part};
use rd_tree::Tree;
use std::alloc::AllocError;
use std::sync::ledger::Ledger;

/// The part of a box that a leaf paints.
pub fn part_text(part: Part) -> &'static str
    ensures { result.now ≡ words.part_text part }
{
    match part {
        Part::Back => "back",
        Part::Border => "border",
        Part::Content => "content",
        Part::Outline => "outline",
    }
}

/// The blend mode of a group after a space, nothing where it is normal.
pub(crate) fn mode_text(mode: Blend) -> &'static str
    ensures { result.now ≡ words.mode_text mode }
{
    match mode {
        Blend::Normal => "",
        Blend::Multiply => " multiply",
        Blend::Screen => " screen",
        Blend::Darken => " darken",
        Blend::Lighten => " lighten",
    }
}

/// Whether a box takes pointer hits.
pub(crate) fn pointer_text(hits: bool) -> &'static str
    ensures { result.now ≡ words.pointer_text hits }
{
    if hits { "auto" } else { "none" }
}

/// The id of a box, empty where there is no such box.
pub fn id_text<B: Ledger>(tree: &Tree<B>, key: BoxKey) -> &str
    ensures { result.now ≡ words.id_text key tree.now.boxes }
{
    match tree.id(key) {
        Some(id) => id.text(),
        None => "",
    }
}

fn digit(n: u8) -> u8
    requires { n < 16 }
    ensures value { result ≡ digit_glyph false n }
    ensures ascii { result < 128 }
{
    if n < 10 { b'0' + n } else { b'a' - 10 + n }
}

fn push_hex(out: &mut String, n: u8) -> Result<(), AllocError>
    ensures { OnOk result (string_bytes out.new ≡ string_bytes out.old ++ words.hex n) }
{
    out.push(digit(n / 16) as char)?;
    out.push(digit(n % 16) as char)
}

/// Red, green and blue, six digits.
#[tactic(auto, unfolding(crate::specs::Words::opaque_text), using(crate::proofs::Joining::joining))]
pub(crate) fn push_opaque(out: &mut String, c: &Color) -> Result<(), AllocError>
    ensures { OnOk result (string_bytes out.new ≡ string_bytes out.old ++ words.opaque_text c.now) }
{
    push_hex(out, c.r)?;
    push_hex(out, c.g)?;
    push_hex(out, c.b)
}

/// Red, green, blue and alpha, eight digits.
#[tactic(auto, unfolding(crate::specs::Words::color_text), using(crate::proofs::Joining::joining))]
pub(crate) fn push_color(out: &mut String, c: Color) -> Result<(), AllocError>
    ensures { OnOk result (string_bytes out.new ≡ string_bytes out.old ++ words.color_text c) }
{
    push_hex(out, c.r)?;
    push_hex(out, c.g)?;
    push_hex(out, c.b)?;
    push_hex(out, c.a)
}

/// Left, top, width and height.
#[tactic(auto, unfolding(crate::specs::Words::rect_text), using(crate::proofs::Joining::joining))]
fn push_rect(out: &mut String, r: &Rect) -> Result<(), AllocError>
    ensures { OnOk result (string_bytes out.new ≡ string_bytes out.old ++ words.rect_text r.now) }
{
    let x = r.x();
    let y = r.y();
    let w = r.w();
    let h = r.h();
    write!(out, "{x} {y} {w} {h}")
}

/// The visible rectangle, and the outer and the inner one of the shape.
#[tactic(auto, unfolding(crate::specs::Words::shape_text), using(crate::proofs::Joining::joining))]
pub(crate) fn push_shape(out: &mut String, visible: &Rect, shape: &Shape) -> Result<(), AllocError>
    ensures { OnOk result (string_bytes out.new ≡ string_bytes out.old ++ words.shape_text visible.now shape.now) }
{
    push_rect(out, visible)?;
    out.push_str(" ")?;
    push_rect(out, &shape.outer)?;
    out.push_str(" ")?;
    push_rect(out, &shape.inner)
}
