//! The parts of entries, read from the front of some bytes.
ghost use Rattle.std.specs.Prelude.{◌≡◌, option_map};
ghost use Rattle.std.specs.Int.{w16, w32, w64};
ghost use Rattle.rd_wire.specs.Internal.Reading.{byte_at, number_at, whole_at, rect_at, key_at, part_at, mode_at, flag_at, color_at, placed};

use rd_geom::{Blend, Color, Rect};
use rd_keys::{BoxKey, Part};

/// A byte, and the bytes after it.
pub(crate) fn byte(bytes: &[u8]) -> Option<(u8, &[u8])>
    ensures { option_map (λ x. (x.0, x.1.now)) result ≡ byte_at bytes.now }
{
    match bytes {
        [] => None,
        [first, rest @ ..] => Some((*first, rest)),
    }
}

/// A number of 16 bits, the greatest byte first.
#[tactic(auto, unfolding(crate::specs::Internal::Reading::number_at))]
pub(crate) fn u16_at(bytes: &[u8]) -> Option<(u16, &[u8])>
    ensures { option_map (λ x. (x.0, x.1.now)) result ≡ number_at w16 bytes.now }
{
    if bytes.len() < 2 {
        return None;
    }
    let (front, rest) = bytes.split_at(2);
    Some((u16::from_be_bytes([front[0], front[1]]), rest))
}

/// A number of 32 bits.
#[tactic(auto, unfolding(crate::specs::Internal::Reading::number_at))]
pub(crate) fn u32_at(bytes: &[u8]) -> Option<(u32, &[u8])>
    ensures { option_map (λ x. (x.0, x.1.now)) result ≡ number_at w32 bytes.now }
{
    if bytes.len() < 4 {
        return None;
    }
    let (front, rest) = bytes.split_at(4);
    let number = u32::from_be_bytes([front[0], front[1], front[2], front[3]]);
    Some((number, rest))
}

/// A number of 64 bits.
#[tactic(auto, unfolding(crate::specs::Internal::Reading::number_at))]
pub(crate) fn u64_at(bytes: &[u8]) -> Option<(u64, &[u8])>
    ensures { option_map (λ x. (x.0, x.1.now)) result ≡ number_at w64 bytes.now }
{
    if bytes.len() < 8 {
        return None;
    }
    let (front, rest) = bytes.split_at(8);
    let number = u64::from_be_bytes([
        front[0], front[1], front[2], front[3], front[4], front[5], front[6], front[7],
    ]);
    Some((number, rest))
}

/// A number of 32 bits in two's complement.
#[tactic(auto, unfolding(crate::specs::Internal::Reading::whole_at))]
fn i32_at(bytes: &[u8]) -> Option<(i32, &[u8])>
    ensures { option_map (λ x. (x.0, x.1.now)) result ≡ whole_at bytes.now }
{
    let (number, rest) = u32_at(bytes)?;
    Some((number.cast_signed(), rest))
}

fn placed(x: i32, y: i32, w: i32, h: i32) -> Option<Rect>
    ensures { result ≡ placed ((x, y), (w, h)) }
{
    Rect::new(x, y, w, h)
}

/// A rectangle within the limits of `Rect::new`.
#[tactic(auto, unfolding(crate::specs::Internal::Reading::rect_at))]
pub(crate) fn rect(bytes: &[u8]) -> Option<(Rect, &[u8])>
    ensures { option_map (λ x. (x.0, x.1.now)) result ≡ rect_at bytes.now }
{
    let (x, rest) = i32_at(bytes)?;
    let (y, rest) = i32_at(rest)?;
    let (w, rest) = i32_at(rest)?;
    let (h, rest) = i32_at(rest)?;
    let rect = placed(x, y, w, h)?;
    Some((rect, rest))
}

/// The key of a box.
#[tactic(auto, unfolding(crate::specs::Internal::Reading::key_at))]
pub(crate) fn key(bytes: &[u8]) -> Option<(BoxKey, &[u8])>
    ensures { option_map (λ x. (x.0, x.1.now)) result ≡ key_at bytes.now }
{
    let (slot, rest) = u32_at(bytes)?;
    let (generation, rest) = u32_at(rest)?;
    Some((BoxKey::new(slot, generation), rest))
}

/// Which part of a box.
#[tactic(auto, unfolding(crate::specs::Internal::Reading::part_at))]
pub(crate) fn part(bytes: &[u8]) -> Option<(Part, &[u8])>
    ensures { option_map (λ x. (x.0, x.1.now)) result ≡ part_at bytes.now }
{
    let (number, rest) = byte(bytes)?;
    match number {
        0 => Some((Part::Back, rest)),
        1 => Some((Part::Border, rest)),
        2 => Some((Part::Content, rest)),
        3 => Some((Part::Outline, rest)),
        _ => None,
    }
}

/// A blend mode (CSS Compositing 1 section 3.4.1).
#[tactic(auto, unfolding(crate::specs::Internal::Reading::mode_at))]
pub(crate) fn mode(bytes: &[u8]) -> Option<(Blend, &[u8])>
    ensures { option_map (λ x. (x.0, x.1.now)) result ≡ mode_at bytes.now }
{
    let (number, rest) = byte(bytes)?;
    match number {
        0 => Some((Blend::Normal, rest)),
        1 => Some((Blend::Multiply, rest)),
        2 => Some((Blend::Screen, rest)),
        3 => Some((Blend::Darken, rest)),
        4 => Some((Blend::Lighten, rest)),
        _ => None,
    }
}

/// Yes or no.
#[tactic(auto, unfolding(crate::specs::Internal::Reading::flag_at))]
pub(crate) fn flag(bytes: &[u8]) -> Option<(bool, &[u8])>
    ensures { option_map (λ x. (x.0, x.1.now)) result ≡ flag_at bytes.now }
{
    let (number, rest) = byte(bytes)?;
    match number {
        0 => Some((false, rest)),
        1 => Some((true, rest)),
        _ => None,
    }
}

/// A colour, not premultiplied.
#[tactic(auto, unfolding(crate::specs::Internal::Reading::color_at))]
pub(crate) fn color(bytes: &[u8]) -> Option<(Color, &[u8])>
    ensures { option_map (λ x. (x.0, x.1.now)) result ≡ color_at bytes.now }
{
    let (r, rest) = byte(bytes)?;
    let (g, rest) = byte(rest)?;
    let (b, rest) = byte(rest)?;
    let (a, rest) = byte(rest)?;
    Some((Color { r, g, b, a }, rest))
}
