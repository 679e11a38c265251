//! Colours as a script writes them (CSS Color 3 section 4).

ghost use Rattle.std.specs.Prelude.{◌≡◌};
ghost use Rattle.serde_json.specs.View.{view};
ghost use Rattle.rd_scene.specs.Colors as spec;

use crate::fault::Why;
use crate::members::string;
use rd_geom::Color;
use serde_json::Value;

fn hex_digit(c: u8) -> Option<u8>
    ensures { result ≡ spec.hex_digit c }
{
    match c {
        b'0'..=b'9' => Some(c - b'0'),
        b'a'..=b'f' => Some(c - b'a' + 10),
        b'A'..=b'F' => Some(c - b'A' + 10),
        _ => None,
    }
}

#[tactic(auto, unfolding(crate::specs::Colors::hex_byte))]
fn hex_byte(c: u8, d: u8) -> Option<u8>
    ensures { result ≡ spec.hex_byte c d }
{
    let high = hex_digit(c)?;
    let low = hex_digit(d)?;
    Some(16 * high + low)
}

#[tactic(auto, unfolding(crate::specs::Colors::rgb))]
fn rgb(red: (u8, u8), green: (u8, u8), blue: (u8, u8), a: u8) -> Option<Color>
    ensures { result ≡ spec.rgb red.0 red.1 green.0 green.1 blue.0 blue.1 a }
{
    let r = hex_byte(red.0, red.1)?;
    let g = hex_byte(green.0, green.1)?;
    let b = hex_byte(blue.0, blue.1)?;
    Some(Color { r, g, b, a })
}

#[tactic(auto, unfolding(crate::specs::Colors::hashed))]
fn hashed(word: &[u8]) -> Option<Color>
    ensures { result ≡ spec.hashed word.now }
{
    match word {
        [b'#', c, d, e, f, g, h] => rgb((*c, *d), (*e, *f), (*g, *h), 255),
        [b'#', c, d, e, f, g, h, i, j] => {
            let a = hex_byte(*i, *j)?;
            rgb((*c, *d), (*e, *f), (*g, *h), a)
        }
        _ => None,
    }
}

fn named_color(word: &str) -> Option<Color>
    ensures { result ≡ spec.named_color word.now }
{
    if word == "transparent" {
        Some(Color::TRANSPARENT)
    } else {
        hashed(word.as_bytes())
    }
}

/// `transparent`, or `#` and six or eight digits.
pub(crate) fn color_of(v: &Value) -> Result<Color, Why>
    ensures { result ≡ (spec.color_of (view v.now)).first }
{
    let word = string(v)?;
    match named_color(word) {
        Some(color) => Ok(color),
        None => Err(Why::Color),
    }
}

/// The colour of a box's content, or `null` for none.
pub(crate) fn content_of(v: &Value) -> Result<Option<Color>, Why>
    ensures { result ≡ (spec.content_of (view v.now)).first }
{
    if v.is_null() {
        return Ok(None);
    }
    let color = color_of(v)?;
    Ok(Some(color))
}
