//! The words of a dump's lines.
ghost use Rattle.std.specs.Prelude.{◌≡◌, ◌≤◌, ◌<◌, length, option_map, take, drop, true};
ghost use Rattle.rd_check.specs.Internal.Reading as read;

use itoa::Buffer;
use rd_geom::{Blend, Color};
use rd_keys::Part;

fn is_gap(b: u8) -> bool
    ensures { result ≡ read.is_gap b }
{
    b == b' ' || b == b'\n'
}

/// How many bytes stand before the first gap, or before the end.
fn word_len(bytes: &[u8]) -> usize
    ensures within { result ≤ length bytes.now }
    ensures len { result ≡ read.word_len bytes.now }
{
    let mut len = 0;
    while len < bytes.len() && !is_gap(bytes[len]) {
        len += 1;
    }
    len
}

/// The bytes before the first gap, which is this one, and those after it.
pub(crate) fn word_before(gap: u8, bytes: &[u8]) -> Option<(&[u8], &[u8])>
    ensures { option_map (λ x. (x.0.now, x.1.now)) result ≡ read.word_before gap bytes.now }
{
    let (word, rest) = bytes.split_at(word_len(bytes));
    match rest {
        [b, rest @ ..] if *b == gap => Some((word, rest)),
        _ => None,
    }
}

/// The number whose decimal digits a word is.
pub(crate) fn number_of(word: &[u8]) -> Option<u64>
    ensures { result ≡ read.number_of word.now }
{
    let Ok(text) = std::str::from_utf8(word) else {
        return None;
    };
    let Ok(number) = text.parse::<u64>() else {
        return None;
    };
    let mut digits = Buffer::new();
    if digits.format(number).as_bytes() == word {
        Some(number)
    } else {
        None
    }
}

fn negative(number: Option<u64>) -> Option<i32>
    ensures { result ≡ read.negative number }
{
    match number {
        Some(n) if 0 < n && n <= 2_000_000_000 => Some(-(n as i32)),
        _ => None,
    }
}

fn positive(number: Option<u64>) -> Option<i32>
    ensures { result ≡ read.positive number }
{
    match number {
        Some(n) if n <= 2_000_000_000 => Some(n as i32),
        _ => None,
    }
}

/// The number whose decimal digits a word is, with a minus before them where it is below 0.
pub(crate) fn signed_of(word: &[u8]) -> Option<i32>
    ensures { result ≡ read.signed_of word.now }
{
    match word {
        [] => None,
        [b'-', digits @ ..] => negative(number_of(digits)),
        _ => positive(number_of(word)),
    }
}

/// The part that a word names.
pub(crate) fn part_of(word: &[u8]) -> Option<Part>
    ensures { result ≡ read.part_of word.now }
{
    if word == b"back".as_slice() {
        Some(Part::Back)
    } else if word == b"border".as_slice() {
        Some(Part::Border)
    } else if word == b"content".as_slice() {
        Some(Part::Content)
    } else if word == b"outline".as_slice() {
        Some(Part::Outline)
    } else {
        None
    }
}

/// Whether a word says that hits are taken.
pub(crate) fn pointer_of(word: &[u8]) -> Option<bool>
    ensures { result ≡ read.pointer_of word.now }
{
    if word == b"auto".as_slice() {
        Some(true)
    } else if word == b"none".as_slice() {
        Some(false)
    } else {
        None
    }
}

/// The blend mode that a word names. A dump does not name the normal one.
pub(crate) fn mode_of(word: &[u8]) -> Option<Blend>
    ensures { result ≡ read.mode_of word.now }
{
    if word == b"multiply".as_slice() {
        Some(Blend::Multiply)
    } else if word == b"screen".as_slice() {
        Some(Blend::Screen)
    } else if word == b"darken".as_slice() {
        Some(Blend::Darken)
    } else if word == b"lighten".as_slice() {
        Some(Blend::Lighten)
    } else {
        None
    }
}

fn digit_of(c: u8) -> Option<u8>
    ensures { result ≡ read.digit_of c }
{
    match c {
        b'0'..=b'9' => Some(c - b'0'),
        b'a'..=b'f' => Some(c - 87),
        _ => None,
    }
}

fn hex_of(a: u8, b: u8) -> Option<u8>
    ensures { result ≡ read.hex_of a b }
{
    let high = digit_of(a)?;
    let low = digit_of(b)?;
    Some(high * 16 + low)
}

/// The colour of eight hexadecimal digits: red, green, blue, alpha.
pub(crate) fn color_of(word: &[u8]) -> Option<Color>
    ensures { result ≡ read.color_of word.now }
{
    match word {
        [a, b, c, d, e, f, g, h] => Some(Color {
            r: hex_of(*a, *b)?,
            g: hex_of(*c, *d)?,
            b: hex_of(*e, *f)?,
            a: hex_of(*g, *h)?,
        }),
        _ => None,
    }
}
