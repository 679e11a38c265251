//! The fields of a dump's lines, each with the gap after it.
ghost use Rattle.std.specs.Prelude.{◌≡◌, option_map};
ghost use Rattle.rd_check.specs.Internal.Reading as read;
ghost use Rattle.rd_check.specs.Internal.Reading.{field, Gives};
ghost use Rattle.rd_check.specs.Internal.Rows as rows;

use crate::fault::CheckFault;
use crate::words::{color_of, mode_of, number_of, part_of, pointer_of, signed_of, word_before};
use rd_geom::{Blend, Color, Rect};
use rd_keys::Part;
use rd_tree::{Id, IdFault};
use std::alloc::Global;

pub(crate) fn number_before(gap: u8, bytes: &[u8]) -> Option<(u64, &[u8])>
    ensures { option_map (λ x. (x.0, x.1.now)) result ≡ field read.number_of gap bytes.now }
{
    let (word, rest) = word_before(gap, bytes)?;
    Some((number_of(word)?, rest))
}

fn byte_of(word: &[u8]) -> Option<u8>
    ensures { result ≡ read.byte_of word.now }
{
    let number = number_of(word)?;
    if number < 256 {
        Some(number as u8)
    } else {
        None
    }
}

pub(crate) fn byte_before(gap: u8, bytes: &[u8]) -> Option<(u8, &[u8])>
    ensures { option_map (λ x. (x.0, x.1.now)) result ≡ field read.byte_of gap bytes.now }
{
    let (word, rest) = word_before(gap, bytes)?;
    Some((byte_of(word)?, rest))
}

fn signed_before(gap: u8, bytes: &[u8]) -> Option<(i32, &[u8])>
    ensures { option_map (λ x. (x.0, x.1.now)) result ≡ field read.signed_of gap bytes.now }
{
    let (word, rest) = word_before(gap, bytes)?;
    Some((signed_of(word)?, rest))
}

pub(crate) fn part_before(gap: u8, bytes: &[u8]) -> Option<(Part, &[u8])>
    ensures { option_map (λ x. (x.0, x.1.now)) result ≡ field read.part_of gap bytes.now }
{
    let (word, rest) = word_before(gap, bytes)?;
    Some((part_of(word)?, rest))
}

pub(crate) fn color_before(gap: u8, bytes: &[u8]) -> Option<(Color, &[u8])>
    ensures { option_map (λ x. (x.0, x.1.now)) result ≡ field read.color_of gap bytes.now }
{
    let (word, rest) = word_before(gap, bytes)?;
    Some((color_of(word)?, rest))
}

pub(crate) fn pointer_before(gap: u8, bytes: &[u8]) -> Option<(bool, &[u8])>
    ensures { option_map (λ x. (x.0, x.1.now)) result ≡ field read.pointer_of gap bytes.now }
{
    let (word, rest) = word_before(gap, bytes)?;
    Some((pointer_of(word)?, rest))
}

fn mode_before(gap: u8, bytes: &[u8]) -> Option<(Blend, &[u8])>
    ensures { option_map (λ x. (x.0, x.1.now)) result ≡ field read.mode_of gap bytes.now }
{
    let (word, rest) = word_before(gap, bytes)?;
    Some((mode_of(word)?, rest))
}

/// The number of entries of a group and its blend mode, which is named after the number where it is not normal.
#[tactic(auto, unfolding(crate::specs::Internal::Rows::ending_at))]
pub(crate) fn ending_at(bytes: &[u8]) -> Option<(u64, Blend, &[u8])>
    ensures { option_map (λ x. ((x.0, x.1), x.2.now)) result ≡ rows.ending_at bytes.now }
{
    if let Some((entries, rest)) = number_before(b'\n', bytes) {
        return Some((entries, Blend::Normal, rest));
    }
    let (entries, rest) = number_before(b' ', bytes)?;
    let (mode, rest) = mode_before(b'\n', rest)?;
    Some((entries, mode, rest))
}

/// The rectangle of these numbers, where they are one.
#[tactic(auto, using(crate::proofs::Placed::placing))]
fn placed_rect(x: i32, y: i32, w: i32, h: i32) -> Option<Rect>
    ensures { result ≡ rows.placed_rect (record { x = x; y = y; w = w; h = h }) }
{
    Rect::new(x, y, w, h)
}

/// Four numbers that are a rectangle.
#[tactic(auto, unfolding(crate::specs::Internal::Rows::rect_at))]
pub(crate) fn rect_before(gap: u8, bytes: &[u8]) -> Option<(Rect, &[u8])>
    ensures { option_map (λ x. (x.0, x.1.now)) result ≡ rows.rect_at gap bytes.now }
{
    let (x, rest) = signed_before(b' ', bytes)?;
    let (y, rest) = signed_before(b' ', rest)?;
    let (w, rest) = signed_before(b' ', rest)?;
    let (h, rest) = signed_before(gap, rest)?;
    let rect = placed_rect(x, y, w, h)?;
    Some((rect, rest))
}

fn id_of(alloc: Global, word: &[u8]) -> Result<Id, CheckFault>
    ensures { Gives (λ i. i) result (read.id_word word.now) }
{
    let Ok(text) = std::str::from_utf8(word) else {
        return Err(CheckFault::Dump);
    };
    match Id::new(alloc, text) {
        Ok(id) => Ok(id),
        Err(IdFault::Form) => Err(CheckFault::Dump),
        Err(IdFault::NoMemory) => Err(CheckFault::NoMemory),
    }
}

pub(crate) fn id_before(alloc: Global, gap: u8, bytes: &[u8]) -> Result<(Id, &[u8]), CheckFault>
    ensures { Gives (λ x. (x.0, x.1.now)) result (field read.id_word gap bytes.now) }
{
    let (word, rest) = word_before(gap, bytes).ok_or(CheckFault::Dump)?;
    Ok((id_of(alloc, word)?, rest))
}
