//! Wires, read from bytes.
ghost use Rattle.std.specs.Prelude.{◌≡◌, option_map, IfSome};
ghost use Rattle.rd_geom.specs.Canvas.{IsCanvas};
ghost use Rattle.rd_wire.specs.Internal.Listed.{one_of};
ghost use Rattle.rd_wire.specs.Internal.LevelReading.{entry_at, one_at, group_one_at, inside_at, level_at, entries_at, letters_at, size_at, list_at, wire_at, is_nil, whole_wire, is_side, size_of};
ghost use Rattle.rd_wire.specs.Internal.Gives.{Gives};

use crate::fault::WireFault;
use crate::fields::{byte, u16_at, u32_at};
use crate::groups::{MAX_GROUPS, head};
use crate::leaves::leaf;
use crate::wire::{Wire, WireEntry, WireList};
use rd_geom::{MAX_CANVAS_SIDE, Rect, Size};
use std::alloc::Global;

/// A leaf, or a group in which so many groups may stand round an entry, this one too.
#[cycle(reading)]
#[tactic(auto, unfolding(crate::specs::Internal::LevelReading::entry_at))]
fn entry(
    alloc: Global,
    canvas: Rect,
    groups: u32,
    bytes: &[u8],
) -> Result<(WireEntry, &[u8]), WireFault>
    ensures { Gives (λ x. (one_of x.0, x.1.now)) result (entry_at canvas (inside_at canvas groups) bytes.now) }
{
    let Some((first, rest)) = byte(bytes) else {
        return Err(WireFault::Form);
    };
    behind(alloc, canvas, groups, first, rest)
}

/// The rest of an entry, behind its first byte.
#[cycle(reading)]
#[tactic(auto, unfolding(crate::specs::Internal::LevelReading::one_at))]
fn behind(
    alloc: Global,
    canvas: Rect,
    groups: u32,
    first: u8,
    bytes: &[u8],
) -> Result<(WireEntry, &[u8]), WireFault>
    ensures { Gives (λ x. (one_of x.0, x.1.now)) result (one_at canvas (inside_at canvas groups) first bytes.now) }
{
    match first {
        1 => leaf(canvas, bytes).ok_or(WireFault::Form),
        2 => group(alloc, canvas, groups, bytes),
        _ => Err(WireFault::Form),
    }
}

/// A group, behind its first byte.
#[cycle(reading)]
#[tactic(auto, unfolding(crate::specs::Internal::LevelReading::group_one_at))]
fn group(
    alloc: Global,
    canvas: Rect,
    groups: u32,
    bytes: &[u8],
) -> Result<(WireEntry, &[u8]), WireFault>
    ensures { Gives (λ x. (one_of x.0, x.1.now)) result (group_one_at (inside_at canvas groups) bytes.now) }
{
    let Some(((key, (opacity, blend)), rest)) = head(bytes) else {
        return Err(WireFault::Form);
    };
    match inside(alloc, canvas, groups, rest) {
        Ok((inner, rest)) => Ok((
            WireEntry::Group {
                key,
                opacity,
                blend,
                inner,
            },
            rest,
        )),
        Err(fault) => Err(fault),
    }
}

/// The list of a group, which has an entry.
#[cycle(reading)]
#[tactic(auto, unfolding(crate::specs::Internal::LevelReading::inside_at))]
fn inside(
    alloc: Global,
    canvas: Rect,
    groups: u32,
    bytes: &[u8],
) -> Result<(WireList, &[u8]), WireFault>
    ensures { Gives (λ x. (x.0, x.1.now)) result (inside_at canvas groups bytes.now) }
{
    if groups == 0 {
        return Err(WireFault::Form);
    }
    match level(alloc, canvas, groups - 1, bytes) {
        Ok((list, rest)) => {
            if list.is_empty() {
                Err(WireFault::Form)
            } else {
                Ok((list, rest))
            }
        }
        Err(fault) => Err(fault),
    }
}

/// A list, behind the number of its entries.
#[cycle(reading)]
#[tactic(auto, unfolding(crate::specs::Internal::LevelReading::level_at))]
fn level(
    alloc: Global,
    canvas: Rect,
    groups: u32,
    bytes: &[u8],
) -> Result<(WireList, &[u8]), WireFault>
    ensures { Gives (λ x. (x.0, x.1.now)) result (level_at canvas (inside_at canvas groups) bytes.now) }
{
    let Some((count, rest)) = u32_at(bytes) else {
        return Err(WireFault::Form);
    };
    entries(alloc, canvas, groups, count, rest)
}

/// So many entries. Memory is taken for those that are there, and not for those that are said to come.
#[cycle(reading)]
fn entries(
    alloc: Global,
    canvas: Rect,
    groups: u32,
    count: u32,
    bytes: &[u8],
) -> Result<(WireList, &[u8]), WireFault>
    ensures { Gives (λ x. (x.0, x.1.now)) result (entries_at canvas (inside_at canvas groups) count bytes.now) }
{
    let mut entries = Vec::new(alloc);
    let mut rest = bytes;
    for _ in 0..count {
        match entry(alloc, canvas, groups, rest) {
            Ok((entry, after)) => {
                entries.push(entry)?;
                rest = after;
            }
            Err(fault) => return Err(fault),
        }
    }
    Ok((WireList { entries }, rest))
}

/// What stands behind the letters RDL1.
#[tactic(auto, unfolding(crate::specs::Internal::LevelReading::letters_at))]
fn letters(bytes: &[u8]) -> Option<&[u8]>
    ensures { option_map (λ x. (tt, x.now)) result ≡ letters_at bytes.now }
{
    match bytes {
        [b'R', b'D', b'L', b'1', rest @ ..] => Some(rest),
        _ => None,
    }
}

fn is_side(n: u16) -> bool
    ensures { result ≡ is_side n }
{
    1 <= n && n as i32 <= MAX_CANVAS_SIDE
}

/// A canvas of this width and height, which are from 1 to `MAX_CANVAS_SIDE`.
fn canvas_size(w: u16, h: u16) -> Option<Size>
    ensures value { result ≡ size_of (w, h) }
    ensures canvas { IfSome result IsCanvas }
{
    if is_side(w) && is_side(h) {
        Some(Size {
            w: w as i32,
            h: h as i32,
        })
    } else {
        None
    }
}

/// The size of a canvas.
#[tactic(auto, unfolding(crate::specs::Internal::LevelReading::size_at))]
fn size(bytes: &[u8]) -> Option<(Size, &[u8])>
    ensures value { option_map (λ x. (x.0, x.1.now)) result ≡ size_at bytes.now }
    ensures canvas { IfSome result (λ x. IsCanvas x.0) }
{
    let (w, rest) = u16_at(bytes)?;
    let (h, rest) = u16_at(rest)?;
    let size = canvas_size(w, h)?;
    Some((size, rest))
}

/// The list of a canvas.
#[tactic(auto, unfolding(crate::specs::Internal::LevelReading::list_at))]
fn list(alloc: Global, size: Size, bytes: &[u8]) -> Result<(WireList, &[u8]), WireFault>
    requires { IsCanvas size }
    ensures { Gives (λ x. (x.0, x.1.now)) result (list_at size bytes.now) }
{
    level(alloc, size.rect(), MAX_GROUPS, bytes)
}

/// The wire at the front, whatever the names of its entries are.
#[tactic(auto, unfolding(crate::specs::Internal::LevelReading::wire_at))]
fn front(alloc: Global, bytes: &[u8]) -> Result<(Wire, &[u8]), WireFault>
    ensures { Gives (λ x. (x.0, x.1.now)) result (wire_at bytes.now) }
{
    let Some(rest) = letters(bytes) else {
        return Err(WireFault::Form);
    };
    let Some((size, rest)) = size(rest) else {
        return Err(WireFault::Form);
    };
    match list(alloc, size, rest) {
        Ok((list, rest)) => Ok((Wire { size, list }, rest)),
        Err(fault) => Err(fault),
    }
}

fn is_nil(bytes: &[u8]) -> bool
    ensures { result ≡ is_nil bytes.now }
{
    match bytes {
        [] => true,
        [_, ..] => false,
    }
}

/// The wire that all of the bytes spell, whatever the names of its entries are.
#[tactic(auto, unfolding(crate::specs::Internal::LevelReading::whole_wire))]
pub(crate) fn read(alloc: Global, bytes: &[u8]) -> Result<Wire, WireFault>
    ensures { Gives (λ w. w) result (whole_wire bytes.now) }
{
    match front(alloc, bytes) {
        Ok((wire, rest)) => {
            if is_nil(rest) {
                Ok(wire)
            } else {
                Err(WireFault::Form)
            }
        }
        Err(fault) => Err(fault),
    }
}
